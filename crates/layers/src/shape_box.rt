//! `ShapeBox`: the box of a shape, as an item that meets those whose boxes share a point with it.

ghost use Rattle.plane.specs.Pairs.Bounds.{BoundsMeet, IsBox};

use plane::pairs::boxes::boxes_meet;
use plane::pairs::items::{Bounds, Boxed, Meets};

/// The box of a shape that has points, and the place of that shape.
#[derive(Clone, Copy)]
pub struct ShapeBox {
    pub place: usize,
    pub bounds: Bounds,
    ghost proper: { IsBox bounds },
}

impl Boxed for ShapeBox {
    ghost bounds = { λ it. it.bounds };

    fn bounds(self) -> Bounds {
        self.bounds
    }
}

impl Meets<ShapeBox> for ShapeBox {
    ghost Meeting = { λ it other. BoundsMeet it.bounds other.bounds };

    fn meets(self, other: ShapeBox) -> bool {
        boxes_meet(self.bounds, other.bounds)
    }
}
