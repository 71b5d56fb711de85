//! Edges and points as items with a box. Two edges meet where they share a point.

ghost use Rattle.plane.specs.Meet.Boxes.{bounds_of};
ghost use Rattle.plane.specs.Meet.Edges.{Meet};

use super::exact::meet;
use crate::edge::Edge;
use crate::pairs::items::{Bounds, Boxed, Meets};
use crate::point::Point;

impl Boxed for Edge {
    ghost bounds = { bounds_of };

    fn bounds(self) -> Bounds {
        Bounds {
            left: self.x0.min(self.x1),
            right: self.x0.max(self.x1),
            low: self.y0.min(self.y1),
            high: self.y0.max(self.y1),
        }
    }
}

impl Boxed for Point {
    ghost bounds = { λ it. record { left = it.x; right = it.x; low = it.y; high = it.y } };

    fn bounds(self) -> Bounds {
        Bounds {
            left: self.x,
            right: self.x,
            low: self.y,
            high: self.y,
        }
    }
}

impl Meets<Edge> for Edge {
    ghost Meeting = { Meet };

    fn meets(self, other: Edge) -> bool {
        meet(self, other)
    }
}
