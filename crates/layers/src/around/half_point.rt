//! `HalfPoint`: a point whose coordinates are whole numbers or lie in the middle between two.

ghost use Rattle.std.specs.Prelude.{◌^◌};
ghost use Rattle.plane.specs.Meet.Crosses.{IsWithin};

/// A point whose coordinates are halves of whole numbers, by twice each. Such is the middle of an edge.
#[derive(Clone, Copy, Debug)]
pub struct HalfPoint {
    pub twice_x: i64,
    pub twice_y: i64,
    ghost x_within: { IsWithin (2 ^ 32) twice_x },
    ghost y_within: { IsWithin (2 ^ 32) twice_y },
}
