//! Whether two edges share a point, in whole numbers.

ghost use Rattle.std.specs.Prelude.{MatchBool};
ghost use Rattle.plane.specs.Meet.Boxes.{RangesMeet, BoxesMeet};
ghost use Rattle.plane.specs.Meet.Crosses.{IsPart};
ghost use Rattle.plane.specs.Meet.Edges.{Meet};

use crate::edge::Edge;
use crate::vectors::{cross_product, vector_along, vector_between_starts};

/// Whether the edges share a point. Both ends of an edge are of it, and an edge may be a point; nothing is rounded.
///
/// By Cramer's rule: with the one's vector u, the other's vector v and the vector w between their starts, the lines meet at
/// the share `w x v / u x v` of the one and at the share `w x u / u x v` of the other. Parallel edges meet where
/// these three cross products are 0, so that both lie along one line, and their boxes meet.
pub fn meet(one: Edge, other: Edge) -> bool
    ensures { MatchBool result (Meet one other) (¬ (Meet one other)) }
{
    let one_way = vector_along(one);
    let other_way = vector_along(other);
    let between = vector_between_starts(one, other);
    let whole = cross_product(one_way, other_way);
    if !is_part(cross_product(between, other_way), whole) {
        return false;
    }
    if !is_part(cross_product(between, one_way), whole) {
        return false;
    }
    if whole != 0 {
        return true;
    }
    boxes_meet(one, other)
}

/// Whether the part lies between 0 and the whole. All four comparisons are made, since a branch between them would be
/// guessed wrongly half of the time.
fn is_part(part: i128, whole: i128) -> bool
    ensures { MatchBool result (IsPart part whole) (¬ (IsPart part whole)) }
{
    ((0 <= part) & (part <= whole)) | ((whole <= part) & (part <= 0))
}

/// Whether the boxes of the edges meet.
fn boxes_meet(one: Edge, other: Edge) -> bool
    ensures { MatchBool result (BoxesMeet one other) (¬ (BoxesMeet one other)) }
{
    if !ranges_meet(one.x0, one.x1, other.x0, other.x1) {
        return false;
    }
    ranges_meet(one.y0, one.y1, other.y0, other.y1)
}

/// Whether some number lies between both the first two numbers and the last two.
fn ranges_meet(start: i32, end: i32, other_start: i32, other_end: i32) -> bool
    ensures { let meet = RangesMeet start end other_start other_end in
        MatchBool result meet (¬ meet) }
{
    start.min(end) <= other_start.max(other_end) && other_start.min(other_end) <= start.max(end)
}
