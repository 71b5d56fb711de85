//! When two boxes meet, and a box around both.

ghost use Rattle.std.specs.Prelude.{◌≤ℤ◌, MatchBool};
ghost use Rattle.plane.specs.Pairs.Bounds.{BoundsMeet, IsWithinBox};

use super::items::Bounds;

/// Whether the boxes share a point. Boxes that only touch do, as their sides are of them.
///
/// All comparisons are made, since a branch between them would be guessed wrongly often.
pub fn boxes_meet(one: Bounds, other: Bounds) -> bool
    ensures { MatchBool result (BoundsMeet one other) (¬ (BoundsMeet one other)) }
{
    columns_meet(one, other) & rows_meet(one, other)
}

/// Whether the boxes share an x.
pub(super) fn columns_meet(one: Bounds, other: Bounds) -> bool
    ensures { let meet = (one.left ≤ℤ other.right) × (other.left ≤ℤ one.right) in MatchBool result meet (¬ meet) }
{
    (one.left <= other.right) & (other.left <= one.right)
}

/// Whether they share a y.
pub(super) fn rows_meet(one: Bounds, other: Bounds) -> bool
    ensures { let meet = (one.low ≤ℤ other.high) × (other.low ≤ℤ one.high) in MatchBool result meet (¬ meet) }
{
    (one.low <= other.high) & (other.low <= one.high)
}

/// The least box with both within it.
pub fn join_boxes(one: Bounds, other: Bounds) -> Bounds
    ensures one { IsWithinBox one result }
    ensures other { IsWithinBox other result }
{
    Bounds {
        left: one.left.min(other.left),
        right: one.right.max(other.right),
        low: one.low.min(other.low),
        high: one.high.max(other.high),
    }
}
