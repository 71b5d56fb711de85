//! Whether two edges cross, by their heights at the two ends of the x's that both span.

ghost use Rattle.std.specs.Prelude.{MatchBool};
ghost use Rattle.plane.specs.SweepLine.Crossings.{Cross, AreOpposite};

use super::heights::{compare_ends, compare_starts, turn_rightwards};
use crate::edge::Edge;
use std::cmp::Ordering;

/// Whether at some whole x that both edges span the one is below the other, and at another above it. Edges that touch,
/// end on each other or lie along one line don't cross; nothing is rounded.
///
/// The difference of two heights is linear along x. So they cross exactly where their heights differ in opposite ways
/// at the two ends of the x's that both span. A vertical edge or a point crosses nothing.
pub fn cross(one: Edge, other: Edge) -> bool
    ensures { MatchBool result (Cross one other) (¬ (Cross one other)) }
{
    let right = turn_rightwards(one);
    let other_right = turn_rightwards(other);
    if right.x1 <= right.x0 {
        return false;
    }
    if other_right.x1 <= other_right.x0 {
        return false;
    }
    let first = right.x0.max(other_right.x0);
    let last = right.x1.min(other_right.x1);
    if last < first {
        return false;
    }
    let at_first = compare_starts(right, other_right);
    let at_last = compare_ends(right, other_right);
    are_opposite(at_first, at_last)
}

/// Whether the one says less and the other greater.
fn are_opposite(one: Ordering, other: Ordering) -> bool
    ensures { MatchBool result (AreOpposite one other) (¬ (AreOpposite one other)) }
{
    match one {
        Ordering::Less => other == Ordering::Greater,
        Ordering::Equal => false,
        Ordering::Greater => other == Ordering::Less,
    }
}
