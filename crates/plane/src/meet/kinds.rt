//! How two edges meet: apart, in one point or in more.

ghost use Rattle.std.specs.Prelude.{◌≡◌, MatchBool, pos};
ghost use Rattle.plane.specs.Meet.Edges.{Meet};
ghost use Rattle.plane.specs.Meet.Kinds.{MeetSo, ShareTwo, ShareAtMostOne, HasPoint, HasEndOf, RangesOverlap};

use super::exact::meet;
use crate::edge::Edge;
use crate::vectors::{cross_product, vector_along};

/// How two edges meet.
#[derive(Clone, Copy, Debug, PartialEq, Eq)]
pub enum Meeting {
    /// They share no point.
    Apart,
    /// They share one point alone, and it is an end of one of them or of both.
    Touch,
    /// They share one point alone, and it is an end of neither.
    Cross,
    /// They share more than one point: a whole stretch of a line.
    Share,
}

/// How the edges meet. Both ends of an edge are of it, an edge may be a point, and nothing is rounded.
pub fn how_they_meet(one: Edge, other: Edge) -> Meeting
    ensures { MeetSo one other result }
{
    if !meet(one, other) {
        return Meeting::Apart;
    }
    if share_two(one, other) {
        return Meeting::Share;
    }
    if has_end_of(one, other) {
        return Meeting::Touch;
    }
    if has_end_of(other, one) {
        return Meeting::Touch;
    }
    Meeting::Cross
}

/// Whether edges that meet share more than one point: they are parallel, and their boxes share more than a point.
fn share_two(one: Edge, other: Edge) -> bool
    requires { Meet one other }
    ensures { MatchBool result (ShareTwo one other) (ShareAtMostOne one other) }
{
    let whole = cross_product(vector_along(one), vector_along(other));
    if whole != 0 {
        return false;
    }
    if ranges_overlap(one.x0, one.x1, other.x0, other.x1) {
        return true;
    }
    ranges_overlap(one.y0, one.y1, other.y0, other.y1)
}

/// Whether more than one number lies between both the first two numbers and the last two.
fn ranges_overlap(start: i32, end: i32, other_start: i32, other_end: i32) -> bool
    ensures { let overlap = RangesOverlap start end other_start other_end in
        MatchBool result overlap (¬ overlap) }
{
    let low = start.min(end).max(other_start.min(other_end));
    let high = start.max(end).min(other_start.max(other_end));
    low < high
}

/// Whether an end of the other edge is of the one.
fn has_end_of(one: Edge, other: Edge) -> bool
    ensures { MatchBool result (HasEndOf one other) (¬ (HasEndOf one other)) }
{
    if has_point(one, other.x0, other.y0) {
        return true;
    }
    has_point(one, other.x1, other.y1)
}

/// Whether the point is of the edge. An edge that is this point tells it.
pub fn has_point(edge: Edge, x: i32, y: i32) -> bool
    ensures { MatchBool result (HasPoint edge x y) (¬ (HasPoint edge x y)) }
{
    meet(
        edge,
        Edge {
            x0: x,
            y0: y,
            x1: x,
            y1: y,
        },
    )
}
