//! How edges meet: which pair of them meets as it may not.

ghost use Rattle.std.specs.Prelude.{◌≡◌, ◌<◌, ℕ, All, Contains, IfErr, IfOk, IfSome, MatchBool, MatchOption, List, length};
ghost use Rattle.plane.specs.Ends.{start_of};
ghost use Rattle.plane.specs.Meet.Columns.{HaveCommonEnd, IsEndPoint};
ghost use Rattle.plane.specs.Meet.Edges.{Meet};
ghost use Rattle.plane.specs.Pairs.Pairs.{ArePairs, PairAt};
ghost use Rattle.validity.specs.Meeting.{AllMayMeet, MayMeet, MayNotMeet, MeetBeyondTouch, MeetInTurn, MeetOtherwise};
ghost use Rattle.validity.specs.declared.unchecked.Unchecked.TheVariants.{OutOfMemory};
ghost use Rattle.plane.specs.Meet.Kinds.{MeetSo};
ghost use Rattle.plane.specs.declared.meet.kinds.Meeting.TheVariants.{Touch};

use crate::unchecked::Unchecked;
use plane::edge::{Edge, end_of, start_of};
use plane::meet::{Meeting, how_they_meet, meetings};
use plane::point::Point;
use std::alloc::Allocator;

// The first pair of places found whose edges meet as they may not, those of one ring or of several.
pub(crate) fn first_wrong<A: Allocator + Copy>(
    alloc: A,
    edges: &[Edge],
    in_ring: bool,
) -> Result<Option<(usize, usize)>, Unchecked>
    ensures ok { IfOk result (λ found. MatchOption found (AllMayMeet in_ring edges.now)
        (λ pair. PairAt (MayNotMeet in_ring) edges.now pair.0 pair.1)) }
    ensures within { IfOk result (λ found. IfSome found (λ pair. (pair.0 < length edges.now) × (pair.1 < length edges.now))) }
    ensures fault { IfErr result (λ cause. cause ≡ OutOfMemory) }
{
    let mut pairs = Vec::new(alloc);
    meetings(edges, &mut pairs)?;
    Ok(wrong_among(edges, &pairs, in_ring))
}

// The same among all pairs of places whose edges meet.
fn wrong_among(edges: &[Edge], pairs: &[(usize, usize)], in_ring: bool) -> Option<(usize, usize)>
    requires pairs { ArePairs Meet edges.now pairs.now }
    requires within { All (λ pair. (pair.0 < pair.1) × (pair.1 < length edges.now)) pairs.now }
    ensures found { MatchOption result (AllMayMeet in_ring edges.now)
        (λ pair. PairAt (MayNotMeet in_ring) edges.now pair.0 pair.1) }
    ensures inside { IfSome result (λ pair. (pair.0 < length edges.now) × (pair.1 < length edges.now)) }
{
    // Those so far meet as they may.
    for pair in pairs {
        if !may_meet(edges[pair.0], edges[pair.1], in_ring) {
            return Some(*pair);
        }
    }
    None
}

// Whether edges that meet do so as they may.
fn may_meet(one: Edge, other: Edge, in_ring: bool) -> bool
    requires { Meet one other }
    ensures { MatchBool result (MayMeet in_ring one other) (MayNotMeet in_ring one other) }
{
    if in_ring {
        meet_in_turn(one, other)
    } else {
        touch(one, other)
    }
}

// Whether edges that meet do so in one point alone, an end of one of them.
fn touch(one: Edge, other: Edge) -> bool
    requires { Meet one other }
    ensures { MatchBool result (MeetSo one other Touch) (MeetBeyondTouch one other) }
{
    match how_they_meet(one, other) {
        Meeting::Touch => true,
        Meeting::Cross => false,
        Meeting::Share => false,
        // They meet.
        Meeting::Apart => unreachable!(),
    }
}

// Whether edges of one ring that meet do so in turn.
fn meet_in_turn(one: Edge, other: Edge) -> bool
    requires { Meet one other }
    ensures { MatchBool result (MeetInTurn one other) (MeetOtherwise one other) }
{
    if !touch(one, other) {
        return false;
    }
    if !have_common_end(one, other) {
        return false;
    }
    !are_same(start_of(one), start_of(other))
}

// Whether an end of the one is an end of the other.
fn have_common_end(one: Edge, other: Edge) -> bool
    ensures { MatchBool result (HaveCommonEnd one other) (¬ (HaveCommonEnd one other)) }
{
    if is_end(other, start_of(one)) {
        return true;
    }
    is_end(other, end_of(one))
}

// Whether the point is an end of the edge.
fn is_end(edge: Edge, point: Point) -> bool
    ensures { MatchBool result (IsEndPoint edge point) (¬ (IsEndPoint edge point)) }
{
    if are_same(point, start_of(edge)) {
        return true;
    }
    are_same(point, end_of(edge))
}

// Whether the points are one.
fn are_same(one: Point, other: Point) -> bool
    ensures { MatchBool result (one ≡ other) (¬ (one ≡ other)) }
{
    one == other
}
