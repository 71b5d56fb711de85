//! Stops of edges at crossings of two others: an edge that passes one comes close to one of the two, mostly.

ghost use Rattle.std.specs.Prelude.{◌≡◌, ◌⊎◌, ◌<◌, ◌≤◌, ◌++◌, List, All, AllPairs, Contains, MatchBool, length, true, IfOk, OnOk};
ghost use Rattle.plane.specs.Ends.{reversed};
ghost use Rattle.noding.specs.Beside.{ClosesAt, IsFrom, IsStopAtOther, IsStopBeside, LiesFarAbove, LiesFarBelow, NoneCloses, NonePassed, PassesItsEdge, RisesOver, StandAlong};
ghost use Rattle.noding.specs.Distinct.{AreStarts};
ghost use Rattle.noding.specs.Stops.{IsBefore, IsStopAlong};
ghost use Rattle.noding.specs.declared.stops.Stop.{Stop};
ghost use Rattle.plane.specs.Gains.{GainsThese, IsOfSome};

use crate::crossings::{Crossing, is_end_of_one};
use crate::distinct::{starts_of, stops_at};
use crate::passing::passes_inside;
use crate::stops::{Stop, point_of, stop_of};
use plane::edge::{Edge, edge_between, end_of, height_over, margin_of, reverse, start_of};
use plane::point::Point;
use std::alloc::{AllocError, Allocator};

/// Whether no edge from an end of the one to an end of the other of two edges that cross passes their crossing. Of crossings at
/// ends nothing is asked.
///
/// An edge that passes what two others cross at comes close to one of them, unless it shares an end with both: then it leads from
/// an end of the one to an end of the other. So the pairs of edges that come close tell all that passes crossings, where no edge
/// that led so would.
pub fn none_closes(edges: &[Edge], crossings: &[Crossing]) -> bool
    requires { All (λ crossing. (crossing.one < length edges.now) × (crossing.other < length edges.now)) crossings.now }
    ensures { result ≡ true → NoneCloses edges.now crossings.now }
{
    for crossing in crossings {
        if closes_at(edges[crossing.one], edges[crossing.other], crossing.point) {
            return false;
        }
    }
    true
}

// Whether some edge from an end of the one edge to an end of the other passes the point between its ends, and this is an end of
// neither of the two.
fn closes_at(one: Edge, other: Edge, point: Point) -> bool
    ensures { let closes = ClosesAt one other point in MatchBool result closes (¬ closes) }
{
    if is_end_of_one(one, other, point) {
        return false;
    }
    closes_from(start_of(one), other, point) || closes_from(end_of(one), other, point)
}

// Whether an edge from the one point to an end of the edge passes the other point between its ends.
fn closes_from(from: Point, edge: Edge, point: Point) -> bool
    ensures { let closes = IsFrom from edge point in MatchBool result closes (¬ closes) }
{
    let first = edge_between(from, start_of(edge));
    let last = edge_between(from, end_of(edge));
    passes_inside(first, point.x, point.y) || passes_inside(last, point.x, point.y)
}

/// The stops of the edges at each of these pairs at the stops of one another, but for such as are among these.
///
/// Where the pairs' crossings are told, in their order, the stops of two edges that cross are sought from their crossing on.
pub fn stops_beside<A: Allocator + Copy>(
    alloc: A,
    edges: &[Edge],
    pairs: &[(usize, usize)],
    crossings: &[Crossing],
    stops: &[Stop],
) -> Result<Vec<Stop, A>, AllocError>
    requires within { All (λ pair. (pair.0 < length edges.now) × (pair.1 < length edges.now)) pairs.now }
    requires in_order { AllPairs IsBefore stops.now }
    requires passed { All (PassesItsEdge edges.now) stops.now }
    ensures { IfOk result (λ beside. GainsThese (IsOfSome (IsStopBeside edges.now stops.now) pairs.now) stops.now
        (stops.now ++ beside.items)) }
{
    let starts = starts_of(alloc, edges.len(), stops)?;
    let mut beside = Vec::new(alloc);
    let mut next = 0;
    for pair in pairs {
        let at = crossing_at(crossings, *pair, &mut next);
        push_stops_of_two(edges, *pair, at, stops, &starts, &mut beside)?;
    }
    Ok(beside)
}

// Where the edges at the pair cross, if the next of the crossings is theirs. Then the one behind it is the next.
fn crossing_at(crossings: &[Crossing], pair: (usize, usize), next: &mut usize) -> Option<Point> {
    if crossings.len() <= *next {
        return None;
    }
    let crossing = crossings[*next];
    if crossing.one != pair.0 || crossing.other != pair.1 {
        return None;
    }
    *next += 1;
    Some(crossing.point)
}

// Appends those of the edges at the pair, which cross at the point, if there is one.
fn push_stops_of_two<A: Allocator>(
    edges: &[Edge],
    pair: (usize, usize),
    at: Option<Point>,
    stops: &[Stop],
    starts: &[usize],
    beside: &mut Vec<Stop, A>,
) -> Result<(), AllocError>
    requires within { (pair.0 < length edges.now) × (pair.1 < length edges.now) }
    requires starts { AreStarts (length edges.now) stops.now starts.now }
    requires in_order { AllPairs IsBefore stops.now }
    requires passed { All (PassesItsEdge edges.now) stops.now }
    ensures { OnOk result (GainsThese (IsStopBeside edges.now stops.now pair) (stops.now ++ beside.old.items)
        (stops.now ++ beside.new.items)) }
{
    let of_one = stops_at(stops, starts[pair.0], starts[pair.0 + 1]);
    let of_other = stops_at(stops, starts[pair.1], starts[pair.1 + 1]);
    let one = edges[pair.0];
    let other = edges[pair.1];
    let in_one = place_near(of_one, pair.0, one, at);
    let in_other = place_near(of_other, pair.1, other, at);
    let near = (in_one, in_other);
    let back = (in_other, in_one);
    push_stops_passed(pair.0, one, other, of_one, of_other, near, beside)?;
    push_stops_passed(pair.1, other, one, of_other, of_one, back, beside)?;
    Ok(())
}

// The place of the edge's stop at the point among its own, or of the first one behind that; where there is no point, none.
fn place_near(own: &[Stop], place: usize, edge: Edge, at: Option<Point>) -> usize {
    match at {
        Some(point) => place_of(own, stop_of(place, edge, point.x, point.y)),
        None => usize::MAX,
    }
}

// The place of the stop among those of its edge, which stand in order, or of the first one behind it.
fn place_of(own: &[Stop], stop: Stop) -> usize {
    own.partition_point(|known| comes_before(*known, stop))
}

// Whether the one stop of an edge comes before the other.
fn comes_before(one: Stop, other: Stop) -> bool {
    one.along_x < other.along_x || one.along_x == other.along_x && one.along_y < other.along_y
}

// Appends the stops of the edge, which is at this place, at those of the other one, but for such as are among its own. Most often
// there is just the one at which they cross, and `near` tells where that stands among its own and among the others.
//
// Seen from the edge's line, turned so that the other one rises over it, what lies far below stands before all that is passed, and
// what lies far above behind it.
fn push_stops_passed<A: Allocator>(
    place: usize,
    edge: Edge,
    other: Edge,
    own: &[Stop],
    others: &[Stop],
    near: (usize, usize),
    beside: &mut Vec<Stop, A>,
) -> Result<(), AllocError>
    requires { StandAlong other others.now }
    ensures { OnOk result ((known : List Stop) → ((stop : Stop) → Contains own.now stop → Contains known stop)
        → GainsThese (IsOfSome (IsStopAtOther place edge other) others.now) (known ++ beside.old.items)
        (known ++ beside.new.items)) }
{
    let line = line_under(edge, other);
    for index in first_beside(line, other, others, near.1)..others.len() {
        let point = point_of(other, others[index]);
        if lies_far_above(line, point) {
            return Ok(());
        }
        push_unless_known(place, edge, point, own, near.0, beside)?;
    }
    Ok(())
}

// The edge, or the edge from its end to its start, over which the other one rises.
fn line_under(edge: Edge, other: Edge) -> Edge
    ensures rises { RisesOver result other }
    ensures is { (result ≡ edge) ⊎ (result ≡ reversed edge) }
{
    if height_over(edge, end_of(other)) < height_over(edge, start_of(other)) {
        return reverse(edge);
    }
    edge
}

// A place among the stops of the other edge, which rises over the line, before which the line's own edge passes none: this one, or
// the first one that doesn't lie far below, mostly.
fn first_beside(line: Edge, other: Edge, others: &[Stop], near: usize) -> usize
    requires along { StandAlong other others.now }
    requires rises { RisesOver line other }
    ensures within { result ≤ length others.now }
    ensures before { NonePassed line other 0 result others.now }
{
    if none_before(line, other, others, near) {
        return near;
    }
    first_by_halving(line, other, others)
}

// Whether the one before this place lies far below, or it is the first place: then the line's own edge passes none before it.
fn none_before(line: Edge, other: Edge, others: &[Stop], near: usize) -> bool
    requires along { StandAlong other others.now }
    requires rises { RisesOver line other }
    ensures within { result ≡ true → near ≤ length others.now }
    ensures before { result ≡ true → NonePassed line other 0 near others.now }
{
    if near == 0 {
        return true;
    }
    if others.len() < near {
        return false;
    }
    lies_far_below(line, point_of(other, others[near - 1]))
}

// The same place by halving, whatever lies before.
fn first_by_halving(line: Edge, other: Edge, others: &[Stop]) -> usize
    requires along { StandAlong other others.now }
    requires rises { RisesOver line other }
    ensures within { result ≤ length others.now }
    ensures before { NonePassed line other 0 result others.now }
{
    let mut low = 0;
    let mut high = others.len();
    // None is passed that stands before `low`, and from `high` on none lay far below where that was looked at.
    while low < high {
        let middle = low + (high - low) / 2;
        if lies_far_below(line, point_of(other, others[middle])) {
            low = middle + 1;
        } else {
            high = middle;
        }
    }
    low
}

fn lies_far_below(line: Edge, point: Point) -> bool
    ensures { result ≡ true → LiesFarBelow line point }
{
    let height = height_over(line, point);
    let margin = margin_of(line);
    height + margin + margin < 0
}

fn lies_far_above(line: Edge, point: Point) -> bool
    ensures { result ≡ true → LiesFarAbove line point }
{
    let height = height_over(line, point);
    let margin = margin_of(line);
    margin + margin < height
}

// Appends the stop of the edge, which is at this place, at the point, if it passes that between its ends, unless it is among its
// own. At the place `near` of these it is looked for first.
fn push_unless_known<A: Allocator>(
    place: usize,
    edge: Edge,
    point: Point,
    own: &[Stop],
    near: usize,
    beside: &mut Vec<Stop, A>,
) -> Result<(), AllocError>
    ensures { OnOk result ((known : List Stop) → ((stop : Stop) → Contains own.now stop → Contains known stop)
        → GainsThese (IsStopAlong place edge point.x point.y) (known ++ beside.old.items) (known ++ beside.new.items)) }
{
    let stop = stop_of(place, edge, point.x, point.y);
    if is_at(stop, own, near) {
        return Ok(());
    }
    if !passes_inside(edge, point.x, point.y) {
        return Ok(());
    }
    if !is_among(stop, own) {
        beside.push(stop)?;
    }
    Ok(())
}

// Whether the stop is among these.
fn is_among(stop: Stop, own: &[Stop]) -> bool
    ensures { result ≡ true → Contains own.now stop }
{
    for known in own {
        if *known == stop {
            return true;
        }
    }
    false
}

// Whether the stop stands at this place of its edge's own.
fn is_at(stop: Stop, own: &[Stop], near: usize) -> bool
    ensures { result ≡ true → Contains own.now stop }
{
    if own.len() <= near {
        return false;
    }
    are_one(own[near], stop)
}

// Whether they are one stop.
fn are_one(one: Stop, other: Stop) -> bool
    ensures { result ≡ true → one ≡ other }
{
    one == other
}
