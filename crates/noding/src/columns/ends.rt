//! Stops at ends of edges that lie on others, where no edge is moved: what a sweep by columns is asked about in the way.

ghost use Rattle.std.specs.Bool.{OnTrue};
ghost use Rattle.std.specs.Prelude.{◌≡◌, ◌≢◌, ◌⊎◌, ◌<◌, false, All, IfErr, IfOk, MatchBool, OnOk, length, map};
ghost use Rattle.i_tree.specs.declared.Refusal.TheVariants.{OutOfMemory};
ghost use Rattle.noding.specs.Columns.Ends.{AreEnds, HaveAllOn, HaveAllOnUprights, IsStopHeld, IsStopHeldAt, LiesAtEnd, LiesInside, upright_alone};
ghost use Rattle.noding.specs.Chains.{IsEnd};
ghost use Rattle.noding.specs.Crossings.{AreAllCrossed};
ghost use Rattle.noding.specs.Stops.{AreNodeStops};
ghost use Rattle.plane.specs.Gains.{GainsThese, IsOfSome};
ghost use Rattle.plane.specs.Meet.Kinds.{HasPoint};

use crate::columns::passing::append_passed;
use crate::crossings::{Crossing, is_end_of_one};
use crate::moved::lie_on;
use crate::passing::is_end;
use crate::stops::{Stop, sort_stops, stop_of};
use i_tree::Refusal;
use plane::edge::Edge;
use plane::meet::has_point;
use plane::point::Point;
use std::alloc::{AllocError, Allocator};

/// Whether each of the crossings is at an end of one of its edges, and lies on both. Then no edge is moved, and no point but ends
/// of edges is hot.
pub fn are_at_ends(edges: &[Edge], crossings: &[Crossing]) -> bool
    requires { All (λ crossing. (crossing.one < length edges.now) × (crossing.other < length edges.now)) crossings.now }
    ensures { OnTrue result (All (LiesAtEnd edges.now) crossings.now) }
{
    for crossing in crossings {
        if !lies_at_end(edges[crossing.one], edges[crossing.other], crossing.point) {
            return false;
        }
    }
    true
}

// Whether the point is an end of one of the edges, and lies on both.
fn lies_at_end(one: Edge, other: Edge, point: Point) -> bool
    ensures end { OnTrue result (IsEnd one point.x point.y ⊎ IsEnd other point.x point.y) }
    ensures on { OnTrue result (HasPoint one point.x point.y × HasPoint other point.x point.y) }
{
    is_end_of_one(one, other, point) && lie_on(one, other, point)
}

/// The stops at nodes of edges, where each of their crossings is at an end of one of its edges. These are their ends, and pairs of
/// places of an edge and of an end, among them all where the edge isn't upright and the end lies on it between its own ends.
///
/// It is refused for want of memory alone.
pub fn nodes_at_ends<A: Allocator + Copy>(
    alloc: A,
    edges: &[Edge],
    crossings: &[Crossing],
    ends: &[Point],
    on: &[(usize, usize)],
) -> Result<Vec<Stop, A>, Refusal>
    requires crossed { AreAllCrossed edges.now crossings.now }
    requires at_ends { All (LiesAtEnd edges.now) crossings.now }
    requires ends { AreEnds edges.now ends.now }
    requires on { HaveAllOn edges.now ends.now on.now }
    requires within { All (λ pair. (pair.0 < length edges.now) × (pair.1 < length ends.now)) on.now }
    ensures ok { IfOk result (λ stops. AreNodeStops edges.now stops.items) }
    ensures refused { IfErr result (λ cause. cause ≡ OutOfMemory) }
{
    let on_uprights = pairs_on_uprights(alloc, edges, ends)?;
    let mut stops = Vec::new(alloc);
    push_stops_on(edges, ends, on, &mut stops)?;
    push_stops_on(edges, ends, &on_uprights, &mut stops)?;
    sort_stops(&mut stops)?;
    Ok(stops)
}

/// Pairs of places of an edge and of a point, among them all where the edge is upright and the point lies on it between its ends.
pub(super) fn pairs_on_uprights<A: Allocator + Copy>(
    alloc: A,
    edges: &[Edge],
    points: &[Point],
) -> Result<Vec<(usize, usize), A>, Refusal>
    ensures ok { IfOk result (λ pairs. HaveAllOnUprights edges.now points.now pairs.items) }
    ensures within { IfOk result (λ pairs. All (λ pair. (pair.0 < length edges.now) × (pair.1 < length points.now)) pairs.items) }
    ensures refused { IfErr result (λ cause. cause ≡ OutOfMemory) }
{
    let mut pairs = Vec::new(alloc);
    if !has_upright(edges) {
        return Ok(pairs);
    }
    let uprights = uprights_alone(alloc, edges)?;
    append_passed(alloc, true, &uprights, points, &mut pairs)?;
    Ok(pairs)
}

// Whether one of the edges runs up or down, or is a point.
fn has_upright(edges: &[Edge]) -> bool
    ensures { result ≡ false → All (λ edge. edge.x0 ≢ edge.x1) edges.now }
{
    for edge in edges {
        if edge.x0 == edge.x1 {
            return true;
        }
    }
    false
}

// The edges, but for those that aren't upright, which are points.
fn uprights_alone<A: Allocator>(alloc: A, edges: &[Edge]) -> Result<Vec<Edge, A>, AllocError>
    ensures { IfOk result (λ uprights. uprights.items ≡ map upright_alone edges.now) }
{
    let mut uprights = Vec::with_capacity(alloc, edges.len())?;
    for edge in edges {
        uprights.push(upright_alone(*edge))?;
    }
    Ok(uprights)
}

// The edge, if that is upright, and a point else.
fn upright_alone(edge: Edge) -> Edge
    ensures { result ≡ upright_alone edge }
{
    if edge.x0 == edge.x1 {
        return edge;
    }
    Edge {
        x0: 0,
        y0: 0,
        x1: 0,
        y1: 0,
    }
}

/// Appends the stops of the pairs of an edge and a point that lies on it between its ends.
pub(super) fn push_stops_on<A: Allocator>(
    edges: &[Edge],
    points: &[Point],
    pairs: &[(usize, usize)],
    stops: &mut Vec<Stop, A>,
) -> Result<(), AllocError>
    requires { All (λ pair. (pair.0 < length edges.now) × (pair.1 < length points.now)) pairs.now }
    ensures { OnOk result (GainsThese (IsOfSome (IsStopHeldAt edges.now points.now) pairs.now) stops.old.items stops.new.items) }
{
    for pair in pairs {
        push_if_held(pair.0, edges[pair.0], points[pair.1], stops)?;
    }
    Ok(())
}

// Appends the stop of the edge, which is at this place, at the point, if that lies on it between its ends.
fn push_if_held<A: Allocator>(
    place: usize,
    edge: Edge,
    point: Point,
    stops: &mut Vec<Stop, A>,
) -> Result<(), AllocError>
    ensures { OnOk result (GainsThese (IsStopHeld place edge point) stops.old.items stops.new.items) }
{
    if lies_inside(edge, point) {
        stops.push(stop_of(place, edge, point.x, point.y))?;
    }
    Ok(())
}

// Whether the point lies on the edge between its ends.
fn lies_inside(edge: Edge, point: Point) -> bool
    ensures { MatchBool result (LiesInside edge point) (¬ (LiesInside edge point)) }
{
    if is_end(edge, point.x, point.y) {
        return false;
    }
    has_point(edge, point.x, point.y)
}
