//! The stops at nodes where few crossings are points with fractions: what these move is told from points to edges, and from
//! these to the points that they pass, in some rounds. So no sweep asks for all that edges pass.

ghost use Rattle.std.specs.Prelude.{◌≡◌, ◌<◌, [], All, IfErr, IfOk, IfSome, OnOk, length};
ghost use Rattle.i_tree.specs.declared.Refusal.TheVariants.{OutOfMemory};
ghost use Rattle.noding.specs.Columns.Ends.{AreEnds, HaveAllOn};
ghost use Rattle.noding.specs.Columns.Rounds.{AreFlaggedMoved, AreSpreadStops, Flags, FlagsIfBeside, IsOneWithin, IsPointOfStop, IsWithin, Spreads};
ghost use Rattle.noding.specs.Crossings.{AreAllCrossed, AreHot, IsCrossed};
ghost use Rattle.noding.specs.Local.{AreFirst, AreMoved, IsPointBeside, Moves};
ghost use Rattle.noding.specs.Stops.{AreNodeStops};
ghost use Rattle.plane.specs.Gains.{GainsThese, IsOfSome};
ghost use Rattle.plane.specs.declared.pairs.items.Bounds.{Bounds};

use crate::columns::ends::{pairs_on_uprights, push_stops_on};
use crate::columns::hot_points::{push_both_ends, push_points};
use crate::crossings::{Crossing, sort_points};
use crate::local::nodes_of;
use crate::moved::{lie_on, lies_on};
use crate::stops::{Stop, point_of, push_stops_at_points, push_stops_of_crossings, sort_stops};
use i_tree::Refusal;
use plane::edge::Edge;
use plane::pairs::boxes::{boxes_meet, join_boxes};
use plane::pairs::items::{Bounds, Boxed};
use plane::point::Point;
use std::alloc::{AllocError, Allocator};

// So many rounds at most: mostly there are two or three, and each takes some time for each edge.
const MOST_ROUNDS: usize = 8;

// An edge that is a point, in the place of one that isn't asked about. It passes nothing between its ends.
const NOWHERE: Edge = Edge {
    x0: 0,
    y0: 0,
    x1: 0,
    y1: 0,
};

// What the rounds have found: which edges are moved, and stops of edges.
#[derive(Drop)]
struct Spread<A: Allocator> {
    flags: Vec<bool, A>,
    stops: Vec<Stop, A>,
}

// The edges that are newly flagged, each at its place, with points in the places of the others; and points that they pass.
#[derive(Drop)]
struct Flagged<A: Allocator> {
    alone: Vec<Edge, A>,
    passed: Vec<Point, A>,
}

/// The stops at nodes of edges, where these are their crossings and their ends, and pairs of places of an edge and of an end, among
/// them all where the edge isn't upright and the end lies on it between its own ends; or nothing where it takes more rounds than a
/// few to tell which edges are moved.
///
/// It is refused for want of memory alone.
pub fn nodes_in_rounds<A: Allocator + Copy>(
    alloc: A,
    edges: &[Edge],
    crossings: &[Crossing],
    ends: &[Point],
    on: &[(usize, usize)],
) -> Result<Option<Vec<Stop, A>>, Refusal>
    requires crossed { AreAllCrossed edges.now crossings.now }
    requires ends { AreEnds edges.now ends.now }
    requires on { HaveAllOn edges.now ends.now on.now }
    requires within { All (λ pair. (pair.0 < length edges.now) × (pair.1 < length ends.now)) on.now }
    ensures ok { IfOk result (λ found. IfSome found (λ stops. AreNodeStops edges.now stops.items)) }
    ensures refused { IfErr result (λ cause. cause ≡ OutOfMemory) }
{
    let Some(Spread { flags, mut stops }) = moved_in_rounds(alloc, edges, crossings, ends)? else {
        return Ok(None);
    };
    let on_uprights = pairs_on_uprights(alloc, edges, ends)?;
    push_stops_on(edges, ends, on, &mut stops)?;
    push_stops_on(edges, ends, &on_uprights, &mut stops)?;
    push_stops_of_crossings(edges, crossings, &mut stops)?;
    sort_stops(&mut stops)?;
    let nodes = nodes_of(alloc, edges, &stops, &flags)?;
    Ok(Some(nodes))
}

// Which edges are moved, and their stops at all hot points, with those of all edges at the points that move edges to begin with; or
// nothing where that takes more rounds than a few.
fn moved_in_rounds<A: Allocator + Copy>(
    alloc: A,
    edges: &[Edge],
    crossings: &[Crossing],
    ends: &[Point],
) -> Result<Option<Spread<A>>, Refusal>
    requires crossed { AreAllCrossed edges.now crossings.now }
    requires ends { AreEnds edges.now ends.now }
    ensures moved { IfOk result (λ found. IfSome found (λ spread. AreMoved edges.now spread.flags.items)) }
    ensures stops { IfOk result (λ found. IfSome found (λ spread. AreSpreadStops edges.now spread.flags.items spread.stops.items)) }
    ensures refused { IfErr result (λ cause. cause ≡ OutOfMemory) }
{
    let hot = ends_and_crossings(alloc, edges, ends, crossings)?;
    let mut fresh = points_beside(alloc, edges, crossings)?;
    let mut spread = Spread {
        flags: vec![in alloc; false; edges.len()]?,
        stops: Vec::new(alloc),
    };
    // The points so far, but for the fresh ones, have moved what they move, and edges that are flagged have told their points.
    for _ in 0..MOST_ROUNDS {
        fresh = spread_points(edges, &hot, &fresh, &mut spread)?;
        if fresh.is_empty() {
            return Ok(Some(spread));
        }
    }
    Ok(None)
}

// The hot points of the edges, where these are their ends and their crossings.
fn ends_and_crossings<A: Allocator>(
    alloc: A,
    edges: &[Edge],
    ends: &[Point],
    crossings: &[Crossing],
) -> Result<Vec<Point, A>, AllocError>
    requires crossed { AreAllCrossed edges.now crossings.now }
    requires ends { AreEnds edges.now ends.now }
    ensures { IfOk result (λ points. AreHot edges.now points.items) }
{
    let mut points = Vec::from_slice(alloc, ends)?;
    push_points(crossings, &mut points)?;
    Ok(points)
}

// The points that move edges in the first round: what edges round to that cross at a point with fractions.
fn points_beside<A: Allocator>(
    alloc: A,
    edges: &[Edge],
    crossings: &[Crossing],
) -> Result<Vec<Point, A>, AllocError>
    requires { AreAllCrossed edges.now crossings.now }
    ensures { IfOk result (λ points. AreFirst edges.now points.items) }
{
    let mut points = Vec::new(alloc);
    push_points_beside(edges, crossings, &mut points)?;
    Ok(points)
}

// Appends the points of those of these crossings at which the edges cross beside a whole point.
fn push_points_beside<A: Allocator>(
    edges: &[Edge],
    crossings: &[Crossing],
    points: &mut Vec<Point, A>,
) -> Result<(), AllocError>
    requires within { All (λ crossing. (crossing.one < length edges.now) × (crossing.other < length edges.now)) crossings.now }
    requires each { All (IsCrossed edges.now) crossings.now }
    ensures { OnOk result (GainsThese (IsOfSome (IsPointBeside edges.now) crossings.now) points.old.items points.new.items) }
{
    for crossing in crossings {
        push_if_beside(edges, *crossing, points)?;
    }
    Ok(())
}

// Appends the crossing's point, unless it lies on both edges: then they cross there.
fn push_if_beside<A: Allocator>(
    edges: &[Edge],
    crossing: Crossing,
    points: &mut Vec<Point, A>,
) -> Result<(), AllocError>
    requires within { (crossing.one < length edges.now) × (crossing.other < length edges.now) }
    requires is { IsCrossed edges.now crossing }
    ensures { OnOk result (GainsThese (IsPointBeside edges.now crossing) points.old.items points.new.items) }
{
    if !lie_on(edges[crossing.one], edges[crossing.other], crossing.point) {
        points.push(crossing.point)?;
    }
    Ok(())
}

// One round: flags the edges that the fresh points move, and answers which hot points those pass that weren't flagged. Stops are
// told of all edges at the fresh points, and of the newly flagged ones at all hot points.
fn spread_points<A: Allocator + Copy>(
    edges: &[Edge],
    hot: &[Point],
    fresh: &[Point],
    spread: &mut Spread<A>,
) -> Result<Vec<Point, A>, Refusal>
    requires hot { AreHot edges.now hot.now }
    requires fresh { All (λ point. Moves edges.now point.x point.y) fresh.now }
    requires found { AreFlaggedMoved edges.now spread.old.flags.items }
    ensures ok { IfOk result (λ points. Spreads edges.now fresh.now spread.old.flags.items spread.old.stops.items
        spread.new.flags.items spread.new.stops.items points.items) }
    ensures refused { IfErr result (λ cause. cause ≡ OutOfMemory) }
{
    let alloc = *spread.stops.allocator();
    let mut beside = Vec::new(alloc);
    push_stops_at_points(edges, fresh, &mut beside)?;
    spread.stops.extend_from_slice(&beside)?;
    let Flagged { alone, mut passed } = flag_beside(alloc, edges, &beside, &mut spread.flags)?;
    if passed.is_empty() {
        return Ok(passed);
    }
    let near = points_near(alloc, hot, &passed)?;
    let mut along = Vec::new(alloc);
    push_stops_at_points(&alone, &near, &mut along)?;
    spread.stops.extend_from_slice(&along)?;
    push_points_of(edges, &along, &mut passed)?;
    sort_points(&mut passed)?;
    Ok(passed)
}

// Flags the edges of the stops that don't lie on them.
fn flag_beside<A: Allocator + Copy>(
    alloc: A,
    edges: &[Edge],
    stops: &[Stop],
    flags: &mut [bool],
) -> Result<Flagged<A>, AllocError>
    requires within { All (λ stop. stop.place < length edges.now) stops.now }
    requires size { length flags.old ≡ length edges.now }
    ensures { IfOk result (λ flagged. Flags edges.now stops.now flags.old flags.new flagged.alone.items flagged.passed.items) }
{
    let mut flagged = Flagged {
        alone: vec![in alloc; NOWHERE; edges.len()]?,
        passed: Vec::new(alloc),
    };
    // The stops so far have flagged their edges.
    for stop in stops {
        flag_if_beside(edges[stop.place], *stop, flags, &mut flagged)?;
    }
    Ok(flagged)
}

// Flags the edge of the stop, if this doesn't lie on it, and takes it among the newly flagged ones, if it wasn't flagged.
fn flag_if_beside<A: Allocator>(
    edge: Edge,
    stop: Stop,
    flags: &mut [bool],
    flagged: &mut Flagged<A>,
) -> Result<(), AllocError>
    requires within { stop.place < length flags.old }
    requires within_alone { stop.place < length flagged.old.alone.items }
    ensures { OnOk result (FlagsIfBeside edge stop flags.old flagged.old.alone.items flagged.old.passed.items
        flags.new flagged.new.alone.items flagged.new.passed.items) }
{
    if lies_on(edge, stop) || flags[stop.place] {
        return Ok(());
    }
    flags[stop.place] = true;
    flagged.alone[stop.place] = edge;
    push_both_ends(edge, &mut flagged.passed)
}

// Those of the hot points that lie in a box around these ends of edges: all that the edges pass are among them.
fn points_near<A: Allocator>(
    alloc: A,
    hot: &[Point],
    ends: &[Point],
) -> Result<Vec<Point, A>, AllocError>
    requires some { 0 < length ends.now }
    ensures { IfOk result (λ near. (around : Bounds) × All (IsWithin around) ends.now
        × GainsThese (IsOfSome (IsOneWithin around) hot.now) [] near.items) }
{
    let around = box_around(ends);
    let mut near = Vec::new(alloc);
    // Those of the points so far that lie in the box stand there.
    for point in hot {
        push_if_within(around, *point, &mut near)?;
    }
    Ok(near)
}

// Appends the point, if it lies in the box.
fn push_if_within<A: Allocator>(
    around: Bounds,
    point: Point,
    points: &mut Vec<Point, A>,
) -> Result<(), AllocError>
    ensures { OnOk result (GainsThese (IsOneWithin around point) points.old.items points.new.items) }
{
    if boxes_meet(around, point.bounds()) {
        points.push(point)?;
    }
    Ok(())
}

// A box in which all these points lie.
fn box_around(points: &[Point]) -> Bounds
    requires { 0 < length points.now }
    ensures { All (IsWithin result) points.now }
{
    let mut around = points[0].bounds();
    // The points so far lie in it.
    for point in points {
        around = join_boxes(around, point.bounds());
    }
    around
}

// Appends the points of these stops.
fn push_points_of<A: Allocator>(
    edges: &[Edge],
    stops: &[Stop],
    points: &mut Vec<Point, A>,
) -> Result<(), AllocError>
    requires { All (λ stop. stop.place < length edges.now) stops.now }
    ensures { OnOk result (GainsThese (IsOfSome (IsPointOfStop edges.now) stops.now) points.old.items points.new.items) }
{
    for stop in stops {
        points.push(point_of(edges[stop.place], *stop))?;
    }
    Ok(())
}
