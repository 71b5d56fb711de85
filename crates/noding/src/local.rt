//! A noding that moves only what it must: of the stops of snap rounding those that lie on their edges, or all where the edge is
//! moved.

ghost use Rattle.std.specs.List.{flat_map};
ghost use Rattle.std.specs.Prelude.{◌≡◌, ◌<◌, ◌++◌, List, All, AllPairs, IfErr, IfOk, MatchBool, OnErr, OnOk, length};
ghost use Rattle.i_tree.specs.declared.Refusal.TheVariants.{OutOfMemory};
ghost use Rattle.plane.specs.declared.point.Point.{Point};
ghost use Rattle.noding.specs.Crossings.{AreAllCrossed};
ghost use Rattle.noding.specs.Local.{AreNodeChains};
ghost use Rattle.noding.specs.Offsets.{offsets};
ghost use Rattle.noding.specs.Stops.{AppendsIfKept, AreKept, AreNodeStops, AreStops, IsBefore, LiesOnItsEdge};

use crate::chains::append_chains;
use crate::close::close_pairs;
use crate::columns::crossings::{CrossingsAndPoints, crossings_and_points};
use crate::columns::ends::{are_at_ends, nodes_at_ends};
use crate::columns::hot_points::ends_in_order;
use crate::columns::rounds::nodes_in_rounds;
use crate::columns::stops::stops_by_columns;
use crate::crossings::{Crossing, crossings_of_pairs};
use crate::distinct::{distinct_of, stops_of_each};
use crate::moved::{is_kept, lies_on, moved_edges};
use crate::stops::{Stop, stops_of_pairs};
use i_tree::Refusal;
use plane::edge::Edge;
use plane::point::Point;
use std::alloc::{AllocError, Allocator};

// With fewer crossings than one for so many edges, rounds from these tell sooner what is moved than sweeps do for all that
// edges pass.
const EDGES_PER_CROSSING: usize = 16;

/// Appends the chain of each edge in turn to `points`, and to `ends` where each chain stops among these, as `snap` does; but
/// edges are moved only where they must be.
///
/// What two edges round to that cross at a point with fractions moves the edges that pass it and that it doesn't lie on. Each hot
/// point that a moved edge passes does so, too. The chain of a moved edge is that of `snap`; the chain of any other edge is those
/// points of it that lie on the edge exactly. So where no two edges cross at a point with fractions, each edge stays where it is,
/// broken at what lies on it.
///
/// It is refused for want of memory alone, and leaves `points` and `ends` as they were then. The memory is that of their
/// allocator.
pub fn node<A: Allocator + Copy>(
    edges: &[Edge],
    points: &mut Vec<Point, A>,
    ends: &mut Vec<usize, A>,
) -> Result<(), Refusal>
    ensures ok { OnOk result ((chains : List (List Point)) × AreNodeChains edges.now chains
        × (points.new.items ≡ points.old.items ++ flat_map (λ chain. chain) chains)
        × (ends.new.items ≡ ends.old.items ++ offsets (length points.old.items) chains)) }
    ensures err { OnErr result ((points.new.items ≡ points.old.items) × (ends.new.items ≡ ends.old.items)) }
    ensures refused { IfErr result (λ cause. cause ≡ OutOfMemory) }
{
    let stops = nodes_in_order(*points.allocator(), edges)?;
    append_chains(edges, &stops, points, ends)?;
    Ok(())
}

/// The stops of all edges at their nodes between their ends, in order, as `stops_in_order` has those at all hot points that the
/// edges pass.
///
/// Nodes are the points of chains by `node`: all that a moved edge passes, and of another one what lies on it. It is refused for
/// want of memory alone.
pub fn nodes_in_order<A: Allocator + Copy>(
    alloc: A,
    edges: &[Edge],
) -> Result<Vec<Stop, A>, Refusal>
    ensures ok { IfOk result (λ stops. AreNodeStops edges.now stops.items) }
    ensures refused { IfErr result (λ cause. cause ≡ OutOfMemory) }
{
    let Some(distinct) = distinct_of(alloc, edges)? else {
        return nodes_of_edges(alloc, edges);
    };
    let nodes = nodes_of_edges(alloc, &distinct.edges)?;
    let copies = stops_of_each(alloc, &distinct, &nodes)?;
    Ok(copies)
}

// The same, where each edge is looked at as often as it stands there.
fn nodes_of_edges<A: Allocator + Copy>(alloc: A, edges: &[Edge]) -> Result<Vec<Stop, A>, Refusal>
    ensures ok { IfOk result (λ stops. AreNodeStops edges.now stops.items) }
    ensures refused { IfErr result (λ cause. cause ≡ OutOfMemory) }
{
    let Some(pairs) = close_pairs(alloc, edges)? else {
        return nodes_by_columns(alloc, edges);
    };
    let crossings = crossings_of_pairs(alloc, edges, &pairs)?;
    let stops = stops_of_pairs(alloc, edges, &pairs, &crossings)?;
    let nodes = nodes_of_stops(alloc, edges, &crossings, stops)?;
    Ok(nodes)
}

// The same by a sweep over columns. It tells which ends lie on edges, too: where no edges cross but at ends, nothing else is a
// node.
fn nodes_by_columns<A: Allocator + Copy>(alloc: A, edges: &[Edge]) -> Result<Vec<Stop, A>, Refusal>
    ensures ok { IfOk result (λ stops. AreNodeStops edges.now stops.items) }
    ensures refused { IfErr result (λ cause. cause ≡ OutOfMemory) }
{
    let ends = ends_in_order(alloc, edges)?;
    let CrossingsAndPoints { crossings, on } = crossings_and_points(alloc, edges, &ends)?;
    if are_at_ends(edges, &crossings) {
        return nodes_at_ends(alloc, edges, &crossings, &ends, &on);
    }
    if crossings.len() <= edges.len() / EDGES_PER_CROSSING
        && let Some(nodes) = nodes_in_rounds(alloc, edges, &crossings, &ends, &on)?
    {
        return Ok(nodes);
    }
    let stops = stops_by_columns(alloc, edges, &crossings)?;
    let nodes = nodes_of_stops(alloc, edges, &crossings, stops)?;
    Ok(nodes)
}

// The stops at nodes, where these are the crossings of the edges, and all stops.
fn nodes_of_stops<A: Allocator + Copy>(
    alloc: A,
    edges: &[Edge],
    crossings: &[Crossing],
    stops: Vec<Stop, A>,
) -> Result<Vec<Stop, A>, AllocError>
    requires crossed { AreAllCrossed edges.now crossings.now }
    requires stops { AreStops edges.now stops.items }
    ensures { IfOk result (λ nodes. AreNodeStops edges.now nodes.items) }
{
    // Where all stops lie on their edges they are nodes, whatever is moved.
    if lie_on_edges(edges, &stops) {
        return Ok(stops);
    }
    let moved = moved_edges(alloc, edges, crossings, &stops)?;
    let nodes = nodes_of(alloc, edges, &stops, &moved)?;
    Ok(nodes)
}

// Whether each stop lies on its edge.
fn lie_on_edges(edges: &[Edge], stops: &[Stop]) -> bool
    requires { All (λ stop. stop.place < length edges.now) stops.now }
    ensures { let all = All (LiesOnItsEdge edges.now) stops.now in MatchBool result all (¬ all) }
{
    for stop in stops {
        if !lies_on(edges[stop.place], *stop) {
            return false;
        }
    }
    true
}

/// Those of the stops that lie on their edges, or whose edges are moved.
pub(crate) fn nodes_of<A: Allocator>(
    alloc: A,
    edges: &[Edge],
    stops: &[Stop],
    moved: &[bool],
) -> Result<Vec<Stop, A>, AllocError>
    requires within { All (λ stop. stop.place < length edges.now) stops.now }
    requires in_order { AllPairs IsBefore stops.now }
    requires flags { length moved.now ≡ length edges.now }
    ensures { IfOk result (λ nodes. AreKept edges.now moved.now stops.now nodes.items) }
{
    let mut nodes = Vec::with_capacity(alloc, stops.len())?;
    for stop in stops {
        push_if_kept(edges[stop.place], moved[stop.place], *stop, &mut nodes)?;
    }
    Ok(nodes)
}

// Appends the stop, if it lies on the edge, or this is moved.
fn push_if_kept<A: Allocator>(
    edge: Edge,
    is_moved: bool,
    stop: Stop,
    nodes: &mut Vec<Stop, A>,
) -> Result<(), AllocError>
    ensures { OnOk result (AppendsIfKept edge is_moved stop nodes.old.items nodes.new.items) }
{
    if is_kept(edge, is_moved, stop) {
        nodes.push(stop)?;
    }
    Ok(())
}
