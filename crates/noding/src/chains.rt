//! From the stops of edges to their chains.

ghost use Rattle.std.specs.Prelude.{◌≡◌, ◌∷◌, ◌++◌, ◌≤◌, List, AllPairs, IfOk, OnOk, OnErr, length, map};
ghost use Rattle.std.specs.List.{flat_map};
ghost use Rattle.plane.specs.declared.point.Point.{Point};
ghost use Rattle.plane.specs.Lists.{Extends};
ghost use Rattle.plane.specs.Ends.{start_of};
ghost use Rattle.noding.specs.Offsets.{offsets, between};
ghost use Rattle.noding.specs.Stops.{AreAt, AreRuns, GoesToEnd, IsBefore, point_of};

use crate::stops::{Stop, point_of};
use plane::edge::{Edge, end_of, start_of};
use plane::point::Point;
use std::alloc::{AllocError, Allocator};

/// Appends to `points` for each edge its start, the points of its stops, and its end, and to `ends` where that stops.
///
/// Where memory has no room both are left as they were.
pub fn append_chains<A: Allocator>(
    edges: &[Edge],
    stops: &[Stop],
    points: &mut Vec<Point, A>,
    ends: &mut Vec<usize, A>,
) -> Result<(), AllocError>
    requires { AllPairs IsBefore stops.now }
    ensures ok { OnOk result ((chains : List (List Point)) × AreRuns edges.now stops.now chains
        × (points.new.items ≡ points.old.items ++ flat_map (λ chain. chain) chains)
        × (ends.new.items ≡ ends.old.items ++ offsets (length points.old.items) chains)) }
    ensures err { OnErr result ((points.new.items ≡ points.old.items) × (ends.new.items ≡ ends.old.items)) }
{
    let points_before = points.len();
    let ends_before = ends.len();
    let outcome = push_chains(edges, stops, points, ends);
    if outcome.is_err() {
        points.truncate(points_before);
        ends.truncate(ends_before);
    }
    outcome
}

// The same, but where memory has no room some may stay appended.
fn push_chains<A: Allocator>(
    edges: &[Edge],
    stops: &[Stop],
    points: &mut Vec<Point, A>,
    ends: &mut Vec<usize, A>,
) -> Result<(), AllocError>
    requires { AllPairs IsBefore stops.now }
    ensures ok { OnOk result ((chains : List (List Point)) × AreRuns edges.now stops.now chains
        × (points.new.items ≡ points.old.items ++ flat_map (λ chain. chain) chains)
        × (ends.new.items ≡ ends.old.items ++ offsets (length points.old.items) chains)) }
    ensures err { OnErr result (Extends points.old.items points.new.items × Extends ends.old.items ends.new.items) }
{
    let mut next = 0;
    // The chains of the edges so far stand there, and the stops from `next` on are those of this edge and of later ones.
    for (place, edge) in edges.iter().enumerate() {
        next = append_chain(*edge, place, stops, next, points)?;
        ends.push(points.len())?;
    }
    Ok(())
}

// Appends the chain of the edge at this place: its start, the points of its stops from the first one of them on, and its
// end, if that is another point. It answers where the stops end.
fn append_chain<A: Allocator>(
    edge: Edge,
    place: usize,
    stops: &[Stop],
    first: usize,
    points: &mut Vec<Point, A>,
) -> Result<usize, AllocError>
    requires { first ≤ length stops.now }
    ensures ok { IfOk result (λ end. AreAt place first end stops.now × ((chain : List Point)
        × GoesToEnd edge (start_of edge ∷ map (point_of edge) (between first end stops.now)) chain
        × (points.new.items ≡ points.old.items ++ chain))) }
    ensures err { OnErr result (Extends points.old.items points.new.items) }
{
    points.push(start_of(edge))?;
    let end = append_stops(edge, place, stops, first, points)?;
    append_end(edge, points)?;
    Ok(end)
}

// Appends the points of the stops at the edge at this place, from the first one of them on, and answers where they end.
fn append_stops<A: Allocator>(
    edge: Edge,
    place: usize,
    stops: &[Stop],
    first: usize,
    points: &mut Vec<Point, A>,
) -> Result<usize, AllocError>
    requires { first ≤ length stops.now }
    ensures ok { IfOk result (λ end. AreAt place first end stops.now
        × (points.new.items ≡ points.old.items ++ map (point_of edge) (between first end stops.now))) }
    ensures err { OnErr result (Extends points.old.items points.new.items) }
{
    let mut next = first;
    // The points of the stops of this edge before `next` stand there.
    while next < stops.len() && stops[next].place == place {
        points.push(point_of(edge, stops[next]))?;
        next += 1;
    }
    Ok(next)
}

// Appends the edge's end, if that isn't its start.
fn append_end<A: Allocator>(edge: Edge, points: &mut Vec<Point, A>) -> Result<(), AllocError>
    ensures ok { OnOk result (GoesToEnd edge points.old.items points.new.items) }
    ensures err { OnErr result (points.new.items ≡ points.old.items) }
{
    if edge.x0 == edge.x1 && edge.y0 == edge.y1 {
        return Ok(());
    }
    points.push(end_of(edge))?;
    Ok(())
}

/// The points from the one place on, and before the other.
pub fn chain_at(points: &[Point], start: usize, end: usize) -> &[Point]
    requires { (start ≤ end) × (end ≤ length points.now) }
    ensures { result.now ≡ between start end points.now }
{
    &points[start..end]
}
