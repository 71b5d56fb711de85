//! Which way rings run.

ghost use Rattle.std.specs.Bool.{OnTrue};
ghost use Rattle.std.specs.Prelude.{◌≡◌, ◌≢◌, ◌<ℤ◌, false, IfOk, IfSome, None, length, map};
ghost use Rattle.overlay.specs.Contours.Rings.{ring_edges};
ghost use Rattle.overlay.specs.Grouping.{sooner};
ghost use Rattle.overlay.specs.Polygons.{begins_before, first_sloped, is_counterclockwise, runs_rightwards};
ghost use Rattle.overlay.specs.Rings.{AreEnds, rings_of};

use super::edges::edge_at;
use crate::fill::pieces::compare_begins;
use crate::rings::ring_at;
use plane::edge::Edge;
use plane::point::Point;
use plane::sweep_line::heights::turn_rightwards;
use std::alloc::{AllocError, Allocator};
use std::cmp::Ordering;

/// For each ring whether it runs counterclockwise.
#[tactic(auto, using(crate::proofs::EachRing::told_more, crate::proofs::EachRing::rings_all))]
pub fn directions<A: Allocator>(
    alloc: A,
    points: &[Point],
    ends: &[usize],
) -> Result<Vec<bool, A>, AllocError>
    requires { AreEnds 0 ends.now (length points.now) }
    ensures { IfOk result (λ are. are.items ≡ map is_counterclockwise (rings_of points.now 0 ends.now)) }
{
    let mut are_outer = Vec::with_capacity(alloc, ends.len())?;
    for ring in 0..ends.len() {
        are_outer.push(is_counterclockwise(ring_at(points, ends, ring)))?;
    }
    Ok(are_outer)
}

/// Whether the ring runs counterclockwise: whether the lowest of its leftmost edges runs rightwards.
pub fn is_counterclockwise(ring: &[Point]) -> bool
    ensures { result ≡ is_counterclockwise ring.now }
{
    runs_rightwards(first_edge(ring))
}

/// Of the ring's edges that aren't vertical the one that begins first.
pub fn first_edge(ring: &[Point]) -> Option<Edge>
    ensures first { result ≡ first_sloped None (ring_edges ring.now) }
    ensures sloped { IfSome result (λ edge. edge.x0 ≢ edge.x1) }
{
    let mut best = None;
    for place in 0..ring.len() {
        best = sooner(best, edge_at(ring, place));
    }
    best
}

// Of the best edge so far and this one, the one that begins first. A vertical one doesn't count.
fn sooner(best: Option<Edge>, edge: Edge) -> Option<Edge>
    ensures { result ≡ sooner best edge }
{
    if edge.x0 == edge.x1 || begins_behind(edge, best) {
        return best;
    }
    if begins_before(edge, best) {
        return Some(edge);
    }
    best
}

// Whether the edge begins further right than the best one so far: that tells most of the edges by one comparison.
fn begins_behind(edge: Edge, best: Option<Edge>) -> bool
    ensures { OnTrue result (begins_before edge best ≡ false) }
{
    match best {
        Some(other) => starts_before(turn_rightwards(other), turn_rightwards(edge)),
        None => false,
    }
}

// Whether the one edge starts further left than the other.
fn starts_before(one: Edge, other: Edge) -> bool
    ensures { OnTrue result (one.x0 <ℤ other.x0) }
{
    one.x0 < other.x0
}

// Whether the edge begins before the best one so far, or there is none.
fn begins_before(edge: Edge, best: Option<Edge>) -> bool
    ensures { result ≡ begins_before edge best }
{
    match best {
        Some(other) => {
            compare_begins(turn_rightwards(edge), turn_rightwards(other)) == Ordering::Less
        }
        None => true,
    }
}

// Whether there is an edge, and it runs rightwards.
fn runs_rightwards(best: Option<Edge>) -> bool
    ensures { result ≡ runs_rightwards best }
{
    match best {
        Some(edge) => edge.x0 < edge.x1,
        None => false,
    }
}
