//! The ends of the pieces of a fill, in the order in which a sweep comes to them.

ghost use Rattle.std.specs.Prelude.{◌≡◌, ◌<◌, ℕ, IfOk, get_or, length};
ghost use Rattle.overlay.specs.Fill.Handed.{AreEnds, active_at, cmp_ends, no_end};

use super::pieces::{Piece, rise, steps};
use event_queue::buckets::sort_in_buckets;
use plane::edge::Edge;
use plane::point::{Point, number_at};
use plane::sweep_line::ActiveEdge;
use plane::vectors::product;
use std::alloc::{AllocError, Allocator};
use std::cmp::Ordering;

/// The edges of the pieces with their places, in the order in which they end.
pub fn ends_in_order<A: Allocator + Copy>(
    alloc: A,
    pieces: &[Piece],
) -> Result<Vec<ActiveEdge, A>, AllocError>
    ensures { IfOk result (λ ends. AreEnds pieces.now ends.items) }
{
    let mut ends = with_places(alloc, pieces)?;
    sort_in_buckets(
        &mut ends,
        |end| number_at(end.edge.x1, end.edge.y1),
        |one: &ActiveEdge, other: &ActiveEdge| -> Ordering { compare_ends(one.edge, other.edge) },
    )?;
    Ok(ends)
}

// The edges of the pieces with their places.
fn with_places<A: Allocator>(alloc: A, pieces: &[Piece]) -> Result<Vec<ActiveEdge, A>, AllocError>
    ensures { IfOk result (λ actives. (length actives.items ≡ length pieces.now)
        × ((place : ℕ) → place < length pieces.now → get_or actives.items place no_end ≡ active_at pieces.now place)) }
{
    let mut actives = Vec::with_capacity(alloc, pieces.len())?;
    for place in 0..pieces.len() {
        let edge = pieces[place].edge;
        actives.push(ActiveEdge { edge, place })?;
    }
    Ok(actives)
}

// In which order two edges end that go rightwards: by x, by y, and of those that end at one point the steeper one first.
fn compare_ends(one: Edge, other: Edge) -> Ordering
    ensures { result ≡ cmp_ends one other }
{
    let across = one.x1.cmp(&other.x1);
    if across != Ordering::Equal {
        return across;
    }
    let up = one.y1.cmp(&other.y1);
    if up != Ordering::Equal {
        return up;
    }
    product(rise(other), steps(one)).cmp(&product(rise(one), steps(other)))
}

/// How many of the first ends come before the point, by x and then by y, where so many are known to.
pub fn count_before(ends: &[ActiveEdge], known: usize, point: Point) -> usize {
    let mut count = known;
    while count < ends.len() && ends_before(ends[count].edge, point) {
        count += 1;
    }
    count
}

// Whether the edge ends before the point, by x and then by y.
fn ends_before(edge: Edge, point: Point) -> bool {
    edge.x1 < point.x || edge.x1 == point.x && edge.y1 < point.y
}
