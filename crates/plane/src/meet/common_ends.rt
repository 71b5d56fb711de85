//! Which edges have a common end.

ghost use Rattle.std.specs.Prelude.{◌<◌, All, IfOk, OnOk, length};
ghost use Rattle.plane.specs.Gains.{GainsThese};
ghost use Rattle.plane.specs.Meet.Columns.{AreEnds, AreTogether, HaveAllAlike, IsAlike, IsEndOf, IsWithinCount};

use crate::edge::{Edge, end_of, start_of};
use crate::point::Point;
use std::alloc::{AllocError, Allocator};

// An end of an edge, and the edge's place.
#[derive(Clone, Copy, PartialEq, Eq, PartialOrd, Ord)]
pub struct EndAt {
    pub point: Point,
    pub place: usize,
}

/// Pairs of places of edges, among them all that have a common end, the lesser place first or last. All of them have one.
///
/// It sorts the ends. For n edges and k such pairs it takes O(n log n + k) steps. Memory that is refused is the only error.
pub fn pairs_at_common_ends<A: Allocator + Copy>(
    alloc: A,
    edges: &[Edge],
) -> Result<Vec<(usize, usize), A>, AllocError>
    ensures ok { IfOk result (λ pairs. HaveAllAlike edges.now pairs.items) }
    ensures within { IfOk result (λ pairs. All (IsWithinCount (length edges.now)) pairs.items) }
{
    let ends = ends_of(alloc, edges)?;
    let mut pairs = Vec::new(alloc);
    for first in 0..ends.len() {
        append_alike(&ends, first, &mut pairs)?;
    }
    Ok(pairs)
}

// The ends of the edges, in order by their points.
fn ends_of<A: Allocator>(alloc: A, edges: &[Edge]) -> Result<Vec<EndAt, A>, AllocError>
    ensures are { IfOk result (λ ends. AreEnds edges.now ends.items) }
    ensures together { IfOk result (λ ends. AreTogether ends.items) }
{
    let mut ends = Vec::new(alloc);
    for (place, edge) in edges.iter().enumerate() {
        push_ends(place, *edge, &mut ends)?;
    }
    ends.sort_unstable();
    Ok(ends)
}

// Appends the two ends of the edge at this place.
fn push_ends<A: Allocator>(
    place: usize,
    edge: Edge,
    ends: &mut Vec<EndAt, A>,
) -> Result<(), AllocError>
    ensures { OnOk result (GainsThese (IsEndOf place edge) ends.old.items ends.new.items) }
{
    ends.push(EndAt {
        point: start_of(edge),
        place,
    })?;
    ends.push(EndAt {
        point: end_of(edge),
        place,
    })?;
    Ok(())
}

// Appends the pairs of the places of the end at the first place, and of those behind it that are the same point.
fn append_alike<A: Allocator>(
    ends: &[EndAt],
    first: usize,
    pairs: &mut Vec<(usize, usize), A>,
) -> Result<(), AllocError>
    requires within { first < length ends.now }
    requires together { AreTogether ends.now }
    ensures { OnOk result (GainsThese (IsAlike ends.now first (length ends.now)) pairs.old.items pairs.new.items) }
{
    let one = ends[first];
    let mut next = first + 1;
    // The pairs with those before `next` are there.
    while next < ends.len() && ends[next].point == one.point {
        pairs.push((one.place, ends[next].place))?;
        next += 1;
    }
    Ok(())
}
