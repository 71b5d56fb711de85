//! Whether a ring of edges crosses itself, and which neighbours of it share a corner.

use i_tree::Refusal;
use plane::edge::Edge;
use plane::meet::{Meeting, how_they_meet, meetings};
use std::alloc::Global;

/// Whether two edges of the ring meet elsewhere than at the corner between them. Each edge begins where the one before it
/// ends, and the first one where the last ends: such neighbours may touch, and share no stretch.
pub fn crosses_itself(alloc: Global, ring: &[Edge]) -> Result<bool, Refusal> {
    let mut pairs = Vec::new(alloc);
    meetings(ring, &mut pairs)?;
    for pair in &pairs {
        let (first, second) = *pair;
        if !are_neighbours(first, second, ring.len()) || !touch(ring, first, second) {
            return Ok(true);
        }
    }
    Ok(false)
}

/// The pairs of neighbours in the ring, each once, that share a corner and no more.
pub fn corners(alloc: Global, ring: &[Edge]) -> Result<Vec<(usize, usize)>, Refusal> {
    let mut pairs = Vec::new(alloc);
    meetings(ring, &mut pairs)?;
    let mut corners = Vec::new(alloc);
    for pair in &pairs {
        let (first, second) = *pair;
        if are_neighbours(first, second, ring.len()) && touch(ring, first, second) {
            corners.push((first, second))?;
        }
    }
    Ok(corners)
}

// Whether the edges at these places of a ring of so many edges are neighbours, the lesser place first.
fn are_neighbours(first: usize, second: usize, count: usize) -> bool {
    first.abs_diff(second) == 1 || (first == 0 && second == count.saturating_sub(1))
}

// Whether the edges at these places touch: they share one point, which is an end.
fn touch(edges: &[Edge], first: usize, second: usize) -> bool {
    match (edges.get(first), edges.get(second)) {
        (Some(one), Some(other)) => how_they_meet(*one, *other) == Meeting::Touch,
        _ => false,
    }
}
