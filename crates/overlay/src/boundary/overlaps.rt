//! How many edges of a sample are equal or overlap along an axis.

ghost use Rattle.std.specs.Prelude.{◌<◌, length};

use super::lines::{Place, end_place, onwards, start_place};
use noding::sample::sample_size;
use plane::edge::Edge;
use plane::sample::place_by_chance;
use std::alloc::{AllocError, Allocator};

// Where an edge starts and ends, going onwards, and its place among the edges.
#[derive(Clone, Copy, Debug, PartialEq, Eq, PartialOrd, Ord)]
struct Taken {
    start: Place,
    end: Place,
    place: usize,
}

/// How many edges of a sample overlap with another one of it along one line, or are equal to it, whichever way they go.
pub fn count_overlaps<A: Allocator>(alloc: A, edges: &[Edge]) -> Result<usize, AllocError>
    requires { 0 < length edges.now }
{
    let mut sample = sample_of(alloc, edges)?;
    sample.sort_unstable();
    let mut count = 0;
    // Those of one line stand side by side, in the order in which they start.
    for next in 1..sample.len() {
        if overlap(sample[next - 1], sample[next]) {
            count += 1;
        }
    }
    Ok(count)
}

// Whether the second edge starts on the first one, before its end. An edge that was taken twice has the same place.
fn overlap(one: Taken, other: Taken) -> bool {
    one.start.line == other.start.line
        && other.start.along < one.end.along
        && one.place != other.place
}

// Some of the edges, where there are edges. A few may be there more than once.
fn sample_of<A: Allocator>(alloc: A, edges: &[Edge]) -> Result<Vec<Taken, A>, AllocError>
    requires { 0 < length edges.now }
{
    let size = sample_size(edges.len());
    let mut sample = Vec::with_capacity(alloc, size)?;
    for index in 0..size {
        let place = place_by_chance(index, edges.len());
        let edge = onwards(edges[place]);
        sample.push(Taken {
            start: start_place(edge),
            end: end_place(edge),
            place,
        })?;
    }
    Ok(sample)
}
