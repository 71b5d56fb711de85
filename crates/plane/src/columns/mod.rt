//! Which edges cross, and which pass between two heights at a column, in n log n whatever their shape: a sweep by whole columns.

ghost use Rattle.std.specs.Prelude.{◌≡◌, ◌<◌, All, length, IfErr, IfOk};
ghost use Rattle.i_tree.specs.declared.Refusal.TheVariants.{OutOfMemory};
ghost use Rattle.plane.specs.Columns.Asked.{Reaches};
ghost use Rattle.plane.specs.Columns.Steps.{FindsComparing};
ghost use Rattle.plane.specs.Pairs.Pairs.{ArePairs, ArePairsBetween};
ghost use Rattle.plane.specs.SweepLine.Crossings.{Cross};

use crate::edge::Edge;
use i_tree::Refusal;
use i_tree::steps::{Counter, Uncounted};
use std::alloc::Allocator;
use sweep::serve_all;

mod descent;
mod events;
mod exchanges;
mod moments;
mod status;
mod sweep;

/// What is asked at a column, which is a whole x: which edges have their height there between these two, both among them.
#[derive(Clone, Copy, Debug, PartialEq, Eq)]
pub struct Asked {
    pub x: i32,
    pub low: i32,
    pub high: i32,
}

/// What a sweep by columns finds: the pairs of places of edges that cross, the lesser first; and the pairs of places of an edge
/// and of what is asked that it reaches.
#[derive(Drop)]
pub struct Found<A: Allocator> {
    pub crossed: Vec<(usize, usize), A>,
    pub met: Vec<(usize, usize), A>,
}

/// The pairs of places `(i, j)` of edges that cross, i below j, each once; and those of an edge and of what is asked that it
/// reaches, each once. The order of the pairs is open.
///
/// Edges cross as `cross` says: between whole columns the one goes from below the other to above it, and neither ends there. An
/// edge reaches what is asked where it covers that x, as `locate` says, at a height between the two. A vertical edge or a point
/// crosses and reaches nothing. Nothing is rounded.
///
/// It is refused for want of memory alone, that of the allocator. An edge that finds 4,294,967,294 others active is refused as for
/// want of memory.
///
/// It is the textbook's sweep line after Bentley and Ottmann, but that it stops at whole columns alone: two neighbours are
/// exchanged at the first column at which, or just behind which, they stand the wrong way round. So no event has a rational x. For
/// n edges that cross in k pairs, and m that are asked and reached r times, it takes O((n + m + k) log (n + m + k) + r) steps.
pub fn find_by_columns<A: Allocator + Copy>(
    alloc: A,
    edges: &[Edge],
    asked: &[Asked],
) -> Result<Found<A>, Refusal>
    ensures crossed { IfOk result (λ found. ArePairs Cross edges.now found.crossed.items) }
    ensures met { IfOk result (λ found. ArePairsBetween Reaches edges.now asked.now found.met.items) }
    ensures crossed_within { IfOk result (λ found.
        All (λ pair. (pair.0 < length edges.now) × (pair.1 < length edges.now)) found.crossed.items) }
    ensures met_within { IfOk result (λ found.
        All (λ pair. (pair.0 < length edges.now) × (pair.1 < length asked.now)) found.met.items) }
    ensures refused { IfErr result (λ cause. cause ≡ OutOfMemory) }
{
    serve_all(alloc, &mut Uncounted, edges, asked)
}

/// As `find_by_columns`, with its comparisons of edges counted: each on a way down the active edges, each of two neighbours, and
/// each of an edge with what is asked.
///
/// For n edges that cross in k pairs, and m that are asked and reached r times, there are 2 n + m events at most. Each takes one
/// way down, of two comparisons for each level of the active edges, and two comparisons more. Besides there are 2 k of neighbours,
/// and r. An exchange is put down by a comparison, so that there are no more of them. How events and exchanges are kept in order
/// isn't counted.
pub fn find_by_columns_counted<A: Allocator + Copy, C: Counter>(
    alloc: A,
    steps: &mut C,
    edges: &[Edge],
    asked: &[Asked],
) -> Result<Found<A>, Refusal>
    ensures crossed { IfOk result (λ found. ArePairs Cross edges.now found.crossed.items) }
    ensures met { IfOk result (λ found. ArePairsBetween Reaches edges.now asked.now found.met.items) }
    ensures crossed_within { IfOk result (λ found.
        All (λ pair. (pair.0 < length edges.now) × (pair.1 < length edges.now)) found.crossed.items) }
    ensures met_within { IfOk result (λ found.
        All (λ pair. (pair.0 < length edges.now) × (pair.1 < length asked.now)) found.met.items) }
    ensures steps { IfOk result (λ found.
        FindsComparing C.made steps.old steps.new edges.now asked.now found.crossed.items found.met.items) }
    ensures refused { IfErr result (λ cause. cause ≡ OutOfMemory) }
{
    serve_all(alloc, steps, edges, asked)
}
