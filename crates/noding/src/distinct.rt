//! Edges that stand in a list more than once: each is noded once, and its stops are told for each of its copies.

ghost use Rattle.std.specs.Prelude.{◌≡◌, ◌≤◌, ◌<◌, ◌++◌, All, AllPairs, IfOk, IfSome, OnOk, length, map, slice_get};
ghost use Rattle.noding.specs.Distinct.{AppendsUnlessLast, AreCopied, AreDistinct, ArePlaced, AreStarts, at_place};
ghost use Rattle.noding.specs.Offsets.{between};
ghost use Rattle.noding.specs.Stops.{AreAt, IsBefore};

use crate::sample::sample_size;
use crate::stops::Stop;
use plane::edge::Edge;
use plane::sample::place_by_chance;
use std::alloc::{AllocError, Allocator};
use std::cmp::Ordering;

// Fewer edges than these are noded as they stand: looking for copies among them would cost more than it saves.
const FEW: usize = 64;

// Where a sample has so many copies it is taken that edges stand there often.
const ENOUGH_COPIES: usize = 3;

/// The distinct edges of a list, and for each of its places the place of its like among them.
#[derive(Drop)]
pub struct Distinct<A: Allocator> {
    pub edges: Vec<Edge, A>,
    pub places: Vec<usize, A>,
}

// An edge, and the place at which it stands.
#[derive(Clone, Copy, Debug, PartialEq, Eq, PartialOrd, Ord)]
struct Placed {
    edge: Edge,
    place: usize,
}

/// The distinct edges, or nothing where hardly any edge stands there twice, as a sample tells.
///
/// Two edges are the same that have the same start and the same end: an edge and its reverse differ. The sample decides speed
/// alone. Where it misses copies they are noded one by one.
pub fn distinct_of<A: Allocator + Copy>(
    alloc: A,
    edges: &[Edge],
) -> Result<Option<Distinct<A>>, AllocError>
    ensures { IfOk result (λ found. IfSome found (λ distinct. AreDistinct edges.now distinct.edges.items distinct.places.items)) }
{
    if edges.len() < FEW {
        return Ok(None);
    }
    if count_copies(alloc, edges)? < ENOUGH_COPIES {
        return Ok(None);
    }
    let placed = placed_edges(alloc, edges)?;
    let distinct = distinct_among(alloc, edges, &placed)?;
    Ok(Some(distinct))
}

// How many edges of a sample are copies of others of it.
fn count_copies<A: Allocator>(alloc: A, edges: &[Edge]) -> Result<usize, AllocError>
    requires { 0 < length edges.now }
{
    let mut sample = sample_of(alloc, edges)?;
    sample.sort_unstable();
    let mut count = 0;
    // Copies stand side by side, and so does an edge that was taken twice: that has the same place.
    for next in 1..sample.len() {
        if is_copy(sample[next - 1], sample[next]) {
            count += 1;
        }
    }
    Ok(count)
}

// Whether the edges are the same, and stand at two places.
fn is_copy(one: Placed, other: Placed) -> bool {
    one.edge == other.edge && one.place != other.place
}

// Some of the edges with their places, where there are edges. A few may be there more than once.
fn sample_of<A: Allocator>(alloc: A, edges: &[Edge]) -> Result<Vec<Placed, A>, AllocError>
    requires { 0 < length edges.now }
{
    let size = sample_size(edges.len());
    let mut sample = Vec::with_capacity(alloc, size)?;
    for index in 0..size {
        let place = place_by_chance(index, edges.len());
        sample.push(Placed {
            edge: edges[place],
            place,
        })?;
    }
    Ok(sample)
}

// The edges with their places, so that copies stand side by side.
fn placed_edges<A: Allocator>(alloc: A, edges: &[Edge]) -> Result<Vec<Placed, A>, AllocError>
    ensures { IfOk result (λ placed. ArePlaced edges.now placed.items) }
{
    let mut placed = Vec::with_capacity(alloc, edges.len())?;
    for (place, edge) in edges.iter().enumerate() {
        placed.push(Placed { edge: *edge, place })?;
    }
    placed.sort_unstable_by(|one: &Placed, other: &Placed| -> Ordering {
        one.edge.cmp(&other.edge)
    });
    Ok(placed)
}

// The distinct ones of edges that are given with their places, too. Where copies stand side by side there each is there once,
// which decides speed alone.
fn distinct_among<A: Allocator + Copy>(
    alloc: A,
    edges: &[Edge],
    placed: &[Placed],
) -> Result<Distinct<A>, AllocError>
    requires { ArePlaced edges.now placed.now }
    ensures { IfOk result (λ distinct. AreDistinct edges.now distinct.edges.items distinct.places.items) }
{
    let mut places = vec![in alloc; 0; edges.len()]?;
    let mut distinct = Vec::new(alloc);
    // At the places of the edges so far stand those of their likes.
    for one in placed {
        places[one.place] = place_among(one.edge, &mut distinct)?;
    }
    Ok(Distinct {
        edges: distinct,
        places,
    })
}

// Where the edge stands among the distinct ones: it is appended, unless it is the last of them.
fn place_among<A: Allocator>(edge: Edge, distinct: &mut Vec<Edge, A>) -> Result<usize, AllocError>
    ensures place { IfOk result (λ place. slice_get distinct.new.items place ≡ Some edge) }
    ensures appends { IfOk result (λ place. AppendsUnlessLast edge distinct.old.items distinct.new.items) }
{
    let place = distinct.len();
    if place > 0 && distinct[place - 1] == edge {
        return Ok(place - 1);
    }
    distinct.push(edge)?;
    Ok(place)
}

/// The stops of all edges, where these are those of the distinct ones: for each edge in turn those of its like, at its own
/// place.
pub fn stops_of_each<A: Allocator + Copy>(
    alloc: A,
    distinct: &Distinct<A>,
    stops: &[Stop],
) -> Result<Vec<Stop, A>, AllocError>
    requires within { All (λ like. like < length distinct.now.edges.items) distinct.now.places.items }
    requires in_order { AllPairs IsBefore stops.now }
    ensures { IfOk result (λ copies. AreCopied distinct.now.places.items (length distinct.now.places.items) stops.now copies.items) }
{
    let starts = starts_of(alloc, distinct.edges.len(), stops)?;
    let mut copies = Vec::with_capacity(alloc, stops.len())?;
    // The edges so far have their stops there.
    for (place, like) in distinct.places.iter().enumerate() {
        let own = stops_at(stops, starts[*like], starts[*like + 1]);
        append_at(place, own, &mut copies)?;
    }
    Ok(copies)
}

/// Where the stops of each of so many edges begin among these, and where those of the last one end.
pub(crate) fn starts_of<A: Allocator>(
    alloc: A,
    count: usize,
    stops: &[Stop],
) -> Result<Vec<usize, A>, AllocError>
    requires { AllPairs IsBefore stops.now }
    ensures { IfOk result (λ starts. AreStarts count stops.now starts.items) }
{
    let mut starts = Vec::new(alloc);
    let mut next = 0;
    starts.push(next)?;
    // The stops of the edges so far stand before `next`, and where each of them begins is told.
    for place in 0..count {
        next = end_of_run(place, stops, next);
        starts.push(next)?;
    }
    Ok(starts)
}

// Where the stops end that are of the edge at this place, from the first one of them on.
fn end_of_run(place: usize, stops: &[Stop], first: usize) -> usize
    requires { first ≤ length stops.now }
    ensures { AreAt place first result stops.now }
{
    let mut next = first;
    // Those before `next` are the edge's.
    while next < stops.len() && stops[next].place == place {
        next += 1;
    }
    next
}

/// The stops from the one place on, and before the other.
pub(crate) fn stops_at(stops: &[Stop], start: usize, end: usize) -> &[Stop]
    requires { (start ≤ end) × (end ≤ length stops.now) }
    ensures { result.now ≡ between start end stops.now }
{
    &stops[start..end]
}

// Appends these stops as those of the edge at this place.
fn append_at<A: Allocator>(
    place: usize,
    stops: &[Stop],
    copies: &mut Vec<Stop, A>,
) -> Result<(), AllocError>
    ensures { OnOk result (copies.new.items ≡ copies.old.items ++ map (at_place place) stops.now) }
{
    for stop in stops {
        copies.push(Stop { place, ..*stop })?;
    }
    Ok(())
}
