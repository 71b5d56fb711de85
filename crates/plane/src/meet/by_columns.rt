//! Which edges meet, by sweeps over whole columns, in n log n whatever their shape.

ghost use Rattle.std.specs.Prelude.{◌≡◌, ◌++◌, [], All, IfErr, IfOk, OnOk, length, map};
ghost use Rattle.i_tree.specs.declared.Refusal.TheVariants.{OutOfMemory};
ghost use Rattle.plane.specs.Gains.{GainsThese, IsOfSome};
ghost use Rattle.plane.specs.Meet.Columns.{HaveAllFound, HaveAllMeetings, IsMeetingOf, IsPairAbout, IsWithinCount, asked_first, asked_last, exchanged, place_about};
ghost use Rattle.plane.specs.Meet.Meetings.{AreMeetings};

use super::common_ends::pairs_at_common_ends;
use super::exact::meet;
use crate::columns::{Asked, Found, find_by_columns};
use crate::edge::Edge;
use i_tree::Refusal;
use std::alloc::{AllocError, Allocator};

/// The pairs of places `(i, j)` whose edges meet, i below j, each once, as `meetings` tells them. The order of the pairs is open.
///
/// Edges that meet cross, or have a common end, or one of them reaches an end of the other one, or an upright one between its
/// ends. With the axes exchanged so do upright edges. What two sweeps find so, and the edges that have a common end, are tested.
///
/// It is refused for want of memory alone, that of the allocator. For n edges that meet in k pairs it takes O((n + k) log (n + k))
/// steps.
pub fn meetings_by_columns<A: Allocator + Copy>(
    alloc: A,
    edges: &[Edge],
) -> Result<Vec<(usize, usize), A>, Refusal>
    ensures ok { IfOk result (λ pairs. AreMeetings edges.now pairs.items) }
    ensures refused { IfErr result (λ cause. cause ≡ OutOfMemory) }
{
    let near = near_pairs(alloc, edges)?;
    let mut pairs = meeting_pairs(alloc, edges, &near)?;
    pairs.sort_unstable();
    pairs.dedup();
    Ok(pairs)
}

// Pairs of places of edges, among them all that meet, the lesser place first or last.
fn near_pairs<A: Allocator + Copy>(
    alloc: A,
    edges: &[Edge],
) -> Result<Vec<(usize, usize), A>, Refusal>
    ensures ok { IfOk result (λ near. HaveAllMeetings edges.now near.items) }
    ensures within { IfOk result (λ near. All (IsWithinCount (length edges.now)) near.items) }
    ensures refused { IfErr result (λ cause. cause ≡ OutOfMemory) }
{
    let mut near = found_pairs(alloc, edges)?;
    let turned = exchanged_edges(alloc, edges)?;
    let more = found_pairs(alloc, &turned)?;
    near.extend_from_slice(&more)?;
    let at_ends = pairs_at_common_ends(alloc, edges)?;
    near.extend_from_slice(&at_ends)?;
    Ok(near)
}

// The edges with the axes exchanged.
fn exchanged_edges<A: Allocator>(alloc: A, edges: &[Edge]) -> Result<Vec<Edge, A>, AllocError>
    ensures { IfOk result (λ turned. turned.items ≡ map exchanged edges.now) }
{
    edges
        .iter()
        .map(|edge| Edge {
            x0: edge.y0,
            y0: edge.x0,
            x1: edge.y1,
            y1: edge.x1,
        })
        .collect(alloc)
}

// The pairs of edges that cross, and those of which the first one reaches what is asked about the second one.
fn found_pairs<A: Allocator + Copy>(
    alloc: A,
    edges: &[Edge],
) -> Result<Vec<(usize, usize), A>, Refusal>
    ensures ok { IfOk result (λ pairs. HaveAllFound edges.now pairs.items) }
    ensures within { IfOk result (λ pairs. All (IsWithinCount (length edges.now)) pairs.items) }
    ensures refused { IfErr result (λ cause. cause ≡ OutOfMemory) }
{
    let asked = asked_about_all(alloc, edges)?;
    let Found {
        crossed: mut pairs,
        met,
    } = find_by_columns(alloc, edges, &asked)?;
    append_met(edges.len(), &met, &mut pairs)?;
    Ok(pairs)
}

// What is asked where each edge starts, and then where each ends.
fn asked_about_all<A: Allocator>(alloc: A, edges: &[Edge]) -> Result<Vec<Asked, A>, AllocError>
    ensures { IfOk result (λ asked. asked.items ≡ map asked_first edges.now ++ map asked_last edges.now) }
{
    let starts = edges.iter().map(|edge| asked_first(*edge));
    let ends = edges.iter().map(|edge| asked_last(*edge));
    starts.chain(ends).collect(alloc)
}

// What is asked where the edge starts: about all of an upright one.
fn asked_first(edge: Edge) -> Asked
    ensures { result ≡ asked_first edge }
{
    if edge.x0 == edge.x1 {
        return Asked {
            x: edge.x0,
            low: edge.y0.min(edge.y1),
            high: edge.y0.max(edge.y1),
        };
    }
    Asked {
        x: edge.x0,
        low: edge.y0,
        high: edge.y0,
    }
}

// What is asked where it ends.
fn asked_last(edge: Edge) -> Asked
    ensures { result ≡ asked_last edge }
{
    Asked {
        x: edge.x1,
        low: edge.y1,
        high: edge.y1,
    }
}

// Appends the pairs of an edge and of the one that is asked about, of so many, for those of an edge and of what is asked.
fn append_met<A: Allocator>(
    count: usize,
    met: &[(usize, usize)],
    pairs: &mut Vec<(usize, usize), A>,
) -> Result<(), AllocError>
    ensures { OnOk result (GainsThese (IsOfSome (IsPairAbout count) met.now) pairs.old.items pairs.new.items) }
{
    for pair in met {
        pairs.push((pair.0, place_about(count, pair.1)))?;
    }
    Ok(())
}

// Of what is asked where so many edges start, and where they end: the place of the edge that this is about.
fn place_about(count: usize, place: usize) -> usize
    ensures { result ≡ place_about count place }
{
    if place < count {
        return place;
    }
    place - count
}

// The pairs of these of which the edges meet, the lesser place first.
fn meeting_pairs<A: Allocator>(
    alloc: A,
    edges: &[Edge],
    near: &[(usize, usize)],
) -> Result<Vec<(usize, usize), A>, AllocError>
    requires { All (IsWithinCount (length edges.now)) near.now }
    ensures { IfOk result (λ pairs. GainsThese (IsOfSome (IsMeetingOf edges.now) near.now) [] pairs.items) }
{
    let mut pairs = Vec::new(alloc);
    for pair in near {
        append_if_meeting(edges, *pair, &mut pairs)?;
    }
    Ok(pairs)
}

// Appends the pair of these two places, the lesser one first, if their edges meet.
fn append_if_meeting<A: Allocator>(
    edges: &[Edge],
    near: (usize, usize),
    pairs: &mut Vec<(usize, usize), A>,
) -> Result<(), AllocError>
    requires { IsWithinCount (length edges.now) near }
    ensures { OnOk result (GainsThese (IsMeetingOf edges.now near) pairs.old.items pairs.new.items) }
{
    let first = near.0.min(near.1);
    let second = near.0.max(near.1);
    if first < second && meet(edges[first], edges[second]) {
        pairs.push((first, second))?;
    }
    Ok(())
}
