//! The vertical edges that close the edges that bound a region, by what ends and starts along each column.

ghost use Rattle.std.specs.Prelude.{◌≡◌, ◌≤◌, ◌≤ℤ◌, ◌+ℤ◌, ◌-ℤ◌, ◌^◌, ◌++◌, ℤ, pos, negsuc, List, All, IfOk, OnOk, OnErr, drop, length, map};
ghost use Rattle.plane.specs.declared.edge.Edge.{Edge};
ghost use Rattle.overlay.specs.Fill.Verticals.{AreVerticalsOf, BoundRegion, before_all, ending, left_end, point_of_end, right_end, starting, vertical_between, verticals_between};
ghost use Rattle.plane.specs.Lists.{Extends};
ghost use Rattle.plane.specs.Ends.{edge_between};

use event_queue::buckets::sort_in_buckets;
use plane::edge::Edge;
use plane::point::number_at;
use std::alloc::{AllocError, Allocator};
use std::cmp::Ordering;

/// An end of an edge, and what it adds to how many edges end, less how many start: 1 where the edge ends there, -1 where it
/// starts. Ends are in order by x, and then by y.
#[derive(Clone, Copy, Debug, PartialEq, Eq, PartialOrd, Ord)]
pub struct End {
    pub x: i32,
    pub y: i32,
    pub change: i8,
}

/// Appends the vertical edges that close those from the place `first` on, which aren't vertical and bound a region.
///
/// Along each column of ends, from below to above, the ends less the starts so far are 1, 0 or -1 after each point. Where they
/// are 1 a vertical edge goes up from the point to the next one of the column, where they are -1 one goes down from that to it.
/// It is refused for want of memory alone, and has appended some of them then. The memory is that of the edges' allocator.
pub fn append_verticals<A: Allocator + Copy>(
    edges: &mut Vec<Edge, A>,
    first: usize,
) -> Result<(), AllocError>
    requires within { first ≤ length edges.old.items }
    requires bound { BoundRegion (drop first edges.old.items) }
    ensures ok { OnOk result ((verticals : List Edge) × (edges.new.items ≡ edges.old.items ++ verticals)
        × AreVerticalsOf (drop first edges.old.items) verticals) }
    ensures err { OnErr result (Extends edges.old.items edges.new.items) }
{
    let alloc = *edges.allocator();
    let mut ends = ends_of(alloc, &edges[first..])?;
    sort_in_buckets(
        &mut ends,
        |end| number_at(end.x, end.y),
        |one: &End, other: &End| -> Ordering { one.cmp(other) },
    )?;
    push_verticals(&ends, edges)
}

// Both ends of each edge: first the left ones and then the right ones. A fill keeps edges in the order of their left ends, so
// that the first half is a run that the sort finds.
fn ends_of<A: Allocator>(alloc: A, edges: &[Edge]) -> Result<Vec<End, A>, AllocError>
    ensures { IfOk result (λ ends. ends.items ≡ map left_end edges.now ++ map right_end edges.now) }
{
    let mut ends = Vec::with_capacity(alloc, 2 * edges.len())?;
    append_left_ends(edges, &mut ends)?;
    append_right_ends(edges, &mut ends)?;
    Ok(ends)
}

fn append_left_ends<A: Allocator>(edges: &[Edge], ends: &mut Vec<End, A>) -> Result<(), AllocError>
    ensures { OnOk result (ends.new.items ≡ ends.old.items ++ map left_end edges.now) }
{
    for edge in edges {
        ends.push(left_end(*edge))?;
    }
    Ok(())
}

fn append_right_ends<A: Allocator>(edges: &[Edge], ends: &mut Vec<End, A>) -> Result<(), AllocError>
    ensures { OnOk result (ends.new.items ≡ ends.old.items ++ map right_end edges.now) }
{
    for edge in edges {
        ends.push(right_end(*edge))?;
    }
    Ok(())
}

// Of the two ends of the edge the one that isn't further right.
fn left_end(edge: Edge) -> End
    ensures { result ≡ left_end edge }
{
    if edge.x1 < edge.x0 {
        ending(edge)
    } else {
        starting(edge)
    }
}

// The other one of the two.
fn right_end(edge: Edge) -> End
    ensures { result ≡ right_end edge }
{
    if edge.x1 < edge.x0 {
        starting(edge)
    } else {
        ending(edge)
    }
}

// The end at which the edge starts.
fn starting(edge: Edge) -> End
    ensures { result ≡ starting edge }
{
    End {
        x: edge.x0,
        y: edge.y0,
        change: -1,
    }
}

// The end at which it ends.
fn ending(edge: Edge) -> End
    ensures { result ≡ ending edge }
{
    End {
        x: edge.x1,
        y: edge.y1,
        change: 1,
    }
}

// Appends the vertical edges between next ends. Before the first end and after the last one of each column the sum is 0, so that
// no edge goes there.
fn push_verticals<A: Allocator>(ends: &[End], edges: &mut Vec<Edge, A>) -> Result<(), AllocError>
    requires { All (λ end. (negsuc 0 ≤ℤ end.change) × (end.change ≤ℤ pos 1)) ends.now }
    ensures ok { OnOk result (edges.new.items ≡ edges.old.items ++ verticals_between (pos 0) before_all ends.now) }
    ensures err { OnErr result (Extends edges.old.items edges.new.items) }
{
    let mut sum = 0;
    let mut last = End {
        x: 0,
        y: 0,
        change: 0,
    };
    for end in ends {
        if let Some(edge) = vertical_between(sum, last, *end) {
            edges.push(edge)?;
        }
        sum = sum_with(sum, *end);
        last = *end;
    }
    Ok(())
}

// The sum and the end's change.
fn sum_with(sum: i64, end: End) -> i64
    requires from { (pos 1 -ℤ pos (2 ^ 63)) ≤ℤ sum }
    requires upto { sum ≤ℤ (pos (2 ^ 63) -ℤ pos 2) }
    requires change { (negsuc 0 ≤ℤ end.change) × (end.change ≤ℤ pos 1) }
    ensures { result ≡ sum +ℤ end.change }
{
    sum + end.change as i64
}

// The vertical edge between two ends that are next to each other, by the ends less the starts upto the first of them.
fn vertical_between(sum: i64, low: End, high: End) -> Option<Edge>
    ensures { result ≡ vertical_between sum low high }
{
    if low.x == high.x && low.y == high.y {
        None
    } else if 0 < sum {
        Some(edge_between(low, high))
    } else if sum < 0 {
        Some(edge_between(high, low))
    } else {
        None
    }
}

// The edge from the one end to the other.
fn edge_between(from: End, to: End) -> Edge
    ensures { result ≡ edge_between (point_of_end from) (point_of_end to) }
{
    Edge {
        x0: from.x,
        y0: from.y,
        x1: to.x,
        y1: to.y,
    }
}
