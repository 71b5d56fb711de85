//! Edges in the order of their starts, and where those that start at a point stand.

ghost use Rattle.std.specs.Prelude.{◌≡◌, IsPermutation, MatchBool, OnOk};
ghost use Rattle.overlay.specs.Contours.Order.{AreInOrder, IsBehind, IsFirstFrom};
ghost use Rattle.plane.specs.Ends.{start_of};

use event_queue::buckets::sort_in_buckets;
use plane::edge::{Edge, start_of};
use plane::point::{Point, number_at};
use std::alloc::{AllocError, Allocator};
use std::cmp::Ordering;

/// Puts the edges in the order of their starts.
pub fn put_in_order<A: Allocator + Copy>(edges: &mut Vec<Edge, A>) -> Result<(), AllocError>
    ensures moved { IsPermutation edges.old.items edges.new.items }
    ensures order { OnOk result (AreInOrder edges.new.items) }
{
    sort_in_buckets(
        edges,
        |edge| number_at(edge.x0, edge.y0),
        |one: &Edge, other: &Edge| -> Ordering { start_of(*one).cmp(&start_of(*other)) },
    )
}

/// How many of the edges in order start before the point.
pub fn first_from(sorted: &[Edge], point: Point) -> usize
    requires { AreInOrder sorted.now }
    ensures { IsFirstFrom sorted.now point result }
{
    let mut low = 0;
    let mut high = sorted.len();
    while low < high {
        let middle = low + (high - low) / 2;
        if is_behind(sorted[middle], point) {
            high = middle;
        } else {
            low = middle + 1;
        }
    }
    low
}

/// Whether the edge starts at the point or behind it.
pub fn is_behind(edge: Edge, point: Point) -> bool
    ensures { MatchBool result (IsBehind point (start_of edge)) (¬ (IsBehind point (start_of edge))) }
{
    point.x < edge.x0 || (point.x == edge.x0 && point.y <= edge.y0)
}
