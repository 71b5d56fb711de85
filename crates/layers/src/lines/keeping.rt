//! Which edges are kept, by where their middles lie.

ghost use Rattle.std.specs.Prelude.{◌≡◌, ◌<◌, ◌^◌, ◌+ℤ◌, All, IfOk, List, length, map};
ghost use Rattle.plane.specs.declared.edge.Edge.{Edge};
ghost use Rattle.plane.specs.Meet.Crosses.{IsWithin};
ghost use Rattle.plane.specs.Ends.{start_of};
ghost use Rattle.noding.specs.Offsets.{AreJoined};
ghost use Rattle.layers.specs.Around.{halved};
ghost use Rattle.layers.specs.LineParts.{AreMarked, AreTold, IsLoop, mark_of};
ghost use Rattle.layers.specs.Lines.{middle};

use super::Keep;
use crate::around::{HalfPoint, append_pairs_in};
use crate::points::Border;
use crate::shapes::Shapes;
use overlay::fill::FillRule;
use plane::edge::{Edge, start_of};
use plane::point::Point;
use std::alloc::{AllocError, Allocator};

/// Whether each of the edges is kept: whether its middle lies in the shape of the rings, or doesn't. The ends tell where the
/// edges of each ring stop, which lead back to where they begin.
pub fn kept_edges<A: Allocator + Copy>(
    alloc: A,
    edges: &[Edge],
    ring_edges: &[Edge],
    ring_ends: &[usize],
    rule: FillRule,
    keep: Keep,
) -> Result<Vec<bool, A>, AllocError>
    requires { (rings : List (List Edge)) × AreJoined rings ring_edges.now ring_ends.now × All IsLoop rings }
    ensures { IfOk result (λ kept. AreTold rule keep ring_edges.now edges.now kept.items) }
{
    let middles = middles_of(alloc, edges)?;
    let points = starts_of(alloc, ring_edges)?;
    let shape = Shapes {
        points: &points,
        ring_ends,
        shape_ends: &[ring_ends.len()],
    };
    let mut pairs = Vec::new(alloc);
    append_pairs_in(&middles, shape, rule, Border::Closed, &mut pairs)?;
    marks_of(alloc, edges.len(), &pairs, mark_of(keep))
}

// The flag of those edges whose middles lie inside.
fn mark_of(keep: Keep) -> bool
    ensures { result ≡ mark_of keep }
{
    match keep {
        Keep::Inside => true,
        Keep::Outside => false,
    }
}

// The middles of the edges.
fn middles_of<A: Allocator>(alloc: A, edges: &[Edge]) -> Result<Vec<HalfPoint, A>, AllocError>
    ensures { IfOk result (λ middles. map halved middles.items ≡ map middle edges.now) }
{
    let mut middles = Vec::with_capacity(alloc, edges.len())?;
    for edge in edges {
        middles.push(middle_of(*edge))?;
    }
    Ok(middles)
}

// The middle of the edge.
fn middle_of(edge: Edge) -> HalfPoint
    ensures { halved result ≡ middle edge }
{
    HalfPoint {
        twice_x: sum(edge.x0, edge.x1),
        twice_y: sum(edge.y0, edge.y1),
    }
}

// The sum, in twice as many bits.
fn sum(one: i32, other: i32) -> i64
    ensures value { result ≡ one +ℤ other }
    ensures within { IsWithin (2 ^ 32) result }
{
    i64::from(one) + i64::from(other)
}

// Where the edges begin.
fn starts_of<A: Allocator>(alloc: A, edges: &[Edge]) -> Result<Vec<Point, A>, AllocError>
    ensures { IfOk result (λ points. points.items ≡ map start_of edges.now) }
{
    edges.iter().map(|edge| start_of(*edge)).collect(alloc)
}

// So many flags: the mark at the first places of the pairs, and the other flag at all others.
fn marks_of<A: Allocator>(
    alloc: A,
    count: usize,
    pairs: &[(usize, usize)],
    mark: bool,
) -> Result<Vec<bool, A>, AllocError>
    requires { All (λ pair. pair.0 < count) pairs.now }
    ensures { IfOk result (λ flags. AreMarked pairs.now mark count flags.items) }
{
    let mut flags = vec![in alloc; !mark; count]?;
    // The mark stands at the first places of the pairs so far, and the other flag elsewhere.
    for (place, _) in pairs {
        flags[*place] = mark;
    }
    Ok(flags)
}
