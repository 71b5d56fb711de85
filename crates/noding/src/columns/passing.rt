//! Which edges pass which whole points, by two sweeps over columns: one for the edges that go further along x than along y, and one
//! with the axes exchanged for the others, which are steep.

ghost use Rattle.std.specs.Prelude.{◌≡◌, ◌<◌, ◌++◌, ℕ, List, All, IfErr, IfOk, OnOk, length, map};
ghost use Rattle.i_tree.specs.declared.Refusal.TheVariants.{OutOfMemory};
ghost use Rattle.plane.specs.Pairs.Pairs.{ArePairsBetween, PairBetween};
ghost use Rattle.noding.specs.Close.{PassesPoint};
ghost use Rattle.noding.specs.Columns.Passing.{AreKept, HasHeights, PassesAs, asked_around, asked_of, exchanged, is_steep, mirrored, swept_edge};

use crate::passing::passes_inside;
use i_tree::Refusal;
use plane::columns::{Asked, find_by_columns};
use plane::edge::Edge;
use plane::point::Point;
use plane::vectors::vector_along;
use std::alloc::{AllocError, Allocator};

/// The pairs of places `(i, j)` where the edge at i passes the point at j between its ends, each once, as `pairs_passed` tells
/// them. The order of the pairs is open.
///
/// An edge that isn't steep passes a pixel only where its height at the pixel's column is at most a unit from the pixel's middle.
/// So the sweep is asked which edges have such a height there, and each of these is tested. With the axes exchanged the same
/// holds of those that are steep.
///
/// It is refused for want of memory alone, that of the allocator. For n edges and m points, where edges cross in k pairs and come
/// as near as that to points in r, it takes O((n + m + k) log (n + m + k) + r) steps.
pub fn pairs_passed_by_columns<A: Allocator + Copy>(
    alloc: A,
    edges: &[Edge],
    points: &[Point],
) -> Result<Vec<(usize, usize), A>, Refusal>
    ensures ok { IfOk result (λ pairs. ArePairsBetween PassesPoint edges.now points.now pairs.items) }
    ensures within { IfOk result (λ pairs. All (λ pair. (pair.0 < length edges.now) × (pair.1 < length points.now)) pairs.items) }
    ensures refused { IfErr result (λ cause. cause ≡ OutOfMemory) }
{
    let mut pairs = Vec::new(alloc);
    append_passed(alloc, false, edges, points, &mut pairs)?;
    append_passed(alloc, true, edges, points, &mut pairs)?;
    Ok(pairs)
}

/// Appends the pairs of the steep edges, or those of the others.
pub(super) fn append_passed<A: Allocator + Copy>(
    alloc: A,
    steep: bool,
    edges: &[Edge],
    points: &[Point],
    pairs: &mut Vec<(usize, usize), A>,
) -> Result<(), Refusal>
    ensures ok { OnOk result ((found : List (ℕ × ℕ)) × (pairs.new.items ≡ pairs.old.items ++ found)
        × ArePairsBetween (PassesAs steep) edges.now points.now found) }
    ensures refused { IfErr result (λ cause. cause ≡ OutOfMemory) }
{
    let swept = swept_edges(alloc, steep, edges)?;
    let asked = asked_of_points(alloc, steep, points)?;
    let found = find_by_columns(alloc, &swept, &asked)?;
    append_if_passed(edges, points, &found.met, pairs)?;
    Ok(())
}

// Appends those of the pairs of an edge and a point of which the edge passes the point between its ends.
fn append_if_passed<A: Allocator>(
    edges: &[Edge],
    points: &[Point],
    met: &[(usize, usize)],
    pairs: &mut Vec<(usize, usize), A>,
) -> Result<(), AllocError>
    requires { All (λ pair. (pair.0 < length edges.now) × (pair.1 < length points.now)) met.now }
    ensures { OnOk result ((kept : List (ℕ × ℕ)) × (pairs.new.items ≡ pairs.old.items ++ kept)
        × AreKept (PairBetween PassesPoint edges.now points.now) met.now kept) }
{
    for pair in met {
        let point = points[pair.1];
        if passes_inside(edges[pair.0], point.x, point.y) {
            pairs.push(*pair)?;
        }
    }
    Ok(())
}

// What the sweep for the steep edges, or for the others, has in place of these.
fn swept_edges<A: Allocator>(
    alloc: A,
    steep: bool,
    edges: &[Edge],
) -> Result<Vec<Edge, A>, AllocError>
    ensures value { IfOk result (λ swept. swept.items ≡ map (swept_edge steep) edges.now) }
    ensures heights { IfOk result (λ swept. All HasHeights swept.items) }
{
    let mut swept = Vec::with_capacity(alloc, edges.len())?;
    for edge in edges {
        swept.push(swept_edge(steep, *edge))?;
    }
    Ok(swept)
}

// What the sweep has in place of the edge. One that it isn't for is a point there, which it leaves out.
fn swept_edge(steep: bool, edge: Edge) -> Edge
    ensures value { result ≡ swept_edge steep edge }
    ensures heights { HasHeights result }
{
    if is_steep(edge) != steep {
        return Edge {
            x0: 0,
            y0: 0,
            x1: 0,
            y1: 0,
        };
    }
    if steep {
        return mirrored(exchanged(edge));
    }
    mirrored(edge)
}

// Whether the edge goes further along y than along x.
fn is_steep(edge: Edge) -> bool
    ensures { result ≡ is_steep edge }
{
    let vector = vector_along(edge);
    vector.x.unsigned_abs() < vector.y.unsigned_abs()
}

// The edge with the axes exchanged.
fn exchanged(edge: Edge) -> Edge
    ensures { result ≡ exchanged edge }
{
    Edge {
        x0: edge.y0,
        y0: edge.x0,
        x1: edge.y1,
        y1: edge.x1,
    }
}

// The edge with right and left exchanged.
fn mirrored(edge: Edge) -> Edge
    ensures { result ≡ mirrored edge }
{
    Edge {
        x0: -1 - edge.x0,
        y0: edge.y0,
        x1: -1 - edge.x1,
        y1: edge.y1,
    }
}

// What the sweep is asked about each of the points.
fn asked_of_points<A: Allocator>(
    alloc: A,
    steep: bool,
    points: &[Point],
) -> Result<Vec<Asked, A>, AllocError>
    ensures { IfOk result (λ asked. asked.items ≡ map (asked_of steep) points.now) }
{
    let mut asked = Vec::with_capacity(alloc, points.len())?;
    for point in points {
        asked.push(asked_of(steep, *point))?;
    }
    Ok(asked)
}

// What it is asked about the point.
fn asked_of(steep: bool, point: Point) -> Asked
    ensures { result ≡ asked_of steep point }
{
    if steep {
        return asked_around(point.y, point.x);
    }
    asked_around(point.x, point.y)
}

// A column, and the heights there that are at most a unit from y.
fn asked_around(x: i32, y: i32) -> Asked
    ensures { result ≡ asked_around x y }
{
    Asked {
        x: -1 - x,
        low: y.saturating_sub(1),
        high: y.saturating_add(1),
    }
}
