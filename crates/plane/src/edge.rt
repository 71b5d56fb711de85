//! `Edge`: a straight line from one whole point to another, and the points at which it starts and ends.

ghost use Rattle.std.specs.Bool.{OnTrue};
ghost use Rattle.std.specs.Prelude.{◌≡◌, ◌^◌, All};
ghost use Rattle.plane.specs.Ends.{edge_between, end_of, reversed, start_of};
ghost use Rattle.plane.specs.Lines.{IsAlongAxis, height_over, margin_of};
ghost use Rattle.plane.specs.Meet.Crosses.{IsWithin};

use crate::point::Point;
use crate::vectors::{cross_product, vector_along, vector_between};

/// A straight line from the point `(x0, y0)` to the point `(x1, y1)`, in any direction. Both ends are of it. It is a
/// single point where they are one. Edges are in order by their starts, and then by their ends.
#[repr(C)]
#[derive(Clone, Copy, Debug, PartialEq, Eq, PartialOrd, Ord)]
pub struct Edge {
    pub x0: i32,
    pub y0: i32,
    pub x1: i32,
    pub y1: i32,
}

/// The point at which the edge starts.
pub fn start_of(edge: Edge) -> Point
    ensures { result ≡ start_of edge }
{
    Point {
        x: edge.x0,
        y: edge.y0,
    }
}

/// The point at which the edge ends.
pub fn end_of(edge: Edge) -> Point
    ensures { result ≡ end_of edge }
{
    Point {
        x: edge.x1,
        y: edge.y1,
    }
}

/// The edge from the one point to the other.
pub fn edge_between(from: Point, to: Point) -> Edge
    ensures { result ≡ edge_between from to }
{
    Edge {
        x0: from.x,
        y0: from.y,
        x1: to.x,
        y1: to.y,
    }
}

/// The edge from its end to its start.
pub fn reverse(edge: Edge) -> Edge
    ensures { result ≡ reversed edge }
{
    edge_between(end_of(edge), start_of(edge))
}

/// Whether each of the edges runs along an axis, or is a point.
pub fn run_along_axes(edges: &[Edge]) -> bool
    ensures { OnTrue result (All IsAlongAxis edges.now) }
{
    for edge in edges {
        if !is_along_axis(*edge) {
            return false;
        }
    }
    true
}

// Whether the edge does.
fn is_along_axis(edge: Edge) -> bool
    ensures { OnTrue result (IsAlongAxis edge) }
{
    edge.x1 == edge.x0 || edge.y1 == edge.y0
}

/// How far the point lies to the left of the line, times its length.
pub fn height_over(line: Edge, point: Point) -> i128
    ensures value { result ≡ height_over line point }
    ensures within { IsWithin (2 ^ 65) result }
{
    cross_product(vector_along(line), vector_between(start_of(line), point))
}

/// A unit on both axes, times the line's length.
pub fn margin_of(line: Edge) -> i128
    ensures value { result ≡ margin_of line }
    ensures within { IsWithin (2 ^ 33) result }
{
    let vector = vector_along(line);
    vector.x.unsigned_abs() as i128 + vector.y.unsigned_abs() as i128
}
