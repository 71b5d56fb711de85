//! Heights of edges at an x, compared in whole numbers.

ghost use Rattle.std.specs.Prelude.{◌≡◌, ◌-ℤ◌, ◌*ℤ◌, ◌<ℤ◌, true, false};
ghost use Rattle.std.specs.Int.{int_max, int_min};
ghost use Rattle.std.specs.Ordering.{int_cmp};
ghost use Rattle.plane.specs.SweepLine.Heights.{rightwards, run, height_by_runs, rise_by_run};
ghost use Rattle.plane.specs.SweepLine.Heights.{height_by_run as height_of};

use crate::edge::{Edge, end_of, start_of};
use crate::point::Point;
use crate::vectors::{difference, product};
use std::cmp::Ordering;

/// The edge from its lesser end along x to its greater. A vertical edge, or a point, stays as it is.
pub fn turn_rightwards(edge: Edge) -> Edge
    ensures { result ≡ rightwards edge }
{
    let leftwards = edge.x1 < edge.x0;
    let turned = Edge {
        x0: edge.x1,
        y0: edge.y1,
        x1: edge.x0,
        y1: edge.y0,
    };
    select(leftwards, turned, edge)
}

/// The first edge where the test is true, else the other one. Each number is chosen by itself, which is no branch in the
/// machine's code: one over whole edges would be guessed wrongly half of the time.
fn select(takes_first: bool, first: Edge, other: Edge) -> Edge
    ensures first { takes_first ≡ true → result ≡ first }
    ensures other { takes_first ≡ false → result ≡ other }
{
    Edge {
        x0: select_number(takes_first, first.x0, other.x0),
        y0: select_number(takes_first, first.y0, other.y0),
        x1: select_number(takes_first, first.x1, other.x1),
        y1: select_number(takes_first, first.y1, other.y1),
    }
}

/// The first number where the test is true, else the other one.
#[inline]
fn select_number(takes_first: bool, first: i32, other: i32) -> i32
    ensures first { takes_first ≡ true → result ≡ first }
    ensures other { takes_first ≡ false → result ≡ other }
{
    if takes_first { first } else { other }
}

/// Two numbers that are compared: how high an edge is at a point's x, and how high the point is, both above the edge's start,
/// times its run.
#[derive(Clone, Copy)]
pub(crate) struct Climbs {
    pub edge: i128,
    pub point: i128,
}

/// The edge's and the point's, where the edge goes to the right.
pub(crate) fn climbs_to_point(edge: Edge, point: Point) -> Climbs
    ensures { int_cmp result.edge result.point ≡ int_cmp (height_of edge point.x) (point.y *ℤ run edge) }
{
    let climb = product(difference(edge.y0, edge.y1), difference(edge.x0, point.x));
    let point_climb = product(difference(edge.y0, point.y), difference(edge.x0, edge.x1));
    Climbs {
        edge: climb,
        point: point_climb,
    }
}

/// How the edge's height at the point's x stands to the point's, where the edge goes to the right.
pub fn compare_to_point(edge: Edge, point: Point) -> Ordering
    ensures { result ≡ int_cmp (height_of edge point.x) (point.y *ℤ run edge) }
{
    let climbs = climbs_to_point(edge, point);
    climbs.edge.cmp(&climbs.point)
}

/// How the one's height stands to the other's at the first x that both span. There the later one begins, so that the
/// point at which it does tells.
pub fn compare_starts(one: Edge, other: Edge) -> Ordering
    requires right { one.x0 <ℤ one.x1 }
    requires other_right { other.x0 <ℤ other.x1 }
    ensures { let start = int_max one.x0 other.x0 in
        result ≡ int_cmp (height_by_runs one other start) (height_by_runs other one start) }
{
    if one.x0 < other.x0 {
        return compare_to_point(one, start_of(other));
    }
    compare_to_point(other, start_of(one)).reverse()
}

/// How the one's height stands to the other's at the last x that both span. There the one that ends first ends, so that
/// the point at which it does tells.
pub fn compare_ends(one: Edge, other: Edge) -> Ordering
    requires right { one.x0 <ℤ one.x1 }
    requires other_right { other.x0 <ℤ other.x1 }
    ensures { let end = int_min one.x1 other.x1 in
        result ≡ int_cmp (height_by_runs one other end) (height_by_runs other one end) }
{
    let outlasts = other.x1 < one.x1;
    let longer = select(outlasts, one, other);
    let shorter = select(outlasts, other, one);
    let heights = compare_to_point(longer, end_of(shorter));
    if outlasts {
        return heights;
    }
    heights.reverse()
}

/// How the one's slope stands to the other's, where both go to the right.
pub fn compare_slopes(one: Edge, other: Edge) -> Ordering
    ensures { result ≡ int_cmp (rise_by_run one other) (rise_by_run other one) }
{
    let steepness = product(difference(one.y0, one.y1), difference(other.x0, other.x1));
    let other_steepness = product(difference(other.y0, other.y1), difference(one.x0, one.x1));
    steepness.cmp(&other_steepness)
}
