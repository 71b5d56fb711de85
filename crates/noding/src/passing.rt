//! Whether an edge passes a whole point.

ghost use Rattle.std.specs.Prelude.{◌≡◌, ◌*◌, pos, ◌-ℤ◌, ◌≤ℤ◌, IsTrue, MatchBool};
ghost use Rattle.noding.specs.Chains.{IsEnd, Passes};
ghost use Rattle.noding.specs.Close.{InBox, PassesInside};
ghost use Rattle.noding.specs.Tests.{IsPassed};

use plane::edge::{Edge, height_over, margin_of, reverse};
use plane::pairs::items::Boxed;
use plane::point::Point;

/// Whether the edge passes the whole point (x, y) between its ends. Most points that are asked for lie beside its box, so that
/// this is told where it is asked.
#[inline(always)]
pub fn passes_inside(edge: Edge, x: i32, y: i32) -> bool
    ensures { MatchBool result (PassesInside edge x y) (¬ (PassesInside edge x y)) }
{
    if !is_in_box(edge, x, y) {
        return false;
    }
    if !lies_beside(edge, x, y) {
        return false;
    }
    !is_end(edge, x, y) && passes(edge, x, y)
}

/// Whether the edge may pass the whole point (x, y) between its ends: the point lies beside its line, and is no end of it. Both are
/// looked for, since a branch between them would be guessed wrongly often.
#[inline(always)]
pub fn may_pass_inside(edge: Edge, x: i32, y: i32) -> bool
    ensures { PassesInside edge x y → IsTrue result }
{
    lies_beside(edge, x, y) & !is_end(edge, x, y)
}

// Whether the whole point (x, y) lies so near to the edge's line that the edge may pass it. Most points in the box of a long edge
// don't.
#[inline(always)]
fn lies_beside(edge: Edge, x: i32, y: i32) -> bool
    ensures { Passes edge x y → IsTrue result }
{
    let over = height_over(edge, Point { x, y });
    let margin = margin_of(edge);
    (0 <= over + over + margin) & (over + over <= margin)
}

/// Whether the whole point (x, y) lies in the edge's box.
#[inline(always)]
pub fn is_in_box(edge: Edge, x: i32, y: i32) -> bool
    ensures { MatchBool result (InBox edge x y) (¬ (InBox edge x y)) }
{
    let bounds = edge.bounds();
    is_between(bounds.left, bounds.right, x) & is_between(bounds.low, bounds.high, y)
}

/// Whether the whole point (x, y) is an end of the edge.
pub fn is_end(edge: Edge, x: i32, y: i32) -> bool
    ensures { MatchBool result (IsEnd edge x y) (¬ (IsEnd edge x y)) }
{
    (edge.x0 == x && edge.y0 == y) || (edge.x1 == x && edge.y1 == y)
}

/// Whether the edge passes the whole point (x, y): some point of the edge rounds to it, each coordinate to the nearest whole
/// number, a half upwards.
///
/// The points that round to it are its pixel, a square with its left and its lower border. An edge that goes along an axis
/// passes the whole points of its box. One that is slanted passes those of them whose pixel has two corners on opposite sides
/// of it; where it falls, the lower left one may lie on it.
pub fn passes(edge: Edge, x: i32, y: i32) -> bool
    ensures { MatchBool result (Passes edge x y) (¬ (Passes edge x y)) }
{
    if edge.x1 < edge.x0 {
        return passes_rightwards(reverse(edge), x, y);
    }
    passes_rightwards(edge, x, y)
}

fn passes_rightwards(edge: Edge, x: i32, y: i32) -> bool
    requires right { edge.x0 ≤ℤ edge.x1 }
    ensures { MatchBool result (Passes edge x y) (¬ (Passes edge x y)) }
{
    if !is_between(edge.x0, edge.x1, x) {
        return false;
    }
    let width = distance(edge.x0, edge.x1);
    let right = distance(edge.x0, x);
    if edge.y0 <= edge.y1 {
        if !is_between(edge.y0, edge.y1, y) {
            return false;
        }
        return is_passed(
            true,
            width,
            distance(edge.y0, edge.y1),
            right,
            distance(edge.y0, y),
        );
    }
    if !is_between(edge.y1, edge.y0, y) {
        return false;
    }
    is_passed(
        false,
        width,
        distance(edge.y1, edge.y0),
        right,
        distance(y, edge.y0),
    )
}

fn is_between(from: i32, to: i32, z: i32) -> bool
    ensures { let between = (from ≤ℤ z) × (z ≤ℤ to) in MatchBool result between (¬ between) }
{
    (from <= z) & (z <= to)
}

/// How far it is from the one to the other.
fn distance(from: i32, to: i32) -> u32
    requires { from ≤ℤ to }
    ensures { pos result ≡ to -ℤ from }
{
    (to as i64 - from as i64) as u32
}

fn product(one: u32, other: u32) -> u64
    ensures { result ≡ one * other }
{
    one as u64 * other as u64
}

/// Of a whole point in the box of an edge, `right` and `off`, up or down, from its start: whether the edge goes along an axis, or
/// two corners of the pixel are on opposite sides of its line. Where it rises these are the upper left one and the lower right one;
/// where it falls, the lower left one, which may lie on the line, and the upper right one.
#[inline]
fn is_passed(rises: bool, width: u32, height: u32, right: u32, off: u32) -> bool
    ensures { MatchBool result (IsPassed rises width height right off) (¬ (IsPassed rises width height right off)) }
{
    if width == 0 || height == 0 {
        return true;
    }
    let line = 2 * product(right, height) as u128;
    let point = 2 * product(off, width) as u128;
    let sides = width as u128 + height as u128;
    (line + rises as u128 <= point + sides) & (point < line + sides)
}
