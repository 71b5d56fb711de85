//! Mitres: the triangle between two corners of a shape and where the moved lines of two edges cross.

ghost use Rattle.std.specs.Prelude.{◌≡◌, ◌^◌, ◌++◌, ◌&&◌, ◌*ℤ◌, ◌+ℤ◌, ◌-ℤ◌, ◌<ℤ◌, ◌≤ℤ◌, IfErr, MatchOption, OnOk, int_lt, pos};
ghost use Rattle.std.specs.Bool.{MatchBool};
ghost use Rattle.std.specs.List.{list_all};
ghost use Rattle.plane.specs.Ends.{edge_between, end_of};
ghost use Rattle.plane.specs.Meet.Crosses.{IsWithin, cross};
ghost use Rattle.offset.specs.Faults.{IsRawFault};
ghost use Rattle.offset.specs.Joins.{has_tip, is_near_on, is_within_limit, mitre, mitre_by, nearest, point_at, way_to_tip};
ghost use Rattle.offset.specs.Raw.{IsPointIn32Bits, moved};
ghost use Rattle.offset.specs.Shape.{sides, turn};

use crate::fault::MinkowskiFault;
use crate::raw::{furthest, moved};
use crate::shape::{side_at, turn};
use plane::edge::{Edge, edge_between, end_of};
use plane::point::Point;
use plane::vectors::{Vector, cross_product, vector_along, vector_between};
use std::alloc::Allocator;

/// Appends the mitre between an edge and the next one, where there is one.
pub fn append_mitre<A: Allocator>(
    corners: &[Point],
    edge: Edge,
    next: Edge,
    limit: u32,
    edges: &mut Vec<Edge, A>,
) -> Result<(), MinkowskiFault>
    ensures ok { OnOk result (edges.new.items ≡ edges.old.items ++ mitre limit corners.now edge next) }
    ensures fault { IfErr result (IsRawFault (mitre limit corners.now edge next)) }
{
    if turn(edge, next) <= 0 {
        return Ok(());
    }
    let from = furthest(corners, edge);
    let to = furthest(corners, next);
    let way = vector_along(edge);
    let x = way_to_tip_on(edge, next, from, to, way.x);
    let y = way_to_tip_on(edge, next, from, to, way.y);
    if has_tip(corners, limit, from, to, x, y) {
        append_mitre_by(end_of(edge), from, to, x, y, edges)
    } else {
        Ok(())
    }
}

// How far it is from the first corner to the tip along one axis, on which the edge goes so far.
fn way_to_tip_on(edge: Edge, next: Edge, from: Point, to: Point, way: i64) -> i128
    requires left { pos 0 <ℤ turn edge next }
    requires way { IsWithin (2 ^ 32) way }
    ensures { result ≡ nearest (turn (edge_between from to) next *ℤ way) (turn edge next) }
{
    let next_way = vector_along(next);
    let whole = cross_product(vector_along(edge), next_way);
    let part = cross_product(vector_between(from, to), next_way);
    rounded(product(part, way as i128), whole)
}

// The whole number nearest to `n / d`, a half upwards.
fn rounded(n: i128, d: i128) -> i128
    requires positive { pos 0 <ℤ d }
    requires divisor { d ≤ℤ pos (2 ^ 65) }
    requires within { IsWithin (2 ^ 104) n }
    ensures { result ≡ nearest n d }
{
    let twice = d + d;
    let sum = n + n + d;
    sum.div_euclid(twice)
}

// The product of two numbers, of at most 73 and 33 bits.
fn product(one: i128, other: i128) -> i128
    requires one { IsWithin (2 ^ 72) one }
    requires other { IsWithin (2 ^ 32) other }
    ensures value { result ≡ one *ℤ other }
    ensures within { IsWithin (2 ^ 104) result }
{
    one * other
}

// The cross product of a vector and a longer one.
fn cross_product_far(way: Vector, x: i128, y: i128) -> i128
    requires x { IsWithin (2 ^ 72) x }
    requires y { IsWithin (2 ^ 72) y }
    ensures { result ≡ cross way.x way.y x y }
{
    product(y, way.x as i128) - product(x, way.y as i128)
}

// Whether it is less than 2^62 either way.
fn is_near(way: i128) -> bool
    ensures { result ≡ is_near_on way }
{
    -0x4000_0000_0000_0000 < way && way < 0x4000_0000_0000_0000
}

// Whether there is a mitre with a tip so far from the first corner.
fn has_tip(corners: &[Point], limit: u32, from: Point, to: Point, x: i128, y: i128) -> bool
    ensures { result ≡ has_tip limit corners.now from to (point_at x y) }
{
    if !is_near(x) {
        return false;
    }
    if !is_near(y) {
        return false;
    }
    is_tip(corners, limit, from, to, x, y)
}

// Whether the tip lies to the right of the way from the first corner to the other one, and within the limit.
fn is_tip(corners: &[Point], limit: u32, from: Point, to: Point, x: i128, y: i128) -> bool
    requires x { IsWithin (2 ^ 62) x }
    requires y { IsWithin (2 ^ 62) y }
    ensures { result ≡ (int_lt (cross (to.x -ℤ from.x) (to.y -ℤ from.y) x y) (pos 0) && list_all (is_within_limit limit (moved from (point_at x y))) (sides corners.now)) }
{
    cross_product_far(vector_between(from, to), x, y) < 0
        && is_of_limit(corners, limit, moved_on(from.x, x), moved_on(from.y, y))
}

// Where a corner is along one axis, moved so far.
fn moved_on(from: i32, way: i128) -> i128
    requires { IsWithin (2 ^ 62) way }
    ensures value { result ≡ from +ℤ way }
    ensures within { IsWithin (2 ^ 63) result }
{
    from as i128 + way
}

// Whether the tip lies within the limit.
fn is_of_limit(corners: &[Point], limit: u32, x: i128, y: i128) -> bool
    requires x { IsWithin (2 ^ 63) x }
    requires y { IsWithin (2 ^ 63) y }
    ensures { result ≡ list_all (is_within_limit limit (point_at x y)) (sides corners.now) }
{
    for index in 0..corners.len() {
        if !is_within_limit(side_at(corners, index), limit, x, y) {
            return false;
        }
    }
    true
}

// Whether it lies no further out than the side would.
fn is_within_limit(side: Edge, limit: u32, x: i128, y: i128) -> bool
    requires x { IsWithin (2 ^ 63) x }
    requires y { IsWithin (2 ^ 63) y }
    ensures { result ≡ is_within_limit limit (point_at x y) side }
{
    0 <= cross_product_far(
        vector_along(side),
        beyond(x, limit, side.x0),
        beyond(y, limit, side.y0),
    )
}

// How far a hundred times the one number is beyond so many times the other one.
fn beyond(one: i128, limit: u32, other: i32) -> i128
    requires { IsWithin (2 ^ 63) one }
    ensures value { result ≡ (pos 100 *ℤ one) -ℤ (pos limit *ℤ other) }
    ensures within { IsWithin (2 ^ 72) result }
{
    100 * one - product(limit as i128, other as i128)
}

// Appends the mitre at a point, of two corners and the tip that is so far from the first one.
fn append_mitre_by<A: Allocator>(
    at: Point,
    from: Point,
    to: Point,
    x: i128,
    y: i128,
    edges: &mut Vec<Edge, A>,
) -> Result<(), MinkowskiFault>
    requires x { IsWithin (2 ^ 62) x }
    requires y { IsWithin (2 ^ 62) y }
    ensures ok { OnOk result (edges.new.items ≡ edges.old.items ++ mitre_by at from to (point_at x y)) }
    ensures fault { IfErr result (IsRawFault (mitre_by at from to (point_at x y))) }
{
    let first = moved(at, from)?;
    let Some(tip) = tip_at(at, from, x, y) else {
        return Err(MinkowskiFault::Range);
    };
    let last = moved(at, to)?;
    edges.push(edge_between(first, tip))?;
    edges.push(edge_between(tip, last))?;
    edges.push(edge_between(last, first))?;
    Ok(())
}

// The tip, if it is a point of 32 bits.
fn tip_at(at: Point, from: Point, x: i128, y: i128) -> Option<Point>
    requires x { IsWithin (2 ^ 62) x }
    requires y { IsWithin (2 ^ 62) y }
    ensures { MatchOption result (¬ (IsPointIn32Bits (moved at (moved from (point_at x y))))) (λ told. told ≡ moved at (moved from (point_at x y))) }
{
    let x = tip_on(at.x, from.x, x);
    let y = tip_on(at.y, from.y, y);
    if is_in_32_bits(x) && is_in_32_bits(y) {
        Some(Point {
            x: x as i32,
            y: y as i32,
        })
    } else {
        None
    }
}

// Where it is along one axis.
fn tip_on(at: i32, from: i32, way: i128) -> i128
    requires { IsWithin (2 ^ 62) way }
    ensures { result ≡ at +ℤ (from +ℤ way) }
{
    at as i128 + moved_on(from, way)
}

// Whether the number is one of 32 bits.
fn is_in_32_bits(number: i128) -> bool
    ensures { MatchBool result (((pos 0 -ℤ pos (2 ^ 31)) ≤ℤ number) × (number <ℤ pos (2 ^ 31)))
        (¬ (((pos 0 -ℤ pos (2 ^ 31)) ≤ℤ number) × (number <ℤ pos (2 ^ 31)))) }
{
    -0x8000_0000 <= number && number < 0x8000_0000
}
