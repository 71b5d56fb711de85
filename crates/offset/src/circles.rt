//! Circles, as far as whole points make them: shapes whose corners are within one circle, and whose sides are outside of another.

ghost use Rattle.std.specs.Prelude.{ℕ, ◌≡◌, ◌+◌, ◌-◌, ◌*◌, ◌/◌, ◌<◌, ◌≤◌, ◌^◌, ◌++◌, [], IfErr, IfOk, OnOk, All, length, pos, ◌≤ℤ◌, ◌<ℤ◌};
ghost use Rattle.std.specs.Prelude.{unsigned_abs};
ghost use Rattle.plane.specs.Meet.Crosses.{IsWithin};
ghost use Rattle.overlay.specs.Areas.{swept};
ghost use Rattle.offset.specs.Circle.{AreCorners, AreFinest, IsAcross, IsCircle, IsCorner, IsDistance, IsFinest, IsFirstCorner, IsInner, IsRoot, IsWithinCircle, across, diamond, square_length, turned};
ghost use Rattle.offset.specs.CircleFaults.{IsCircleFault, IsToleranceFault};
ghost use Rattle.offset.specs.Shape.{IsConvexAroundOrigin, sides};

use crate::shape::{is_convex_around_origin, side_at};
use crate::shape_fault::ShapeFault;
use plane::edge::{Edge, end_of, start_of};
use plane::point::Point;
use plane::vectors::{product, vector_along};
use std::alloc::{AllocError, Allocator};

/// A convex polygon around the origin, between two circles.
#[derive(Drop)]
pub struct RoundShape<A: Allocator> {
    /// Its corners, counterclockwise from the x axis on.
    pub corners: Vec<Point, A>,
    /// No side is nearer to the origin than this.
    pub inner: i32,
}

/// A convex polygon that stands for the circle of this radius around the origin, and has at most so many corners. No corner is
/// farther from the origin than the radius, and no side nearer than `inner`, which is the greatest such whole number.
///
/// It has 8, 16, 24 corners or more, up to 8,192, as far as `most` allows, and no more than eight times the root of a sixth of the
/// radius: with these it is as near to the circle as whole points are, by a unit or two. Below 8, or where the radius is below 6,
/// it is a diamond.
///
/// `Radius` comes where the radius is below 1, else `Corners` where `most` is below 4, else `OutOfMemory` where memory was refused.
pub fn circle<A: Allocator>(alloc: A, radius: i32, most: usize) -> Result<RoundShape<A>, ShapeFault>
    ensures ok { IfOk result (λ circle. IsCircle radius most circle.corners.items circle.inner) }
    ensures fault { IfErr result (IsCircleFault radius most) }
{
    if radius < 1 {
        return Err(ShapeFault::Radius);
    }
    if most < 4 {
        return Err(ShapeFault::Corners);
    }
    let mut corners = Vec::new(alloc);
    push_round(radius, most, &mut corners)?;
    let inner = inner_radius(&corners, radius);
    Ok(RoundShape { corners, inner })
}

/// A convex polygon that stands for the circle of this radius around the origin: it has as many corners as make it some units
/// smaller at most, besides the unit or two that whole points take. `inner` of what it answers tells how much that is.
///
/// `Radius` comes where the radius is below 1, else `Tolerance` where the tolerance is, else `OutOfMemory` where memory was
/// refused.
pub fn circle_within<A: Allocator>(
    alloc: A,
    radius: i32,
    tolerance: i32,
) -> Result<RoundShape<A>, ShapeFault>
    ensures ok { IfOk result (λ circle. (root : ℕ) × (pos 1 ≤ℤ tolerance) × IsRoot (unsigned_abs radius / (11 * unsigned_abs tolerance)) root
        × IsCircle radius (8 * (root + 1)) circle.corners.items circle.inner) }
    ensures fault { IfErr result (IsToleranceFault radius tolerance) }
{
    if radius < 1 {
        return Err(ShapeFault::Radius);
    }
    if tolerance < 1 {
        return Err(ShapeFault::Tolerance);
    }
    let ratio = radius.unsigned_abs() as usize / (11 * tolerance.unsigned_abs() as usize);
    circle(alloc, radius, 8 * (ratio.isqrt() + 1))
}

// Pushes the corners.
fn push_round<A: Allocator>(
    radius: i32,
    most: usize,
    corners: &mut Vec<Point, A>,
) -> Result<(), AllocError>
    requires radius { pos 1 ≤ℤ radius }
    requires room { 4 ≤ most }
    requires none { corners.old.items ≡ [] }
    ensures convex { OnOk result (IsConvexAroundOrigin corners.new.items) }
    ensures few { OnOk result (length corners.new.items ≤ most) }
    ensures within { OnOk result (All (IsWithinCircle radius) corners.new.items) }
    ensures finest { OnOk result ((parts : ℕ) × IsFinest (unsigned_abs radius) most parts × AreFinest (unsigned_abs radius) parts corners.new.items) }
{
    let reach = radius.unsigned_abs();
    push_corners(reach, finest(reach, most), corners)?;
    if is_convex_around_origin(corners) {
        return Ok(());
    }
    corners.clear();
    push_diamond(radius, corners)
}

// How many parts an eighth of the circle has.
fn finest(radius: u32, most: usize) -> u64
    ensures { IsFinest radius most result }
{
    (most as u64 / 8).min(1024).min((radius as u64 / 6).isqrt())
}

// Pushes the corners, eight for each part of an eighth.
fn push_corners<A: Allocator>(
    radius: u32,
    parts: u64,
    corners: &mut Vec<Point, A>,
) -> Result<(), AllocError>
    requires radius { radius < 2 ^ 31 }
    requires parts { parts ≤ 1024 }
    requires none { corners.old.items ≡ [] }
    ensures ok { OnOk result (AreCorners radius parts corners.new.items) }
    ensures within { OnOk result (All (IsWithinCircle (pos radius)) corners.new.items) }
{
    for index in 0..8 * parts {
        corners.push(corner_at(radius as u64, parts, index))?;
    }
    Ok(())
}

// The corner of this number.
fn corner_at(radius: u64, parts: u64, index: u64) -> Point
    requires radius { radius < 2 ^ 31 }
    requires parts { parts ≤ 1024 }
    requires index { index < 8 * parts }
    ensures corner { IsCorner radius parts index result }
    ensures within { IsWithinCircle (pos radius) result }
{
    let first = first_corner(radius, parts, index % (2 * parts));
    turned(first, index / (2 * parts))
}

// The corner of this number in the first quarter.
fn first_corner(radius: u64, parts: u64, step: u64) -> Point
    requires radius { radius < 2 ^ 31 }
    requires parts { parts ≤ 1024 }
    requires step { step < 2 * parts }
    ensures corner { IsFirstCorner radius parts step result }
    ensures x { pos 0 ≤ℤ result.x }
    ensures y { pos 0 ≤ℤ result.y }
    ensures within { IsWithinCircle (pos radius) result }
{
    if step < parts {
        on_circle(radius, across(radius, parts, step))
    } else if step == parts {
        on_diagonal(radius)
    } else {
        let mirrored = on_circle(radius, across(radius, parts, 2 * parts - step));
        Point {
            x: mirrored.y,
            y: mirrored.x,
        }
    }
}

// How far from its axis the eighth has come after so many parts.
fn across(radius: u64, parts: u64, step: u64) -> u64
    requires radius { radius < 2 ^ 31 }
    requires parts { parts ≤ 1024 }
    requires step { step < parts }
    ensures value { result ≡ across radius parts step }
    ensures upto { result ≤ radius }
{
    let whole = 70 * parts;
    let part = 29 * step;
    radius * (2 * (part * whole)) / (whole * whole + part * part)
}

// The last point within the circle that is so far from the x axis.
fn on_circle(radius: u64, away: u64) -> Point
    requires radius { radius < 2 ^ 31 }
    requires away { away ≤ radius }
    ensures across { IsAcross radius away result.x result.y }
    ensures x { pos 0 ≤ℤ result.x }
    ensures y { pos 0 ≤ℤ result.y }
    ensures within { IsWithinCircle (pos radius) result }
{
    let along = (radius * radius - away * away).isqrt();
    Point {
        x: along as i32,
        y: away as i32,
    }
}

// The last point of the diagonal within the circle.
fn on_diagonal(radius: u64) -> Point
    requires { radius < 2 ^ 31 }
    ensures half { (half : ℕ) × (result.x ≡ pos half) × (result.y ≡ pos half) × IsRoot ((radius * radius) / 2) half }
    ensures x { pos 0 ≤ℤ result.x }
    ensures y { pos 0 ≤ℤ result.y }
    ensures within { IsWithinCircle (pos radius) result }
{
    let half = (radius * radius / 2).isqrt() as i32;
    Point { x: half, y: half }
}

// The point after so many quarter turns, up to three.
fn turned(point: Point, quarters: u64) -> Point
    requires x { pos 0 ≤ℤ point.x }
    requires y { pos 0 ≤ℤ point.y }
    ensures { result ≡ turned quarters point }
{
    match quarters {
        0 => point,
        1 => Point {
            x: -point.y,
            y: point.x,
        },
        2 => Point {
            x: -point.x,
            y: -point.y,
        },
        _ => Point {
            x: point.y,
            y: -point.x,
        },
    }
}

// Pushes the four points of the axes.
fn push_diamond<A: Allocator>(radius: i32, corners: &mut Vec<Point, A>) -> Result<(), AllocError>
    requires { pos 1 ≤ℤ radius }
    ensures { OnOk result (corners.new.items ≡ corners.old.items ++ diamond radius) }
{
    corners.push(Point { x: radius, y: 0 })?;
    corners.push(Point { x: 0, y: radius })?;
    corners.push(Point { x: -radius, y: 0 })?;
    corners.push(Point { x: 0, y: -radius })?;
    Ok(())
}

// The greatest whole number, up to the radius, that no side is nearer to the origin than.
fn inner_radius(corners: &[Point], radius: i32) -> i32
    requires radius { pos 1 ≤ℤ radius }
    requires left { All (λ side. pos 0 <ℤ swept side) (sides corners.now) }
    ensures { IsInner radius (sides corners.now) result }
{
    let reach = radius.unsigned_abs() as u128;
    let mut least = reach * reach;
    for index in 0..corners.len() {
        least = least.min(square_distance(side_at(corners, index)));
    }
    least.isqrt() as i32
}

// The square of how far the side's line is from the origin, rounded down.
fn square_distance(side: Edge) -> u128
    requires { pos 0 <ℤ swept side }
    ensures { IsDistance side result }
{
    let sweeps = swept(side).unsigned_abs();
    sweeps * sweeps / square_length(side)
}

/// Twice the area between the origin and the side.
pub fn swept(side: Edge) -> i128
    ensures value { result ≡ swept side }
    ensures within { IsWithin (2 ^ 63) result }
{
    product(side.x0 as i64, side.y1 as i64) - product(side.y0 as i64, side.x1 as i64)
}

// The square of the side's length.
fn square_length(side: Edge) -> u128
    ensures { pos result ≡ square_length side }
{
    let way = vector_along(side);
    let x = way.x.unsigned_abs() as u128;
    let y = way.y.unsigned_abs() as u128;
    x * x + y * y
}
