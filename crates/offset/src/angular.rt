//! Squares and octagons around the origin.

ghost use Rattle.std.specs.Prelude.{ℕ, ◌≡◌, ◌*◌, ◌+◌, ◌^◌, ◌<◌, ◌≤◌, IfErr, IfOk, pos, ◌<ℤ◌, ◌≤ℤ◌};
ghost use Rattle.std.specs.Prelude.{unsigned_abs};
ghost use Rattle.offset.specs.Circle.{IsRoot, octagon_of, square_of};

use crate::shape_fault::ShapeFault;
use plane::point::Point;

/// The square around the origin whose sides run along the axes, and are as far from it as the radius. Polygons that grow by it get
/// corners at right angles where they have such.
///
/// `Radius` comes where the radius is below 1.
pub fn square(radius: i32) -> Result<[Point; 4], ShapeFault>
    ensures ok { IfOk result (λ corners. (pos 1 ≤ℤ radius) × (corners ≡ square_of radius)) }
    ensures fault { IfErr result (λ fault. (fault ≡ ShapeFault.Radius) × (radius <ℤ pos 1)) }
{
    if radius < 1 {
        return Err(ShapeFault::Radius);
    }
    Ok([
        Point {
            x: -radius,
            y: -radius,
        },
        Point {
            x: radius,
            y: -radius,
        },
        Point {
            x: radius,
            y: radius,
        },
        Point {
            x: -radius,
            y: radius,
        },
    ])
}

/// The octagon around the origin of which four sides run along the axes, as far from it as the radius, and of which all are as
/// long, as far as whole points allow: half a side is the root of twice the radius' square, rounded down, less the radius.
///
/// `Radius` comes where the radius is below 3, as there is no room for eight corners then.
pub fn octagon(radius: i32) -> Result<[Point; 8], ShapeFault>
    ensures ok { IfOk result (λ corners. (pos 3 ≤ℤ radius) × ((half : ℕ) × IsRoot (2 * (unsigned_abs radius * unsigned_abs radius)) (unsigned_abs radius + half)
        × (corners ≡ octagon_of radius (pos half)))) }
    ensures fault { IfErr result (λ fault. (fault ≡ ShapeFault.Radius) × (radius <ℤ pos 3)) }
{
    if radius < 3 {
        return Err(ShapeFault::Radius);
    }
    Ok(octagon_at(radius, half_side(radius.unsigned_abs())))
}

// Half of its side.
fn half_side(radius: u32) -> i32
    requires { radius < 2 ^ 31 }
    ensures { (half : ℕ) × IsRoot (2 * (radius * radius)) (radius + half) × (result ≡ pos half) }
{
    let radius = radius as u64;
    ((2 * (radius * radius)).isqrt() - radius) as i32
}

// Its corners.
fn octagon_at(radius: i32, half: i32) -> [Point; 8]
    requires radius { pos 0 ≤ℤ radius }
    requires half { pos 0 ≤ℤ half }
    ensures { result ≡ octagon_of radius half }
{
    [
        Point {
            x: radius,
            y: -half,
        },
        Point { x: radius, y: half },
        Point { x: half, y: radius },
        Point {
            x: -half,
            y: radius,
        },
        Point {
            x: -radius,
            y: half,
        },
        Point {
            x: -radius,
            y: -half,
        },
        Point {
            x: -half,
            y: -radius,
        },
        Point {
            x: half,
            y: -radius,
        },
    ]
}
