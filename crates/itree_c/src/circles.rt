//! `itree_circle`: the corners of a polygon that stands for a circle, by which others grow.

ghost use Rattle.std.specs.Prelude.{◌≡◌, ◌≢◌, ◌↔◌, ◌≤◌, ◌≤ℤ◌, List, length, pos};
ghost use Rattle.plane.specs.declared.point.Point.{Point};
ghost use Rattle.offset.specs.Circle.{IsCircle};
ghost use Rattle.itree_c.specs.Circles.{FillsCorners, IsCircleStatus};
ghost use Rattle.itree_c.specs.declared.status.TheConstants.{ANSWERED, CHOICE, LENGTHS};

use crate::status::{ANSWERED, CHOICE, LENGTHS, REFUSED};
use offset::{ShapeFault, circle};
use overlay::Point;
use std::alloc::Global;

/// Writes how many corners the polygon has that stands for the circle of this radius around the origin, with so many at most; and
/// `inner`: no side is nearer to the origin. Its corners are written where there is room for as many; where there is none they are
/// counted alone.
///
/// The status is `ANSWERED` (0); `CHOICE` (5) where the radius is below 1 or `most` below 4; `LENGTHS` (3) where there is other
/// room: then `count` and `inner` are written; or `REFUSED` (1) where memory was refused. What is written is said at `circle` of
/// `offset`.
#[unsafe(no_mangle)]
pub extern "C" fn itree_circle(
    alloc: Global,
    radius: i32,
    most: usize,
    corners: &mut [Point],
    count: &mut usize,
    inner: &mut i32,
) -> i32
    ensures answered { result ≡ ANSWERED → (told : List Point) × IsCircle radius most told inner.new
        × (count.new ≡ length told) × FillsCorners told corners.old corners.new }
    ensures choice { (result ≡ CHOICE) ↔ ¬ ((pos 1 ≤ℤ radius) × (4 ≤ most)) }
    ensures room { result ≡ LENGTHS → (told : List Point) × IsCircle radius most told inner.new
        × (count.new ≡ length told) × (length corners.old ≢ length told) }
    ensures kept { result ≢ ANSWERED → corners.new ≡ corners.old }
    ensures status { IsCircleStatus result }
{
    let told = match circle(alloc, radius, most) {
        Ok(told) => told,
        Err(ShapeFault::Radius) => return CHOICE,
        Err(ShapeFault::Corners) => return CHOICE,
        Err(ShapeFault::Tolerance) => return CHOICE,
        Err(ShapeFault::OutOfMemory) => return REFUSED,
    };
    *count = told.corners.len();
    *inner = told.inner;
    if corners.is_empty() {
        return ANSWERED;
    }
    if corners.len() != told.corners.len() {
        return LENGTHS;
    }
    corners.copy_from_slice(&told.corners);
    ANSWERED
}
