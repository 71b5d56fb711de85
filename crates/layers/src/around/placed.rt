//! Half points by their places, in an order in which near ones stand together.

ghost use Rattle.std.specs.Prelude.{◌^◌, IfOk};
ghost use Rattle.plane.specs.Meet.Crosses.{IsWithin};
ghost use Rattle.layers.specs.Chains.{ArePlaced};

use super::half_point::HalfPoint;
use std::alloc::{AllocError, Allocator};

/// A half point, its place among all of them, and how far along a curve it stands that goes through all halves, quarters and
/// so on of the plane one after another. Nothing but the time that is taken hangs on that.
#[derive(Clone, Copy)]
pub struct Placed {
    pub along: u64,
    pub place: usize,
    pub point: HalfPoint,
}

/// The points in the order of the curve.
pub fn placed_points<A: Allocator>(
    alloc: A,
    points: &[HalfPoint],
) -> Result<Vec<Placed, A>, AllocError>
    ensures { IfOk result (λ group. ArePlaced points.now group.items) }
{
    let mut group = Vec::with_capacity(alloc, points.len())?;
    for (place, point) in points.iter().enumerate() {
        group.push(Placed {
            along: along_curve(*point),
            place,
            point: *point,
        })?;
    }
    group.sort_unstable_by_key(|placed| placed.along);
    Ok(group)
}

// How far along the curve the point stands: by the digits of both coordinates, in turn.
fn along_curve(point: HalfPoint) -> u64 {
    spread(point.twice_x) | spread(point.twice_y).wrapping_mul(2)
}

// The digits of a number, without the last, each behind a 0.
fn spread(twice: i64) -> u64
    requires { IsWithin (2 ^ 32) twice }
{
    let number = (twice + 0x1_0000_0000) as u64 / 2;
    let halves = (number | number.wrapping_mul(0x1_0000)) & 0x0000_ffff_0000_ffff;
    let quarters = (halves | halves.wrapping_mul(0x100)) & 0x00ff_00ff_00ff_00ff;
    let fours = (quarters | quarters.wrapping_mul(0x10)) & 0x0f0f_0f0f_0f0f_0f0f;
    let twos = (fours | fours.wrapping_mul(4)) & 0x3333_3333_3333_3333;
    (twos | twos.wrapping_mul(2)) & 0x5555_5555_5555_5555
}
