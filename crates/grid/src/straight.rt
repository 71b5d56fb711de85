//! Most positions as points of a grid, without a branch at a coordinate.
//!
//! Each step is taken with each coordinate, also where its answer means nothing. One test of the whole position says whether
//! the answers are good: so a processor has one branch to guess, and it is nearly always the same.

ghost use Rattle.std.specs.Prelude.{◌≡◌, ◌≤◌, ◌<◌, ◌^◌, ◌+ℤ◌, IfSome, unsigned_abs, FitsSigned};
ghost use Rattle.std.specs.Int.{w32};
ghost use Rattle.grid.specs.Doubles.{IsFinite, in_leasts};
ghost use Rattle.grid.specs.Grid.{IsGrid, IsNearest, IsOrigin, IsTold};

use crate::axis::signed;
use crate::double::{exponent_field, fraction_field};
use crate::position::Position;
use crate::rounding::{few_places, without_places};
use crate::units::{Grid, scale_of};
use plane::point::Point;

/// How many units from the origin a coordinate is next to. That is so where `beyond` is less than 2^32.
#[derive(Clone, Copy)]
struct Reached {
    units: i64,
    beyond: u64,
}

/// The nearest point to a position. None where there is none, or a coordinate is 2^52 units or more, or the unit is 2^-1022:
/// then doubles that have no leading one may be more than a half of it.
pub(crate) fn straight_point(grid: &Grid, position: Position) -> Option<Point>
    requires { IsGrid grid.now }
    ensures { IfSome result (λ point. IsTold grid.now position point) }
{
    let scale = scale_of(grid) as u64;
    if scale == 52 {
        return None;
    }
    let x = reach(grid.x, scale, position.x);
    let y = reach(grid.y, scale, position.y);
    if x.beyond | y.beyond >= 1 << 32 {
        return None;
    }
    Some(Point {
        x: x.units as i32,
        y: y.units as i32,
    })
}

/// The nearest whole number of units, from the origin. A double that has no leading one is rounded as if it had one: with it
/// too it is less than a half of a unit.
///
/// `beyond` is 2^32 or more where the exponent's field is above the scale, so that `further` wraps.
fn reach(origin: i64, scale: u64, bits: u64) -> Reached
    requires origin { IsOrigin origin }
    requires from { 52 < scale }
    requires upto { scale ≤ 2044 }
    ensures finite { result.beyond < 2 ^ 32 → IsFinite bits }
    ensures fits { result.beyond < 2 ^ 32 → FitsSigned w32 result.units }
    ensures nearest { result.beyond < 2 ^ 32 → IsNearest (2 ^ scale) (in_leasts bits) (result.units +ℤ origin) }
{
    let further = scale.wrapping_sub(exponent_field(bits));
    let places = few_places(further);
    let all = without_places(0x0010_0000_0000_0000 + fraction_field(bits), places);
    let units = signed(all, bits) - origin;
    Reached {
        units,
        beyond: further | above_least(units),
    }
}

/// How far a number is above the least of 32 bits. It is 2^32 or more where the number doesn't fit 32 bits.
fn above_least(units: i64) -> u64
    requires { unsigned_abs units < 2 ^ 62 }
    ensures { result < 2 ^ 32 → FitsSigned w32 units }
{
    (units + 2147483648).cast_unsigned()
}
