//! Grids, and doubles as points of them.

ghost use Rattle.std.specs.Prelude.{◌≡◌, ◌≤◌, ◌↔◌, ◌+ℤ◌, pos, IsTrue, IfOk, IfErr, IfSome, IfNone, Ok};
ghost use Rattle.plane.specs.declared.point.Point.{Point as PointValue};
ghost use Rattle.grid.specs.Grid.{IsGrid, IsOrigin, IsFinitePosition, IsNearestPoint, IsTold, IsFaultOf, IsPoint, IsPositionOf};

use crate::axis::{coordinate, nearest};
use crate::double::is_finite;
use crate::position::Position;
use plane::point::Point;

/// The points `((n + x) * 2^exponent, (m + y) * 2^exponent)` for whole numbers `n` and `m` of 32 bits: the origin is told in
/// units. `is_grid` says which values are good.
#[repr(C)]
#[derive(Clone, Copy, Debug, PartialEq, Eq)]
pub struct Grid {
    pub x: i64,
    pub y: i64,
    pub exponent: i32,
}

/// Why a position has no point of the grid.
#[derive(Clone, Copy, Debug, PartialEq, Eq)]
pub enum CoordinateFault {
    /// A coordinate is infinite or NaN.
    NotFinite,
    /// Both are finite, and the nearest point's coordinates don't fit 32 bits.
    OffGrid,
}

/// Whether each point of the grid is a position: the exponent is from -1022 to 970, and the origin is at most 2^53 - 2^31
/// units from 0 on each axis.
pub fn is_grid(grid: &Grid) -> bool
    ensures value { IsTrue result ↔ IsGrid grid.now }
{
    grid.exponent >= -1022 && grid.exponent <= 970 && is_origin(grid.x) && is_origin(grid.y)
}

/// Whether an origin is near enough to 0 on an axis.
fn is_origin(units: i64) -> bool
    ensures value { IsTrue result ↔ IsOrigin units }
{
    units >= -9007197107257344 && units <= 9007197107257344
}

/// The power of two that the grid's unit is, in leasts.
pub(crate) fn scale_of(grid: &Grid) -> u32
    requires { IsGrid grid.now }
    ensures value { result ≡ Rattle.grid.specs.Grid.scale_of grid.now }
    ensures from { 52 ≤ result }
    ensures upto { result ≤ 2044 }
{
    (grid.exponent + 1074) as u32
}

/// The grid's point that is nearest to a position: the nearest whole number of units on each axis, halves to the even number,
/// from the origin. A position of the grid is told exactly.
///
/// `NotFinite`: a coordinate is infinite or NaN. `OffGrid`: both are finite, and one is further off than 32 bits say.
pub fn point_of(grid: &Grid, position: Position) -> Result<Point, CoordinateFault>
    requires { IsGrid grid.now }
    ensures nearest { IfOk result (λ point. IsTold grid.now position point) }
    ensures fault { IfErr result (λ fault. IsFaultOf grid.now position fault) }
    ensures told { (point : PointValue) → IsPoint point → IsTold grid.now position point → result ≡ Ok point }
    ensures exact { (point : PointValue) → IsPoint point → IsFinitePosition position → IsPositionOf grid.now point position
        → result ≡ Ok point }
{
    rounded(grid, position)
}

/// What `point_of` answers.
fn rounded(grid: &Grid, position: Position) -> Result<Point, CoordinateFault>
    requires { IsGrid grid.now }
    ensures nearest { IfOk result (λ point. IsTold grid.now position point) }
    ensures fault { IfErr result (λ fault. IsFaultOf grid.now position fault) }
{
    if !is_finite(position.x) {
        return Err(CoordinateFault::NotFinite);
    }
    if !is_finite(position.y) {
        return Err(CoordinateFault::NotFinite);
    }
    let Some(point) = nearest_point(grid, position) else {
        return Err(CoordinateFault::OffGrid);
    };
    Ok(point)
}

/// The nearest point to a position. None where it doesn't fit 32 bits.
fn nearest_point(grid: &Grid, position: Position) -> Option<Point>
    requires { IsGrid grid.now }
    ensures nearest { IfSome result (λ point. IsNearestPoint grid.now position point) }
    ensures none { IfNone result ((point : PointValue) → IsPoint point → IsNearestPoint grid.now position point → ⊥) }
{
    let scale = scale_of(grid);
    let Some(x) = nearest(grid.x, scale, position.x) else {
        return None;
    };
    let Some(y) = nearest(grid.y, scale, position.y) else {
        return None;
    };
    Some(Point { x, y })
}

/// The position that is a point of the grid, exactly. A coordinate that is 0 is +0.
pub fn position_of(grid: &Grid, point: Point) -> Position
    requires { IsGrid grid.now }
    ensures exact { IsPositionOf grid.now point result }
    ensures finite { IsFinitePosition result }
    ensures zero_x { (point.x +ℤ grid.now.x) ≡ pos 0 → result.x ≡ 0 }
    ensures zero_y { (point.y +ℤ grid.now.y) ≡ pos 0 → result.y ≡ 0 }
{
    let scale = scale_of(grid);
    Position {
        x: coordinate(grid.x, scale, point.x),
        y: coordinate(grid.y, scale, point.y),
    }
}
