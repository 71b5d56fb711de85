//! The corners of the box round some positions.

ghost use Rattle.std.specs.Prelude.{◌≡◌, ◌<◌, ◌↔◌, length, IsTrue, IfOk, IfErr, IsSomeAnd, None};
ghost use Rattle.grid.specs.Fit.{AreCorners, AreFinite, AtLeast, AtMost, IsFirstInfinite, IsOfTwo};
ghost use Rattle.grid.specs.Grid.{IsFinitePosition};

use crate::double::is_finite;
use crate::order::{greater, lesser};
use crate::position::Position;

/// The least coordinates of some positions on each axis, and the greatest. None where there is no position.
///
/// At an `Err`: the place of the first position that isn't finite.
pub fn corners(positions: &[Position]) -> Result<Option<(Position, Position)>, usize>
    ensures none { length positions.now ≡ 0 → IfOk result (λ found. found ≡ None) }
    ensures some { 0 < length positions.now
        → IfOk result (λ found. IsSomeAnd found (λ both. AreCorners positions.now both.0 both.1)) }
    ensures finite { IfOk result (λ found. AreFinite positions.now) }
    ensures infinite { IfErr result (λ place. IsFirstInfinite positions.now place) }
{
    if positions.is_empty() {
        return Ok(None);
    }
    let both = corners_of_some(positions)?;
    Ok(Some(both))
}

/// The corners, where there is a position.
fn corners_of_some(positions: &[Position]) -> Result<(Position, Position), usize>
    requires { 0 < length positions.now }
    ensures corners { IfOk result (λ both. AreCorners positions.now both.0 both.1) }
    ensures finite { IfOk result (λ found. AreFinite positions.now) }
    ensures infinite { IfErr result (λ place. IsFirstInfinite positions.now place) }
{
    let mut low = positions[0];
    let mut high = positions[0];
    // The positions before are finite, and `low` and `high` are their corners and the first one's.
    for (i, position) in positions.iter().enumerate() {
        if !is_finite_position(*position) {
            return Err(i);
        }
        low = lesser_corner(low, *position);
        high = greater_corner(high, *position);
    }
    Ok((low, high))
}

/// Whether both coordinates are finite.
fn is_finite_position(position: Position) -> bool
    ensures value { IsTrue result ↔ IsFinitePosition position }
{
    is_finite(position.x) && is_finite(position.y)
}

/// The lesser coordinate on each axis.
fn lesser_corner(one: Position, other: Position) -> Position
    ensures x { IsOfTwo AtMost one.x other.x result.x }
    ensures y { IsOfTwo AtMost one.y other.y result.y }
{
    Position {
        x: lesser(one.x, other.x),
        y: lesser(one.y, other.y),
    }
}

/// The greater coordinate on each axis.
fn greater_corner(one: Position, other: Position) -> Position
    ensures x { IsOfTwo AtLeast one.x other.x result.x }
    ensures y { IsOfTwo AtLeast one.y other.y result.y }
{
    Position {
        x: greater(one.x, other.x),
        y: greater(one.y, other.y),
    }
}
