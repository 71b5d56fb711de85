//! The grid that fits some positions.

ghost use Rattle.std.specs.Prelude.{◌≡◌, ◌≤◌, ◌<◌, ◌^◌, ◌≤ℤ◌, ◌-ℤ◌, ℕ, length, pos, unsigned_abs, MatchBool, IfOk, IfErr, IfSome, IfNone};
ghost use Rattle.grid.specs.Doubles.{in_leasts};
ghost use Rattle.grid.specs.Fit.{AreFinite, AreZero, HasPoint, IsBetween, IsFinest, IsFit, IsFitBetween, IsFitFault, IsGridOfScale, IsMiddle, IsNarrow, IsScale};
ghost use Rattle.grid.specs.declared.position.Position.{Position as PositionValue};
ghost use Rattle.grid.specs.Grid.{IsGrid, IsNearest, IsOrigin, position_at};

use crate::axis::nearest_units;
use crate::corners::corners;
use crate::double::magnitude_of;
use crate::position::Position;
use crate::units::Grid;

/// The greatest number of units that an origin is away from 0.
const FARTHEST: i64 = 9007197107257344;

/// How many units wide an axis may be.
const WIDEST: i64 = 2147483648;

/// Why no grid fits.
#[derive(Clone, Copy, Debug, PartialEq, Eq)]
pub enum FitFault {
    /// The position at this place, and none before it, isn't finite.
    NotFinite(usize),
    /// The positions are so far apart, or so far from 0, that even the coarsest unit, 2^970, is too fine.
    TooFar,
}

/// The grid of the finest unit that fits some positions. Doubles at their corners lie no further apart than the unit, and the
/// numbers of units next to the least and to the greatest coordinate on an axis are at most 2^31 apart. The origin is the
/// middle of these two numbers, or the next one that may be an origin. Each position has a point of the grid.
///
/// Of no positions, and where all coordinates are 0, the unit is 1 and the origin 0.
pub fn fit(positions: &[Position]) -> Result<Grid, FitFault>
    ensures fit { IfOk result (λ grid. IsFit positions.now grid) }
    ensures grid { IfOk result (λ grid. IsGrid grid) }
    ensures finite { IfOk result (λ grid. AreFinite positions.now) }
    ensures points { IfOk result (λ grid. (k : ℕ) → k < length positions.now → HasPoint grid (position_at positions.now k)) }
    ensures fault { IfErr result (λ fault. IsFitFault positions.now fault) }
{
    let found = match corners(positions) {
        Ok(found) => found,
        Err(place) => return Err(FitFault::NotFinite(place)),
    };
    let Some((low, high)) = found else {
        return Ok(Grid {
            x: 0,
            y: 0,
            exponent: 0,
        });
    };
    let Some(grid) = fit_between(low, high) else {
        return Err(FitFault::TooFar);
    };
    Ok(grid)
}

/// The grid of positions with these corners. None where there is none.
fn fit_between(low: Position, high: Position) -> Option<Grid>
    ensures fit { IfSome result (λ grid. IsFitBetween low high grid) }
    ensures grid { IfSome result (λ grid. IsGrid grid) }
    ensures points { IfSome result (λ grid. (position : PositionValue) → IsBetween low high position → HasPoint grid position) }
    ensures none { IfNone result ((scale : ℕ) → scale ≤ 2044 → IsScale low high scale → ⊥) }
{
    if are_zero(low, high) {
        return Some(Grid {
            x: 0,
            y: 0,
            exponent: 0,
        });
    }
    finest(low, high)
}

/// Whether all coordinates are 0.
fn are_zero(low: Position, high: Position) -> bool
    ensures value { MatchBool result (AreZero low high) (AreZero low high → ⊥) }
{
    is_zero(low.x) && is_zero(low.y) && is_zero(high.x) && is_zero(high.y)
}

/// Whether a double is 0.
fn is_zero(bits: u64) -> bool
    ensures value { MatchBool result (in_leasts bits ≡ pos 0) (in_leasts bits ≡ pos 0 → ⊥) }
{
    magnitude_of(bits).mantissa == 0
}

/// The grid of the finest unit. None where there is none.
fn finest(low: Position, high: Position) -> Option<Grid>
    ensures finest { IfSome result (λ grid. IsFinest low high grid) }
    ensures grid { IfSome result (λ grid. IsGrid grid) }
    ensures none { IfNone result ((scale : ℕ) → scale ≤ 2044 → IsScale low high scale → ⊥) }
{
    // No scale before this one has a grid that fits.
    for scale in least_scale(low, high)..2045 {
        if let Some(grid) = grid_of(low, high, scale) {
            return Some(grid);
        }
    }
    None
}

/// The least scale whose unit isn't subnormal, and no finer than doubles at the corners.
fn least_scale(low: Position, high: Position) -> u32
    ensures normal { 52 ≤ result }
    ensures low_x { Rattle.grid.specs.Fit.last_place low.x ≤ result }
    ensures low_y { Rattle.grid.specs.Fit.last_place low.y ≤ result }
    ensures high_x { Rattle.grid.specs.Fit.last_place high.x ≤ result }
    ensures high_y { Rattle.grid.specs.Fit.last_place high.y ≤ result }
    ensures least { (scale : ℕ) → scale < result → IsScale low high scale → ⊥ }
{
    let x = last_place(low.x).max(last_place(high.x));
    let y = last_place(low.y).max(last_place(high.y));
    x.max(y).max(52)
}

/// The power of two, in leasts, that a double's last bit stands for.
fn last_place(bits: u64) -> u32
    ensures value { result ≡ Rattle.grid.specs.Fit.last_place bits }
{
    magnitude_of(bits).exponent
}

/// The grid with a unit of `2^scale` leasts. None where an axis is too wide for it.
fn grid_of(low: Position, high: Position, scale: u32) -> Option<Grid>
    requires normal { 52 ≤ scale }
    requires upto { scale ≤ 2044 }
    requires low_x { Rattle.grid.specs.Fit.last_place low.x ≤ scale }
    requires low_y { Rattle.grid.specs.Fit.last_place low.y ≤ scale }
    requires high_x { Rattle.grid.specs.Fit.last_place high.x ≤ scale }
    requires high_y { Rattle.grid.specs.Fit.last_place high.y ≤ scale }
    ensures some { IfSome result (λ grid. IsGridOfScale low high scale grid) }
    ensures grid { IfSome result (λ grid. IsGrid grid) }
    ensures none { IfNone result (IsScale low high scale → ⊥) }
{
    let Some(x) = origin_of(low.x, high.x, scale) else {
        return None;
    };
    let Some(y) = origin_of(low.y, high.y, scale) else {
        return None;
    };
    Some(Grid {
        x,
        y,
        exponent: scale as i32 - 1074,
    })
}

/// The origin on an axis. None where it is too wide.
fn origin_of(low: u64, high: u64, scale: u32) -> Option<i64>
    requires low { Rattle.grid.specs.Fit.last_place low ≤ scale }
    requires high { Rattle.grid.specs.Fit.last_place high ≤ scale }
    ensures middle { IfSome result (λ origin. IsMiddle scale low high origin) }
    ensures narrow { IfSome result (λ origin. IsNarrow scale low high) }
    ensures origin { IfSome result (λ origin. IsOrigin origin) }
    ensures none { IfNone result (IsNarrow scale low high → ⊥) }
{
    let least = nearest_found(scale, low);
    let greatest = nearest_found(scale, high);
    if greatest - least > WIDEST {
        return None;
    }
    Some(limited(half(least + greatest)))
}

/// The nearest whole number of units, where doubles of this size lie no further apart than the unit.
fn nearest_found(scale: u32, bits: u64) -> i64
    requires { Rattle.grid.specs.Fit.last_place bits ≤ scale }
    ensures nearest { IsNearest (2 ^ scale) (in_leasts bits) result }
    ensures within { unsigned_abs result < 2 ^ 62 }
{
    let Some(units) = nearest_units(scale, bits) else {
        return 0;
    };
    units
}

/// Half of a number, rounded downwards.
fn half(sum: i64) -> i64
    requires { unsigned_abs sum < 2 ^ 63 }
    ensures value { result ≡ Rattle.grid.specs.Fit.half sum }
{
    if sum < 0 {
        return (sum - 1) / 2;
    }
    sum / 2
}

/// The next number that may be an origin.
fn limited(units: i64) -> i64
    ensures value { result ≡ Rattle.grid.specs.Fit.limited units }
    ensures origin { IsOrigin result }
{
    if units > FARTHEST {
        return FARTHEST;
    }
    if units < -FARTHEST {
        return -FARTHEST;
    }
    units
}
