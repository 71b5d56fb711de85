//! One axis of a grid: doubles to whole numbers of units, and back.

ghost use Rattle.std.specs.Prelude.{◌≡◌, ◌≤◌, ◌<◌, ◌*◌, ◌^◌, ◌+◌, ◌+ℤ◌, ◌*ℤ◌, ℕ, ℤ, pos, IfSome, IfNone, IsSome, IsTrue, ◌↔◌, unsigned_abs, FitsSigned};
ghost use Rattle.std.specs.Int.{w32};
ghost use Rattle.grid.specs.Doubles.{IsFinite, magnitude, in_leasts};
ghost use Rattle.grid.specs.Fit.{last_place};
ghost use Rattle.grid.specs.Grid.{IsNearest, IsOrigin};
ghost use Rattle.grid.specs.Rounding.{RoundsTo};

use crate::double::{bits_of, is_negative, magnitude_of};
use crate::rounding::whole_units;

/// How many units from the origin the nearest coordinate of the grid is. None where the number doesn't fit 32 bits.
pub(crate) fn nearest(origin: i64, scale: u32, bits: u64) -> Option<i32>
    requires { IsOrigin origin }
    ensures nearest { IfSome result (λ n. IsNearest (2 ^ scale) (in_leasts bits) (n +ℤ origin)) }
    ensures none { IfNone result ((n : ℤ) → FitsSigned w32 n → IsNearest (2 ^ scale) (in_leasts bits) (n +ℤ origin) → ⊥) }
{
    let Some(all) = nearest_units(scale, bits) else {
        return None;
    };
    less_origin(all, origin)
}

/// The number from which the origin leads to `all`. None where it doesn't fit 32 bits.
fn less_origin(all: i64, origin: i64) -> Option<i32>
    requires all { unsigned_abs all < 2 ^ 62 }
    requires origin { IsOrigin origin }
    ensures value { IfSome result (λ n. (n +ℤ origin) ≡ all) }
    ensures none { IfNone result ((n : ℤ) → FitsSigned w32 n → (n +ℤ origin) ≡ all → ⊥) }
{
    let units = all - origin;
    if units < -2147483648 {
        return None;
    }
    if units > 2147483647 {
        return None;
    }
    Some(units as i32)
}

/// The nearest whole number of units of `2^scale` leasts, halves to the even one. None where it is 2^62 or more.
pub(crate) fn nearest_units(scale: u32, bits: u64) -> Option<i64>
    ensures nearest { IfSome result (λ units. IsNearest (2 ^ scale) (in_leasts bits) units) }
    ensures within { IfSome result (λ units. unsigned_abs units < 2 ^ 62) }
    ensures found { last_place bits ≤ scale → IsSome result }
    ensures beyond { IfNone result ((units : ℤ) → IsNearest (2 ^ scale) (in_leasts bits) units → 2 ^ 62 ≤ unsigned_abs units) }
{
    let magnitude = magnitude_of(bits);
    let Some(units) = whole_units(magnitude, scale) else {
        return None;
    };
    Some(signed(units, bits))
}

/// So many units, with the sign of a double.
pub(crate) fn signed(units: u64, bits: u64) -> i64
    requires { units < 2 ^ 62 }
    ensures nearest { (unit : ℕ) → RoundsTo unit (magnitude bits) units → IsNearest unit (in_leasts bits) result }
    ensures within { unsigned_abs result ≡ units }
{
    if is_negative(bits) {
        -(units as i64)
    } else {
        units as i64
    }
}

/// The double that is so many units from the origin. It is +0 where that is 0.
pub(crate) fn coordinate(origin: i64, scale: u32, units: i32) -> u64
    requires origin { IsOrigin origin }
    requires from { 52 ≤ scale }
    requires upto { scale ≤ 2044 }
    ensures value { in_leasts result ≡ (units +ℤ origin) *ℤ pos (2 ^ scale) }
    ensures finite { IsFinite result }
    ensures zero { (units +ℤ origin) ≡ pos 0 → result ≡ 0 }
{
    let all = units as i64 + origin;
    let bits = bits_of(all.unsigned_abs(), scale);
    if all < 0 { bits + (1 << 63) } else { bits }
}
