//! The order of doubles, by their bits.

ghost use Rattle.std.specs.Prelude.{◌≤ℤ◌, MatchBool};
ghost use Rattle.grid.specs.Doubles.{in_leasts};
ghost use Rattle.grid.specs.Fit.{AtLeast, AtMost, IsOfTwo};

use crate::double::is_negative;

/// Whether the one double is at most the other. Of two zeros either may be said to be.
pub(crate) fn is_at_most(one: u64, other: u64) -> bool
    ensures value { MatchBool result (in_leasts one ≤ℤ in_leasts other) (in_leasts other ≤ℤ in_leasts one) }
{
    if is_negative(one) {
        if is_negative(other) {
            return other <= one;
        }
        return true;
    }
    if is_negative(other) {
        return false;
    }
    one <= other
}

/// The lesser of two doubles.
pub(crate) fn lesser(one: u64, other: u64) -> u64
    ensures { IsOfTwo AtMost one other result }
{
    if is_at_most(one, other) {
        return one;
    }
    other
}

/// The greater of two doubles.
pub(crate) fn greater(one: u64, other: u64) -> u64
    ensures { IsOfTwo AtLeast one other result }
{
    if is_at_most(one, other) {
        return other;
    }
    one
}
