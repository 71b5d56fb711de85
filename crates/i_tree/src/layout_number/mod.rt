//! Numbers that a layout of segments can be laid over, and the unsigned numbers of their differences.

ghost use Rattle.std.specs.Prelude.{◌≡◌, ◌<◌, ◌≤◌, ◌+◌, ◌/◌, ◌^◌, ℕ, ℤ, pos, true, MatchOption, ◌-ℤ◌, ◌<ℤ◌, ◌≤ℤ◌};
ghost use Rattle.std.specs.Ordering.{nat_cmp, int_cmp};

mod signed;
mod unsigned;

use std::ops::Shr;

/// An unsigned number type that holds the differences of a `LayoutNumber` type.
///
/// Each value stands for a whole number from 0 on, and `Ord` is the order of these numbers. `u >> k` is `u` divided by
/// two to the `k`, rounded down, for every `k` below `BITS`. An implementation proves these laws.
///
/// The rules are those of the Rust crate `i_tree`; `BITS` and `within` are our own, and say of which range a value is.
pub trait LayoutUInt: Copy + Ord + Shr<u32, Output = Self> {
    /// The number that the value stands for.
    ghost number: { Self → ℕ };

    /// What the constant of this name is.
    ghost HEAP_MIN_SPAN: { Self };

    /// What the constant of this name is.
    ghost BITS: { ℕ };

    /// The least span that a layout of segments has. It stands for a number of at least 1.
    const HEAP_MIN_SPAN: Self;

    /// Each value stands for a number below two to this power. It is our own.
    const BITS: u32;

    /// True for each value: it says of which range the value is. It is our own.
    fn within(self) -> bool
        ensures holds { result ≡ true }
        ensures range { number self < 2 ^ BITS };

    /// The greatest power of two that is at most the value, which is to be at least 1.
    fn ilog2(self) -> u32
        requires { 1 ≤ number self }
        ensures reached { 2 ^ result ≤ number self }
        ensures greatest { number self < 2 ^ (result + 1) };

    /// The same number as a `u32`. It is to be at most `u32::MAX`.
    fn to_u32(self) -> u32
        requires { number self < 2 ^ 32 }
        ensures { result ≡ number self };

    /// The order is that of the numbers.
    ghost order: { (first second : Self) → Self.cmp first second ≡ nat_cmp (number first) (number second) };

    /// A value may be shifted by less than `BITS`.
    ghost shift_allowed: { (value : Self) (places : ℕ) → places < BITS → Self.can_shr value places };

    /// A shift by less than `BITS` divides by a power of two.
    ghost shift_divides: { (value : Self) (places : ℕ) (shifted : Self) → places < BITS
        → Self.shr_gives value places shifted → number shifted ≡ number value / 2 ^ places };

    /// The least span is at least 1.
    ghost least_span: { 1 ≤ number HEAP_MIN_SPAN };
}

/// A number type that ranges of segments are of.
///
/// Each value stands for a whole number, and `Ord` is the order of these numbers. An implementation proves this law.
///
/// The rules are those of the Rust crate `i_tree`, which does not test the condition of `offset_from`.
pub trait LayoutNumber: Copy + Ord {
    /// Holds the difference of any two values.
    type UInt: LayoutUInt;

    /// The whole number that the value stands for.
    ghost whole: { Self → ℤ };

    /// How far `end` lies above `start`, or `None` where it lies below.
    fn range_span(start: Self, end: Self) -> Option<Self::UInt>
        ensures { MatchOption result (whole end <ℤ whole start)
            (λ span. pos (Self.UInt.number span) ≡ whole end -ℤ whole start) }
    {
        if end < start {
            return None;
        }
        Some(end.offset_from(start))
    }

    /// How far the value lies above `min`, which is to be at most the value.
    fn offset_from(self, min: Self) -> Self::UInt
        requires { whole min ≤ℤ whole self }
        ensures { pos (Self.UInt.number result) ≡ whole self -ℤ whole min };

    /// The order is that of the whole numbers.
    ghost order: { (first second : Self) → Self.cmp first second ≡ int_cmp (whole first) (whole second) };
}
