//! A number type of a user's own, for which a layout is lawful from a span of 1 on.

ghost use Rattle.std.specs.Prelude.{◌≡◌, ◌<◌, ◌/◌, ◌^◌, pos, refl};
ghost use Rattle.test_kit.specs.Shorts.{cmp_is, one_is_some};

use i_tree::{LayoutNumber, LayoutUInt};
use std::ops::Shr;

/// The difference of two short numbers.
#[derive(Clone, Copy, Debug, PartialEq, Eq, PartialOrd, Ord)]
pub struct ShortSpan {
    value: u16,
}

impl Shr<u32> for ShortSpan {
    type Output = ShortSpan;

    ghost can_shr = { λ _ places. places < 16 };

    ghost shr_gives = { λ span places shifted. shifted.value ≡ span.value / 2 ^ places };

    fn shr(self, places: u32) -> ShortSpan {
        ShortSpan {
            value: self.value >> places,
        }
    }
}

impl LayoutUInt for ShortSpan {
    ghost number = { λ span. span.value };

    ghost HEAP_MIN_SPAN = { record { value = 1 } };

    ghost BITS = { 16 };

    const HEAP_MIN_SPAN: ShortSpan = ShortSpan { value: 1 };

    const BITS: u32 = 16;

    fn within(self) -> bool {
        true
    }

    fn ilog2(self) -> u32 {
        self.value.ilog2()
    }

    fn to_u32(self) -> u32 {
        self.value as u32
    }

    ghost order = { λ _ _. refl };

    ghost shift_allowed = { λ _ _ below. below };

    ghost shift_divides = { λ _ _ _ _ gives. gives };

    ghost least_span = { one_is_some };
}

/// A short number.
#[derive(Clone, Copy, Debug, PartialEq, Eq, PartialOrd, Ord)]
pub struct Short {
    value: u16,
}

impl Short {
    /// The short number of this value.
    pub fn new(value: u16) -> Self {
        Short { value }
    }
}

impl LayoutNumber for Short {
    type UInt = ShortSpan;

    ghost whole = { λ short. pos short.value };

    fn range_span(start: Short, end: Short) -> Option<ShortSpan> {
        if end < start {
            return None;
        }
        Some(end.offset_from(start))
    }

    fn offset_from(self, min: Short) -> ShortSpan {
        ShortSpan {
            value: self.value - min.value,
        }
    }

    ghost order = { cmp_is };
}
