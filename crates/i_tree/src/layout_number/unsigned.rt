//! The layout numbers of the unsigned types: each holds the differences of its own values.

ghost use Rattle.std.specs.Prelude.{pos, refl};
ghost use Rattle.i_tree.specs.Laws.LayoutNumbers.{nat_cmp-is_int_cmp, some-31};

use crate::{LayoutNumber, LayoutUInt};

impl LayoutUInt for u8 {
    ghost number = { λ value. value };

    ghost HEAP_MIN_SPAN = { 31 };

    ghost BITS = { 8 };

    const HEAP_MIN_SPAN: u8 = 31;

    const BITS: u32 = u8::BITS;

    fn within(self) -> bool {
        true
    }

    fn ilog2(self) -> u32 {
        u8::ilog2(self)
    }

    fn to_u32(self) -> u32 {
        self as u32
    }

    ghost order = { λ _ _. refl };

    ghost shift_allowed = { λ _ _ below. below };

    ghost shift_divides = { λ _ _ _ _ gives. gives };

    ghost least_span = { some-31 };
}

impl LayoutUInt for u16 {
    ghost number = { λ value. value };

    ghost HEAP_MIN_SPAN = { 31 };

    ghost BITS = { 16 };

    const HEAP_MIN_SPAN: u16 = 31;

    const BITS: u32 = u16::BITS;

    fn within(self) -> bool {
        true
    }

    fn ilog2(self) -> u32 {
        u16::ilog2(self)
    }

    fn to_u32(self) -> u32 {
        self as u32
    }

    ghost order = { λ _ _. refl };

    ghost shift_allowed = { λ _ _ below. below };

    ghost shift_divides = { λ _ _ _ _ gives. gives };

    ghost least_span = { some-31 };
}

impl LayoutUInt for u32 {
    ghost number = { λ value. value };

    ghost HEAP_MIN_SPAN = { 31 };

    ghost BITS = { 32 };

    const HEAP_MIN_SPAN: u32 = 31;

    const BITS: u32 = u32::BITS;

    fn within(self) -> bool {
        true
    }

    fn ilog2(self) -> u32 {
        u32::ilog2(self)
    }

    fn to_u32(self) -> u32 {
        self
    }

    ghost order = { λ _ _. refl };

    ghost shift_allowed = { λ _ _ below. below };

    ghost shift_divides = { λ _ _ _ _ gives. gives };

    ghost least_span = { some-31 };
}

impl LayoutUInt for u64 {
    ghost number = { λ value. value };

    ghost HEAP_MIN_SPAN = { 31 };

    ghost BITS = { 64 };

    const HEAP_MIN_SPAN: u64 = 31;

    const BITS: u32 = u64::BITS;

    fn within(self) -> bool {
        true
    }

    fn ilog2(self) -> u32 {
        u64::ilog2(self)
    }

    fn to_u32(self) -> u32 {
        self as u32
    }

    ghost order = { λ _ _. refl };

    ghost shift_allowed = { λ _ _ below. below };

    ghost shift_divides = { λ _ _ _ _ gives. gives };

    ghost least_span = { some-31 };
}

impl LayoutUInt for usize {
    ghost number = { λ value. value };

    ghost HEAP_MIN_SPAN = { 31 };

    ghost BITS = { 64 };

    const HEAP_MIN_SPAN: usize = 31;

    const BITS: u32 = usize::BITS;

    fn within(self) -> bool {
        true
    }

    fn ilog2(self) -> u32 {
        usize::ilog2(self)
    }

    fn to_u32(self) -> u32 {
        self as u32
    }

    ghost order = { λ _ _. refl };

    ghost shift_allowed = { λ _ _ below. below };

    ghost shift_divides = { λ _ _ _ _ gives. gives };

    ghost least_span = { some-31 };
}

impl LayoutNumber for u8 {
    type UInt = u8;

    ghost whole = { λ value. pos value };

    fn offset_from(self, min: u8) -> u8 {
        self - min
    }

    ghost order = { nat_cmp-is_int_cmp };
}

impl LayoutNumber for u16 {
    type UInt = u16;

    ghost whole = { λ value. pos value };

    fn offset_from(self, min: u16) -> u16 {
        self - min
    }

    ghost order = { nat_cmp-is_int_cmp };
}

impl LayoutNumber for u32 {
    type UInt = u32;

    ghost whole = { λ value. pos value };

    fn offset_from(self, min: u32) -> u32 {
        self - min
    }

    ghost order = { nat_cmp-is_int_cmp };
}

impl LayoutNumber for u64 {
    type UInt = u64;

    ghost whole = { λ value. pos value };

    fn offset_from(self, min: u64) -> u64 {
        self - min
    }

    ghost order = { nat_cmp-is_int_cmp };
}

impl LayoutNumber for usize {
    type UInt = usize;

    ghost whole = { λ value. pos value };

    fn offset_from(self, min: usize) -> usize {
        self - min
    }

    ghost order = { nat_cmp-is_int_cmp };
}
