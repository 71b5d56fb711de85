//! The layout numbers of the signed types, whose differences are of the unsigned type of the same length.

ghost use Rattle.std.specs.Prelude.{refl};

use crate::LayoutNumber;

impl LayoutNumber for i8 {
    type UInt = u8;

    ghost whole = { λ value. value };

    fn offset_from(self, min: i8) -> u8 {
        self.abs_diff(min)
    }

    ghost order = { λ _ _. refl };
}

impl LayoutNumber for i16 {
    type UInt = u16;

    ghost whole = { λ value. value };

    fn offset_from(self, min: i16) -> u16 {
        self.abs_diff(min)
    }

    ghost order = { λ _ _. refl };
}

impl LayoutNumber for i32 {
    type UInt = u32;

    ghost whole = { λ value. value };

    fn offset_from(self, min: i32) -> u32 {
        self.abs_diff(min)
    }

    ghost order = { λ _ _. refl };
}

impl LayoutNumber for i64 {
    type UInt = u64;

    ghost whole = { λ value. value };

    fn offset_from(self, min: i64) -> u64 {
        self.abs_diff(min)
    }

    ghost order = { λ _ _. refl };
}

impl LayoutNumber for isize {
    type UInt = usize;

    ghost whole = { λ value. value };

    fn offset_from(self, min: isize) -> usize {
        self.abs_diff(min)
    }

    ghost order = { λ _ _. refl };
}
