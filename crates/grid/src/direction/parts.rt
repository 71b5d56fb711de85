//! Finite doubles taken apart into whole numbers.

ghost use Rattle.std.specs.Prelude.{◌≡◌};
ghost use Rattle.grid.specs.Doubles.{IsFinite, in_leasts};
ghost use Rattle.grid.specs.Parts.{AreParts, leasts_of};

/// A finite double: its mantissa times a power of two, in leasts, and its sign.
#[derive(Clone, Copy)]
pub struct Parts {
    pub negative: bool,
    pub mantissa: u64,
    pub exponent: u32,
}

/// The parts of a finite double.
///
/// Where the bits of the exponent are 0, the number is subnormal: its mantissa has no leading 1, and its exponent is
/// that of the least normal number (IEEE 754, 3.4).
pub fn parts_of(bits: u64) -> Parts
    requires { IsFinite bits }
    ensures number { leasts_of result ≡ in_leasts bits }
    ensures ranges { AreParts result }
{
    let negative = bits >= 1 << 63;
    let field = (bits >> 52) % (1 << 11);
    let fraction = bits % (1 << 52);
    if field == 0 {
        return Parts {
            negative,
            mantissa: fraction,
            exponent: 0,
        };
    }
    Parts {
        negative,
        mantissa: (1 << 52) + fraction,
        exponent: (field - 1) as u32,
    }
}
