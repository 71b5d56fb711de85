//! A double, taken to its parts by its bits.

ghost use Rattle.std.specs.Prelude.{◌≡◌, ◌≤◌, ◌<◌, ◌*◌, ◌^◌, ◌↔◌, IsTrue};
ghost use Rattle.grid.specs.Doubles.{IsFinite, magnitude};
ghost use Rattle.grid.specs.Fit.{last_place};

/// How far a double is from 0: `mantissa * 2^exponent` leasts.
#[derive(Clone, Copy)]
pub(crate) struct Magnitude {
    pub(crate) mantissa: u64,
    pub(crate) exponent: u32,
}

/// Whether the double is neither infinite nor NaN.
pub fn is_finite(bits: u64) -> bool
    ensures value { IsTrue result ↔ IsFinite bits }
{
    exponent_field(bits) != 2047
}

/// The 11 bits of the exponent.
pub(crate) fn exponent_field(bits: u64) -> u64
    ensures value { result ≡ Rattle.grid.specs.Doubles.exponent_field bits }
    ensures within { result < 2048 }
{
    (bits >> 52) & 2047
}

/// The 52 bits behind the binary point.
pub(crate) fn fraction_field(bits: u64) -> u64
    ensures value { result ≡ Rattle.grid.specs.Doubles.fraction_field bits }
    ensures within { result < 2 ^ 52 }
{
    bits & 0x000f_ffff_ffff_ffff
}

/// How far the finite double is from 0. Where its exponent isn't 0 the mantissa has a leading one, of 53 bits.
pub(crate) fn magnitude_of(bits: u64) -> Magnitude
    ensures value { magnitude bits ≡ result.mantissa * 2 ^ result.exponent }
    ensures within { result.mantissa < 2 ^ 53 }
    ensures exponent_within { result.exponent < 2047 }
    ensures exponent_finite { IsFinite bits → result.exponent < 2046 }
    ensures last_place { result.exponent ≡ last_place bits }
    ensures leading { 0 < result.exponent → 2 ^ 52 ≤ result.mantissa }
{
    let field = exponent_field(bits);
    let fraction = fraction_field(bits);
    if field == 0 {
        return Magnitude {
            mantissa: fraction,
            exponent: 0,
        };
    }
    Magnitude {
        mantissa: 0x0010_0000_0000_0000 + fraction,
        exponent: (field - 1) as u32,
    }
}

/// Whether the sign's bit is set.
pub(crate) fn is_negative(bits: u64) -> bool
    ensures value { IsTrue result ↔ (2 ^ 63 ≤ bits) }
{
    bits >= 1 << 63
}

/// The double above 0 that is `units * 2^scale` leasts, or +0.
pub(crate) fn bits_of(units: u64, scale: u32) -> u64
    requires few { units ≤ 2 ^ 53 }
    requires from { 52 ≤ scale }
    requires upto { scale ≤ 2044 }
    ensures value { magnitude result ≡ units * 2 ^ scale }
    ensures finite { IsFinite result }
    ensures positive { result < 2 ^ 63 }
    ensures zero { units ≡ 0 → result ≡ 0 }
{
    if units == 0 {
        return 0;
    }
    let leading = units.leading_zeros();
    let mantissa = (units << leading) >> 11;
    joined(mantissa, scale + 11 - leading)
}

/// The double that is `mantissa * 2^exponent` leasts. The mantissa's leading one adds one to the exponent's field.
fn joined(mantissa: u64, exponent: u32) -> u64
    requires from { 2 ^ 52 ≤ mantissa }
    requires below { mantissa < 2 ^ 53 }
    requires exponent { exponent < 2046 }
    ensures value { magnitude result ≡ mantissa * 2 ^ exponent }
    ensures finite { IsFinite result }
    ensures positive { result < 2 ^ 63 }
{
    ((exponent as u64) << 52) + mantissa
}
