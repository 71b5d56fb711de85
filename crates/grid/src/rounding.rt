//! Whole numbers of leasts, rounded to whole numbers of units.

ghost use Rattle.std.specs.Prelude.{◌≡◌, ◌≤◌, ◌<◌, ◌*◌, ◌^◌, ◌+◌, IfSome, IfNone, IsSome};
ghost use Rattle.grid.specs.Rounding.{RoundsTo};

use crate::double::Magnitude;
use crate::powers::power_of_two;

/// How many units of `2^scale` leasts a magnitude is next to, halves to the even number. None where it is 2^62 units or more.
pub(crate) fn whole_units(magnitude: Magnitude, scale: u32) -> Option<u64>
    requires within { magnitude.mantissa < 2 ^ 53 }
    requires leading { 0 < magnitude.exponent → 2 ^ 52 ≤ magnitude.mantissa }
    ensures rounds { IfSome result (λ units. RoundsTo (2 ^ scale) (magnitude.mantissa * 2 ^ magnitude.exponent) units) }
    ensures within { IfSome result (λ units. units < 2 ^ 62) }
    ensures found { magnitude.exponent ≤ scale → IsSome result }
    ensures beyond { IfNone result (2 ^ 62 * 2 ^ scale ≤ magnitude.mantissa * 2 ^ magnitude.exponent) }
{
    if magnitude.exponent < scale {
        if magnitude.mantissa == 0 {
            return Some(0);
        }
        let further = scale - magnitude.exponent - 1;
        return Some(shortened(magnitude.mantissa, further as u64));
    }
    let places = magnitude.exponent - scale;
    if places > 9 {
        return None;
    }
    Some(magnitude.mantissa << places)
}

/// `mantissa / 2^(further + 1)`, rounded to the next whole number, and halves to the even one.
fn shortened(mantissa: u64, further: u64) -> u64
    requires some { 0 < mantissa }
    requires within { mantissa < 2 ^ 53 }
    ensures rounds { RoundsTo (2 ^ (further + 1)) mantissa result }
    ensures within { result < 2 ^ 53 }
{
    without_places(mantissa, few_places(further))
}

/// How many places are taken away for one and `further` ones: at most 54, which leave nothing of 53 bits.
pub(crate) fn few_places(further: u64) -> u32
    ensures some { 0 < result }
    ensures few { result ≤ 54 }
    ensures same { further < 53 → result ≡ further + 1 }
    ensures most { 53 ≤ further → result ≡ 54 }
{
    if further < 53 { further as u32 + 1 } else { 54 }
}

/// `mantissa / 2^places`, rounded likewise, for so few places that a number can be shifted by them.
///
/// A half of a unit is added to one least less. So just a half goes up only where the number without it is odd.
pub(crate) fn without_places(mantissa: u64, places: u32) -> u64
    requires least { 0 < mantissa }
    requires within { mantissa < 2 ^ 53 }
    requires some { 0 < places }
    requires few { places ≤ 54 }
    ensures rounds { RoundsTo (2 ^ places) mantissa result }
    ensures within { result < 2 ^ 53 }
{
    let less = mantissa - 1;
    let odd = (less >> places) % 2;
    (less + power_of_two(places - 1) + odd) >> places
}
