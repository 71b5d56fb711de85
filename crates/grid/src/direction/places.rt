//! Sums of products of doubles, exactly: whole numbers in places of 32 bits, the lowest first.
//!
//! A place is wide enough to take many terms before any carry. So a term goes to two places and no further.

ghost use Rattle.std.specs.Prelude.{◌≡◌, ℕ, ◌+◌, ◌*◌, ◌^◌, ◌<◌, ◌≤◌, ◌-◌, ◌↔◌, IsTrue, slice_index, ◌+ℤ◌};
ghost use Rattle.grid.specs.Parts.{signed};
ghost use Rattle.grid.specs.Places.{number_of, left_of};

use crate::powers::power_of_two;

/// How many places there are. A product's exponent is at most 4090, which is of place 127, and its upper half goes two
/// places further.
pub const PLACES: usize = 130;

/// The number 0.
pub fn zero() -> [u128; PLACES]
    ensures { number_of result ≡ 0 }
{
    [0; PLACES]
}

/// Adds `product * 2 ^ exponent` to the number.
///
/// The lower 64 bits of the product go to one place, and the rest two places further: both are moved by the same count
/// of bits, which is less than 32.
pub fn add_product(places: &mut [u128; PLACES], product: u128, exponent: u32)
    requires product { product < 2 ^ 106 }
    requires exponent { exponent ≤ 4090 }
    requires room { (k : ℕ) → slice_index places.old k < 2 ^ 128 - 2 ^ 95 }
    ensures number { number_of places.new ≡ number_of places.old + product * 2 ^ exponent }
    ensures bound { (k : ℕ) → slice_index places.new k ≤ slice_index places.old k + 2 ^ 95 }
{
    let place = (exponent / 32) as usize;
    let power = power_of_two(exponent % 32) as u128;
    let low = (product % (1 << 64)) * power;
    let high = (product / (1 << 64)) * power;
    places[place] += low;
    places[place + 2] += high;
}

/// Adds `product * 2 ^ exponent` to what was added, or, where it is negative, to what was taken.
pub fn add_signed(
    negative: bool,
    product: u128,
    exponent: u32,
    added: &mut [u128; PLACES],
    taken: &mut [u128; PLACES],
)
    requires product { product < 2 ^ 106 }
    requires exponent { exponent ≤ 4090 }
    requires added_room { (k : ℕ) → slice_index added.old k < 2 ^ 128 - 2 ^ 95 }
    requires taken_room { (k : ℕ) → slice_index taken.old k < 2 ^ 128 - 2 ^ 95 }
    ensures left { left_of added.new taken.new ≡ left_of added.old taken.old +ℤ signed negative (product * 2 ^ exponent) }
    ensures added_bound { (k : ℕ) → slice_index added.new k ≤ slice_index added.old k + 2 ^ 95 }
    ensures taken_bound { (k : ℕ) → slice_index taken.new k ≤ slice_index taken.old k + 2 ^ 95 }
{
    if negative {
        add_product(taken, product, exponent);
    } else {
        add_product(added, product, exponent);
    }
}

/// Whether the one number is greater than the other.
///
/// From the lowest place up, what goes beyond 32 bits is carried to the next place. Whether the digits so far of the one
/// are greater is 1 or 0, and counts as one more at the next digit, where it decides between equal digits. Where both
/// have nothing, as in most places, nothing changes.
pub fn is_greater(one: &[u128; PLACES], other: &[u128; PLACES]) -> bool
    requires one { (k : ℕ) → slice_index one.now k ≤ 2 ^ 128 - 2 ^ 96 }
    requires other { (k : ℕ) → slice_index other.now k ≤ 2 ^ 128 - 2 ^ 96 }
    ensures { IsTrue result ↔ (number_of other.now < number_of one.now) }
{
    let mut one_carry: u128 = 0;
    let mut other_carry: u128 = 0;
    let mut greater: u128 = 0;
    for i in 0..PLACES {
        let one_sum = one_carry + one[i];
        let other_sum = other_carry + other[i];
        if one_sum == 0 && other_sum == 0 {
            continue;
        }
        let above = other_sum % (1 << 32) < one_sum % (1 << 32) + greater;
        greater = above as u128;
        one_carry = one_sum / (1 << 32);
        other_carry = other_sum / (1 << 32);
    }
    other_carry < one_carry + greater
}
