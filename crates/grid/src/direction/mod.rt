//! Which way a ring of positions runs, exactly.
//!
//! Twice the area is a sum of products of doubles. Each product is a whole number of squares of leasts, and all are
//! added as whole numbers, so that nothing is rounded.

mod parts;
mod places;

ghost use Rattle.std.specs.Prelude.{◌≡◌, ℕ, ◌+◌, ◌*◌, ◌^◌, ◌<◌, ◌≤◌, ◌-◌, ◌↔◌, IsTrue, slice_index, length, pos, ◌+ℤ◌, ◌-ℤ◌, ◌*ℤ◌, ◌<ℤ◌, neg_ℤ};
ghost use Rattle.std.specs.List.{All};
ghost use Rattle.grid.specs.Area.{twice_area};
ghost use Rattle.grid.specs.Doubles.{in_leasts};
ghost use Rattle.grid.specs.Grid.{IsFinitePosition};
ghost use Rattle.grid.specs.Parts.{AreParts, ArePositionParts, leasts_of, cross_of_parts};
ghost use Rattle.grid.specs.Places.{left_of};

use crate::direction::parts::{Parts, parts_of};
use crate::direction::places::{PLACES, add_signed, is_greater, zero};
use crate::position::Position;

/// A position whose coordinates are taken apart.
#[derive(Clone, Copy)]
struct PositionParts {
    x: Parts,
    y: Parts,
}

/// Whether the ring runs counterclockwise: whether its area by the shoelace formula is above 0, where y grows upwards.
///
/// The ring closes from its last position to its first. It may name its first position again at its end. A ring of no
/// area, such as one of fewer than three positions, doesn't run counterclockwise. The answer is exact.
pub fn runs_counterclockwise(ring: &[Position]) -> bool
    requires finite { All IsFinitePosition ring.now }
    requires few { length ring.now < 2 ^ 32 }
    ensures { IsTrue result ↔ (pos 0 <ℤ twice_area ring.now) }
{
    let Some((first, rest)) = ring.split_first() else {
        return false;
    };
    let mut added = zero();
    let mut taken = zero();
    let start = position_parts_of(*first);
    let mut from = start;
    // `from` is the position before, and twice the area of the edges up to it is what was added less what was taken.
    for position in rest {
        let to = position_parts_of(*position);
        add_edge(from, to, &mut added, &mut taken);
        from = to;
    }
    add_edge(from, start, &mut added, &mut taken);
    is_greater(&added, &taken)
}

/// The coordinates of a finite position, taken apart.
fn position_parts_of(position: Position) -> PositionParts
    requires { IsFinitePosition position }
    ensures x { leasts_of result.x ≡ in_leasts position.x }
    ensures y { leasts_of result.y ≡ in_leasts position.y }
    ensures ranges { ArePositionParts result }
{
    PositionParts {
        x: parts_of(position.x),
        y: parts_of(position.y),
    }
}

/// The number of the opposite sign.
fn opposite(parts: Parts) -> Parts
    requires { AreParts parts }
    ensures number { leasts_of result ≡ neg_ℤ (leasts_of parts) }
    ensures ranges { AreParts result }
{
    Parts {
        negative: !parts.negative,
        mantissa: parts.mantissa,
        exponent: parts.exponent,
    }
}

/// Adds the product of the two numbers.
fn add_product_of(left: Parts, right: Parts, added: &mut [u128; PLACES], taken: &mut [u128; PLACES])
    requires left { AreParts left }
    requires right { AreParts right }
    requires added_room { (k : ℕ) → slice_index added.old k < 2 ^ 128 - 2 ^ 95 }
    requires taken_room { (k : ℕ) → slice_index taken.old k < 2 ^ 128 - 2 ^ 95 }
    ensures left { left_of added.new taken.new ≡ left_of added.old taken.old +ℤ (leasts_of left *ℤ leasts_of right) }
    ensures added_bound { (k : ℕ) → slice_index added.new k ≤ slice_index added.old k + 2 ^ 95 }
    ensures taken_bound { (k : ℕ) → slice_index taken.new k ≤ slice_index taken.old k + 2 ^ 95 }
{
    let product = left.mantissa as u128 * right.mantissa as u128;
    let negative = left.negative != right.negative;
    add_signed(
        negative,
        product,
        left.exponent + right.exponent,
        added,
        taken,
    );
}

/// Adds the cross product of the edge's ends.
fn add_edge(
    from: PositionParts,
    to: PositionParts,
    added: &mut [u128; PLACES],
    taken: &mut [u128; PLACES],
)
    requires from { ArePositionParts from }
    requires to { ArePositionParts to }
    requires added_room { (k : ℕ) → slice_index added.old k < 2 ^ 128 - 2 ^ 96 }
    requires taken_room { (k : ℕ) → slice_index taken.old k < 2 ^ 128 - 2 ^ 96 }
    ensures left { left_of added.new taken.new ≡ left_of added.old taken.old +ℤ cross_of_parts from to }
    ensures added_bound { (k : ℕ) → slice_index added.new k ≤ slice_index added.old k + 2 ^ 96 }
    ensures taken_bound { (k : ℕ) → slice_index taken.new k ≤ slice_index taken.old k + 2 ^ 96 }
{
    add_product_of(from.x, to.y, added, taken);
    add_product_of(to.x, opposite(from.y), added, taken);
}
