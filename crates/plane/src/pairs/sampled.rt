//! Whether a sweep over boxes is likely to test too often, as a sample tells. It decides what is begun, and nothing else.

ghost use Rattle.std.specs.Prelude.{◌≡◌, ◌-◌, ◌^◌, ◌<◌, false, IfOk, length};

use super::boxes::{columns_meet, rows_meet};
use super::budget::{Budget, LOOKS_PER_TEST};
use super::items::{Bounds, Meets};
use super::strips::Strips;
use crate::sample::place_by_chance;
use std::alloc::{AllocError, Allocator};

// Fewer items are soon swept.
const FEW: usize = 2_048;

// A sample has so many times the square root of how many items there are. So it has twice as many pairs as there are items, and
// what takes a whole budget shows in some sixty of them.
const ROOTS_A_SAMPLE: usize = 2;

// The sweep is left out only where the sample tells half as much again as the budget allows. Less may be by chance.
const TOLD: usize = 3;

const ALLOWED: usize = 2;

// A tree of what is live in a strip has so many parts: an item looks at those of the parts that it reaches.
const PARTS_BITS: u32 = 5;

// How many looks pairs of items take, and how many pairs meet.
#[derive(Clone, Copy)]
struct Seen {
    looks: u64,
    pairs: u64,
}

/// Whether a sweep by these strips is likely to look at more pairs than the budget allows. Of few items none is told so.
pub fn is_likely_spent<T: Meets<T>, A: Allocator>(
    alloc: A,
    items: &[T],
    strips: Strips,
    budget: Budget,
) -> Result<bool, AllocError>
    ensures { budget.tests ≡ 2 ^ 64 - 1 → IfOk result (λ is_likely. is_likely ≡ false) }
{
    if items.len() < FEW {
        return Ok(false);
    }
    is_told_spent(alloc, items, strips, budget)
}

/// The same of any number of items.
pub fn is_told_spent<T: Meets<T>, A: Allocator>(
    alloc: A,
    items: &[T],
    strips: Strips,
    budget: Budget,
) -> Result<bool, AllocError>
    ensures { budget.tests ≡ 2 ^ 64 - 1 → IfOk result (λ is_told. is_told ≡ false) }
{
    if items.is_empty() || budget.tests == usize::MAX {
        return Ok(false);
    }
    let sample = sample_of(alloc, items)?;
    let seen = seen_among(&sample, strips);
    let tests = scaled(seen.looks, items.len(), sample.len()) / LOOKS_PER_TEST;
    let pairs = scaled(seen.pairs, items.len(), sample.len());
    Ok(budget.is_spent(tests / TOLD * ALLOWED, pairs))
}

// Some of the items.
fn sample_of<T: Copy, A: Allocator>(alloc: A, items: &[T]) -> Result<Vec<T, A>, AllocError>
    requires { 0 < length items.now }
{
    let size = ROOTS_A_SAMPLE * items.len().isqrt();
    let mut sample = Vec::with_capacity(alloc, size)?;
    for index in 0..size {
        sample.push(items[place_by_chance(index, items.len())])?;
    }
    Ok(sample)
}

// What the pairs of the items take.
fn seen_among<T: Meets<T>>(items: &[T], strips: Strips) -> Seen {
    let mut seen = Seen { looks: 0, pairs: 0 };
    for second in 0..items.len() {
        seen = seen_before(items, second, strips, seen);
    }
    seen
}

// The same with what the pairs of the item at this place with those before it take.
fn seen_before<T: Meets<T>>(items: &[T], second: usize, strips: Strips, seen: Seen) -> Seen
    requires { second < length items.now }
{
    let mut seen = seen;
    for first in 0..second {
        seen = seen_with(items[first], items[second], strips, seen);
    }
    seen
}

// The same with what two items take.
fn seen_with<T: Meets<T>>(one: T, other: T, strips: Strips, seen: Seen) -> Seen {
    let first = one.bounds();
    let second = other.bounds();
    if !columns_meet(first, second) || !are_looked_at(first, second, strips) {
        return seen;
    }
    if !rows_meet(first, second) {
        return with_looks(seen, 1);
    }
    let tested = with_looks(seen, 1 + LOOKS_PER_TEST as u64);
    if one.meets(other) {
        return with_pair(tested);
    }
    tested
}

// Whether their heights are no further apart than a part of a strip is wide.
fn are_looked_at(one: Bounds, other: Bounds, strips: Strips) -> bool {
    let wide = 1i64 << (strips.bits.saturating_sub(PARTS_BITS) % 64);
    (one.low as i64 - other.high as i64 <= wide) & (other.low as i64 - one.high as i64 <= wide)
}

// The same with so many more looks.
fn with_looks(seen: Seen, more: u64) -> Seen {
    Seen {
        looks: seen.looks.saturating_add(more),
        pairs: seen.pairs,
    }
}

// The same with one more pair that meets.
fn with_pair(seen: Seen) -> Seen {
    Seen {
        looks: seen.looks,
        pairs: seen.pairs.saturating_add(1),
    }
}

// How many there are among the pairs of all items, where there are so many among those of a sample of this size.
fn scaled(count: u64, all: usize, size: usize) -> usize {
    let pairs = (size as u128).saturating_mul(size as u128).max(1);
    let times = (all as u128).saturating_mul(all as u128) / pairs;
    u128::from(count)
        .saturating_mul(times)
        .min(usize::MAX as u128) as usize
}
