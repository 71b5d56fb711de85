//! The parts of items in the strips that they reach, in the order in which they are served.

ghost use Rattle.std.specs.Prelude.{◌≡◌, ◌<◌, ◌≤◌, ◌+◌, ◌*◌, ◌≤ℤ◌, All, IfOk, OnOk, length, take, []};
ghost use Rattle.std.specs.Ordering.{int_cmp, nat_cmp, ordering_then};
ghost use Rattle.plane.specs.Pairs.Bounds.{IsBox};
ghost use Rattle.plane.specs.Pairs.Parts.{AreParts, Lists};
ghost use Rattle.plane.specs.Pairs.Strips.{ReachFew, reached};

use super::items::Boxed;
use super::strips::Strips;
use event_queue::buckets::sort_in_buckets;
use std::alloc::{AllocError, Allocator};
use std::cmp::Ordering;

/// The part of an item in a strip: where its box begins along x, and its place among all items. Parts are served
/// strip by strip, and in each by where they begin.
#[derive(Clone, Copy, PartialEq, Eq, PartialOrd, Ord)]
pub struct Part {
    pub strip: u32,
    pub left: i32,
    pub place: usize,
}

/// The parts of all items, in order: three an item at most, where items reach no more strips.
pub fn parts<T: Boxed, A: Allocator + Copy>(
    alloc: A,
    items: &[T],
    strips: Strips,
) -> Result<Vec<Part, A>, AllocError>
    requires proper { (item : T) → IsBox (T.bounds item) }
    requires base { All (λ item. strips.base ≤ℤ (T.bounds item).low) items.now }
    requires few { ReachFew T.bounds strips items.now }
    ensures ok { IfOk result (λ parts. AreParts T.bounds strips items.now parts.items) }
    ensures few { IfOk result (λ parts. length parts.items ≤ 3 * length items.now) }
{
    let mut parts = Vec::with_capacity(alloc, items.len())?;
    push_all(&mut parts, items, strips)?;
    let numbers = numbers_for(&parts);
    sort_in_buckets(
        &mut parts,
        |part| numbers.number_of(part),
        |one, other| compare(*one, *other),
    )?;
    Ok(parts)
}

// Appends the parts of all items.
fn push_all<T: Boxed, A: Allocator>(
    parts: &mut Vec<Part, A>,
    items: &[T],
    strips: Strips,
) -> Result<(), AllocError>
    requires proper { (item : T) → IsBox (T.bounds item) }
    requires base { All (λ item. strips.base ≤ℤ (T.bounds item).low) items.now }
    requires empty { parts.old.items ≡ [] }
    ensures lists { OnOk result (Lists T.bounds strips items.now (λ place _. place < length items.now) parts.new.items) }
    ensures count { OnOk result (length parts.new.items ≡ reached T.bounds strips items.now) }
{
    // The parts of the items so far stand there.
    for place in 0..items.len() {
        push_parts(parts, items, strips, place)?;
    }
    Ok(())
}

// Appends the parts of the item at the place, from the strip of its lower side to that of its upper one.
fn push_parts<T: Boxed, A: Allocator>(
    parts: &mut Vec<Part, A>,
    items: &[T],
    strips: Strips,
    place: usize,
) -> Result<(), AllocError>
    requires proper { (item : T) → IsBox (T.bounds item) }
    requires base { All (λ item. strips.base ≤ℤ (T.bounds item).low) items.now }
    requires inside { place < length items.now }
    requires before { Lists T.bounds strips items.now (λ other _. other < place) parts.old.items }
    requires count { length parts.old.items ≡ reached T.bounds strips (take place items.now) }
    ensures lists { OnOk result (Lists T.bounds strips items.now (λ other _. other < place + 1) parts.new.items) }
    ensures count { OnOk result (length parts.new.items ≡ reached T.bounds strips (take (place + 1) items.now)) }
{
    let bounds = items[place].bounds();
    let left = bounds.left;
    let first = strips.strip_at(bounds.low);
    let last = strips.strip_at(bounds.high);
    // The parts in the strips before this one stand there.
    for strip in first..last + 1 {
        parts.push(Part { strip, left, place })?;
    }
    Ok(())
}

// Numbers by which parts are nearly in order: for each strip so many bits' worth, from the least x on at which a part begins.
// So they lie close together, and buckets of them have few parts each.
#[derive(Clone, Copy)]
struct Numbers {
    least: i32,
    bits: u32,
}

impl Numbers {
    fn number_of(self, part: Part) -> u64 {
        (u64::from(part.strip) << (self.bits % 64)) | u64::from(part.left.abs_diff(self.least))
    }
}

// The closest numbers that tell all x apart at which these parts begin.
fn numbers_for(parts: &[Part]) -> Numbers {
    let mut least = i32::MAX;
    let mut greatest = i32::MIN;
    for part in parts {
        least = least.min(part.left);
        greatest = greatest.max(part.left);
    }
    Numbers {
        least,
        bits: 32 - greatest.abs_diff(least).leading_zeros(),
    }
}

// How two parts stand by the order of their fields. All three comparisons are made, since a branch between them would be
// guessed wrongly often.
fn compare(one: Part, other: Part) -> Ordering
    ensures { result ≡ ordering_then (nat_cmp one.strip other.strip)
        (ordering_then (int_cmp one.left other.left) (nat_cmp one.place other.place)) }
{
    let by_strip = one.strip.cmp(&other.strip);
    let by_left = one.left.cmp(&other.left);
    let by_place = one.place.cmp(&other.place);
    by_strip.then(by_left.then(by_place))
}
