//! Pairs on the heap, as many as there are.

ghost use Rattle.std.specs.Prelude.{◌≡◌, Some, IfOk, map, reverse};
ghost use Rattle.std.specs.Option.{IsSome};
ghost use Rattle.std.specs.Vec.{vec_ptr, vec_len};
ghost use Rattle.itree_c.specs.Meetings.{pair_of};
ghost use denote.Param.Send.{IsSend};

use crate::meetings::Pair;
use crate::raw::Raw;
use std::alloc::{AllocError, Global};

/// Pairs, and where the first of them lies. C reads them there.
#[derive(Drop)]
pub struct Pairs {
    pub(crate) first: *const Pair,
    pub(crate) count: usize,
    pub(crate) held: Vec<Pair, Global>,
    ghost told: { (first ≡ vec_ptr held) × (count ≡ vec_len held) },
}

// The pointer leads into memory that is the pairs' own.
unsafe impl Send for Pairs {}

// Another thread may take them over.
fn may_be_sent(pairs: Box<Pairs, Global>) {
    take_over(pairs);
}

fn take_over<T: Send + Drop>(_value: T)
    requires { IsSend T.row }
{}

// How many places are written before the memory behind those that they were read from is given back.
const CHUNK: usize = 0x10_0000;

// The pairs of these places, the last first, on the heap.
pub(crate) fn boxed_pairs(
    alloc: Global,
    places: Vec<(usize, usize), Global>,
) -> Result<Box<Pairs, Global>, AllocError>
    ensures { IfOk result (λ pairs. pairs.value.held.items ≡ map pair_of (reverse places.items)) }
{
    let held = pairs_of(alloc, places)?;
    let first = held.as_ptr();
    let count = held.len();
    Ok(Box::new(alloc, Pairs { first, count, held })?)
}

// The pairs of these places, the last first. Both lists together take little more room than one.
fn pairs_of(
    alloc: Global,
    mut places: Vec<(usize, usize), Global>,
) -> Result<Vec<Pair, Global>, AllocError>
    ensures { IfOk result (λ pairs. pairs.items ≡ map pair_of (reverse places.items)) }
{
    let count = places.len();
    let mut pairs = Vec::new(alloc);
    pairs.reserve_exact(count)?;
    // The pairs are those of the places that were taken off the end, in that order.
    for _written in 0..count {
        if let Some((first, second)) = places.pop() {
            pairs.push_reserved(Pair { first, second });
        }
        if places.len() % CHUNK == 0 {
            places.shrink_to_fit();
        }
    }
    Ok(pairs)
}

// Gives back all memory of the pairs.
pub(crate) fn drop_pairs(pairs: Raw<Pairs, Global>)
    requires { IsSome pairs.value }
{
    drop(pairs.into_box());
}
