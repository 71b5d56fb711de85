//! How a range of numbers is cut into at most 32 buckets of one width, a power of two.

ghost use Rattle.std.specs.Prelude.{◌≡◌, ◌<◌, ◌≤◌, ◌≤ℤ◌, ◌↔◌, IsTrue, IfSome, MatchOption};
ghost use Rattle.i_tree.specs.Seg.Buckets.{HasLayout, IsLayout, Accepts, bucket, chunk_count};

use crate::{LayoutNumber, LayoutUInt};
use std::marker::Model;

// Two to this power is half of the number of buckets.
const HALF_POWER: u32 = 4;

/// A range of numbers, and the width of its buckets.
#[derive(Drop)]
pub struct Layout<R: LayoutNumber> {
    start: R,
    end: R,
    // The width is two to this power.
    scale: u32,
}

impl<R: LayoutNumber> Model for Layout<R> {
    ghost use Rattle.std.specs.Prelude.{◌^◌};
    ghost use Rattle.i_tree.specs.Seg.Buckets.{Buckets, IsCut};

    ghost Value = { Buckets };

    ghost view = { λ layout. record { start = R.whole layout.start; end = R.whole layout.end; width = 2 ^ layout.scale } };

    ghost invariant = { λ layout. IsCut (R.whole layout.start) (R.whole layout.end) layout.scale R.UInt.BITS };
}

impl<R: LayoutNumber> Layout<R> {
    // The layout of the range, or `None` where it has none.
    pub fn new(start: R, end: R) -> Option<Self>
        ensures cases { MatchOption result
            (¬ (HasLayout (R.UInt.number R.UInt.HEAP_MIN_SPAN) (R.whole start) (R.whole end)))
            (λ _. HasLayout (R.UInt.number R.UInt.HEAP_MIN_SPAN) (R.whole start) (R.whole end)) }
        ensures layout { IfSome result (λ layout. IsLayout (R.whole start) (R.whole end) layout) }
    {
        let span = R::range_span(start, end)?;
        if span < R::UInt::HEAP_MIN_SPAN {
            return None;
        }
        let _ = span.within();
        let power = span.ilog2();
        if power < HALF_POWER {
            return None;
        }
        let scale = power - HALF_POWER;
        Some(Layout { start, end, scale })
    }

    // Whether the range from `min` to `max` goes upwards and lies within the layout's own.
    pub fn accepts(&self, min: R, max: R) -> bool
        ensures { IsTrue result ↔ Accepts self.now (R.whole min) (R.whole max) }
    {
        if min < self.start || max < min {
            return false;
        }
        max <= self.end
    }

    // The bucket that a number of the range lies in.
    pub fn bucket(&self, value: R) -> u32
        requires low { self.now.start ≤ℤ R.whole value }
        requires high { R.whole value ≤ℤ self.now.end }
        ensures value { result ≡ bucket self.now (R.whole value) }
        ensures within { result < 32 }
        ensures wide { 0 < self.now.width }
        ensures chunks { chunk_count self.now ≤ 63 }
    {
        (value.offset_from(self.start) >> self.scale).to_u32()
    }

    // The number of chunks: up to the leaf of the last bucket.
    pub fn chunk_count(&self) -> usize
        ensures value { result ≡ chunk_count self.now }
        ensures within { result ≤ 63 }
    {
        self.bucket(self.end) as usize + 32
    }
}
