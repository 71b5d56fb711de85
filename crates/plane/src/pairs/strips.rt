//! Heights that are cut into strips of one width, a power of two.

ghost use Rattle.std.specs.Prelude.{◌≡◌, ◌^◌, ◌≤◌, ◌<◌, ◌≤ℤ◌};

use super::items::Bounds;
use i_tree::seg::exp::SegRange;

/// Strips of heights, one above the other. The first begins at the base, and each is two to the `bits` heights wide.
#[derive(Clone, Copy)]
pub struct Strips {
    pub base: i32,
    pub bits: u32,
    // A strip is wide enough for a layout of segments, and its heights are a `u32`'s.
    ghost wide: { 5 ≤ bits },
    ghost fits: { bits < 32 },
}

impl Strips {
    ghost use Rattle.plane.specs.Pairs.Strips.{heights_of, strip_at, range_in, Reaches};

    /// The strip in which the height lies.
    pub fn strip_at(self, height: i32) -> u32
        requires { self.base ≤ℤ height }
        ensures value { result ≡ strip_at self height }
        ensures few { result < 2 ^ 27 }
    {
        height.abs_diff(self.base) >> self.bits
    }

    /// All heights of a strip, counted from its first one.
    pub fn heights(self) -> SegRange<u32>
        ensures { result ≡ heights_of self }
    {
        SegRange {
            min: 0,
            max: (1 << self.bits) - 1,
        }
    }

    /// The heights of the box that lie in the strip, counted from the strip's first one.
    pub fn range_in(self, strip: u32, bounds: Bounds) -> SegRange<u32>
        requires base { self.base ≤ℤ bounds.low }
        requires reaches { Reaches self bounds strip }
        ensures { result ≡ range_in self strip bounds }
    {
        let first = strip << self.bits;
        SegRange {
            min: bounds.low.abs_diff(self.base).saturating_sub(first),
            max: (bounds.high.abs_diff(self.base) - first).min(self.heights().max),
        }
    }
}
