//! Which points lie in which rectangles: items of one's own in the sweep over boxes of `plane`.

ghost use Rattle.std.specs.Prelude.{◌≤ℤ◌, MatchBool};
ghost use Rattle.uses.specs.Rectangles.{IsBetween};

use i_tree::Refusal;
use plane::pairs::items::{Bounds, Boxed, Meets};
use plane::pairs::pairs_between;
use std::alloc::Global;

/// A rectangle along the axes, by its sides. They are of it.
#[derive(Clone, Copy)]
pub struct Rectangle {
    pub left: i32,
    pub right: i32,
    pub low: i32,
    pub high: i32,
    ghost wide: { left ≤ℤ right },
    ghost tall: { low ≤ℤ high },
}

/// A point.
#[derive(Clone, Copy)]
pub struct Spot {
    pub x: i32,
    pub y: i32,
}

impl Boxed for Rectangle {
    ghost bounds = { λ it. record { left = it.left; right = it.right; low = it.low; high = it.high } };

    fn bounds(self) -> Bounds {
        Bounds {
            left: self.left,
            right: self.right,
            low: self.low,
            high: self.high,
        }
    }
}

impl Boxed for Spot {
    ghost bounds = { λ it. record { left = it.x; right = it.x; low = it.y; high = it.y } };

    fn bounds(self) -> Bounds {
        Bounds {
            left: self.x,
            right: self.x,
            low: self.y,
            high: self.y,
        }
    }
}

impl Meets<Spot> for Rectangle {
    ghost Meeting = { λ it spot. IsBetween it.left spot.x it.right × IsBetween it.low spot.y it.high };

    fn meets(self, other: Spot) -> bool {
        if !is_between(self.left, other.x, self.right) {
            return false;
        }
        is_between(self.low, other.y, self.high)
    }
}

// Whether the number is one of those from the least to the greatest.
fn is_between(least: i32, number: i32, greatest: i32) -> bool
    ensures { let between = IsBetween least number greatest in MatchBool result between (¬ between) }
{
    least <= number && number <= greatest
}

/// The places of each rectangle and each point that lies in it, a pair each.
pub fn points_in_rectangles(
    alloc: Global,
    rectangles: &[Rectangle],
    spots: &[Spot],
) -> Result<Vec<(usize, usize)>, Refusal> {
    let mut pairs = Vec::new(alloc);
    pairs_between(rectangles, spots, &mut pairs)?;
    Ok(pairs)
}
