//! Items of two kinds in one list.

ghost use Rattle.std.specs.Prelude.{◌≡◌, ◌++◌, map, IfOk};
ghost use Rattle.plane.specs.Pairs.OfTwo.{bounds_of_two, MeetingOfTwo};

use super::items::{Bounds, Boxed, Meets};
use std::alloc::{AllocError, Allocator};

/// An item of one kind or of the other. Two of them meet where they are of different kinds, and do.
#[derive(Clone, Copy)]
pub enum OfTwo<X, Y> {
    One(X),
    Other(Y),
}

impl<X: Boxed, Y: Boxed> Boxed for OfTwo<X, Y> {
    ghost bounds = { bounds_of_two X.bounds Y.bounds };

    fn bounds(self) -> Bounds {
        match self {
            OfTwo::One(one) => one.bounds(),
            OfTwo::Other(other) => other.bounds(),
        }
    }
}

impl<X: Meets<Y>, Y: Boxed> Meets<OfTwo<X, Y>> for OfTwo<X, Y> {
    ghost Meeting = { MeetingOfTwo X.Meeting };

    fn meets(self, other: OfTwo<X, Y>) -> bool {
        match (self, other) {
            (OfTwo::One(one), OfTwo::Other(other)) => one.meets(other),
            (OfTwo::Other(other), OfTwo::One(one)) => one.meets(other),
            _ => false,
        }
    }
}

/// Both lists in one, first the one and then the other.
pub fn both<X: Copy, Y: Copy, A: Allocator>(
    alloc: A,
    ones: &[X],
    others: &[Y],
) -> Result<Vec<OfTwo<X, Y>, A>, AllocError>
    ensures { IfOk result (λ both. both.items ≡ map OfTwo.One ones.now ++ map OfTwo.Other others.now) }
{
    let ones = ones.iter().map(|one| OfTwo::One(*one));
    let others = others.iter().map(|other| OfTwo::Other(*other));
    ones.chain(others).collect(alloc)
}
