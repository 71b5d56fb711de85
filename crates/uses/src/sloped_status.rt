//! Sloped segments at a sweep line, and which of them lies straight below a point.

use i_tree::status::exp::StatusCollection;
use i_tree::status::tree::StatusTree;
use i_tree::{ExpiredVal, Refusal};
use std::alloc::Global;
use std::cmp::Ordering;

/// A segment from its left end to its right end, which lies further right.
#[derive(Clone, Copy)]
pub struct Sloped {
    pub x0: i32,
    pub y0: i32,
    pub x1: i32,
    pub y1: i32,
}

impl ExpiredVal<i32> for Sloped {
    ghost expiration = { λ sloped. sloped.x1 };

    fn expiration(&self) -> i32 {
        self.x1
    }
}

impl Sloped {
    /// Less where it passes below the point, Greater where above, Equal where through it.
    pub fn stands_to(&self, x: i32, y: i32) -> Ordering {
        let climbed = product(difference(self.y1, self.y0), difference(x, self.x0));
        climbed.cmp(&product(difference(y, self.y0), difference(self.x1, self.x0)))
    }
}

fn difference(to: i32, from: i32) -> i64 {
    i64::from(to) - i64::from(from)
}

fn product(one: i64, other: i64) -> i128 {
    i128::from(one) * i128::from(other)
}

/// The place of the segment through the point, or next below it, if there is one. The segments come by rising left end, and
/// no two of them meet.
pub fn below(alloc: Global, segments: &[Sloped], x: i32, y: i32) -> Result<Option<usize>, Refusal> {
    let mut status = StatusTree::new(alloc, 16)?;
    for place in 0..segments.len() {
        let new = segments[place];
        if new.x0 <= x {
            let stands = |other: Sloped| other.stands_to(new.x0, new.y0);
            status.insert_by(new.x0, stands, new, place)?;
        }
    }
    let (below, _above) = status.neighbours_by(x, |other| other.stands_to(x, y));
    Ok(below.map(|pair| pair.1))
}
