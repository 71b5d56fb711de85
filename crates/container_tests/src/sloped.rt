//! Sloped segments, which a sweep line meets up to a time.

use i_tree::ExpiredVal;

/// A straight segment, by its height at time 0 and how much that grows each time, up to the time where it ends.
#[derive(Clone, Copy, PartialEq, Eq)]
pub struct Sloped {
    pub at: i64,
    pub slope: i64,
    pub end: i32,
}

impl ExpiredVal<i32> for Sloped {
    ghost expiration = { λ sloped. sloped.end };

    fn expiration(&self) -> i32 {
        self.end
    }
}

impl Sloped {
    /// Its height at the line.
    pub fn height(&self, time: i32) -> i64 {
        self.slope
            .saturating_mul(i64::from(time))
            .saturating_add(self.at)
    }
}
