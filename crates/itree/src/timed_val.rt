//! The values of the program's segments.

use i_tree::ExpiredVal;

/// A value with the last time at which it is live. Values are compared by `val` alone.
#[derive(Clone, Copy, Debug)]
#[derive_where(PartialEq, Eq, PartialOrd, Ord)]
pub struct TimedVal {
    pub val: i32,
    #[derive_where(skip(EqHashOrd))]
    pub expiration: i32,
}

impl ExpiredVal<i32> for TimedVal {
    ghost expiration = { λ timed. timed.expiration };

    fn expiration(&self) -> i32 {
        self.expiration
    }
}
