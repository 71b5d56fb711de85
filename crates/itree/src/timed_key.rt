//! The keys of the program.

use i_tree::ExpiredKey;

/// A key with the time at which it expires. Keys are compared by `key` alone.
#[derive(Clone, Copy, Debug)]
#[derive_where(PartialEq, Eq, PartialOrd, Ord)]
pub struct TimedKey {
    pub key: i32,
    #[derive_where(skip(EqHashOrd))]
    pub expiration: i32,
}

impl ExpiredKey<i32> for TimedKey {
    ghost expiration = { λ timed. timed.expiration };

    fn expiration(&self) -> i32 {
        self.expiration
    }
}
