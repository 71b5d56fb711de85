//! A key that expires.

use i_tree::ExpiredKey;

/// A key with the time at which it expires. Keys are compared by `key` alone.
#[derive(Clone, Copy)]
#[derive_where(PartialEq, Eq, PartialOrd, Ord)]
pub struct TimedKey {
    pub key: i32,
    #[derive_where(skip(EqHashOrd))]
    pub expiration: i32,
}

impl ExpiredKey<i32> for TimedKey {
    ghost expiration = { λ timed. timed.expiration };

    fn expiration(&self) -> i32 {
        self.expiration
    }
}

/// The key of this number, with an end.
pub fn timed(key: i32, expiration: i32) -> TimedKey {
    TimedKey { key, expiration }
}
