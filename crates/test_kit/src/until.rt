//! Values that expire.

use i_tree::ExpiredVal;

/// A number that is live up to a time.
#[derive(Clone, Copy, Debug, PartialEq, Eq)]
pub struct Until {
    pub number: i32,
    pub expiration: i32,
}

impl ExpiredVal<i32> for Until {
    ghost expiration = { λ until. until.expiration };

    fn expiration(&self) -> i32 {
        self.expiration
    }
}

/// A number that is live up to time 10.
pub fn number(number: i32) -> Until {
    Until {
        number,
        expiration: 10,
    }
}
