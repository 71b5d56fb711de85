//! The values of the program's sets.

use i_tree::set::sort::KeyValue;

/// A value that is its key.
#[derive(Debug, PartialEq, Eq, Drop)]
pub struct SetKey {
    pub key: i32,
}

impl KeyValue<i32> for SetKey {
    ghost key_of = { λ value. value.key };

    fn key(&self) -> &i32 {
        &self.key
    }
}
