//! Items with a key of their own.

use i_tree::set::sort::KeyValue;
use std::cell::Cell;

/// A value under a key.
#[derive(Clone, Copy, Debug, PartialEq, Eq)]
pub struct Item {
    pub key: i32,
    pub value: i32,
}

impl KeyValue<i32> for Item {
    ghost key_of = { λ item. item.key };

    fn key(&self) -> &i32 {
        &self.key
    }
}

/// A value under a key, that counts when it is dropped.
pub struct Dropping<'a> {
    pub key: i32,
    pub drops: &'a Cell<u64>,
}

impl Drop for Dropping<'_> {
    fn drop(self) {
        let Dropping { key: _, drops } = self;
        drops.set(drops.get().saturating_add(1));
    }
}

impl KeyValue<i32> for Dropping<'_> {
    ghost key_of = { λ dropping. dropping.key };

    fn key(&self) -> &i32 {
        &self.key
    }
}
