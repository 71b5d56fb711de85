//! A key type of one's own in a `KeyExpTree`.

use i_tree::key::exp::KeyExpCollection;
use i_tree::key::tree::KeyExpTree;
use i_tree::{ExpiredKey, Refusal};
use std::alloc::Global;

#[derive(Clone, Copy, PartialEq, Eq, PartialOrd, Ord)]
pub struct Level {
    pub height: i32,
    pub end: i32,
}

impl ExpiredKey<i32> for Level {
    ghost expiration = { λ level. level.end };

    fn expiration(&self) -> i32 {
        self.end
    }
}

/// The height of the level at `height`, or next below it, that is live at `at`; else -1.
pub fn below(alloc: Global, levels: &[Level], at: i32, height: i32) -> Result<i32, Refusal> {
    let mut active = KeyExpTree::new(alloc, 16)?;
    for level in levels {
        active.insert_new(*level, level.height, 0)?;
    }
    Ok(active.first_less_or_equal_by(at, -1, |level| level.height.cmp(&height)))
}
