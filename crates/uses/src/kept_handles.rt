//! A `SetTree` whose handles are kept, and whose values are changed and deleted by them.

use i_tree::set::sort::{KeyValue, SetCollection};
use i_tree::set::tree::SetTree;
use i_tree::{EMPTY_REF, Refusal};
use std::alloc::Global;

/// A place, and what was read there.
#[derive(Drop)]
pub struct Reading(pub i32, pub u32);

impl KeyValue<i32> for Reading {
    ghost key_of = { λ reading. reading.0 };

    fn key(&self) -> &i32 {
        &self.0
    }
}

/// Halves the reading at `place`, or next before it, and takes it out: what it was, or 0 where there is none.
pub fn taken_out(alloc: Global, place: i32) -> Result<u32, Refusal> {
    let mut set = SetTree::new(alloc, 16)?;
    set.insert(Reading(4, 40))?;
    let found = set.first_index_less_by(|other| other.cmp(&place));
    if found == EMPTY_REF || set.contains_key(&9) {
        return Ok(0);
    }
    set.insert(Reading(9, 90))?;
    let value = set.value_by_index(found).1;
    set.value_by_index_mut(found).1 = value / 2;
    if set.has_index(found) {
        set.delete_by_index(found);
    }
    Ok(value)
}
