//! Sets.

use crate::roomy::Calls;
use i_tree::set::sort::SetCollection;
use i_tree::{EMPTY_REF, Refusal};
use std::cell::Cell;
use test_kit::item::Item;

// The item of a key that is its own value.
fn item(key: i32) -> Item {
    Item { key, value: key }
}

// Puts the item by the plain call, unless its key is there.
fn put<C: SetCollection<i32, Item>>(set: &mut C, item: Item) -> Option<Result<(), Refusal>> {
    if !set.is_ordered() || set.contains_key(&item.key) {
        return None;
    }
    Some(match set.insert(item) {
        Ok(()) => Ok(()),
        Err(refused) => Err(refused.cause),
    })
}

// Puts the item, and answers what came back.
fn put_new<C: SetCollection<i32, Item>>(
    set: &mut C,
    item: Item,
) -> Option<Result<Option<Item>, Refusal>> {
    if !set.is_ordered() {
        return None;
    }
    Some(match set.insert_new(item) {
        Ok(given) => Ok(given),
        Err(refused) => Err(refused.cause),
    })
}

// The handle of the greatest key at most this one, or `EMPTY_REF`.
fn find<C: SetCollection<i32, Item>>(set: &C, sought: i32, asked: &Cell<usize>) -> u32 {
    if !set.is_ordered() {
        return EMPTY_REF;
    }
    set.first_index_less_by(|key| {
        asked.set(asked.get().saturating_add(1));
        key.cmp(&sought)
    })
}

// The value at the handle, or -1 where it has none.
fn value<C: SetCollection<i32, Item>>(set: &C, handle: u32) -> i32 {
    if !set.has_index(handle) {
        return -1;
    }
    set.value_by_index(handle).value
}

// Inserts the keys 4, 1 and 8, and the first again.
fn inserts<C: SetCollection<i32, Item>>(set: &mut C) -> Option<bool> {
    put(set, item(4))?.ok()?;
    let is_new = put_new(set, item(1))?.ok()?.is_none() && put_new(set, item(8))?.ok()?.is_none();
    let given = put_new(set, Item { key: 4, value: 9 })?.ok()?;
    Some(is_new && given == Some(Item { key: 4, value: 9 }) && set.len() == 3)
}

// Whether what is around the handle of the second is so, and that is written and deleted.
fn goes_around<C: SetCollection<i32, Item>>(set: &mut C) -> bool {
    let handle = find(set, 5, &Cell::new(0));
    if !set.has_index(handle) {
        return false;
    }
    let before = value(set, set.index_before(handle));
    let after = value(set, set.index_after(handle));
    let first = value(set, set.first_index());
    set.value_by_index_mut(handle).value = 40;
    let written = value(set, handle);
    let walked = set.iter().len();
    if !set.has_index(handle) {
        return false;
    }
    set.delete_by_index(handle);
    (before, after, first, written) == (1, 8, 1, 40) && walked == 3 && set.len() == 2
}

// Deletes the first again and again.
fn delete_all<C: SetCollection<i32, Item>>(set: &mut C) {
    for _ in 0..set.len() {
        let first = set.first_index();
        if set.has_index(first) {
            set.delete_by_index(first);
        }
    }
}

/// Numbers as a set of items, each its own value.
pub struct AsSet;

impl<C: SetCollection<i32, Item>> Calls<C> for AsSet {
    fn insert(set: &mut C, number: i32, tells: bool) -> Result<(), Refusal> {
        if !tells {
            return put(set, item(number)).unwrap_or(Ok(()));
        }
        match put_new(set, item(number)) {
            Some(Err(cause)) => Err(cause),
            _ => Ok(()),
        }
    }

    fn asked(set: &mut C, number: i32) -> usize {
        let asked = Cell::new(0);
        find(set, number, &asked);
        asked.get()
    }

    fn serves(set: &mut C) -> bool {
        let is_served = inserts(set) == Some(true) && goes_around(set);
        delete_all(set);
        is_served && set.len() == 0
    }
}
