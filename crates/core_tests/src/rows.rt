//! Each call of the core once, and its slots and memory.

use crate::calls::{Place, entries, insert, push, remove};
use i_tree::rb::RbTree;
use i_tree::{EMPTY_REF, Refusal};
use std::alloc::{Allocator, Global};
use test_kit::Refusing;

// Whether the items are these, in order.
fn holds<A: Allocator + Copy>(tree: &RbTree<i32, A>, alloc: Global, items: &[i32]) -> bool {
    let Some(all) = entries(tree, alloc) else {
        return false;
    };
    for (entry, item) in all.iter().zip(items) {
        if entry.1 != *item {
            return false;
        }
    }
    all.len() == items.len()
}

// Writes the item at the handle.
fn write<A: Allocator + Copy>(tree: &mut RbTree<i32, A>, handle: u32, item: i32) -> Option<()> {
    if !tree.has(handle) {
        return None;
    }
    *tree.item_mut(handle) = item;
    Some(())
}

// Whether each call does once what it is for.
fn calls_each<A: Allocator + Copy>(memory: A, alloc: Global) -> Option<bool> {
    let mut tree = RbTree::new(memory, 0).ok()?;
    let middle = insert(&mut tree, Place::Root, 4)?.ok()?;
    let low = insert(&mut tree, Place::Left(middle), 1)?.ok()?;
    insert(&mut tree, Place::Right(middle), 8)?.ok()?;
    let are_put = holds(&tree, alloc, &[1, 4, 8]) && tree.spare() == 4;
    write(&mut tree, low, 2)?;
    let is_taken = remove(&mut tree, middle)? == 4 && holds(&tree, alloc, &[2, 8]);
    tree.reserve(20).ok()?;
    let is_roomy = tree.spare() == 17 && holds(&tree, alloc, &[2, 8]);
    tree.clear();
    Some(are_put && is_taken && is_roomy && tree.root() == EMPTY_REF && tree.spare() == 19)
}

#[test]
fn each_call_once(rt: HostRuntime) {
    assert!(rt; calls_each(rt.alloc(), rt.alloc()) == Some(true));
}

/// Puts the items from 1 to the last behind all others.
pub fn rise<A: Allocator + Copy>(tree: &mut RbTree<i32, A>, last: i32) -> Option<()> {
    for item in 1..=last {
        push(tree, item)?.ok()?;
    }
    Some(())
}

// Whether a clear keeps the slots, and no call asks for memory while one is free, nor one that asks for more slots than there are
// handles.
fn asks_for_none<A: Allocator + Copy>(counted: &Refusing<Global>, memory: A) -> Option<bool> {
    let mut tree = RbTree::new(memory, 0).ok()?;
    rise(&mut tree, 1000)?;
    counted.refuse_all();
    let root = tree.root();
    remove(&mut tree, root)?;
    tree.clear();
    rise(&mut tree, 1023)?;
    let is_full = tree.spare() == 0 && counted.requests() == 0;
    let is_refused =
        matches!(push(&mut tree, 1024)?, Err(refused) if refused.cause == Refusal::OutOfMemory);
    let made: Result<RbTree<i32, A>, Refusal> = RbTree::new(memory, 4294967296);
    let has_no_handle = matches!(made, Err(Refusal::NoHandle));
    Some(is_full && is_refused && has_no_handle && counted.requests() == 1)
}

#[test]
fn what_has_a_slot_asks_for_no_memory(rt: HostRuntime) {
    let memory = Refusing::new(rt.alloc());
    assert!(rt; asks_for_none(&memory, &memory) == Some(true));
}
