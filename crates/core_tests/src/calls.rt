//! Calls of the core after a test of their conditions. They answer `None` where the conditions don't hold.

use i_tree::rb::RbTree;
use i_tree::steps::Uncounted;
use i_tree::{EMPTY_REF, Refused};
use std::alloc::{Allocator, Global};

/// Where an item goes: into the empty tree, or on a side of a handle where nothing hangs.
#[derive(Clone, Copy)]
pub enum Place {
    Root,
    Left(u32),
    Right(u32),
}

/// Puts the item at the place, and answers its handle.
pub fn insert<T: Drop, A: Allocator + Copy>(
    tree: &mut RbTree<T, A>,
    place: Place,
    item: T,
) -> Option<Result<u32, Refused<T>>> {
    match place {
        Place::Root => {
            if tree.root() != EMPTY_REF {
                return None;
            }
            Some(tree.insert_root(&mut Uncounted, item))
        }
        Place::Left(parent) => {
            if !tree.has(parent) || tree.left(parent) != EMPTY_REF {
                return None;
            }
            Some(tree.insert_left(&mut Uncounted, parent, item))
        }
        Place::Right(parent) => {
            if !tree.has(parent) || tree.right(parent) != EMPTY_REF {
                return None;
            }
            Some(tree.insert_right(&mut Uncounted, parent, item))
        }
    }
}

/// Takes the entry out and answers its item.
pub fn remove<T, A: Allocator + Copy>(tree: &mut RbTree<T, A>, handle: u32) -> Option<T> {
    if !tree.has(handle) {
        return None;
    }
    Some(tree.remove(&mut Uncounted, handle))
}

/// The last handle in order, or `EMPTY_REF` where the tree is empty.
pub fn last<T, A: Allocator + Copy>(tree: &RbTree<T, A>) -> u32 {
    let mut last = EMPTY_REF;
    let mut here = tree.root();
    for _ in 0..tree.len() {
        if !tree.has(here) {
            break;
        }
        last = here;
        here = tree.right(here);
    }
    last
}

/// Puts the item behind all others, and answers its handle.
pub fn push<T: Drop, A: Allocator + Copy>(
    tree: &mut RbTree<T, A>,
    item: T,
) -> Option<Result<u32, Refused<T>>> {
    let place = match last(tree) {
        EMPTY_REF => Place::Root,
        handle => Place::Right(handle),
    };
    insert(tree, place, item)
}

/// Each item behind its handle, from the first in order on, where the way back meets the same.
pub fn entries<T: Copy, A: Allocator + Copy>(
    tree: &RbTree<T, A>,
    alloc: Global,
) -> Option<Vec<(u32, T)>> {
    let mut entries = Vec::new(alloc);
    let mut previous = EMPTY_REF;
    let mut here = tree.first();
    for _ in 0..tree.len() {
        if !tree.has(here) || tree.before(here) != previous {
            return None;
        }
        entries.push((here, *tree.item(here))).ok()?;
        previous = here;
        here = tree.after(here);
    }
    (here == EMPTY_REF).then_some(entries)
}
