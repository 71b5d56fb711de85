//! What a core drops.

use crate::calls::{push, remove};
use i_tree::rb::RbTree;
use std::alloc::{Allocator, Global};
use std::cell::Cell;
use test_kit::item::Dropping;

// Puts so many items into the tree, and takes some out, of which each is dropped.
fn fill<'a, A: Allocator + Copy>(
    tree: &mut RbTree<Dropping<'a>, A>,
    drops: &'a Cell<u64>,
) -> Option<()> {
    for key in 0..100 {
        push(tree, Dropping { key, drops })?.ok()?;
    }
    for _ in 0..40 {
        let root = tree.root();
        drop(remove(tree, root)?);
    }
    Some(())
}

#[test]
fn a_clear_drops_each_item_once(rt: HostRuntime) {
    let drops = Cell::new(0u64);
    let tree: Option<RbTree<Dropping, Global>> = RbTree::new(rt.alloc(), 0).ok();
    let mut tree = tree.expect(&rt, "no memory");
    assert!(rt; fill(&mut tree, &drops) == Some(()) && drops.get() == 40);
    tree.clear();
    assert!(rt; drops.get() == 100);
    drop(tree);
    assert!(rt; drops.get() == 100);
}
