//! What sets drop.

use i_tree::Refusal;
use i_tree::set::list::SetList;
use i_tree::set::sort::SetCollection;
use i_tree::set::tree::SetTree;
use std::alloc::Global;
use std::cell::Cell;
use std::process::Abort;
use test_kit::item::Dropping;

// Inserts three values, deletes one of them, and gives up the others.
fn drops_one_and_then_the_others<'a, C: SetCollection<i32, Dropping<'a>> + Drop>(
    rt: &impl Abort,
    made: Result<C, Refusal>,
    drops: &'a Cell<u64>,
) {
    let mut set = made.ok().expect(rt, "no memory");
    drops.set(0);
    for key in [1, 4, 8] {
        assert!(rt; set.is_ordered());
        assert!(rt; matches!(set.insert_new(Dropping { key, drops }), Ok(None)));
    }
    let least = set.first_index();
    assert!(rt; set.has_index(least) && drops.get() == 0);
    set.delete_by_index(least);
    assert!(rt; drops.get() == 1);
    drop(set);
    assert!(rt; drops.get() == 3);
}

#[test]
fn a_set_drops_what_is_deleted_and_then_the_others(rt: HostRuntime) {
    let drops = Cell::new(0u64);
    let tree: Result<SetTree<i32, Dropping, Global>, Refusal> = SetTree::new(rt.alloc(), 0);
    drops_one_and_then_the_others(&rt, tree, &drops);
    let list: Result<SetList<Dropping, Global>, Refusal> = SetList::new(rt.alloc(), 0);
    drops_one_and_then_the_others(&rt, list, &drops);
}
