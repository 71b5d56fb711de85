//! Leases over both kinds of collection.

use i_tree::key::exp::KeyExpCollection;
use i_tree::key::list::KeyExpList;
use i_tree::key::tree::KeyExpTree;
use std::process::Abort;
use std::test::Fail;
use uses::leases::{Lease, count_held, held_until, renew, take};

// Names and times, with until when the name is held then, and how many names are.
const HELD: [(u32, u64, Option<u64>, usize); 6] = [
    (7, 4, Some(20), 2),
    (3, 5, Some(5), 2),
    (3, 6, None, 1),
    (5, 6, None, 1),
    (7, 20, Some(20), 1),
    (7, 21, None, 0),
];

// Name 7 is taken until 10, renewed at 4 until 20; name 3 is taken until 5.
fn takes_and_renews<C: KeyExpCollection<Lease, u64, Option<Lease>>>(
    rt: &impl Abort,
    leases: &mut C,
) -> Result<(), Fail> {
    for (name, until, is_taken) in [(7, 10, true), (3, 5, true), (7, 30, false)] {
        assert!(rt;
            take(leases, name, until, 0)? == is_taken,
            "{name} until {until}"
        );
    }
    for (name, is_held) in [(7, true), (5, false)] {
        assert!(rt; renew(leases, name, 20, 4)? == is_held, "{name}");
    }
    assert!(rt; count_held(leases, 1, 4) == 1);
    for (name, now, until, count) in HELD {
        assert!(rt; held_until(leases, name, now) == until, "{name} at {now}");
        assert!(rt; count_held(leases, 100, now) == count, "at {now}");
    }
    Ok(())
}

#[test]
fn a_tree_and_a_list_hold_leases_alike(rt: HostRuntime) -> Result<(), Fail> {
    takes_and_renews(&rt, &mut KeyExpTree::new(rt.alloc(), 0)?)?;
    takes_and_renews(&rt, &mut KeyExpList::new(rt.alloc(), 0)?)
}
