//! Walks that are broken off, and how many copies a walk reads.

use crate::calls::{count_walked, filled, insert, tree_over};
use i_tree::seg::exp::{SegExpCollection, SegRange};
use i_tree::seg::tree::SegExpTree;
use std::alloc::{Allocator, Global};
use test_kit::counted_key::{CountedValue, Tally};

// Whether a walk of one step yields one of two values, and a later one both.
fn walks_again<A: Allocator + Copy>(memory: A) -> Option<bool> {
    let mut tree = filled(memory, 2)?;
    let range = SegRange { min: 1, max: 9 };
    if !tree.accepts(range) || !tree.is_in_time(0) {
        return None;
    }
    let mut walk = tree.iter_by_range(range, 0);
    let first = walk.next();
    drop(walk);
    Some(first.is_some() && count_walked(&mut tree, 1, 9, 0) == Some(2))
}

#[test]
fn a_walk_may_be_dropped_after_a_step(rt: HostRuntime) {
    assert!(rt; walks_again(rt.alloc()) == Some(true));
}

// How many values a walk finds among one at 1 to 30 and ten at 5, over 0 to 31, and how often an expiration is asked for.
fn walked<A: Allocator + Copy>(
    memory: A,
    tally: &Tally,
    min: i32,
    max: i32,
) -> Option<(usize, u64)> {
    let mut tree: SegExpTree<i32, i32, CountedValue<'_>, A> = tree_over(memory, 0, 31)?;
    insert(&mut tree, 1, 30, CountedValue { number: 0, tally })?.ok()?;
    for number in 1..=10 {
        insert(&mut tree, 5, 5, CountedValue { number, tally })?.ok()?;
    }
    tally.restart();
    let count = count_walked(&mut tree, min, max, 0)?;
    Some((count, tally.expirations()))
}

// Ranges with how many values lie there, and how many copies are read. The value at 1 to 30 has eight: among them one at the
// node over 4 to 7, one at that over 8 to 15 and one at that over 16 to 23. Those at 5 have one each, at its leaf.
static READ: [(i32, i32, usize, u64); 5] = [
    (20, 20, 1, 1),
    (5, 5, 11, 11),
    (4, 8, 11, 12),
    (0, 31, 11, 18),
    (0, 0, 0, 0),
];

#[test]
fn asks_each_copy_that_it_reads_once(rt: HostRuntime) {
    let tally = Tally::new();
    for (min, max, values, copies) in &READ {
        assert!(rt;
            walked(rt.alloc(), &tally, *min, *max) == Some((*values, *copies)),
            "{min} to {max}"
        );
    }
}
