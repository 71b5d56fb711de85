//! Trees of segments: their calls after a test of their conditions.
//!
//! A call answers `None` where its conditions don't hold.

use i_tree::seg::exp::{SegExpCollection, SegRange};
use i_tree::seg::tree::SegExpTree;
use i_tree::{ExpiredVal, LayoutNumber, Refusal};
use std::alloc::Allocator;
use test_kit::until::{Until, number};

/// A tree of segments.
pub type Tree<A> = SegExpTree<i32, i32, Until, A>;

/// An empty tree over the range, or `None` where it has no layout or memory was refused.
pub fn tree_over<R: LayoutNumber, V: ExpiredVal<i32>, A: Allocator + Copy>(
    memory: A,
    min: R,
    max: R,
) -> Option<SegExpTree<R, i32, V, A>> {
    SegExpTree::new(memory, SegRange { min, max }).ok()?
}

/// Inserts the value over a range that the tree accepts.
pub fn insert<V: ExpiredVal<i32>, A: Allocator + Copy>(
    tree: &mut SegExpTree<i32, i32, V, A>,
    min: i32,
    max: i32,
    value: V,
) -> Option<Result<(), Refusal>> {
    let range = SegRange { min, max };
    if !tree.accepts(range) {
        return None;
    }
    Some(tree.insert_by_range(range, value))
}

/// A tree over 0 to 31 with so many values at 1 to 30, that are numbered from 0 on.
pub fn filled<A: Allocator + Copy>(memory: A, count: i32) -> Option<Tree<A>> {
    let mut tree = tree_over(memory, 0, 31)?;
    for place in 0..count {
        insert(&mut tree, 1, 30, number(place))?.ok()?;
    }
    Some(tree)
}

/// Appends to `out` what a query finds, of a range that the tree accepts and at a time that isn't before the latest.
pub fn collect<A: Allocator + Copy, B: Allocator>(
    tree: &mut Tree<A>,
    min: i32,
    max: i32,
    time: i32,
    out: &mut Vec<Until, B>,
) -> Option<Result<(), Refusal>> {
    let range = SegRange { min, max };
    if !tree.accepts(range) || !tree.is_in_time(time) {
        return None;
    }
    Some(tree.collect_by_range(range, time, out))
}

/// How many values a walk finds, of a range that the tree accepts and at a time that isn't before the latest.
pub fn count_walked<V: ExpiredVal<i32>, A: Allocator + Copy>(
    tree: &mut SegExpTree<i32, i32, V, A>,
    min: i32,
    max: i32,
    time: i32,
) -> Option<usize> {
    let range = SegRange { min, max };
    if !tree.accepts(range) || !tree.is_in_time(time) {
        return None;
    }
    let mut count = 0usize;
    for _ in tree.iter_by_range(range, time) {
        count = count.saturating_add(1);
    }
    Some(count)
}
