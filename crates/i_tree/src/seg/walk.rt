//! A walk over the copies of the nodes of a query, one value after another.

ghost use Rattle.std.specs.Prelude.{◌≡◌, ◌<◌, ◌^◌, length};
ghost use Rattle.i_tree.specs.Seg.Copies.{copies_in};
ghost use Rattle.i_tree.specs.Seg.Walk.{HasPassed, StepsInChunk, StepsOn};

use super::nodes::lowest_node;
use crate::steps::Counter;
use crate::{Expiration, ExpiredVal};
use std::alloc::Allocator;

/// Where a walk stands.
#[derive(Clone, Copy)]
pub struct Cursor {
    // The nodes to which it has still to go. It is at the lowest of them.
    left: u64,
    // The next copy of that node.
    index: usize,
}

impl Cursor {
    // At the first copy of the lowest node of the mask.
    pub fn new(asked: u64) -> Self
        ensures left { result.left ≡ asked }
        ensures index { result.index ≡ 0 }
    {
        Cursor {
            left: asked,
            index: 0,
        }
    }
}

// Goes on in the chunk of one node, to the next value that is found there. It tests each copy that it reads, and drops those
// that are no longer live.
fn next_in_chunk<E: Expiration, V: ExpiredVal<E>, A: Allocator, C: Counter>(
    chunk: &mut Vec<(u64, V), A>,
    index: &mut usize,
    node: usize,
    asked: u64,
    time: E,
    steps: &mut C,
) -> Option<V>
    ensures { StepsInChunk V.expiration E.cmp time C.made asked node
        index.old chunk.old.items steps.old result index.new chunk.new.items steps.new }
{
    // The copies before `index` are live, and what was found of them is told.
    while *index < chunk.len() {
        let (mask, value) = chunk[*index];
        steps.add_test();
        if value.expiration() < time {
            steps.add_removal();
            chunk.swap_remove(*index);
            continue;
        }
        *index += 1;
        if lowest_node(mask & asked) == node {
            return Some(value);
        }
    }
    None
}

// Goes on to the next value that is found. There is none where it answers `None`, and none comes after.
pub fn next_value<E: Expiration, V: ExpiredVal<E>, A: Allocator, C: Counter>(
    chunks: &mut [Vec<(u64, V), A>],
    cursor: &mut Cursor,
    asked: u64,
    time: E,
    steps: &mut C,
) -> Option<V>
    requires within { cursor.old.left < 2 ^ length chunks.old }
    requires passed { HasPassed V.expiration E.cmp time asked cursor.old.left cursor.old.index (copies_in chunks.old) }
    ensures { StepsOn V.expiration E.cmp time C.made asked
        cursor.old (copies_in chunks.old) steps.old result cursor.new (copies_in chunks.new) steps.new }
{
    // At the nodes that have left the cursor all copies are live, and nothing more is found.
    while cursor.left != 0 {
        let node = lowest_node(cursor.left);
        let found = next_in_chunk(
            &mut chunks[node],
            &mut cursor.index,
            node,
            asked,
            time,
            steps,
        );
        if found.is_some() {
            return found;
        }
        cursor.left &= !(1 << node);
        cursor.index = 0;
    }
    None
}
