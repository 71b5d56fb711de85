//! The memory of a tree over ranges, of numbers of several types. Which ranges have a layout is said by `SegExpTree::new`.

use crate::calls::tree_over;
use i_tree::LayoutNumber;
use i_tree::seg::tree::SegExpTree;
use std::alloc::{Allocator, Global};
use test_kit::Refusing;
use test_kit::short_number::Short;
use test_kit::until::Until;

// How many bytes a chunk takes.
const CHUNK: usize = size_of::<Vec<(u64, Until), &Refusing<Global>>>();

// Whether a tree over the range takes one block, of so many chunks. Where it is to take none the range has no layout, which is
// answered before memory is asked for.
fn takes_chunks<R: LayoutNumber, A: Allocator + Copy>(
    counted: &Refusing<Global>,
    memory: A,
    min: R,
    max: R,
    count: usize,
) -> bool {
    counted.refuse_none();
    let made: Option<SegExpTree<R, i32, Until, A>> = tree_over(memory, min, max);
    let requests = u64::from(count > 0);
    made.is_some() == (count > 0)
        && counted.requests() == requests
        && counted.bytes_asked() == count.saturating_mul(CHUNK)
}

// Ranges, and how many chunks a tree over each has.
static CHUNKS: [(i32, i32, usize); 5] = [
    (0, 31, 63),
    (0, 128, 48),
    (-10240, 15360, 57),
    (0, 30, 0),
    (5, 4, 0),
];

#[test]
fn has_a_chunk_for_each_node_up_to_the_leaf_of_the_last_bucket(rt: HostRuntime) {
    let memory = Refusing::new(rt.alloc());
    for (min, max, count) in &CHUNKS {
        assert!(rt;
            takes_chunks(&memory, &memory, *min, *max, *count),
            "{min} to {max}"
        );
    }
    assert!(rt; takes_chunks(&memory, &memory, i64::MIN, i64::MAX, 63));
}

#[test]
fn a_number_type_of_ones_own_sets_its_least_span(rt: HostRuntime) {
    let memory = Refusing::new(rt.alloc());
    for (max, count) in [(15, 0), (16, 48), (40, 52)] {
        assert!(rt;
            takes_chunks(&memory, &memory, Short::new(0), Short::new(max), count),
            "0 to {max}"
        );
    }
}
