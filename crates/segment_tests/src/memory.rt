//! How often trees of segments, answers and replies ask for memory, how much they hold, and what asks for none.

use crate::calls::{collect, count_walked, filled, insert};
use i_tree::seg::exp::{SegExpCollection, SegRange};
use runs::{SegCommand, SegReply, run_segments};
use std::alloc::{Allocator, Global};
use test_kit::Refusing;
use test_kit::growth::{COMMANDS, COUNT, MOST_REQUESTS, asks_once, most_held};
use test_kit::until::{Until, number};

// Whether each node's copies double: the range has eight nodes, so that there are at most eight requests for each doubling.
fn chunks_grow<A: Allocator + Copy>(counted: &Refusing<Global>, memory: A) -> Option<bool> {
    let mut tree = filled(memory, 0)?;
    let without_copies = counted.bytes_held();
    let size = size_of::<(u64, Until)>().saturating_mul(8);
    counted.refuse_none();
    for place in 1..=COUNT {
        insert(&mut tree, 1, 30, number(i32::from(place)))?.ok()?;
        let held = counted.bytes_held().saturating_sub(without_copies);
        if held > most_held(usize::from(place), size) {
            return Some(false);
        }
    }
    let most_asked = most_held(usize::from(COUNT), size).saturating_mul(2);
    let is_seldom = counted.requests() <= MOST_REQUESTS.saturating_mul(8);
    Some(is_seldom && counted.bytes_asked() <= most_asked)
}

#[test]
fn copies_over_one_range_double(rt: HostRuntime) {
    let memory = Refusing::new(rt.alloc());
    assert!(rt; chunks_grow(&memory, &memory) == Some(true));
}

// Whether the replies to queries of a tree without values, each of so many bytes, are reserved at once.
fn reserves_replies<A: Allocator + Copy>(
    counted: &Refusing<Global>,
    replies: A,
    alloc: Global,
    size: usize,
) -> Option<bool> {
    let mut tree = filled(alloc, 0)?;
    let range = SegRange { min: 1, max: 30 };
    let commands = [SegCommand::Query { range, time: 0 }; COMMANDS];
    let mut out = Vec::new(replies);
    counted.refuse_none();
    run_segments(&mut tree, &commands, &mut out).ok()?;
    Some(out.len() == COMMANDS && asks_once(counted, size))
}

#[test]
fn replies_are_reserved_at_once(rt: HostRuntime) {
    let memory = Refusing::new(rt.alloc());
    let size = size_of::<SegReply<Until, &Refusing<Global>>>();
    assert!(rt; reserves_replies(&memory, &memory, rt.alloc(), size) == Some(true));
}

// Whether an answer of so many values asks as seldom as a vector that doubles, and holds twice its values at most.
fn answer_doubles<A: Allocator + Copy>(
    counted: &Refusing<Global>,
    answers: A,
    alloc: Global,
    count: i32,
    most: u64,
) -> Option<bool> {
    let mut tree = filled(alloc, count)?;
    let mut out = Vec::new(answers);
    counted.refuse_none();
    collect(&mut tree, 1, 30, 0, &mut out)?.ok()?;
    let is_little = counted.bytes_held() <= most_held(out.len(), size_of::<Until>());
    Some(usize::try_from(count) == Ok(out.len()) && counted.requests() <= most && is_little)
}

// How many values are found, and how often an answer may ask for memory.
static ANSWERS: [(i32, u64); 5] = [(0, 0), (1, 1), (2, 2), (10, 5), (500, 10)];

#[test]
fn an_answer_takes_room_for_its_values(rt: HostRuntime) {
    let memory = Refusing::new(rt.alloc());
    for (count, most) in &ANSWERS {
        assert!(rt;
            answer_doubles(&memory, &memory, rt.alloc(), *count, *most) == Some(true),
            "of {count} values"
        );
    }
}

// Whether walks over three values, and insertions where copies were, ask for no memory.
fn asks_for_none<A: Allocator + Copy>(counted: &Refusing<Global>, memory: A) -> Option<bool> {
    let mut tree = filled(memory, 3)?;
    counted.refuse_all();
    let found = (
        count_walked(&mut tree, 0, 31, 10)?,
        count_walked(&mut tree, 0, 31, 11)?,
    );
    insert(&mut tree, 1, 30, number(8))?.ok()?;
    tree.clear();
    insert(&mut tree, 1, 30, number(9))?.ok()?;
    Some(found == (3, 0) && counted.requests() == 0)
}

#[test]
fn walks_and_what_has_room_ask_for_none(rt: HostRuntime) {
    let memory = Refusing::new(rt.alloc());
    assert!(rt; asks_for_none(&memory, &memory) == Some(true));
}
