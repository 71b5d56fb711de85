//! Calls of a tree of segments, with each request for memory refused in turn.

use crate::calls::{Tree, collect, filled, insert, tree_over};
use i_tree::Refusal;
use i_tree::seg::exp::SegRange;
use i_tree::seg::tree::SegExpTree;
use std::alloc::Allocator;
use test_kit::Refusing;
use test_kit::in_turn::{Fault, Trial, refuse_in_turn};
use test_kit::until::{Until, number};

// Which call is made.
#[derive(Clone, Copy, Debug)]
enum Call {
    New(i32, i32),
    Insert,
    // A query at 5 that finds all values.
    Collect,
}

// The call over a tree of so many values.
#[derive(Drop)]
struct Calling<A: Allocator + Copy> {
    memory: A,
    values: i32,
    call: Call,
}

// The tree, an answer that holds one value and is full, and what the call answered.
#[derive(Drop)]
struct Called<A: Allocator + Copy> {
    tree: Tree<A>,
    out: Vec<Until, A>,
    answer: Option<Result<(), Refusal>>,
}

// Makes a tree over the range, and gives it up.
fn make<A: Allocator + Copy>(memory: A, min: i32, max: i32) -> Result<(), Refusal> {
    let _: Option<Tree<A>> = SegExpTree::new(memory, SegRange { min, max })?;
    Ok(())
}

// How many copies a tree has at the leaf of the numbers 1, which is one of the eight nodes of each value.
fn copies<A: Allocator + Copy>(tree: &Tree<A>) -> usize {
    tree.chunk(32).len()
}

impl<A: Allocator + Copy> Trial for Calling<A> {
    type State = Called<A>;

    fn begin(&self) -> Option<Called<A>> {
        let tree = filled(self.memory, self.values)?;
        let mut out = Vec::with_capacity(self.memory, 1).ok()?;
        out.push(number(-9)).ok()?;
        Some(Called {
            tree,
            out,
            answer: None,
        })
    }

    fn call(&self, called: &mut Called<A>) {
        called.answer = match self.call {
            Call::New(min, max) => Some(make(self.memory, min, max)),
            Call::Insert => insert(&mut called.tree, 1, 30, number(self.values)),
            Call::Collect => collect(&mut called.tree, 1, 30, 5, &mut called.out),
        };
    }

    fn is_refused(&self, called: &mut Called<A>, _nth: u64) -> bool {
        called.answer == Some(Err(Refusal::OutOfMemory))
            && called.out.as_slice() == [number(-9)].as_slice()
            && usize::try_from(self.values) == Ok(copies(&called.tree))
    }

    // Its clauses say what there is then.
    fn is_done(&self, called: &mut Called<A>) -> bool {
        called.answer == Some(Ok(()))
    }
}

// Calls over so many values each, and how many requests each makes. Of an insertion all eight chunks grow at once, or none. An
// answer grows as a vector does.
static CALLS: [(Call, i32, u64); 8] = [
    (Call::New(0, 31), 0, 1),
    (Call::New(0, 128), 0, 1),
    (Call::New(i32::MIN, i32::MAX), 0, 1),
    (Call::Insert, 0, 8),
    (Call::Insert, 3, 0),
    (Call::Insert, 4, 8),
    (Call::Collect, 1, 1),
    (Call::Collect, 20, 4),
];

#[test]
fn each_call_takes_its_memory_or_changes_nothing(rt: HostRuntime) {
    let memory = Refusing::new(rt.alloc());
    for (call, values, requests) in &CALLS {
        let calling = Calling {
            memory: &memory,
            values: *values,
            call: *call,
        };
        let wanted = if *requests == 0 {
            Err(Fault::NoRequest)
        } else {
            Ok(*requests)
        };
        assert!(rt;
            refuse_in_turn(&memory, &calling) == wanted,
            "{call:?} over {values}"
        );
    }
}
