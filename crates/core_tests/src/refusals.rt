//! Calls of the core, with each request for memory refused in turn.

use crate::calls::{Place, entries, insert, push};
use crate::rows::rise;
use i_tree::rb::RbTree;
use i_tree::{EMPTY_REF, Refusal, Refused};
use std::alloc::{Allocator, Global};
use test_kit::Refusing;
use test_kit::in_turn::{Trial, refuse_in_turn};

// Which call is made.
#[derive(Clone, Copy)]
enum Call {
    New(usize),
    // Twenty slots in all.
    Reserve,
    // A further item, before all or behind all.
    InsertFirst,
    InsertLast,
}

// The call over items that rise from 1 on, so many.
#[derive(Drop)]
struct Changing<A: Allocator + Copy> {
    memory: A,
    alloc: Global,
    items: i32,
    call: Call,
}

// What was there, what is, and why the last call was refused, if it was.
#[derive(Drop)]
struct Changed<A: Allocator + Copy> {
    tree: RbTree<i32, A>,
    before: Vec<(u32, i32)>,
    refused: Option<Refusal>,
}

// The place before all items.
fn front<A: Allocator + Copy>(tree: &RbTree<i32, A>) -> Place {
    match tree.first() {
        EMPTY_REF => Place::Root,
        first => Place::Left(first),
    }
}

// Why the item 50 was refused, which is handed back then.
fn why(told: Option<Result<u32, Refused<i32>>>) -> Option<Refusal> {
    match told {
        Some(Err(refused)) if refused.value == 50 => Some(refused.cause),
        _ => None,
    }
}

impl<A: Allocator + Copy> Trial for Changing<A> {
    type State = Changed<A>;

    fn begin(&self) -> Option<Changed<A>> {
        let mut tree = RbTree::new(self.memory, 0).ok()?;
        rise(&mut tree, self.items)?;
        let before = entries(&tree, self.alloc)?;
        Some(Changed {
            tree,
            before,
            refused: None,
        })
    }

    fn call(&self, changed: &mut Changed<A>) {
        let tree = &mut changed.tree;
        changed.refused = match self.call {
            Call::New(capacity) => RbTree::<i32, A>::new(self.memory, capacity).err(),
            Call::Reserve => tree.reserve(20).err(),
            Call::InsertFirst => why(insert(tree, front(tree), 50)),
            Call::InsertLast => why(push(tree, 50)),
        };
    }

    fn is_refused(&self, changed: &mut Changed<A>, _nth: u64) -> bool {
        changed.refused == Some(Refusal::OutOfMemory)
            && entries(&changed.tree, self.alloc).as_ref() == Some(&changed.before)
    }

    // Its clauses say how many slots there are, and where the item is.
    fn is_done(&self, changed: &mut Changed<A>) -> bool {
        let joined = match self.call {
            Call::New(_) | Call::Reserve => 0,
            Call::InsertFirst | Call::InsertLast => 1,
        };
        changed.refused.is_none()
            && changed.tree.len() == changed.before.len().saturating_add(joined)
    }
}

#[test]
fn each_call_takes_its_slots_at_once_or_changes_nothing(rt: HostRuntime) {
    let memory = Refusing::new(rt.alloc());
    for (items, call) in [
        (0, Call::New(0)),
        (0, Call::New(20)),
        (0, Call::Reserve),
        (7, Call::Reserve),
        (7, Call::InsertFirst),
        (7, Call::InsertLast),
        (15, Call::InsertFirst),
        (31, Call::InsertLast),
    ] {
        let trial = Changing {
            memory: &memory,
            alloc: rt.alloc(),
            items,
            call,
        };
        assert!(rt; refuse_in_turn(&memory, &trial) == Ok(1), "over {items}");
    }
}
