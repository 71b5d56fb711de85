//! Each kind of collection, with all that is tried of it.
//!
//! What is tried is one function over any collection, and a test names its kind once: each such name costs the proof of the test
//! some seconds.

use crate::growth::{doubles_its_room, has_no_handle, serves_without_memory};
use crate::keys::AsKeys;
use crate::refusals::{Call, takes_all_or_nothing};
use crate::roomy::{Calls, Roomy};
use crate::sets::AsSet;
use crate::sloped::Sloped;
use crate::statuses::AsStatus;
use crate::timed_key::TimedKey;
use i_tree::key::list::KeyExpList;
use i_tree::key::tree::KeyExpTree;
use i_tree::set::list::SetList;
use i_tree::set::tree::SetTree;
use i_tree::status::list::StatusList;
use i_tree::status::tree::StatusTree;
use std::alloc::Global;
use test_kit::Refusing;
use test_kit::growth::LINKS;
use test_kit::item::Item;

type Memory<'a> = &'a Refusing<Global>;

// What is inserted into full collections of several sizes, by both calls, and what is made.
const SET_CALLS: &[(Call, i32)] = &[
    (Call::New(1), 0),
    (Call::New(20), 0),
    (Call::Insert(false), 0),
    (Call::Insert(true), 0),
    (Call::Insert(false), 10),
    (Call::Insert(true), 40),
];

// The room of a set isn't reserved.
const CALLS: &[(Call, i32)] = &[
    (Call::New(1), 0),
    (Call::New(20), 0),
    (Call::Reserve, 0),
    (Call::Reserve, 20),
    (Call::Insert(false), 0),
    (Call::Insert(true), 0),
    (Call::Insert(false), 10),
    (Call::Insert(true), 40),
];

// What goes wrong of a kind whose entries have so many bytes, if anything does.
fn fault_of<C: Roomy, W: Calls<C>>(
    counted: &Refusing<Global>,
    memory: C::Memory,
    size: usize,
    calls: &[(Call, i32)],
) -> &'static str {
    if !serves_without_memory::<C, W>(counted, memory) {
        return "each call with room asks for no memory";
    }
    if !doubles_its_room::<C, W>(counted, memory, size) {
        return "its room doubles";
    }
    if !takes_all_or_nothing::<C, W>(counted, memory, calls) {
        return "a call takes its memory at once or changes nothing";
    }
    ""
}

// The same of a tree.
fn fault_of_tree<C: Roomy, W: Calls<C>>(
    counted: &Refusing<Global>,
    memory: C::Memory,
    size: usize,
    calls: &[(Call, i32)],
) -> &'static str {
    if !has_no_handle::<C>(counted, memory) {
        return "what has no handle asks for no memory";
    }
    fault_of::<C, W>(counted, memory, size.saturating_add(LINKS), calls)
}

#[test]
fn a_list_of_keys(rt: HostRuntime) {
    let memory = Refusing::new(rt.alloc());
    let size = size_of::<(TimedKey, i32)>();
    let fault = fault_of::<KeyExpList<TimedKey, i32, i32, Memory>, AsKeys>(
        &memory, &memory, size, CALLS,
    );
    assert!(rt; fault.is_empty(), "{fault}");
}

#[test]
fn a_tree_of_keys(rt: HostRuntime) {
    let memory = Refusing::new(rt.alloc());
    let size = size_of::<(TimedKey, i32)>();
    let fault = fault_of_tree::<KeyExpTree<TimedKey, i32, i32, Memory>, AsKeys>(
        &memory, &memory, size, CALLS,
    );
    assert!(rt; fault.is_empty(), "{fault}");
}

#[test]
fn a_set_in_a_list(rt: HostRuntime) {
    let memory = Refusing::new(rt.alloc());
    let size = size_of::<Item>();
    let fault = fault_of::<SetList<Item, Memory>, AsSet>(&memory, &memory, size, SET_CALLS);
    assert!(rt; fault.is_empty(), "{fault}");
}

#[test]
fn a_set_in_a_tree(rt: HostRuntime) {
    let memory = Refusing::new(rt.alloc());
    let size = size_of::<Item>();
    let fault = fault_of_tree::<SetTree<i32, Item, Memory>, AsSet>(
        &memory, &memory, size, SET_CALLS,
    );
    assert!(rt; fault.is_empty(), "{fault}");
}

#[test]
fn a_status_in_a_list(rt: HostRuntime) {
    let memory = Refusing::new(rt.alloc());
    let size = size_of::<(Sloped, i32)>();
    let fault = fault_of::<StatusList<Sloped, i32, i32, Memory>, AsStatus>(
        &memory, &memory, size, CALLS,
    );
    assert!(rt; fault.is_empty(), "{fault}");
}

// Heights have eight bytes, so a slot has a multiple of eight.
#[test]
fn a_status_in_a_tree(rt: HostRuntime) {
    let memory = Refusing::new(rt.alloc());
    let size = size_of::<(Sloped, i32)>().next_multiple_of(8);
    let fault = fault_of_tree::<StatusTree<Sloped, i32, i32, Memory>, AsStatus>(
        &memory, &memory, size, CALLS,
    );
    assert!(rt; fault.is_empty(), "{fault}");
}
