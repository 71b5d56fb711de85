//! Calls of each kind of collection, with each request for memory refused in turn.

use crate::roomy::{Calls, Roomy};
use crate::timed_key::{TimedKey, timed};
use i_tree::Refusal;
use i_tree::key::exp::KeyExpCollection;
use i_tree::key::list::KeyExpList;
use std::alloc::{AllocError, Allocator, Global};
use std::marker::PhantomData;
use test_kit::Refusing;
use test_kit::in_turn::{Trial, refuse_in_turn};

/// A call that asks for memory.
#[derive(Clone, Copy)]
pub enum Call {
    New(usize),
    /// Room for a hundred.
    Reserve,
    /// A further number, by the call that tells more, or by the plain one.
    Insert(bool),
}

// The call over a full collection of so many numbers, or more.
#[derive(Drop)]
struct Calling<C: Roomy, W> {
    memory: C::Memory,
    least: i32,
    call: Call,
    way: PhantomData<W>,
}

#[derive(Drop)]
struct Called<C: Roomy> {
    store: C,
    room: (usize, usize),
    answer: Result<(), Refusal>,
}

impl<C: Roomy, W: Calls<C>> Trial for Calling<C, W> {
    type State = Called<C>;

    fn begin(&self) -> Option<Called<C>> {
        let mut store = C::make(self.memory, 0).ok()?;
        for number in 1..100 {
            if number > self.least && store.room().1 == 0 {
                break;
            }
            W::insert(&mut store, number, false).ok()?;
        }
        Some(Called {
            room: store.room(),
            store,
            answer: Ok(()),
        })
    }

    fn call(&self, called: &mut Called<C>) {
        called.answer = match self.call {
            Call::New(capacity) => match C::make(self.memory, capacity) {
                Ok(_) => Ok(()),
                Err(cause) => Err(cause),
            },
            Call::Reserve => called.store.reserve(100),
            Call::Insert(tells) => W::insert(&mut called.store, 200, tells),
        };
    }

    fn is_refused(&self, called: &mut Called<C>, _nth: u64) -> bool {
        called.answer == Err(Refusal::OutOfMemory) && called.store.room() == called.room
    }

    // Its clauses say what is stored then.
    fn is_done(&self, called: &mut Called<C>) -> bool {
        let joined = usize::from(matches!(self.call, Call::Insert(_)));
        called.answer == Ok(()) && called.store.room().0 == called.room.0.saturating_add(joined)
    }
}

/// Whether each of the calls takes its memory by one request, or changes nothing where that is refused.
pub fn takes_all_or_nothing<C: Roomy, W: Calls<C>>(
    counted: &Refusing<Global>,
    memory: C::Memory,
    calls: &[(Call, i32)],
) -> bool {
    for (call, least) in calls {
        let calling: Calling<C, W> = Calling {
            memory,
            least: *least,
            call: *call,
            way: PhantomData,
        };
        if !matches!(refuse_in_turn(counted, &calling), Ok(1)) {
            return false;
        }
    }
    true
}

// A clone of a list of one key.
#[derive(Drop)]
struct Cloning<A: Allocator + Copy> {
    memory: A,
}

type List<A> = KeyExpList<TimedKey, i32, i32, A>;

#[derive(Drop)]
struct Cloned<A: Allocator + Copy> {
    list: List<A>,
    clone: Result<List<A>, AllocError>,
}

impl<A: Allocator + Copy> Trial for Cloning<A> {
    type State = Cloned<A>;

    fn begin(&self) -> Option<Cloned<A>> {
        let mut list = KeyExpList::new(self.memory, 0).ok()?;
        list.insert_new(timed(3, 10), 3, 0).ok()?;
        Some(Cloned {
            list,
            clone: Err(AllocError),
        })
    }

    fn call(&self, cloned: &mut Cloned<A>) {
        cloned.clone = cloned.list.clone();
    }

    fn is_refused(&self, cloned: &mut Cloned<A>, _nth: u64) -> bool {
        cloned.clone.is_err()
    }

    // The clone stays as it is where the original is cleared.
    fn is_done(&self, cloned: &mut Cloned<A>) -> bool {
        cloned.list.clear();
        match &cloned.clone {
            Ok(clone) => clone.stored() == 1,
            Err(_) => false,
        }
    }
}

#[test]
fn a_clone_of_keys_takes_its_memory_at_once(rt: HostRuntime) {
    let memory = Refusing::new(rt.alloc());
    let cloning = Cloning { memory: &memory };
    assert!(rt; refuse_in_turn(&memory, &cloning) == Ok(1));
}
