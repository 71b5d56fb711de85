//! A collection of keys that expire that notes each call, and takes few keys, as one does that runs out of handles.

ghost use Rattle.i_tree.specs.Root.Pairs.{IsRising};

use i_tree::key::exp::KeyExpCollection;
use i_tree::key::list::KeyExpList;
use i_tree::{Expiration, ExpiredKey, Refusal};
use std::alloc::Global;
use std::cell::Cell;
use std::cmp::Ordering;

/// A kind of call.
#[derive(Clone, Copy, PartialEq, Eq)]
pub enum Call {
    Insert,
    Search,
    Look,
    Clear,
}

/// How often each kind of call was made, and the first and the last call.
#[derive(Drop)]
pub struct Calls {
    pub first: Cell<Option<Call>>,
    pub last: Cell<Option<Call>>,
    pub inserts: Cell<u64>,
    pub searches: Cell<u64>,
    pub looks: Cell<u64>,
    pub clears: Cell<u64>,
}

impl Calls {
    fn new() -> Self {
        Calls {
            first: Cell::new(None),
            last: Cell::new(None),
            inserts: Cell::new(0),
            searches: Cell::new(0),
            looks: Cell::new(0),
            clears: Cell::new(0),
        }
    }

    fn note(&self, call: Call) {
        if self.first.get() == None {
            self.first.set(Some(call));
        }
        self.last.set(Some(call));
        let count = match call {
            Call::Insert => &self.inserts,
            Call::Search => &self.searches,
            Call::Look => &self.looks,
            Call::Clear => &self.clears,
        };
        count.set(count.get().saturating_add(1));
    }
}

/// A list that notes its calls, and has handles for so many keys. A further key is refused for want of a handle.
#[derive(Drop)]
pub struct Watched<K: ExpiredKey<E>, E: Expiration, V: Copy> {
    list: KeyExpList<K, E, V, Global>,
    calls: Calls,
    most: usize,
    ghost rising: { IsRising K.cmp list.pairs },
}

impl<K: ExpiredKey<E>, E: Expiration, V: Copy> Watched<K, E, V> {
    /// An empty list with handles for so many keys.
    pub fn new(alloc: Global, most: usize) -> Result<Self, Refusal> {
        Ok(Watched {
            list: KeyExpList::new(alloc, 0)?,
            calls: Calls::new(),
            most,
        })
    }

    /// Forgets the calls up to now. From now on it has handles for so many keys.
    pub fn restart(&mut self, most: usize) {
        self.calls = Calls::new();
        self.most = most;
    }

    /// How many pairs are stored.
    pub fn stored(&self) -> usize {
        self.list.stored()
    }

    /// The calls since it was made or last restarted.
    pub fn calls(&self) -> &Calls {
        &self.calls
    }
}

impl<K: ExpiredKey<E>, E: Expiration, V: Copy> KeyExpCollection<K, E, V> for Watched<K, E, V> {
    ghost stored = { λ watched. watched.list.pairs };

    fn insert(&mut self, key: K, val: V, time: E) -> Result<(), Refusal> {
        self.calls.note(Call::Insert);
        if self.list.stored() >= self.most {
            return Err(Refusal::NoHandle);
        }
        self.list.insert(key, val, time)
    }

    fn insert_new(&mut self, key: K, val: V, time: E) -> Result<bool, Refusal> {
        self.calls.note(Call::Insert);
        if self.list.stored() >= self.most && !self.list.contains_key(time, key) {
            return Err(Refusal::NoHandle);
        }
        self.list.insert_new(key, val, time)
    }

    fn first_less(&mut self, time: E, default: V, key: K) -> V {
        self.calls.note(Call::Search);
        self.list.first_less(time, default, key)
    }

    fn first_less_or_equal_by<F: Fn(K) -> Ordering>(&mut self, time: E, default: V, f: F) -> V {
        self.calls.note(Call::Search);
        self.list.first_less_or_equal_by(time, default, f)
    }

    fn first_greater_by<F: Fn(K) -> Ordering>(&mut self, time: E, default: V, f: F) -> V {
        self.calls.note(Call::Search);
        self.list.first_greater_by(time, default, f)
    }

    fn contains_key(&self, time: E, key: K) -> bool {
        self.calls.note(Call::Look);
        self.list.contains_key(time, key)
    }

    fn clear(&mut self) {
        self.calls.note(Call::Clear);
        self.list.clear();
    }
}
