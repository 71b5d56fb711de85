//! Each kind of collection by what is its own, and how those of one subject are called.

use crate::sloped::Sloped;
use crate::timed_key::TimedKey;
use i_tree::Refusal;
use i_tree::key::list::KeyExpList;
use i_tree::key::tree::KeyExpTree;
use i_tree::set::list::SetList;
use i_tree::set::sort::SetCollection;
use i_tree::set::tree::SetTree;
use i_tree::status::list::StatusList;
use i_tree::status::tree::StatusTree;
use std::alloc::Allocator;
use test_kit::item::Item;

/// A kind of collection.
pub trait Roomy: Drop {
    /// Where it takes its memory.
    type Memory: Allocator + Copy;

    /// An empty collection.
    fn make(memory: Self::Memory, capacity: usize) -> Result<Self, Refusal>;

    /// Makes room for so many in all, where there is such a call.
    fn reserve(&mut self, capacity: usize) -> Result<(), Refusal>;

    /// How many are stored, and for how many more there is room.
    fn room(&self) -> (usize, usize);
}

/// How collections of one subject are called.
pub trait Calls<C> {
    /// Inserts a number that is live at time 0: by the call that tells more, or by the plain one.
    fn insert(c: &mut C, number: i32, tells: bool) -> Result<(), Refusal>;

    /// How often a closure is asked by a search for the number.
    fn asked(c: &mut C, number: i32) -> usize;

    /// Whether each call of an empty collection answers what it is to answer. It is left empty.
    fn serves(c: &mut C) -> bool;
}

impl<A: Allocator + Copy> Roomy for KeyExpList<TimedKey, i32, i32, A> {
    type Memory = A;

    fn make(memory: A, capacity: usize) -> Result<Self, Refusal> {
        KeyExpList::new(memory, capacity)
    }

    fn reserve(&mut self, capacity: usize) -> Result<(), Refusal> {
        self.reserve_capacity(capacity)
    }

    fn room(&self) -> (usize, usize) {
        (self.stored(), self.spare())
    }
}

impl<A: Allocator + Copy> Roomy for KeyExpTree<TimedKey, i32, i32, A> {
    type Memory = A;

    fn make(memory: A, capacity: usize) -> Result<Self, Refusal> {
        KeyExpTree::new(memory, capacity)
    }

    fn reserve(&mut self, capacity: usize) -> Result<(), Refusal> {
        self.reserve_capacity(capacity)
    }

    fn room(&self) -> (usize, usize) {
        (self.stored(), self.spare())
    }
}

/// The room of a set isn't reserved.
impl<A: Allocator + Copy> Roomy for SetList<Item, A> {
    type Memory = A;

    fn make(memory: A, capacity: usize) -> Result<Self, Refusal> {
        SetList::new(memory, capacity)
    }

    fn reserve(&mut self, _capacity: usize) -> Result<(), Refusal> {
        Ok(())
    }

    fn room(&self) -> (usize, usize) {
        (self.len(), self.spare())
    }
}

/// The room of a set isn't reserved.
impl<A: Allocator + Copy> Roomy for SetTree<i32, Item, A> {
    type Memory = A;

    fn make(memory: A, capacity: usize) -> Result<Self, Refusal> {
        SetTree::new(memory, capacity)
    }

    fn reserve(&mut self, _capacity: usize) -> Result<(), Refusal> {
        Ok(())
    }

    fn room(&self) -> (usize, usize) {
        (self.len(), self.spare())
    }
}

impl<A: Allocator + Copy> Roomy for StatusList<Sloped, i32, i32, A> {
    type Memory = A;

    fn make(memory: A, capacity: usize) -> Result<Self, Refusal> {
        StatusList::new(memory, capacity)
    }

    fn reserve(&mut self, capacity: usize) -> Result<(), Refusal> {
        self.reserve_capacity(capacity)
    }

    fn room(&self) -> (usize, usize) {
        (self.stored(), self.spare())
    }
}

impl<A: Allocator + Copy> Roomy for StatusTree<Sloped, i32, i32, A> {
    type Memory = A;

    fn make(memory: A, capacity: usize) -> Result<Self, Refusal> {
        StatusTree::new(memory, capacity)
    }

    fn reserve(&mut self, capacity: usize) -> Result<(), Refusal> {
        self.reserve_capacity(capacity)
    }

    fn room(&self) -> (usize, usize) {
        (self.stored(), self.spare())
    }
}
