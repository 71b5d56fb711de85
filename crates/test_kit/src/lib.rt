//! For tests alone: an allocator that counts the requests for memory made of it and their bytes, and refuses some of them;
//! and keys, values and collections that several crates of tests share. Its own tests stand in
//! `core_tests`.
#![tactic(auto)]

use std::alloc::{AllocError, Allocator};
use std::cell::Cell;

pub mod counted_key;
pub mod growth;
pub mod in_turn;
pub mod item;
pub mod short_number;
pub mod until;
pub mod watched;

/// Which requests are refused, by their number since the count last began.
#[derive(Clone, Copy)]
enum Refused {
    Nothing,
    Nth(u64),
    Everything,
}

impl Refused {
    /// Whether the request of this number is among them.
    fn includes(self, number: u64) -> bool {
        match self {
            Refused::Nothing => false,
            Refused::Nth(n) => n == number,
            Refused::Everything => true,
        }
    }
}

/// An allocator that passes each request on to `inner`, but for those that it was told to refuse.
///
/// A request is a call that asks for a block, be it a new one or one of another size in place of an old one. Freeing a
/// block is none, and is never refused. A `&` to it is an allocator too, and is `Copy`, so that several collections can
/// share one count.
#[derive(Drop)]
pub struct Refusing<A: Allocator> {
    inner: A,
    requests: Cell<u64>,
    asked: Cell<usize>,
    held: Cell<usize>,
    refused: Cell<Refused>,
}

impl<A: Allocator> Refusing<A> {
    /// An allocator over `inner` that refuses nothing.
    pub fn new(inner: A) -> Self {
        Refusing {
            inner,
            requests: Cell::new(0),
            asked: Cell::new(0),
            held: Cell::new(0),
            refused: Cell::new(Refused::Nothing),
        }
    }

    /// Refuses the `n`th request from now on, where 1 is the next one, and no other. At 0 it refuses none.
    pub fn refuse_nth(&self, n: u64) {
        self.restart(Refused::Nth(n));
    }

    /// Refuses every request from now on.
    pub fn refuse_all(&self) {
        self.restart(Refused::Everything);
    }

    /// Refuses no request from now on.
    pub fn refuse_none(&self) {
        self.restart(Refused::Nothing);
    }

    /// How many requests were made, refused ones among them, since it was made or last told what to refuse.
    pub fn requests(&self) -> u64 {
        self.requests.get()
    }

    /// How many bytes were asked for, by refused requests too, since it was made or last told what to refuse.
    pub fn bytes_asked(&self) -> usize {
        self.asked.get()
    }

    /// How many bytes are held: those of all requests that were passed on, without those of the blocks that were freed.
    pub fn bytes_held(&self) -> usize {
        self.held.get()
    }

    fn restart(&self, refused: Refused) {
        self.requests.set(0);
        self.asked.set(0);
        self.refused.set(refused);
    }

    /// Counts one more request of this size, and answers whether it is refused.
    fn refuses_next(&self, size: usize) -> bool {
        let number = self.requests.get().saturating_add(1);
        self.requests.set(number);
        self.asked.set(self.asked.get().saturating_add(size));
        if self.refused.get().includes(number) {
            return true;
        }
        self.held.set(self.held.get().saturating_add(size));
        false
    }

    /// Counts that a block of this size is freed.
    fn count_freed(&self, size: usize) {
        self.held.set(self.held.get().saturating_sub(size));
    }
}

// `grow` and `shrink` are the trait's own. Each calls `allocate` once, and so is one request.
unsafe impl<A: Allocator> Allocator for Refusing<A> {
    ghost dealloc_token = { λ memory. A.dealloc_token memory.inner };

    fn allocate(&self, size: usize, align: usize) -> Result<*mut u8, AllocError> {
        if self.refuses_next(size) {
            return Err(AllocError);
        }
        self.inner.allocate(size, align)
    }

    unsafe fn deallocate(&self, ptr: *mut u8, size: usize, align: usize) {
        self.count_freed(size);
        self.inner.deallocate(ptr, size, align);
    }
}
