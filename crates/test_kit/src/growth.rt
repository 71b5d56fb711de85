//! Bounds on how often collections that double ask for memory, and on how much they hold.

use crate::Refusing;
use std::alloc::Allocator;

/// How many entries are stored.
pub const COUNT: u16 = 1000;

/// One request for each doubling, from one entry to 1024.
pub const MOST_REQUESTS: u64 = 11;

/// A slot of a tree has at most so many bytes besides its entry.
pub const LINKS: usize = 20;

/// How many commands are run where their replies are measured.
pub const COMMANDS: usize = 100;

/// The most bytes that so many entries of this size may hold: those of twice as many, and of eight.
pub fn most_held(entries: usize, size: usize) -> usize {
    entries
        .saturating_mul(2)
        .saturating_add(8)
        .saturating_mul(size)
}

/// Whether the growths to `COUNT` entries of this size asked for memory seldom enough, and for twice what may be held at
/// most.
pub fn asks_seldom<A: Allocator>(counted: &Refusing<A>, size: usize) -> bool {
    let most_asked = most_held(usize::from(COUNT), size).saturating_mul(2);
    counted.requests() <= MOST_REQUESTS && counted.bytes_asked() <= most_asked
}

/// Whether one request was made, for as many replies as there were commands, or for twice as many at most.
pub fn asks_once<A: Allocator>(replies: &Refusing<A>, size: usize) -> bool {
    let least = COMMANDS.saturating_mul(size);
    let asked = replies.bytes_asked();
    replies.requests() == 1 && least <= asked && asked <= least.saturating_mul(2)
}
