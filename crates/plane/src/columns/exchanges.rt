//! `Exchanges`: the exchanges of two neighbours that are put down, the earliest first.

ghost use Rattle.std.specs.Prelude.{◌≡◌, ◌<ℤ◌, ◌≤ℤ◌, [], ◌∷◌, List, All, IsPermutation, OnOk, MatchOption};
ghost use Rattle.plane.specs.declared.columns.exchanges.Exchange.{Exchange};
ghost use Rattle.plane.specs.Columns.Sweep.{TakesEarliest};

use std::alloc::{AllocError, Allocator};
use std::cmp::Reverse;
use std::collections::BinaryHeap;
use std::marker::Model;

/// An exchange of two neighbours along the line: at which moment, and the places of the lower and of the upper before it.
#[derive(Clone, Copy, PartialEq, Eq, PartialOrd, Ord)]
pub struct Exchange {
    pub moment: i64,
    pub below: usize,
    pub above: usize,
}

/// The exchanges that are put down. Contracts see their list, whose order is open.
#[derive(Drop)]
pub struct Exchanges<A: Allocator> {
    heap: BinaryHeap<Reverse<Exchange>, A>,
}

impl<A: Allocator> Model for Exchanges<A> {
    ghost use Rattle.std.specs.Prelude.{List, map};
    ghost use Rattle.std.specs.BinaryHeap.{IsHeap, heap_items};
    ghost use Rattle.plane.specs.declared.columns.exchanges.Exchange.{Exchange};

    ghost Value = { List Exchange };

    ghost view = { λ exchanges. map (λ item. item.0) (heap_items exchanges.heap) };

    ghost invariant = { λ exchanges. IsHeap ⟦<Reverse<Exchange> as Ord>⟧.cmp (heap_items exchanges.heap) };
}

impl<A: Allocator> Exchanges<A> {
    /// None.
    pub fn new(alloc: A) -> Self
        ensures { result ≡ [] }
    {
        Exchanges {
            heap: BinaryHeap::new(alloc),
        }
    }

    /// Puts one down.
    pub fn put(&mut self, exchange: Exchange) -> Result<(), AllocError>
        ensures { OnOk result (IsPermutation (exchange ∷ self.old) self.new) }
    {
        self.heap.push(Reverse(exchange))?;
        Ok(())
    }

    /// Takes the earliest, if that isn't behind the moment.
    pub fn next_upto(&mut self, moment: i64) -> Option<Exchange>
        ensures upto { MatchOption result (All (λ exchange. moment <ℤ exchange.moment) self.old) (λ exchange. exchange.moment ≤ℤ moment) }
        ensures taken { MatchOption result (self.new ≡ self.old) (λ exchange. TakesEarliest exchange self.old self.new) }
    {
        let first = self.heap.peek()?;
        if moment < first.0.moment {
            return None;
        }
        let Reverse(exchange) = self.heap.pop()?;
        Some(exchange)
    }
}
