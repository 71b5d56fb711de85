//! Keys and values that count how often they are compared, and how often their expiration is asked for.

ghost use Rattle.std.proofs.Common.{rules};
ghost use Rattle.std.specs.Cmp.{partial_order_from_own_ties};
ghost use Rattle.std.specs.Cmp.Rules.{comparing};
ghost use Rattle.std.specs.Ordering.{int_cmp, int_eq, on, as_partial_cmp};
ghost use Rattle.std.specs.Prelude.{pos};

use i_tree::set::sort::KeyValue;
use i_tree::{ExpiredKey, ExpiredVal};
use std::cell::Cell;
use std::cmp::Ordering;

/// What keys and values count.
#[derive(Drop)]
pub struct Tally {
    comparisons: Cell<u64>,
    expirations: Cell<u64>,
}

impl Tally {
    /// Nothing is counted yet.
    pub fn new() -> Self {
        Tally {
            comparisons: Cell::new(0),
            expirations: Cell::new(0),
        }
    }

    /// How many comparisons were made since this was made or last restarted.
    pub fn comparisons(&self) -> u64 {
        self.comparisons.get()
    }

    /// How many expirations were asked for since this was made or last restarted.
    pub fn expirations(&self) -> u64 {
        self.expirations.get()
    }

    /// Counts from nothing again.
    pub fn restart(&self) {
        self.comparisons.set(0);
        self.expirations.set(0);
    }

    /// How many comparisons were made and how many expirations were asked for, since this was made or last restarted. It
    /// restarts.
    pub fn take(&self) -> (u64, u64) {
        let counts = (self.comparisons(), self.expirations());
        self.restart();
        counts
    }

    fn count_comparison(&self) {
        self.comparisons
            .set(self.comparisons.get().saturating_add(1));
    }

    fn count_expiration(&self) {
        self.expirations
            .set(self.expirations.get().saturating_add(1));
    }
}

/// A key that counts. Keys are compared by their number alone.
#[derive(Clone, Copy)]
pub struct CountedKey<'a> {
    pub number: i32,
    pub expiration: i32,
    pub tally: &'a Tally,
}

/// A key that counts, and expires at 10.
pub fn counted_key(number: i32, tally: &Tally) -> CountedKey<'_> {
    CountedKey {
        number,
        expiration: 10,
        tally,
    }
}

impl Ord for CountedKey<'_> {
    ghost cmp = { on (λ counted. counted.number) int_cmp };

    ghost total = { Prim.search (comparing, rules) };

    ghost matches_partial_cmp = { Prim.search (comparing, rules) };

    ghost matches_eq = { Prim.search (comparing, rules) };

    fn cmp(&self, other: &Self) -> Ordering {
        self.tally.count_comparison();
        self.number.cmp(&other.number)
    }
}

impl PartialOrd for CountedKey<'_> {
    ghost partial_cmp = { as_partial_cmp (on (λ counted. counted.number) int_cmp) };

    ghost laws = { partial_order_from_own_ties (Prim.search (comparing, rules)) (Prim.search (comparing, rules)) };

    fn partial_cmp(&self, other: &Self) -> Option<Ordering> {
        Some(self.cmp(other))
    }
}

impl PartialEq for CountedKey<'_> {
    ghost eq = { on (λ counted. counted.number) int_eq };

    ghost laws = { Prim.search (comparing, rules) };

    fn eq(&self, other: &Self) -> bool {
        self.cmp(other) == Ordering::Equal
    }
}

impl Eq for CountedKey<'_> {
    ghost laws = { Prim.search (comparing, rules) };
}

impl ExpiredKey<i32> for CountedKey<'_> {
    ghost expiration = { λ counted. counted.expiration };

    fn expiration(&self) -> i32 {
        self.tally.count_expiration();
        self.expiration
    }
}

impl<'a> KeyValue<CountedKey<'a>> for CountedKey<'a> {
    ghost key_of = { λ counted. counted };

    fn key(&self) -> &CountedKey<'a> {
        self
    }
}

/// A value that is live up to time 10, and counts how often its expiration is asked for.
#[derive(Clone, Copy)]
pub struct CountedValue<'a> {
    pub number: i32,
    pub tally: &'a Tally,
}

impl ExpiredVal<i32> for CountedValue<'_> {
    ghost expiration = { λ _. pos 10 };

    fn expiration(&self) -> i32 {
        self.tally.count_expiration();
        10
    }
}
