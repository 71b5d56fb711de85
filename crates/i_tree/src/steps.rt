//! Counts of what a call does, for contracts alone.

ghost use Rattle.std.specs.Prelude.{◌≡◌, ◌<◌, ◌+◌};
ghost use Rattle.i_tree.specs.Root.Steps.{Counts, one_comparison, one_test, one_removal, one_rotation, Accumulates};

use std::marker::Model;
use std::sync::ledger::{Blank, Book, Ledger, Share};

/// What a call counts its steps by: one `add_` call beside each thing that is counted.
///
/// `Steps` counts what was made. The plain calls, which promise nothing of their steps, count by an `Uncounted`. The trait is
/// our own, and not of the Rust crate.
pub trait Counter {
    /// Which counts were made from an old state to a new one.
    ghost made: { Self → Self → Counts → Type 0 };

    /// Counts one comparison of two keys, or of a key with what is sought.
    fn add_comparison(&mut self)
        ensures { made self.old self.new one_comparison };

    /// Counts one test whether an entry is expired.
    fn add_test(&mut self)
        ensures { made self.old self.new one_test };

    /// Counts one removal of an entry.
    fn add_removal(&mut self)
        ensures { made self.old self.new one_removal };

    /// Counts one rotation.
    fn add_rotation(&mut self)
        ensures { made self.old self.new one_rotation };

    /// Nothing is made between a state and itself, and what is made one after the other is made together.
    ghost law: { Accumulates made };
}

/// How many comparisons of keys, tests of an expiration, removals and rotations were made.
///
/// Contracts see the four counts. They take no bytes, and a running program can't read them: each `add_` call stands
/// beside the one thing that it counts, and does nothing else. They are our own, and not of the Rust crate.
#[derive(Drop)]
pub struct Steps<L: Ledger> {
    book: Book<L>,
    comparisons: Share<L>,
    tests: Share<L>,
    removals: Share<L>,
    rotations: Share<L>,
}

impl<L: Ledger> Model for Steps<L> {
    ghost Value = { Counts };

    ghost view = { λ steps. record {
      comparisons = steps.comparisons.amount;
      tests = steps.tests.amount;
      removals = steps.removals.amount;
      rotations = steps.rotations.amount;
    } };

    ghost invariant = { λ steps. (0 < steps.comparisons.parts) × (0 < steps.tests.parts) × (0 < steps.removals.parts) × (0 < steps.rotations.parts) };
}

impl<L: Ledger> Steps<L> {
    /// Nothing was counted yet. The ledger `blank` has a part for each count.
    pub fn new(blank: Blank) -> Self
        requires name { blank.name ≡ L.name }
        requires parts { blank.parts ≡ L.parts }
        requires four { blank.parts ≡ 4 }
        ensures comparisons { result.comparisons ≡ 0 }
        ensures tests { result.tests ≡ 0 }
        ensures removals { result.removals ≡ 0 }
        ensures rotations { result.rotations ≡ 0 }
    {
        prove!(size_of::<Self>() == 0);
        let (book, mut comparisons) = blank.open();
        let tests = comparisons.split_off(1, 0);
        let removals = comparisons.split_off(1, 0);
        let rotations = comparisons.split_off(1, 0);
        Steps {
            book,
            comparisons,
            tests,
            removals,
            rotations,
        }
    }
}

/// The new counts are the old ones and what was made since.
impl<L: Ledger> Counter for Steps<L> {
    ghost use Rattle.i_tree.specs.Root.Steps.{Adds};
    ghost use Rattle.i_tree.specs.Laws.Counters.{Adds-accumulate};

    ghost made = { Adds };

    fn add_comparison(&mut self) {
        self.book.add(&mut self.comparisons, 1);
    }

    fn add_test(&mut self) {
        self.book.add(&mut self.tests, 1);
    }

    fn add_removal(&mut self) {
        self.book.add(&mut self.removals, 1);
    }

    fn add_rotation(&mut self) {
        self.book.add(&mut self.rotations, 1);
    }

    ghost law = { Adds-accumulate };
}

/// A counter that keeps nothing and takes no bytes: a plain call is its counted form over it, and who has no counts to keep
/// gives it to the calls of the core. It is our own, and not of the Rust crate.
#[derive(Drop)]
pub struct Uncounted;

/// Any counts may have been made.
impl Counter for Uncounted {
    ghost use Rattle.std.specs.Prelude.{⊤};
    ghost use Rattle.i_tree.specs.Laws.Counters.{any-accumulate};

    ghost made = { λ _ _ _. ⊤ };

    fn add_comparison(&mut self) {}

    fn add_test(&mut self) {}

    fn add_removal(&mut self) {}

    fn add_rotation(&mut self) {}

    ghost law = { any-accumulate };
}
