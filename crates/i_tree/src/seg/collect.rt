//! Queries that append all values at once.

ghost use Rattle.std.specs.Prelude.{◌-◌, length, OnOk, OnErr};
ghost use Rattle.i_tree.specs.Root.Steps.{Makes};
ghost use Rattle.i_tree.specs.Seg.Changes.{Answers};
ghost use Rattle.i_tree.specs.Seg.Copies.{stored_copies};
ghost use Rattle.i_tree.specs.Seg.Members.{NotBefore, answer};
ghost use Rattle.i_tree.specs.Seg.Ranges.{IsAccepted, interval_over};
ghost use Rattle.i_tree.specs.Seg.Walk.{Collects, StopsCollecting};

use super::exp::SegRange;
use super::tree::SegExpTree;
use super::walk::Cursor;
use crate::steps::Counter;
use crate::{Expiration, ExpiredVal, LayoutNumber, Refusal};
use std::alloc::Allocator;

impl<R: LayoutNumber, E: Expiration, V: ExpiredVal<E>, A: Allocator + Copy> SegExpTree<R, E, V, A> {
    /// `collect_by_range`, with its steps counted.
    ///
    /// Each copy that the walk reads is tested once, and removed where it isn't live. Beside the tests of what is removed
    /// there is one at least for each value of the answer, and there are eight at most. The counts are our own.
    pub fn collect_by_range_counted<C: Counter, B: Allocator>(
        &mut self,
        steps: &mut C,
        range: SegRange<R>,
        time: E,
        out: &mut Vec<V, B>,
    ) -> Result<(), Refusal>
        requires accepted { IsAccepted R.whole self.old.buckets range }
        requires in_time { NotBefore E.cmp self.old.latest time }
        ensures answers { Answers V.expiration E.cmp time (interval_over R.whole self.old.buckets range) result
            self.old self.new out.old out.new }
        // At most eight copies are tested for each value, beside those that are removed.
        ensures steps { OnOk result (Makes C.made steps.old steps.new (Collects
            (length out.new.items - length out.old.items)
            (stored_copies self.old.chunks) (stored_copies self.new.chunks))) }
        ensures err_steps { OnErr result (Makes C.made steps.old steps.new (StopsCollecting
            (length (answer V.expiration E.cmp time (interval_over R.whole self.old.buckets range) self.old.members))
            (stored_copies self.old.chunks) (stored_copies self.new.chunks))) }
    {
        let start = out.len();
        let asked = self.ask(range, time);
        let mut cursor = Cursor::new(asked);
        // Behind what stood in `out` stand the values that the walk has passed, each once.
        while let Some(value) = self.next_found(&mut cursor, asked, time, steps) {
            if out.push(value).is_err() {
                out.truncate(start);
                return Err(Refusal::OutOfMemory);
            }
        }
        Ok(())
    }
}
