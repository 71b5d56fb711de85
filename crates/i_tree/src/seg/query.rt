//! Whether a query may be made, and its steps: it sets the latest time, and goes on from one value that it finds to the next.

ghost use Rattle.std.specs.Prelude.{◌≡◌, ◌<◌, ◌≤◌, ◌*◌, ◌^◌, ◌↔◌, IsTrue, length, IsPermutation};
ghost use Rattle.std.specs.declared.option.Option.TheVariants.{Some};
ghost use Rattle.i_tree.specs.Seg.Buckets.{Filters};
ghost use Rattle.i_tree.specs.Seg.Members.{NotBefore, answer, live_members, values_of};
ghost use Rattle.i_tree.specs.Seg.Nodes.{meeting_set, nodes_of};
ghost use Rattle.i_tree.specs.Seg.Ranges.{IsAccepted, interval_over};
ghost use Rattle.i_tree.specs.Seg.Walk.{to_come, live_from, HasPassed, StepsOn};

use super::exp::SegRange;
use super::masks::meeting_mask;
use super::tree::SegExpTree;
use super::walk::{Cursor, next_value};
use crate::steps::Counter;
use crate::{Expiration, ExpiredVal, LayoutNumber, is_late};
use std::alloc::Allocator;

impl<R: LayoutNumber, E: Expiration, V: ExpiredVal<E>, A: Allocator + Copy> SegExpTree<R, E, V, A> {
    /// Whether the time is not before the latest one: the test of the condition of queries. It is our own.
    pub fn is_in_time(&self, time: E) -> bool
        ensures { IsTrue result ↔ NotBefore E.cmp self.now.latest time }
    {
        !is_late(self.latest, time)
    }

    // Sets the latest time, and answers the nodes at which values that overlap the range may be placed.
    pub(super) fn ask(&mut self, range: SegRange<R>, time: E) -> u64
        requires accepted { IsAccepted R.whole self.old.buckets range }
        requires in_time { NotBefore E.cmp self.old.latest time }
        // It asks the nodes that the range meets. Each has a chunk.
        ensures few { length self.new.chunks ≤ 63 }
        ensures asked { result ≡ meeting_set (interval_over R.whole self.old.buckets range) }
        ensures within { result < 2 ^ length self.new.chunks }
        // The time is the latest, and the live members stay. No copy has changed yet.
        ensures latest { self.new.latest ≡ Some time }
        ensures buckets { self.new.buckets ≡ self.old.buckets }
        ensures chunks { self.new.chunks ≡ self.old.chunks }
        ensures members { IsPermutation (live_members V.expiration E.cmp time self.old.members) self.new.members }
        // A walk over these nodes finds the answer, and reads at most eight live copies for each value of it.
        ensures found { IsPermutation
            (answer V.expiration E.cmp time (interval_over R.whole self.old.buckets range) self.old.members)
            (values_of (to_come V.expiration E.cmp time result result 0 self.new.chunks)) }
        ensures reads { live_from V.expiration E.cmp time 0 (nodes_of result) self.new.chunks
            ≤ 8 * length (to_come V.expiration E.cmp time result result 0 self.new.chunks) }
        ensures filters { Filters self.old.buckets }
    {
        let first = self.layout.bucket(range.min);
        let last = self.layout.bucket(range.max);
        self.latest = Some(time);
        meeting_mask(first, last)
    }

    // Goes on to the next value that is found, of the copies that are live at the latest time.
    pub(super) fn next_found<C: Counter>(
        &mut self,
        cursor: &mut Cursor,
        asked: u64,
        time: E,
        steps: &mut C,
    ) -> Option<V>
        requires few { length self.old.chunks ≤ 63 }
        requires within { cursor.old.left < 2 ^ length self.old.chunks }
        requires latest { self.old.latest ≡ Some time }
        requires passed { HasPassed V.expiration E.cmp time asked cursor.old.left cursor.old.index self.old.chunks }
        ensures walk { StepsOn V.expiration E.cmp time C.made asked
            cursor.old self.old.chunks steps.old result cursor.new self.new.chunks steps.new }
        ensures latest { self.new.latest ≡ self.old.latest }
        ensures buckets { self.new.buckets ≡ self.old.buckets }
        ensures members { IsPermutation self.old.members self.new.members }
    {
        next_value(&mut self.chunks, cursor, asked, time, steps)
    }
}
