//! Queries that yield one value after another.

ghost use Rattle.std.specs.Prelude.{◌≡◌, length, IsPermutation};
ghost use Rattle.std.specs.Iterator.{at_most};
ghost use Rattle.std.specs.declared.option.Option.TheVariants.{Some};
ghost use Rattle.i_tree.specs.Seg.Buckets.{Filters};
ghost use Rattle.i_tree.specs.Seg.Iterating.{still_to_come, CanGo, GivesNext};
ghost use Rattle.i_tree.specs.Seg.Members.{NotBefore, answer, live_members};
ghost use Rattle.i_tree.specs.Seg.Nodes.{meeting_set};
ghost use Rattle.i_tree.specs.Seg.Ranges.{IsAccepted, interval_over};

use super::exp::SegRange;
use super::tree::SegExpTree;
use super::walk::Cursor;
use crate::steps::Uncounted;
use crate::{Expiration, ExpiredVal, LayoutNumber};
use std::alloc::Allocator;

impl<R: LayoutNumber, E: Expiration, V: ExpiredVal<E>, A: Allocator + Copy> SegExpTree<R, E, V, A> {
    /// Yields the values that are live at the time and whose buckets overlap those of the range, each once, in open order.
    ///
    /// The conditions are that the range is accepted, and that the time is not before the latest one. The latest time is
    /// then this one, and the members are those that are live at it. It takes no memory.
    pub fn iter_by_range(
        &mut self,
        range: SegRange<R>,
        time: E,
    ) -> SegExpTreeIterator<'_, R, E, V, A>
        requires accepted { IsAccepted R.whole self.old.buckets range }
        requires in_time { NotBefore E.cmp self.old.latest time }
        // It lends the tree, and asks at the time the nodes that the range meets.
        ensures tree { result.tree.ghost_name ≡ self.entry.ghost_name }
        ensures asked { result.asked ≡ meeting_set (interval_over R.whole self.old.buckets range) }
        ensures time { result.time ≡ time }
        // The time is the latest, and the live members stay. No copy has changed yet.
        ensures latest { result.tree.now.latest ≡ Some time }
        ensures buckets { result.tree.now.buckets ≡ self.old.buckets }
        ensures members { IsPermutation (live_members V.expiration E.cmp time self.old.members)
            result.tree.now.members }
        ensures copies { result.tree.now.chunks ≡ self.old.chunks }
        // What is still to come is the answer, and the walk may go on.
        ensures found { IsPermutation
            (answer V.expiration E.cmp time (interval_over R.whole self.old.buckets range) self.old.members)
            (still_to_come V.expiration E.cmp result) }
        ensures can { CanGo V.expiration E.cmp result }
        ensures filters { Filters self.old.buckets }
    {
        let asked = self.ask(range, time);
        SegExpTreeIterator {
            tree: self,
            asked,
            time,
            cursor: Cursor::new(asked),
        }
    }
}

/// The values that a query of a tree finds, one after another. `iter_by_range` makes it.
///
/// It holds the tree until it is dropped, and removes the copies that it reads and that are no longer live. The members stay
/// as they were, as a bag, also where the walk is left early. Once `None` came, all copies at the nodes that the range meets
/// are live. `next` may be called again, and answers `None` then.
pub struct SegExpTreeIterator<
    'a,
    R: LayoutNumber,
    E: Expiration,
    V: ExpiredVal<E>,
    A: Allocator + Copy,
> {
    tree: &'a mut SegExpTree<R, E, V, A>,
    // The nodes of the query.
    asked: u64,
    time: E,
    cursor: Cursor,
}

impl<'a, R: LayoutNumber, E: Expiration, V: ExpiredVal<E>, A: Allocator + Copy> Iterator
    for SegExpTreeIterator<'a, R, E, V, A> {
    type Item = V;

    ghost can_next = { CanGo V.expiration E.cmp };

    ghost next_gives = { GivesNext V.expiration E.cmp };

    ghost remaining = { λ walk. at_most (length (still_to_come V.expiration E.cmp walk)) };

    fn next(&mut self) -> Option<V> {
        self.tree
            .next_found(&mut self.cursor, self.asked, self.time, &mut Uncounted)
    }
}

/// The tree stays as the last `next` left it.
impl<R: LayoutNumber, E: Expiration, V: ExpiredVal<E>, A: Allocator + Copy> Drop
    for SegExpTreeIterator<'_, R, E, V, A> {
    fn drop(self)
        ensures tree { self.exit.0.now ≡ self.entry.tree.now }
    {
        let SegExpTreeIterator {
            tree: _,
            asked: _,
            time: _,
            cursor: _,
        } = self;
    }
}
