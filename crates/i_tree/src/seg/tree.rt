//! `SegExpTree`: segments that expire, in a segment tree over at most 32 buckets.

ghost use Rattle.std.specs.Prelude.{◌≡◌, ◌↔◌, [], IsTrue, IsOk, IfOk, MatchOption, IfSome, IsPermutation};
ghost use Rattle.std.specs.declared.option.Option.TheVariants.{None};
ghost use Rattle.i_tree.specs.declared.Refusal.TheVariants.{OutOfMemory};
ghost use Rattle.i_tree.specs.Seg.Changes.{Inserts, Answers, Clears};
ghost use Rattle.i_tree.specs.Seg.Copies.{chunk_at, copies_at, live_copies, stored_copies};
ghost use Rattle.i_tree.specs.Seg.Members.{AllLiveYet, NotBefore};
ghost use Rattle.i_tree.specs.Seg.Ranges.{CanBeCut, IsCutInto, IsAccepted, interval_over, segment_over};
ghost use Rattle.i_tree.specs.Root.Causes.{RefusedFor};

use super::chunk::{clear_chunks, empty_chunks, make_room, place_copies};
use super::exp::{SegExpCollection, SegRange};
pub use super::iterator::SegExpTreeIterator;
use super::layout::Layout;
use super::masks::canonical_mask;
use crate::steps::Uncounted;
use crate::{Expiration, ExpiredVal, LayoutNumber, Refusal};
use std::alloc::Allocator;
use std::marker::Model;

/// A heap of 63 nodes over a range of numbers that is cut into at most 32 buckets. Each node covers some buckets, and a
/// value is kept at the at most eight nodes that together cover the buckets of its range.
///
/// Contracts see the range and its buckets, the latest time, what is live at it as a bag of members, and the copies at
/// each node. A query drops the copies that it reads and that are no longer live; what no query reads stays stored.
#[derive(Drop)]
pub struct SegExpTree<R: LayoutNumber, E: Expiration, V: ExpiredVal<E>, A: Allocator + Copy> {
    pub(super) layout: Layout<R>,
    // The copies at each node, from node 0 on. Nodes beyond the leaf of the last bucket have no chunk.
    pub(super) chunks: Vec<Vec<(u64, V), A>, A>,
    // The time of the last query.
    pub(super) latest: Option<E>,
}

impl<R: LayoutNumber, E: Expiration, V: ExpiredVal<E>, A: Allocator + Copy> Model
    for SegExpTree<R, E, V, A> {
    ghost use Rattle.i_tree.specs.Seg.Segments.{Contents};

    ghost Value = { Contents E V };

    ghost use Rattle.i_tree.specs.Seg.Buckets.{chunk_count};
    ghost use Rattle.i_tree.specs.Seg.Copies.{copies_in, members_in, Holds};

    ghost view = { λ tree. record {
      buckets = tree.layout;
      latest = tree.latest;
      members = members_in V.expiration E.cmp tree.latest (copies_in tree.chunks.items);
      chunks = copies_in tree.chunks.items;
    } };

    ghost invariant = { λ tree. Holds V.expiration E.cmp tree.latest (chunk_count tree.layout)
        (copies_in tree.chunks.items) (members_in V.expiration E.cmp tree.latest (copies_in tree.chunks.items)) };
}

impl<R: LayoutNumber, E: Expiration, V: ExpiredVal<E>, A: Allocator + Copy> SegExpTree<R, E, V, A> {
    /// A tree without segments over the range, or `None` where the range has no layout: it goes downwards, or its span is
    /// below 16 or below the least span of its number type, which is 31 for those of the language.
    ///
    /// `None` is answered before memory is asked for. It is refused for want of memory alone.
    pub fn new(alloc: A, range: SegRange<R>) -> Result<Option<Self>, Refusal>
        // It answers `None` exactly where the range has no layout. A refusal is for want of memory.
        ensures cases { IfOk result (λ made. MatchOption made
            (¬ (CanBeCut R.whole (R.UInt.number R.UInt.HEAP_MIN_SPAN) range))
            (λ _. CanBeCut R.whole (R.UInt.number R.UInt.HEAP_MIN_SPAN) range)) }
        ensures without_layout { ¬ (CanBeCut R.whole (R.UInt.number R.UInt.HEAP_MIN_SPAN) range) → IsOk result }
        ensures refused { RefusedFor OutOfMemory result }
        // The tree is empty.
        ensures layout { IfOk result (λ made. IfSome made (λ tree. IsCutInto R.whole range tree.buckets)) }
        ensures empty { IfOk result (λ made. IfSome made (λ tree. (tree.members ≡ []) × (tree.latest ≡ None))) }
        ensures copies { IfOk result (λ made. IfSome made (λ tree. stored_copies tree.chunks ≡ 0)) }
    {
        let Some(layout) = Layout::new(range.min, range.max) else {
            return Ok(None);
        };
        let chunks = empty_chunks(alloc, layout.chunk_count())?;
        Ok(Some(SegExpTree {
            layout,
            chunks,
            latest: None,
        }))
    }

    /// Whether the range goes upwards and lies in the tree's own: the test of the condition of insertions and queries.
    /// It is our own.
    pub fn accepts(&self, range: SegRange<R>) -> bool
        ensures { IsTrue result ↔ IsAccepted R.whole self.now.buckets range }
    {
        self.layout.accepts(range.min, range.max)
    }

    /// The time of the last query, or `None` where none came since the tree was made or cleared. Each member is live at it.
    /// It is our own.
    pub fn latest_time(&self) -> Option<E>
        ensures latest { result ≡ self.now.latest }
        ensures live { AllLiveYet V.expiration E.cmp self.now.latest self.now.members }
    {
        self.latest
    }

    /// The copies at a node, each with the mask of the nodes that its value is placed at. A node without a chunk has
    /// none. It is our own.
    ///
    /// Those that are live are one for each member that is placed there. Node 0 covers all buckets, and nodes 2 j + 1 and
    /// 2 j + 2 cover the halves of what node j covers.
    pub fn chunk(&self, node: u32) -> &[(u64, V)]
        ensures copies { result.now ≡ chunk_at node self.now.chunks }
        ensures placed { IsPermutation (copies_at node self.now.members)
            (live_copies V.expiration E.cmp self.now.latest result.now) }
    {
        match self.chunks.get(node as usize) {
            Some(chunk) => chunk,
            None => &[],
        }
    }
}

impl<R: LayoutNumber, E: Expiration, V: ExpiredVal<E>, A: Allocator + Copy> SegExpCollection<
    R,
    E,
    V,
> for SegExpTree<R, E, V, A> {
    ghost buckets = { λ tree. tree.buckets };

    ghost latest = { λ tree. tree.latest };

    ghost members = { λ tree. tree.members };

    /// Stores at most eight copies of the value, one at each node that its range is placed at, also where it has expired.
    /// Each is placed behind the copies of its node. It is refused for want of memory alone, and that changes nothing at all:
    /// all growths come before the first copy is placed.
    fn insert_by_range(&mut self, range: SegRange<R>, val: V) -> Result<(), Refusal>
        requires { IsAccepted R.whole self.old.buckets range }
        ensures { Inserts V.expiration E.cmp (segment_over R.whole self.old.buckets range val) result
            self.old self.new }
    {
        let first = self.layout.bucket(range.min);
        let last = self.layout.bucket(range.max);
        let mask = canonical_mask(first, last);
        make_room(&mut self.chunks, mask)?;
        place_copies(&mut self.chunks, mask, val);
        Ok(())
    }

    /// Appends what a walk finds, and drops the copies that it reads and that are no longer live: all of those at the nodes
    /// that the range meets, unless it is refused, and none elsewhere. It asks for memory for `out` alone, and not where that
    /// has room for the answer.
    fn collect_by_range<B: Allocator>(
        &mut self,
        range: SegRange<R>,
        time: E,
        out: &mut Vec<V, B>,
    ) -> Result<(), Refusal>
        requires accepted { IsAccepted R.whole self.old.buckets range }
        requires in_time { NotBefore E.cmp self.old.latest time }
        ensures { Answers V.expiration E.cmp time (interval_over R.whole self.old.buckets range) result
            self.old self.new out.old out.new }
    {
        self.collect_by_range_counted(&mut Uncounted, range, time, out)
    }

    /// Removes every copy, live or not, and keeps the room.
    fn clear(&mut self)
        ensures { Clears self.old self.new }
    {
        clear_chunks(&mut self.chunks);
        self.latest = None;
    }
}
