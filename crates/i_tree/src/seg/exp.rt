//! `SegRange`, and the trait of collections of segments: what each of them promises.

ghost use Rattle.std.specs.Prelude.{◌≡◌, ◌≤◌, ◌+◌, List, [], length, vec_len, vec_capacity, IsOk, OnOk, OnErr, IsPermutation};
ghost use Rattle.std.specs.declared.option.Option.{Option};
ghost use Rattle.std.specs.declared.option.Option.TheVariants.{None, Some};
ghost use Rattle.i_tree.specs.declared.Refusal.TheVariants.{OutOfMemory};
ghost use Rattle.i_tree.specs.Seg.Buckets.{Buckets, Filters};
ghost use Rattle.i_tree.specs.Seg.Members.{Member, Appends, Joins, NotBefore, answer, live_members};
ghost use Rattle.i_tree.specs.Seg.Ranges.{IsAccepted, interval_over, segment_over};
ghost use Rattle.i_tree.specs.Root.Causes.{RefusedFor};

use crate::{Expiration, ExpiredVal, LayoutNumber, Refusal};
use std::alloc::Allocator;

/// A range of numbers. Both ends are of it.
#[derive(Clone, Copy, Debug)]
pub struct SegRange<R> {
    /// The least number of the range.
    pub min: R,
    /// The greatest number of the range.
    pub max: R,
}

/// A collection of segments: values over ranges of numbers, that expire.
///
/// A value is live at each time up to its expiration, and still at the equal moment. The range that a collection is over
/// is cut into at most 32 buckets of one width, and a segment counts as the buckets that its range meets. So segments
/// that overlap are never missed, and one that is found lies less than a width away.
///
/// The rules are those of the Rust crate `i_tree`, but for the condition of `insert_by_range` and the refusals.
pub trait SegExpCollection<R: LayoutNumber, E: Expiration, V: ExpiredVal<E>> {
    /// The range that the collection is over, and the width of its buckets.
    ghost buckets: { Self → Buckets };

    /// The time of the last query, if one came since the collection was made or cleared.
    ghost latest: { Self → Option E };

    /// What is stored and live at the latest time, as a bag: each value with the buckets of its range.
    ghost members: { Self → List (Member V) };

    /// Stores the value over the range, whatever its expiration.
    ///
    /// The condition is that the range is accepted: it goes upwards and lies in the collection's own. It is refused for want
    /// of memory alone, and that changes nothing of what is stored.
    fn insert_by_range(&mut self, range: SegRange<R>, val: V) -> Result<(), Refusal>
        requires { IsAccepted R.whole (buckets self.old) range }
        // The segment joins where it is live. A refusal is for want of memory, and changes no member.
        ensures ok { OnOk result (Joins V.expiration E.cmp (latest self.old)
            (segment_over R.whole (buckets self.old) range val) (members self.old) (members self.new)) }
        ensures err { OnErr result (members self.new ≡ members self.old) }
        ensures refused { RefusedFor OutOfMemory result }
        // The time and the buckets stay. Buckets miss no segment that overlaps.
        ensures latest { latest self.new ≡ latest self.old }
        ensures buckets { buckets self.new ≡ buckets self.old }
        ensures filters { Filters (buckets self.old) };

    /// Appends the values that are live at the time and whose buckets overlap those of the range, each once, in open order.
    ///
    /// The conditions are that the range is accepted, and that the time is not before the latest one. The latest time is
    /// then this one, and the members are those that are live at it, also where it is refused: that is for want of memory
    /// alone, not where `out` has room for the answer, and leaves `out` as it was.
    fn collect_by_range<B: Allocator>(
        &mut self,
        range: SegRange<R>,
        time: E,
        out: &mut Vec<V, B>,
    ) -> Result<(), Refusal>
        requires accepted { IsAccepted R.whole (buckets self.old) range }
        requires in_time { NotBefore E.cmp (latest self.old) time }
        // The answer is appended. A refusal is for want of memory, and not where there is room for the answer.
        ensures ok { OnOk result (Appends (answer V.expiration E.cmp time
            (interval_over R.whole (buckets self.old) range) (members self.old)) out.old.items out.new.items) }
        ensures err { OnErr result (out.new.items ≡ out.old.items) }
        ensures refused { RefusedFor OutOfMemory result }
        ensures with_room { vec_len out.old + length (answer V.expiration E.cmp time
            (interval_over R.whole (buckets self.old) range) (members self.old)) ≤ vec_capacity out.old → IsOk result }
        // The live members stay, and the time is the latest.
        ensures members { IsPermutation (live_members V.expiration E.cmp time (members self.old)) (members self.new) }
        ensures latest { latest self.new ≡ Some time }
        // The buckets stay. They miss no segment that overlaps.
        ensures buckets { buckets self.new ≡ buckets self.old }
        ensures filters { Filters (buckets self.old) };

    /// Removes every value, and forgets the time of the last query.
    fn clear(&mut self)
        ensures empty { members self.new ≡ [] }
        ensures latest { latest self.new ≡ None }
        ensures buckets { buckets self.new ≡ buckets self.old };
}
