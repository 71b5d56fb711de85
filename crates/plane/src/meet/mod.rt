//! Which edges meet: those that share a point.

ghost use Rattle.std.specs.Prelude.{◌≡◌, ◌++◌, ◌<◌, ℕ, List, All, drop, length, IfSome, MatchOption, OnOk, OnErr, IfErr, IfOk};
ghost use Rattle.i_tree.specs.declared.Refusal.TheVariants.{OutOfMemory};
ghost use Rattle.plane.specs.Meet.Meetings.{AreMeetings, AreMeetingsBetween, MeetAt};

use crate::edge::Edge;
use crate::pairs::{Budget, first_pair, pairs_between, pairs_within_budget};
use by_columns::meetings_by_columns;
pub use exact::meet;
use i_tree::Refusal;
pub use kinds::{Meeting, has_point, how_they_meet};
use std::alloc::Allocator;

mod boxes;
mod by_columns;
mod common_ends;
mod exact;
mod kinds;

/// Appends each pair of places `(i, j)` whose edges meet, i below j, once. The order of the pairs is open.
///
/// Edges meet where they share a point, as `meet` says, and nothing is rounded. It is refused for want of memory alone,
/// and leaves `out` as it was then. The memory is that of `out`'s allocator.
///
/// It is a sweep over the boxes of the edges. Where this takes more tests than edges mostly need, as of long edges that lie
/// slanted beside each other, it goes by columns instead: so for n edges that meet in k pairs it takes O((n + k) log (n + k))
/// steps, whatever their shape.
pub fn meetings<A: Allocator + Copy>(
    edges: &[Edge],
    out: &mut Vec<(usize, usize), A>,
) -> Result<(), Refusal>
    ensures ok { OnOk result ((pairs : List (ℕ × ℕ))
        × (out.new.items ≡ out.old.items ++ pairs) × AreMeetings edges.now pairs) }
    ensures within { OnOk result (All (λ pair. (pair.0 < pair.1) × (pair.1 < length edges.now))
        (drop (length out.old.items) out.new.items)) }
    ensures err { OnErr result (out.new.items ≡ out.old.items) }
    ensures refused { IfErr result (λ cause. cause ≡ OutOfMemory) }
{
    if pairs_within_budget(edges, Budget::for_items(edges.len()), out)? {
        return Ok(());
    }
    append_by_columns(edges, out)
}

// As `meetings`, by columns.
fn append_by_columns<A: Allocator + Copy>(
    edges: &[Edge],
    out: &mut Vec<(usize, usize), A>,
) -> Result<(), Refusal>
    ensures ok { OnOk result ((pairs : List (ℕ × ℕ))
        × (out.new.items ≡ out.old.items ++ pairs) × AreMeetings edges.now pairs) }
    ensures within { OnOk result (All (λ pair. (pair.0 < pair.1) × (pair.1 < length edges.now))
        (drop (length out.old.items) out.new.items)) }
    ensures err { OnErr result (out.new.items ≡ out.old.items) }
    ensures refused { IfErr result (λ cause. cause ≡ OutOfMemory) }
{
    let pairs = meetings_by_columns(*out.allocator(), edges)?;
    out.extend_from_slice(&pairs)?;
    Ok(())
}

/// Appends each pair of places `(i, j)` where the edge at i of the first list meets that at j of the second one, once.
/// The order of the pairs is open.
///
/// It is refused for want of memory alone, and leaves `out` as it was then. The memory is that of `out`'s allocator.
pub fn meetings_between<A: Allocator + Copy>(
    edges: &[Edge],
    others: &[Edge],
    out: &mut Vec<(usize, usize), A>,
) -> Result<(), Refusal>
    ensures ok { OnOk result ((pairs : List (ℕ × ℕ))
        × (out.new.items ≡ out.old.items ++ pairs) × AreMeetingsBetween edges.now others.now pairs) }
    ensures within { OnOk result (All (λ pair. (pair.0 < length edges.now) × (pair.1 < length others.now))
        (drop (length out.old.items) out.new.items)) }
    ensures err { OnErr result (out.new.items ≡ out.old.items) }
    ensures refused { IfErr result (λ cause. cause ≡ OutOfMemory) }
{
    pairs_between(edges, others, out)
}

/// Some pair of places whose edges meet, the lesser place first, or none exactly where no two edges do. It is refused
/// for want of memory alone, that of the allocator.
///
/// The sweep of `meetings` stops at the first edge that meets others before it.
pub fn first_meeting<A: Allocator + Copy>(
    alloc: A,
    edges: &[Edge],
) -> Result<Option<(usize, usize)>, Refusal>
    ensures ok { IfOk result (λ found. MatchOption found ((i j : ℕ) → ¬ (MeetAt edges.now i j))
        (λ pair. MeetAt edges.now pair.0 pair.1)) }
    ensures within { IfOk result (λ found. IfSome found (λ pair. (pair.0 < pair.1) × (pair.1 < length edges.now))) }
    ensures refused { IfErr result (λ cause. cause ≡ OutOfMemory) }
{
    first_pair(alloc, edges)
}
