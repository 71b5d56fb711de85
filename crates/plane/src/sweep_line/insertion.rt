//! How an edge joins the active ones where it begins.

ghost use Rattle.std.specs.Prelude.{◌≡◌, ◌≤◌, ◌<◌, ◌+◌, ◌<ℤ◌, ◌≤ℤ◌, ℤ, All, length, IsOk, IfOk, OnOk, OnErr};
ghost use Rattle.std.specs.declared.cmp.Ordering.{Ordering};
ghost use Rattle.i_tree.specs.declared.Refusal.TheVariants.{OutOfMemory};
ghost use Rattle.i_tree.specs.Root.Along.{AreNeighbours};
ghost use Rattle.i_tree.specs.Root.Causes.{RefusedFor};
ghost use Rattle.plane.specs.declared.sweep_line.active.ActiveEdge.{ActiveEdge};
ghost use Rattle.plane.specs.SweepLine.Active.{cmp_active, live_entries};
ghost use Rattle.plane.specs.SweepLine.Line.{BeganBefore, IsSortedAt, JoinsAt, NoneCrossAmong};

use super::active::{ActiveEdge, compare_active};
use i_tree::Refusal;
use i_tree::status::exp::StatusCollection;
use std::cmp::Ordering;

/// The last active edge below a place along the line, and the first above it, where there are such.
pub type Neighbours = (Option<(ActiveEdge, ())>, Option<(ActiveEdge, ())>);

/// Puts an edge that begins among those that are active then, and tells the two between which it stands: the last below it and
/// the first above it, at its beginning, and where they begin together just behind it.
///
/// The status holds what has begun. Each of it that is live at the edge's beginning began before it, in the order of x and
/// then of place, and these are sorted by height, there and just behind. With the new one they are so too, and at each later
/// x, as long as no two of them cross (`sorted`). Expired edges may go. It is refused where the status gets no room for
/// the edge, never while fewer are stored than there is room for, and for want of memory alone while there are handles; then what
/// is stored stays as it was. There is no less room than before, whatever the answer.
#[inline(always)]
pub fn insert_beginning<C: StatusCollection<ActiveEdge, i64, ()>>(
    status: &mut C,
    beginning: ActiveEdge,
) -> Result<Neighbours, Refusal>
    requires right { beginning.edge.x0 <ℤ beginning.edge.x1 }
    requires sorted { IsSortedAt beginning.edge.x0 (live_entries beginning.edge.x0 (C.stored status.old)) }
    requires last { All (λ entry. BeganBefore entry.0 beginning)
        (live_entries beginning.edge.x0 (C.stored status.old)) }
    ensures neighbours { IfOk result (AreNeighbours (λ other. cmp_active other beginning)
        (live_entries beginning.edge.x0 (C.stored status.old))) }
    ensures ok { OnOk result (JoinsAt beginning.edge.x0 (beginning, tt) (C.stored status.old) (C.stored status.new)) }
    ensures sorted { OnOk result ((later : ℤ) → beginning.edge.x0 ≤ℤ later
        → NoneCrossAmong (live_entries beginning.edge.x0 (C.stored status.new))
        → IsSortedAt later (live_entries later (C.stored status.new))) }
    ensures err { OnErr result (C.stored status.new ≡ C.stored status.old) }
    ensures with_room { length (C.stored status.old) < C.room status.old → IsOk result }
    ensures refused { C.has_handles (length (C.stored status.old) + 1) → RefusedFor OutOfMemory result }
    ensures room { C.room status.old ≤ C.room status.new }
{
    insert_where(
        status,
        beginning,
        |other: ActiveEdge| -> Ordering
            requires right { other.edge.x0 <ℤ other.edge.x1 }
            requires beginning_right { beginning.edge.x0 <ℤ beginning.edge.x1 }
            ensures { result ≡ cmp_active other beginning }
        { compare_active(other, beginning) },
    )
}

/// As `insert_beginning`, which it is for, by a closure that answers how an active edge stands to the one that begins. The
/// machine has code of its own for each closure, so a sweep that passes its own has the descent among its own code.
#[inline(always)]
pub(crate) fn insert_where<C: StatusCollection<ActiveEdge, i64, ()>, F: Fn(ActiveEdge) -> Ordering>(
    status: &mut C,
    beginning: ActiveEdge,
    stands: F,
) -> Result<Neighbours, Refusal>
    requires right { beginning.edge.x0 <ℤ beginning.edge.x1 }
    requires sorted { IsSortedAt beginning.edge.x0 (live_entries beginning.edge.x0 (C.stored status.old)) }
    requires last { All (λ entry. BeganBefore entry.0 beginning)
        (live_entries beginning.edge.x0 (C.stored status.old)) }
    requires asked { All (λ entry. F.pre stands entry.0)
        (live_entries beginning.edge.x0 (C.stored status.old)) }
    requires answers { (other : ActiveEdge) (answer : Ordering) → F.post stands other answer
        → answer ≡ cmp_active other beginning }
    ensures neighbours { IfOk result (AreNeighbours (λ other. cmp_active other beginning)
        (live_entries beginning.edge.x0 (C.stored status.old))) }
    ensures ok { OnOk result (JoinsAt beginning.edge.x0 (beginning, tt) (C.stored status.old) (C.stored status.new)) }
    ensures sorted { OnOk result ((later : ℤ) → beginning.edge.x0 ≤ℤ later
        → NoneCrossAmong (live_entries beginning.edge.x0 (C.stored status.new))
        → IsSortedAt later (live_entries later (C.stored status.new))) }
    ensures err { OnErr result (C.stored status.new ≡ C.stored status.old) }
    ensures with_room { length (C.stored status.old) < C.room status.old → IsOk result }
    ensures refused { C.has_handles (length (C.stored status.old) + 1) → RefusedFor OutOfMemory result }
    ensures room { C.room status.old ≤ C.room status.new }
{
    let x = beginning.edge.x0 as i64;
    let Some(found) = status.insert_between(x, stands, beginning, ())? else {
        // None of the others is Equal to it, so that it has joined.
        return Ok((None, None));
    };
    Ok(found)
}
