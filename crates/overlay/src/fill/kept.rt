//! The sweep of a fill: pieces begin in turn, and those that bound the result are kept.

ghost use Rattle.std.specs.Prelude.{◌≡◌, ◌≢◌, ◌++◌, ◌+◌, ◌≤◌, ◌<◌, ◌≤ℤ◌, ◌<ℤ◌, ℤ, [], All, Option, length, IfOk, IsOk, IfErr, OnOk, OnErr};
ghost use Rattle.std.specs.declared.cmp.Ordering.TheVariants.{Greater};
ghost use Rattle.i_tree.specs.declared.Refusal.TheVariants.{OutOfMemory};
ghost use Rattle.i_tree.specs.Root.Along.{IsLast};
ghost use Rattle.i_tree.specs.Root.Causes.{RefusedFor};
ghost use Rattle.i_tree.specs.Root.Handles.{HasHandlesFor};
ghost use Rattle.plane.specs.SweepLine.Active.{Entry, cmp_active, live_entries};
ghost use Rattle.plane.specs.SweepLine.Line.{BeganBefore, IsSortedAt, JoinsAt, NoneCrossAmong};
ghost use Rattle.overlay.specs.Fill.Rules.{is_result};
ghost use Rattle.overlay.specs.Fill.Sweep.{AreFillPieces, above_or, kept_of};
ghost use Rattle.plane.specs.Lists.{Extends};

use super::counts::{Counts, is_result, keep, plus};
use super::ends::ends_in_order;
use super::few::append_by_comparing;
use super::handed::{append_by_handing, are_few_looks};
use super::pieces::Piece;
use super::rules::Choice;
use super::sampled::may_pay;
use i_tree::Refusal;
use i_tree::status::exp::StatusCollection;
use plane::edge::Edge;
use plane::sweep_line::{ActiveEdge, insert_beginning};
use std::alloc::Allocator;

// With no more pieces than these, each is compared with those before it, which is quicker than a status even where all go on.
const FEW_PIECES: usize = 192;

/// Appends the edges kept of these pieces: those that have the result on one of their sides alone, so that it is on the left.
///
/// The pieces begin in turn. It is refused for want of memory alone where the status has room or handles for as many as there are
/// pieces.
pub fn append_kept<C, A>(
    status: &mut C,
    pieces: &[Piece],
    choice: Choice,
    out: &mut Vec<Edge, A>,
) -> Result<(), Refusal>
where
    C: StatusCollection<ActiveEdge, i64, ()>,
    A: Allocator + Copy,
    requires empty { C.stored status.old ≡ [] }
    requires pieces { AreFillPieces pieces.now }
    ensures ok { OnOk result (out.new.items ≡ out.old.items
        ++ kept_of (λ counts. is_result choice.rule choice.operation counts.subject counts.clip) pieces.now pieces.now) }
    ensures err { OnErr result (Extends out.old.items out.new.items) }
    ensures refused { length pieces.now ≤ C.room status.old → IfErr result (λ cause. cause ≡ OutOfMemory) }
    ensures handles { HasHandlesFor C.has_handles (length pieces.now) → IfErr result (λ cause. cause ≡ OutOfMemory) }
{
    if pieces.len() <= FEW_PIECES {
        append_by_comparing(pieces, choice, out)?;
        return Ok(());
    }
    if may_pay(pieces) {
        let ends = ends_in_order(*out.allocator(), pieces)?;
        if are_few_looks(pieces, &ends) {
            append_by_handing(pieces, &ends, choice, out)?;
            return Ok(());
        }
    }
    append_by_status(status, pieces, choice, out)
}

// As `append_kept`, with the status.
//
// What is below a piece is what is above the one before it in the status, and `above` has that by its place.
fn append_by_status<C, A>(
    status: &mut C,
    pieces: &[Piece],
    choice: Choice,
    out: &mut Vec<Edge, A>,
) -> Result<(), Refusal>
where
    C: StatusCollection<ActiveEdge, i64, ()>,
    A: Allocator + Copy,
    requires empty { C.stored status.old ≡ [] }
    requires pieces { AreFillPieces pieces.now }
    ensures ok { OnOk result (out.new.items ≡ out.old.items
        ++ kept_of (λ counts. is_result choice.rule choice.operation counts.subject counts.clip) pieces.now pieces.now) }
    ensures err { OnErr result (Extends out.old.items out.new.items) }
    ensures refused { length pieces.now ≤ C.room status.old → IfErr result (λ cause. cause ≡ OutOfMemory) }
    ensures handles { HasHandlesFor C.has_handles (length pieces.now) → IfErr result (λ cause. cause ≡ OutOfMemory) }
{
    let mut above = Vec::with_capacity(*out.allocator(), pieces.len())?;
    // The pieces so far have begun, the status has those that haven't ended, and `above` the counts above each.
    for place in 0..pieces.len() {
        let piece = pieces[place];
        let edge = piece.edge;
        let below = begin(status, ActiveEdge { edge, place }, &above)?;
        let counts = plus(below, piece);
        above.push(counts)?;
        let is_below = is_result(choice, below);
        let is_above = is_result(choice, counts);
        keep(out, edge, is_below, is_above)?;
    }
    Ok(())
}

// Puts an edge that begins into the status, and tells what is just below it: what is above the last edge below, or nothing.
// It is refused for want of memory alone while there are handles.
fn begin<C: StatusCollection<ActiveEdge, i64, ()>>(
    status: &mut C,
    beginning: ActiveEdge,
    above: &[Counts],
) -> Result<Counts, Refusal>
    requires right { beginning.edge.x0 <ℤ beginning.edge.x1 }
    requires sorted { IsSortedAt beginning.edge.x0 (live_entries beginning.edge.x0 (C.stored status.old)) }
    requires last { All (λ entry. BeganBefore entry.0 beginning)
        (live_entries beginning.edge.x0 (C.stored status.old)) }
    requires places { All (λ entry. entry.0.place < length above.now)
        (live_entries beginning.edge.x0 (C.stored status.old)) }
    ensures below { IfOk result (λ counts. (found : Option Entry)
        × IsLast (λ entry. cmp_active entry.0 beginning ≢ Greater)
        (live_entries beginning.edge.x0 (C.stored status.old)) found
        × (counts ≡ above_or above.now found)) }
    ensures joins { OnOk result (JoinsAt beginning.edge.x0 (beginning, tt) (C.stored status.old)
        (C.stored status.new)) }
    ensures sorted { OnOk result ((later : ℤ) → beginning.edge.x0 ≤ℤ later
        → NoneCrossAmong (live_entries beginning.edge.x0 (C.stored status.new))
        → IsSortedAt later (live_entries later (C.stored status.new))) }
    ensures with_room { length (C.stored status.old) < C.room status.old → IsOk result }
    ensures refused { C.has_handles (length (C.stored status.old) + 1) → RefusedFor OutOfMemory result }
    ensures room { C.room status.old ≤ C.room status.new }
{
    let (before, _) = insert_beginning(status, beginning)?;
    match before {
        Some((active, _)) => Ok(above[active.place]),
        None => Ok(Counts {
            subject: 0,
            clip: 0,
        }),
    }
}
