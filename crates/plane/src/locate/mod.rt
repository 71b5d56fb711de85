//! Which edge lies straight below each point, and which edges cross.

ghost use Rattle.std.specs.Prelude.{◌≡◌, ◌≤◌, ◌++◌, [], ℕ, List, Option, length, OnOk, OnErr};
ghost use Rattle.std.specs.List.{AllZip};
ghost use Rattle.i_tree.specs.declared.Refusal.{Refusal};
ghost use Rattle.i_tree.specs.declared.Refusal.TheVariants.{OutOfMemory};
ghost use Rattle.i_tree.specs.Root.Handles.{HasHandlesFor};
ghost use Rattle.plane.specs.Locate.Answers.{IsPlaceBelow};
ghost use Rattle.plane.specs.SweepLine.Crossings.{IsCrossing, NoneCross};

use crate::edge::Edge;
pub use crate::point::Point;
pub use crate::sweep_line::{ActiveEdge, cross};
use events::events_of;
pub use fault::LocateFault;
use i_tree::status::exp::StatusCollection;
use std::alloc::Allocator;
use sweep::serve_all;

pub(crate) mod events;
pub mod fault;
mod read_ahead;
mod sweep;

/// Appends to `out`, for each of the points in order, the place of the edge straight below it, or `None` where there is none.
///
/// An edge covers the x's from its lesser end up to its greater, which it doesn't cover: where one edge of a chain ends and the
/// next begins, one of them covers the x. A vertical edge or a point covers nothing. An edge is under a point where it covers
/// the point's x at a height that is at most the point's, and straight below it where no edge under it is higher there. Of
/// edges that are as high there, it is the one that is highest just right of it; of edges along one line, which one is told is
/// open. Nothing is rounded.
///
/// Where two edges cross, as `cross` says, the answer is `Cross`, which tells the places of two that do, the lesser first.
/// `Refused` comes where memory for the sweep was refused, or where the status refused an edge, whose cause it tells; it may
/// come where edges cross, too. A status that has room for as many as there are edges refuses none: then the cause is always
/// `OutOfMemory`. So it is where the status has handles for as many as there are edges, as a `GrowingStatus` and a `StatusList`
/// always have. After any fault `out` is as it was. What the status holds is removed before and after the sweep, in every
/// case. The memory is that of `out`.
///
/// For e edges and p points it compares O((e + p) log (e + p)) times beside the calls of the status, which are at most two for
/// each edge and one for each point. The sweep is our own, and not of the Rust crate. It is the textbook's sweep line after
/// Shamos and Hoey, which checks edges where they become neighbours along the line, and stops at the first two that cross.
pub fn locate<C, A>(
    status: &mut C,
    edges: &[Edge],
    points: &[Point],
    out: &mut Vec<Option<usize>, A>,
) -> Result<(), LocateFault>
where
    C: StatusCollection<ActiveEdge, i64, ()>,
    A: Allocator + Copy,
    ensures ok { OnOk result (
        NoneCross edges.now
        × (answers : List (Option ℕ)) × (out.new.items ≡ out.old.items ++ answers)
        × AllZip (IsPlaceBelow edges.now) points.now answers) }
    ensures crossing { (i j : ℕ) → result ≡ Err (LocateFault.Cross i j) → IsCrossing edges.now i j }
    ensures err { OnErr result (out.new.items ≡ out.old.items) }
    ensures refused { length edges.now ≤ C.room status.old → (cause : Refusal) →
        result ≡ Err (LocateFault.Refused cause) → cause ≡ OutOfMemory }
    ensures handles { HasHandlesFor C.has_handles (length edges.now) → (cause : Refusal) →
        result ≡ Err (LocateFault.Refused cause) → cause ≡ OutOfMemory }
    ensures empty { C.stored status.new ≡ [] }
{
    status.clear();
    let outcome = append_answers(status, edges, points, out);
    status.clear();
    outcome
}

/// As `locate`, from an empty status on, and leaves in the status what it may.
fn append_answers<C, A>(
    status: &mut C,
    edges: &[Edge],
    points: &[Point],
    out: &mut Vec<Option<usize>, A>,
) -> Result<(), LocateFault>
where
    C: StatusCollection<ActiveEdge, i64, ()>,
    A: Allocator + Copy,
    requires { C.stored status.old ≡ [] }
    ensures ok { OnOk result (
        NoneCross edges.now
        × (answers : List (Option ℕ)) × (out.new.items ≡ out.old.items ++ answers)
        × AllZip (IsPlaceBelow edges.now) points.now answers) }
    ensures crossing { (i j : ℕ) → result ≡ Err (LocateFault.Cross i j) → IsCrossing edges.now i j }
    ensures err { OnErr result (out.new.items ≡ out.old.items) }
    ensures refused { length edges.now ≤ C.room status.old → (cause : Refusal) →
        result ≡ Err (LocateFault.Refused cause) → cause ≡ OutOfMemory }
    ensures handles { HasHandlesFor C.has_handles (length edges.now) → (cause : Refusal) →
        result ≡ Err (LocateFault.Refused cause) → cause ≡ OutOfMemory }
{
    let alloc = *out.allocator();
    let events = events_of(alloc, edges, points)?;
    let first = out.len();
    out.resize(first + points.len(), None)?;
    if let Err(fault) = serve_all(alloc, status, edges, points, &events, &mut out[first..]) {
        out.truncate(first);
        return Err(fault);
    }
    Ok(())
}
