//! Which edges bound what is inside: the fill of closed edges that meet only at common ends.

ghost use Rattle.std.specs.Prelude.{◌≡◌, ◌++◌, ◌+◌, ◌≤◌, [], List, length, true, IfErr, OnOk, OnErr};
ghost use Rattle.i_tree.specs.declared.Refusal.TheVariants.{OutOfMemory};
ghost use Rattle.i_tree.specs.Root.Handles.{HasHandlesFor};
ghost use Rattle.plane.specs.declared.edge.Edge.{Edge};
ghost use Rattle.overlay.specs.Fill.Filled.{AreNoded, AppendsFilled, IsFilled};
ghost use Rattle.overlay.specs.Fill.Turned.{AreSloped, AreUnjoined};
ghost use Rattle.plane.specs.Lists.{Extends};
ghost use Rattle.noding.specs.Windings.{IsClosed};

use i_tree::Refusal;
use i_tree::status::exp::StatusCollection;
use kept::append_kept;
use pieces::{Piece, join_in_order, turned_pieces};
use plane::edge::Edge;
use plane::sweep_line::ActiveEdge;
pub use rules::{Choice, FillRule, Operation};
use std::alloc::Allocator;
use verticals::append_verticals;

mod counts;
mod ends;
mod few;
mod handed;
mod kept;
pub mod pieces;
pub mod rules;
mod sampled;
mod verticals;

/// Appends to `out` the edges that bound what the operation makes of the inside of the subject and that of the clip.
///
/// The winding number of edges around a point is the number of those under it that go rightwards, less those that go leftwards;
/// the rule says which points are inside by it. The edges have to be closed, as those of rings are, and noded: each point of two
/// of them is an end of both, or the two have the same ends. The pieces that `node` makes of closed edges are both.
///
/// The edges appended are closed and noded too, and no two have the same ends. They wind once around each point of the result,
/// and not at all around any other: the result is on the left of each. One that isn't vertical is an edge of the subject or of
/// the clip, or such an edge from its end to its start. A vertical one goes from an end of these to the next one in its column.
///
/// It is refused where memory or the status has no room, and leaves `out` as it was then. A status that has room for as many as
/// there are edges refuses none: then it is for want of memory alone. So it is where the status has handles for as many. What the
/// status holds is removed before and after, in every case. The memory is that of `out`.
///
/// For n edges it compares O(n log n) times, and the status is asked once for each two ends between which edges go. Where these are
/// few, each is compared with those that began before it, and where most edges begin at ends of others, what is below them is what
/// was below these: the status isn't asked then. The counts along a sweep line are those of Weiler and Atherton, and of Vatti; the
/// sweep is our own.
pub fn fill<C, A>(
    subject: &[Edge],
    clip: &[Edge],
    rule: FillRule,
    operation: Operation,
    status: &mut C,
    out: &mut Vec<Edge, A>,
) -> Result<(), Refusal>
where
    C: StatusCollection<ActiveEdge, i64, ()>,
    A: Allocator + Copy,
    requires closed { IsClosed subject.now }
    requires clip_closed { IsClosed clip.now }
    requires noded { AreNoded (subject.now ++ clip.now) }
    ensures ok { OnOk result ((edges : List Edge) × (out.new.items ≡ out.old.items ++ edges)
        × IsFilled rule operation subject.now clip.now edges) }
    ensures err { OnErr result (out.new.items ≡ out.old.items) }
    ensures refused { length subject.now + length clip.now ≤ C.room status.old
        → IfErr result (λ cause. cause ≡ OutOfMemory) }
    ensures handles { HasHandlesFor C.has_handles (length subject.now + length clip.now)
        → IfErr result (λ cause. cause ≡ OutOfMemory) }
    ensures empty { C.stored status.new ≡ [] }
{
    status.clear();
    let pieces = turned_pieces(*out.allocator(), subject, clip)?;
    // There is a piece of each edge that isn't vertical.
    let are_sloped = pieces.len() == subject.len() + clip.len();
    fill_pieces(pieces, are_sloped, Choice { rule, operation }, status, out)
}

/// As `fill`, of the pieces of subject and clip in a list that is no longer needed: they are sorted and joined in it. So
/// `boundary` fills what `standing_pieces` made. It is told whether it is known that no edge of subject or clip is vertical: then
/// the edges kept are closed already, and no vertical ones are looked for.
pub fn fill_pieces<C, A>(
    pieces: Vec<Piece, A>,
    are_sloped: bool,
    choice: Choice,
    status: &mut C,
    out: &mut Vec<Edge, A>,
) -> Result<(), Refusal>
where
    C: StatusCollection<ActiveEdge, i64, ()>,
    A: Allocator + Copy,
    requires { (subject clip : List Edge) × AreUnjoined subject clip pieces.items
        × (are_sloped ≡ true → AreSloped subject × AreSloped clip) }
    ensures ok { (subject clip : List Edge) → AreUnjoined subject clip pieces.items
        → OnOk result (AppendsFilled choice subject clip out.old.items out.new.items) }
    ensures err { OnErr result (out.new.items ≡ out.old.items) }
    ensures refused { length pieces.items ≤ C.room status.old → IfErr result (λ cause. cause ≡ OutOfMemory) }
    ensures handles { HasHandlesFor C.has_handles (length pieces.items) → IfErr result (λ cause. cause ≡ OutOfMemory) }
    ensures empty { C.stored status.new ≡ [] }
{
    status.clear();
    let before = out.len();
    let outcome = append_filled(pieces, are_sloped, choice, status, out);
    status.clear();
    if outcome.is_err() {
        out.truncate(before);
    }
    outcome
}

// As `fill_pieces`, from an empty status on, which may hold something at the end. Where it is refused, it may have appended
// something.
fn append_filled<C, A>(
    mut pieces: Vec<Piece, A>,
    are_sloped: bool,
    choice: Choice,
    status: &mut C,
    out: &mut Vec<Edge, A>,
) -> Result<(), Refusal>
where
    C: StatusCollection<ActiveEdge, i64, ()>,
    A: Allocator + Copy,
    requires empty { C.stored status.old ≡ [] }
    requires unjoined { (subject clip : List Edge) × AreUnjoined subject clip pieces.items
        × (are_sloped ≡ true → AreSloped subject × AreSloped clip) }
    ensures ok { (subject clip : List Edge) → AreUnjoined subject clip pieces.items
        → OnOk result (AppendsFilled choice subject clip out.old.items out.new.items) }
    ensures err { OnErr result (Extends out.old.items out.new.items) }
    ensures refused { length pieces.items ≤ C.room status.old → IfErr result (λ cause. cause ≡ OutOfMemory) }
    ensures handles { HasHandlesFor C.has_handles (length pieces.items) → IfErr result (λ cause. cause ≡ OutOfMemory) }
{
    let first = out.len();
    join_in_order(&mut pieces)?;
    append_kept(status, &pieces, choice, out)?;
    if !are_sloped {
        append_verticals(out, first)?;
    }
    Ok(())
}
