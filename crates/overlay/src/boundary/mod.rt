//! The boundary of what an operation makes of two sets of closed edges, as rings of whole points.

ghost use Rattle.std.specs.Prelude.{◌≡◌, ◌≤◌, [], List, IfErr, IfOk, OnOk, OnErr, drop, length, take};
ghost use Rattle.i_tree.specs.declared.Refusal.TheVariants.{OutOfMemory};
ghost use Rattle.i_tree.specs.Root.Handles.{HasAllHandles};
ghost use Rattle.plane.specs.declared.edge.Edge.{Edge};
ghost use Rattle.overlay.specs.Boundary.{AppendsBoundary, AreBroken};
ghost use Rattle.overlay.specs.Fill.Filled.{IsFilled};
ghost use Rattle.noding.specs.Windings.{IsClosed};

use crate::contours::contours_in_place;
use crate::fill::{Choice, fill_pieces};
use i_tree::Refusal;
use i_tree::status::exp::StatusCollection;
use pieces::{Standing, standing_pieces};
use plane::edge::Edge;
use plane::point::Point;
use plane::sweep_line::ActiveEdge;
use std::alloc::Allocator;

pub mod broken;
mod joined;
mod lines;
mod overlaps;
pub mod pieces;

/// Appends rings that bound what the operation makes of the inside of the subject and that of the clip to `points`, one after
/// another, and to `ring_ends` where each stops among these.
///
/// The first `count` of the edges are the subject's, and the others the clip's. Both are closed, as those of rings are; they may
/// cross, touch, lie along one another, and stand there more than once. They are broken where they meet, and moved only where they
/// must be (`standing_pieces`), which of the pieces bound the result is told by their winding numbers (`fill_pieces`), and these become
/// rings (`contours_in_place`).
///
/// The rings have the result on their left. None visits a point twice, and no two of their edges cross, or share more than an
/// end. They wind once around each point of the result, and not at all around any other, if each edge given isn't moved, or runs
/// along an axis, or isn't within half a unit, on both axes, of the point. Everywhere they wind as the result of the pieces, so
/// around no point more than once. Each of their points is an end of an edge given, or what two of these cross at, rounded. If there
/// are any rings, some edge of theirs isn't vertical.
///
/// It is refused where memory was refused, or the status refused an edge: for want of memory alone if it has handles for any
/// number. It leaves `points` and `ring_ends` as they were then. What the status holds is removed before and after, in every case.
/// The memory is that of `points` and `ring_ends`.
pub fn boundary<C, A>(
    edges: &[Edge],
    count: usize,
    choice: Choice,
    status: &mut C,
    points: &mut Vec<Point, A>,
    ring_ends: &mut Vec<usize, A>,
) -> Result<(), Refusal>
where
    C: StatusCollection<ActiveEdge, i64, ()>,
    A: Allocator + Copy,
    requires count { count ≤ length edges.now }
    requires closed { IsClosed (take count edges.now) }
    requires clip_closed { IsClosed (drop count edges.now) }
    ensures ok { OnOk result (AppendsBoundary choice.rule choice.operation (take count edges.now) (drop count edges.now)
        points.old.items points.new.items ring_ends.old.items ring_ends.new.items) }
    ensures err { OnErr result ((points.new.items ≡ points.old.items) × (ring_ends.new.items ≡ ring_ends.old.items)) }
    ensures refused { HasAllHandles C.has_handles → IfErr result (λ cause. cause ≡ OutOfMemory) }
    ensures empty { C.stored status.new ≡ [] }
{
    status.clear();
    let alloc = *points.allocator();
    let bounding = bounding_edges(alloc, edges, count, choice, status)?;
    contours_in_place(bounding, points, ring_ends)?;
    Ok(())
}

/// The edges of the boundary: those that the operation keeps of the pieces of subject and clip. The status is empty before
/// and after. It is refused as `boundary` is.
pub fn bounding_edges<C, A>(
    alloc: A,
    edges: &[Edge],
    count: usize,
    choice: Choice,
    status: &mut C,
) -> Result<Vec<Edge, A>, Refusal>
where
    C: StatusCollection<ActiveEdge, i64, ()>,
    A: Allocator + Copy,
    requires empty { C.stored status.old ≡ [] }
    requires count { count ≤ length edges.now }
    requires closed { IsClosed (take count edges.now) }
    requires clip_closed { IsClosed (drop count edges.now) }
    ensures filled { IfOk result (λ bounding. (broken broken_clip : List Edge)
        × AreBroken (take count edges.now) (drop count edges.now) broken broken_clip
        × IsFilled choice.rule choice.operation broken broken_clip bounding.items) }
    ensures refused { HasAllHandles C.has_handles → IfErr result (λ cause. cause ≡ OutOfMemory) }
    ensures empty { C.stored status.new ≡ [] }
{
    let Standing { pieces, are_sloped } = standing_pieces(alloc, edges, count)?;
    // Of vertical edges there are no pieces, but some are among those of the boundary.
    let mut bounding = Vec::with_capacity(alloc, pieces.capacity())?;
    fill_pieces(pieces, are_sloped, choice, status, &mut bounding)?;
    Ok(bounding)
}
