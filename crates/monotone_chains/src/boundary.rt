//! The boundary of what an operation makes of edges that are cut into stretches.

ghost use Rattle.std.specs.Prelude.{◌≡◌, [], List, IfErr, OnOk};
ghost use Rattle.i_tree.specs.declared.Refusal.TheVariants.{OutOfMemory};
ghost use Rattle.i_tree.specs.Root.Handles.{HasAllHandles};
ghost use Rattle.plane.specs.declared.edge.Edge.{Edge};
ghost use Rattle.noding.specs.Windings.{IsClosed};
ghost use Rattle.overlay.specs.Boundary.{AppendsBoundary};
ghost use Rattle.monotone_chains.specs.Stretches.Cut.{AreCut};

use crate::stretches::Stretches;
use crate::stretches::chords::chords_of;
use crate::stretches::widening::append_widened;
use i_tree::Refusal;
use i_tree::status::exp::StatusCollection;
use overlay::boundary::bounding_edges;
use overlay::contours::contours_in_place;
use overlay::fill::Choice;
use plane::point::Point;
use plane::sweep_line::ActiveEdge;
use std::alloc::Allocator;

/// Appends rings that bound what the operation makes of the edges of subject and clip, and where each stops: as `boundary` of the crate
/// `overlay` does, of edges that are cut into stretches, by the chords of these. One edge stands for all of a stretch, from its first
/// point to its last. In the rings the points of the stretches stand in place of them.
///
/// It is refused where memory was refused, or the status refused an edge: for want of memory alone if it has handles for any
/// number. Then something may have been appended. What the status holds is removed before and after.
pub fn boundary_along<C, A>(
    stretches: &Stretches<A>,
    choice: Choice,
    status: &mut C,
    points: &mut Vec<Point, A>,
    ring_ends: &mut Vec<usize, A>,
) -> Result<(), Refusal>
where
    C: StatusCollection<ActiveEdge, i64, ()>,
    A: Allocator + Copy,
    requires cut { (subject clip : List Edge) × IsClosed subject × IsClosed clip
        × AreCut subject clip stretches.now.parts.items stretches.now.count }
    ensures ok { (subject clip : List Edge) → AreCut subject clip stretches.now.parts.items stretches.now.count
        → OnOk result (AppendsBoundary choice.rule choice.operation subject clip
        points.old.items points.new.items ring_ends.old.items ring_ends.new.items) }
    ensures refused { HasAllHandles C.has_handles → IfErr result (λ cause. cause ≡ OutOfMemory) }
    ensures empty { C.stored status.new ≡ [] }
{
    status.clear();
    let alloc = *points.allocator();
    let parts = &stretches.parts;
    let chords = chords_of(alloc, parts)?;
    let bounding = bounding_edges(alloc, &chords, stretches.count, choice, status)?;
    let mut rings = Vec::with_capacity(alloc, bounding.len())?;
    let mut ends = Vec::new(alloc);
    contours_in_place(bounding, &mut rings, &mut ends)?;
    append_widened(parts, &rings, &ends, points, ring_ends)?;
    Ok(())
}
