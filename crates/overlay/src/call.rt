//! Overlay of polygons, in one call.

ghost use Rattle.std.specs.Prelude.{◌≡◌, ◌↔◌, ◌⊎◌, [], List, IfErr, OnOk, OnErr, Err};
ghost use Rattle.i_tree.specs.declared.Refusal.TheVariants.{OutOfMemory};
ghost use Rattle.i_tree.specs.Root.Handles.{HasAllHandles};
ghost use Rattle.plane.specs.declared.point.Point.{Point};
ghost use Rattle.overlay.specs.declared.fill.rules.Operation.TheVariants.{Union};
ghost use Rattle.overlay.specs.Overlay.{IsOverlay};
ghost use Rattle.overlay.specs.Polygons.{Appends, AreAsBefore, AreExtended};
ghost use Rattle.overlay.specs.Boundary.{AppendsBoundary};
ghost use Rattle.overlay.specs.Rings.{HasEnds, edges_of, real_edges};

use crate::boundary::boundary;
use crate::fault::OverlayFault;
use crate::fill::{Choice, FillRule, Operation};
use crate::grouping::append_polygons;
use crate::rings::{Operands, Polygons, Rings, are_ends, real_edges_of};
use i_tree::Refusal;
use i_tree::status::exp::StatusCollection;
use plane::point::Point;
use plane::sweep_line::{ActiveEdge, GrowingStatus};
use std::alloc::Allocator;

/// Appends the polygons of what the operation makes of the inside of the subject and that of the clip.
///
/// The winding number of rings around a point, and the rule, say whether the point is inside of them. Any rings are taken:
/// such as cross, touch or lie along one another or themselves, run either way, and stand there more than once.
///
/// The polygons wind once around each point of the result, and not at all around any other, if each edge of the rings given isn't
/// moved, or runs along an axis, or isn't within half a unit, on both axes, of the point. An edge is moved only where it comes near
/// to what two edges cross at, a point with fractions, or near to what such an edge passes (`noding::node`). Where no two edges
/// cross at a point with fractions, none is, and the answer is exact at every point.
///
/// Everywhere they wind as the result of the pieces that the edges are broken into (`boundary::broken`), so around no point more than
/// once. Each of their points is an end of an edge given, or what two of these cross at, rounded. Their rings visit no point twice.
/// Points at which a ring goes straight on are left out; with these, edges of rings meet only at common ends, so that a corner may
/// touch the side of a ring.
///
/// Each ring has three points or more. The first ring of a polygon is its outer one, and runs counterclockwise; the others are its
/// holes, and run clockwise.
///
/// While few edges are active at once along the sweep they stand in a list, and once more are in a tree (`GrowingStatus`).
///
/// `Lengths` comes where the ends of subject or clip don't rise or go behind the points, and nothing else is done then.
/// `Refused` comes where memory was refused, and for no other cause. After any fault `out` is as it was. The memory is that of
/// `out`.
pub fn overlay<A: Allocator + Copy>(
    subject: Rings,
    clip: Rings,
    rule: FillRule,
    operation: Operation,
    out: &mut Polygons<A>,
) -> Result<(), OverlayFault>
    ensures ok { OnOk result ((polygons : List (List (List Point)))
        × IsOverlay rule operation (edges_of subject.entry) (edges_of clip.entry) polygons
        × Appends polygons out.old out.new) }
    ensures err { OnErr result (AreAsBefore out.old out.new) }
    ensures lengths { (result ≡ Err OverlayFault.Lengths)
        ↔ ¬ (HasEnds subject.entry × HasEnds clip.entry) }
    ensures refused { IfErr result (λ fault. (fault ≡ OverlayFault.Lengths) ⊎ (fault ≡ OverlayFault.Refused OutOfMemory)) }
{
    if !are_ends(subject) || !are_ends(clip) {
        return Err(OverlayFault::Lengths);
    }
    let mut status = GrowingStatus::new(*out.points.allocator())?;
    overlay_over(subject, clip, rule, operation, &mut status, out)
}

/// As `overlay`, over a status of the caller's. `Refused` comes where memory was refused, or the status refused an edge: for want
/// of memory alone if it has handles for any number. What the status holds is removed before and after, in every case.
pub fn overlay_over<C, A>(
    subject: Rings,
    clip: Rings,
    rule: FillRule,
    operation: Operation,
    status: &mut C,
    out: &mut Polygons<A>,
) -> Result<(), OverlayFault>
where
    C: StatusCollection<ActiveEdge, i64, ()>,
    A: Allocator + Copy,
    ensures ok { OnOk result ((polygons : List (List (List Point)))
        × IsOverlay rule operation (edges_of subject.entry) (edges_of clip.entry) polygons
        × Appends polygons out.old out.new) }
    ensures err { OnErr result (AreAsBefore out.old out.new) }
    ensures lengths { (result ≡ Err OverlayFault.Lengths)
        ↔ ¬ (HasEnds subject.entry × HasEnds clip.entry) }
    ensures refused { HasAllHandles C.has_handles → IfErr result (λ fault.
        (fault ≡ OverlayFault.Lengths) ⊎ (fault ≡ OverlayFault.Refused OutOfMemory)) }
    ensures empty { C.stored status.new ≡ [] }
{
    let operands = Operands { subject, clip };
    let choice = Choice { rule, operation };
    overlay_by(&ByEdges, operands, choice, status, out)
}

/// How rings are found that bound a result. `ByEdges` is one way; `ByChains` of the crate `monotone_chains` is another, which is
/// faster where rings are long.
pub trait Bounding {
    /// Appends rings that bound what the operation makes of subject and clip to `points`, and to `ends` where each stops. It is
    /// refused where memory was refused, or the status refused an edge: for want of memory alone if it has handles for any number.
    fn append_boundary<C, A>(
        &self,
        operands: Operands,
        choice: Choice,
        status: &mut C,
        points: &mut Vec<Point, A>,
        ends: &mut Vec<usize, A>,
    ) -> Result<(), Refusal>
    where
        C: StatusCollection<ActiveEdge, i64, ()>,
        A: Allocator + Copy,
        requires ends { HasEnds operands.subject }
        requires clip_ends { HasEnds operands.clip }
        ensures ok { OnOk result (AppendsBoundary choice.rule choice.operation
            (real_edges (edges_of operands.entry.subject)) (real_edges (edges_of operands.entry.clip))
            points.old.items points.new.items ends.old.items ends.new.items) }
        ensures refused { HasAllHandles C.has_handles → IfErr result (λ cause. cause ≡ OutOfMemory) }
        ensures empty { OnOk result (C.stored status.new ≡ []) };
}

/// By all edges of the rings.
#[derive(Clone, Copy, Drop)]
pub struct ByEdges;

impl Bounding for ByEdges {
    fn append_boundary<C, A>(
        &self,
        operands: Operands,
        choice: Choice,
        status: &mut C,
        points: &mut Vec<Point, A>,
        ends: &mut Vec<usize, A>,
    ) -> Result<(), Refusal>
    where
        C: StatusCollection<ActiveEdge, i64, ()>,
        A: Allocator + Copy,
    {
        let (edges, count) = real_edges_of(*points.allocator(), operands.subject, operands.clip)?;
        boundary(&edges, count, choice, status, points, ends)
    }
}

/// As `overlay_over`, by another way to find the rings that bound the result.
pub fn overlay_by<B, C, A>(
    bounding: &B,
    operands: Operands,
    choice: Choice,
    status: &mut C,
    out: &mut Polygons<A>,
) -> Result<(), OverlayFault>
where
    B: Bounding,
    C: StatusCollection<ActiveEdge, i64, ()>,
    A: Allocator + Copy,
    ensures ok { OnOk result ((polygons : List (List (List Point)))
        × IsOverlay choice.rule choice.operation (edges_of operands.entry.subject) (edges_of operands.entry.clip) polygons
        × Appends polygons out.old out.new) }
    ensures err { OnErr result (AreAsBefore out.old out.new) }
    ensures lengths { (result ≡ Err OverlayFault.Lengths)
        ↔ ¬ (HasEnds operands.entry.subject × HasEnds operands.entry.clip) }
    ensures refused { HasAllHandles C.has_handles → IfErr result (λ fault.
        (fault ≡ OverlayFault.Lengths) ⊎ (fault ≡ OverlayFault.Refused OutOfMemory)) }
    ensures empty { C.stored status.new ≡ [] }
{
    status.clear();
    if !are_ends(operands.subject) || !are_ends(operands.clip) {
        return Err(OverlayFault::Lengths);
    }
    let points = out.points.len();
    let rings = out.ring_ends.len();
    let polygons = out.polygon_ends.len();
    let outcome = append_overlay(bounding, operands, choice, status, out);
    status.clear();
    if let Err(cause) = outcome {
        out.points.truncate(points);
        out.ring_ends.truncate(rings);
        out.polygon_ends.truncate(polygons);
        return Err(OverlayFault::Refused(cause));
    }
    Ok(())
}

// As `overlay_by`, from right ends on. Where it is refused, it may have appended something.
fn append_overlay<B, C, A>(
    bounding: &B,
    operands: Operands,
    choice: Choice,
    status: &mut C,
    out: &mut Polygons<A>,
) -> Result<(), Refusal>
where
    B: Bounding,
    C: StatusCollection<ActiveEdge, i64, ()>,
    A: Allocator + Copy,
    requires ends { HasEnds operands.subject }
    requires clip_ends { HasEnds operands.clip }
    ensures ok { OnOk result ((polygons : List (List (List Point)))
        × IsOverlay choice.rule choice.operation (edges_of operands.entry.subject) (edges_of operands.entry.clip) polygons
        × Appends polygons out.old out.new) }
    ensures err { OnErr result (AreExtended out.old out.new) }
    ensures refused { HasAllHandles C.has_handles → IfErr result (λ cause. cause ≡ OutOfMemory) }
{
    let alloc = *out.points.allocator();
    let mut points = Vec::new(alloc);
    let mut ends = Vec::new(alloc);
    bounding.append_boundary(operands, choice, status, &mut points, &mut ends)?;
    append_polygons(status, &points, &ends, out)
}

/// The polygons of what is inside of the rings by the rule: the union of them with nothing. So rings that cross themselves
/// become valid polygons.
///
/// It is refused as `overlay` is.
pub fn simplify<A: Allocator + Copy>(
    rings: Rings,
    rule: FillRule,
    out: &mut Polygons<A>,
) -> Result<(), OverlayFault>
    ensures ok { OnOk result ((polygons : List (List (List Point)))
        × IsOverlay rule Union (edges_of rings.entry) [] polygons
        × Appends polygons out.old out.new) }
    ensures err { OnErr result (AreAsBefore out.old out.new) }
    ensures lengths { (result ≡ Err OverlayFault.Lengths) ↔ ¬ (HasEnds rings.entry) }
    ensures refused { IfErr result (λ fault. (fault ≡ OverlayFault.Lengths) ⊎ (fault ≡ OverlayFault.Refused OutOfMemory)) }
{
    let nothing = Rings {
        points: &[],
        ends: &[],
    };
    overlay(rings, nothing, rule, Operation::Union, out)
}
