//! Overlay of polygons by the chords of their monotone chains, where that pays: the calls of the crate `overlay`.

ghost use Rattle.std.specs.Prelude.{◌≡◌, ◌↔◌, ◌⊎◌, [], List, IfErr, OnOk, OnErr, Err};
ghost use Rattle.i_tree.specs.declared.Refusal.TheVariants.{OutOfMemory};
ghost use Rattle.i_tree.specs.Root.Handles.{HasAllHandles};
ghost use Rattle.plane.specs.declared.point.Point.{Point};
ghost use Rattle.overlay.specs.declared.fill.rules.Operation.TheVariants.{Union};
ghost use Rattle.overlay.specs.Overlay.{IsOverlay};
ghost use Rattle.overlay.specs.Polygons.{Appends, AreAsBefore};
ghost use Rattle.overlay.specs.Rings.{HasEnds, edges_of};

use crate::boundary::boundary_along;
use crate::stretched::stretches_along;
use i_tree::Refusal;
use i_tree::status::exp::StatusCollection;
use overlay::boundary::boundary;
use overlay::call::{Bounding, overlay_by};
use overlay::fill::Choice;
use overlay::rings::{Operands, are_ends, real_edges_of};
use overlay::{FillRule, Operation, OverlayFault, Polygons, Rings};
use plane::point::Point;
use plane::sweep_line::{ActiveEdge, GrowingStatus};
use std::alloc::Allocator;

/// By the chords of stretches, where that pays, else by all edges.
#[derive(Clone, Copy, Drop)]
pub struct ByChains;

impl Bounding for ByChains {
    fn append_boundary<C, A>(
        &self,
        operands: Operands,
        choice: Choice,
        status: &mut C,
        points: &mut Vec<Point, A>,
        ends: &mut Vec<usize, A>,
    ) -> Result<(), Refusal>
    where
        C: StatusCollection<ActiveEdge, i64, ()>,
        A: Allocator + Copy,
    {
        let alloc = *points.allocator();
        if let Some(stretches) = stretches_along(alloc, operands.subject, operands.clip)? {
            return boundary_along(&stretches, choice, status, points, ends);
        }
        let (edges, count) = real_edges_of(alloc, operands.subject, operands.clip)?;
        boundary(&edges, count, choice, status, points, ends)
    }
}

/// Appends the polygons of what the operation makes of the inside of the subject and that of the clip. What these hold, which rings
/// are taken and what each error leaves is told once, at `overlay::overlay`; the clauses are the same.
///
/// It is faster where rings are long: edges along which x rises, or falls, and to which no others come are one edge to it, and in
/// the result all of their points stand again. `Lengths` comes where ends don't rise or go behind the points, and `Refused` where
/// memory was refused, and for no other cause. After any fault `out` is as it was.
pub fn overlay<A: Allocator + Copy>(
    subject: Rings,
    clip: Rings,
    rule: FillRule,
    operation: Operation,
    out: &mut Polygons<A>,
) -> Result<(), OverlayFault>
    ensures ok { OnOk result ((polygons : List (List (List Point)))
        × IsOverlay rule operation (edges_of subject.entry) (edges_of clip.entry) polygons
        × Appends polygons out.old out.new) }
    ensures err { OnErr result (AreAsBefore out.old out.new) }
    ensures lengths { (result ≡ Err OverlayFault.Lengths)
        ↔ ¬ (HasEnds subject.entry × HasEnds clip.entry) }
    ensures refused { IfErr result (λ fault. (fault ≡ OverlayFault.Lengths) ⊎ (fault ≡ OverlayFault.Refused OutOfMemory)) }
{
    if !are_ends(subject) || !are_ends(clip) {
        return Err(OverlayFault::Lengths);
    }
    let mut status = GrowingStatus::new(*out.points.allocator())?;
    overlay_over(subject, clip, rule, operation, &mut status, out)
}

/// As `overlay`, over a status of the caller's, which is emptied before and after in every case. `Refused` comes where memory was
/// refused, or the status refused an edge: for want of memory alone if it has handles for any number.
pub fn overlay_over<C, A>(
    subject: Rings,
    clip: Rings,
    rule: FillRule,
    operation: Operation,
    status: &mut C,
    out: &mut Polygons<A>,
) -> Result<(), OverlayFault>
where
    C: StatusCollection<ActiveEdge, i64, ()>,
    A: Allocator + Copy,
    ensures ok { OnOk result ((polygons : List (List (List Point)))
        × IsOverlay rule operation (edges_of subject.entry) (edges_of clip.entry) polygons
        × Appends polygons out.old out.new) }
    ensures err { OnErr result (AreAsBefore out.old out.new) }
    ensures lengths { (result ≡ Err OverlayFault.Lengths)
        ↔ ¬ (HasEnds subject.entry × HasEnds clip.entry) }
    ensures refused { HasAllHandles C.has_handles → IfErr result (λ fault.
        (fault ≡ OverlayFault.Lengths) ⊎ (fault ≡ OverlayFault.Refused OutOfMemory)) }
    ensures empty { C.stored status.new ≡ [] }
{
    let operands = Operands { subject, clip };
    let choice = Choice { rule, operation };
    overlay_by(&ByChains, operands, choice, status, out)
}

/// Appends the polygons of what is inside of the rings by the rule, which is the union of them with nothing. It is refused as
/// `overlay` is.
pub fn simplify<A: Allocator + Copy>(
    rings: Rings,
    rule: FillRule,
    out: &mut Polygons<A>,
) -> Result<(), OverlayFault>
    ensures ok { OnOk result ((polygons : List (List (List Point)))
        × IsOverlay rule Union (edges_of rings.entry) [] polygons
        × Appends polygons out.old out.new) }
    ensures err { OnErr result (AreAsBefore out.old out.new) }
    ensures lengths { (result ≡ Err OverlayFault.Lengths) ↔ ¬ (HasEnds rings.entry) }
    ensures refused { IfErr result (λ fault. (fault ≡ OverlayFault.Lengths) ⊎ (fault ≡ OverlayFault.Refused OutOfMemory)) }
{
    let nothing = Rings {
        points: &[],
        ends: &[],
    };
    overlay(rings, nothing, rule, Operation::Union, out)
}
