//! Overlay within a window.

ghost use Rattle.std.specs.Prelude.{◌≡◌, ◌≢◌, ◌++◌, ◌↔◌, [], List, All, Err, IfErr, IfOk, OnErr, OnOk};
ghost use Rattle.plane.specs.Ends.{end_of, start_of};
ghost use Rattle.plane.specs.declared.edge.Edge.{Edge};
ghost use Rattle.plane.specs.declared.point.Point.{Point};
ghost use Rattle.noding.specs.Windings.{IsClosed};
ghost use Rattle.overlay.specs.declared.fill.rules.FillRule.TheVariants.{NonZero};
ghost use Rattle.overlay.specs.declared.fill.rules.Operation.TheVariants.{Intersection};
ghost use Rattle.overlay.specs.Contours.Rings.{ring_edges};
ghost use Rattle.overlay.specs.Overlay.{IsOverlay};
ghost use Rattle.overlay.specs.Polygons.{Appends, AreAsBefore, AreExtended};
ghost use Rattle.overlay.specs.Rings.{HasEnds, edges_of};
ghost use Rattle.tiles.specs.Tile.{HasSlopedEnds, IsBordered, IsTile, IsTileFault, border};
ghost use Rattle.tiles.specs.Window.{CanCropTo, IsFault};

use crate::fault::CropFault;
use crate::near::{append_sides, near_rings};
use crate::tile_fault::TileFault;
use crate::window::Window;
use i_tree::Refusal;
use i_tree::status::exp::StatusCollection;
use overlay::boundary::bounding_edges;
use overlay::contours::contours_in_place;
use overlay::fill::{Choice, FillRule, Operation};
use overlay::grouping::append_polygons;
use overlay::rings::{Operands, are_ends, real_edges_of};
use overlay::{Polygons, Rings};
use plane::edge::Edge;
use plane::sweep_line::{ActiveEdge, GrowingStatus};
use std::alloc::Allocator;

/// Appends the polygons of what of `overlay::overlay`'s result lies in the window.
///
/// They wind once around each point of the window that is of the result, and not at all around any other, if each edge of the rings
/// given runs along an axis, or isn't within half a unit, on both axes, of the point. Around no point outside of the window they
/// wind. So the tiles of windows side by side cover no point twice. All of their points lie in the window or on its sides, and of
/// polygons that come to these no two edges cross at a point with fractions: so tiles can be joined exactly.
///
/// Rings are cropped first (`crop`), and edges that the operation keeps of them are cut at the border.
///
/// Each ring has three points or more. The first ring of a polygon is its outer one, and runs counterclockwise; the others are its
/// holes, and run clockwise.
///
/// `Lengths` comes where the ends of subject or clip don't rise or go behind the points. Else `Empty` and `Margin` come as `crop`
/// has them, and nothing else is done then. Else `OutOfMemory` comes where memory was refused. After any fault `out` is as it was.
/// The memory is that of `out`.
pub fn overlay_in<A: Allocator + Copy>(
    window: Window,
    subject: Rings,
    clip: Rings,
    rule: FillRule,
    operation: Operation,
    out: &mut Polygons<A>,
) -> Result<(), TileFault>
    ensures ok { OnOk result (CanCropTo window × ((polygons : List (List (List Point)))
        × IsTile window rule operation (edges_of subject.entry) (edges_of clip.entry) polygons
        × Appends polygons out.old out.new)) }
    ensures err { OnErr result (AreAsBefore out.old out.new) }
    ensures lengths { (result ≡ Err TileFault.Lengths)
        ↔ ¬ (HasEnds subject.entry × HasEnds clip.entry) }
    ensures fault { IfErr result (IsTileFault window) }
{
    if !are_ends(subject) || !are_ends(clip) {
        return Err(TileFault::Lengths);
    }
    let operands = Operands { subject, clip };
    append_tile(window, operands, Choice { rule, operation }, out)?;
    Ok(())
}

// The same, from right ends on.
fn append_tile<A: Allocator + Copy>(
    window: Window,
    operands: Operands,
    choice: Choice,
    out: &mut Polygons<A>,
) -> Result<(), CropFault>
    requires ends { HasEnds operands.subject }
    requires clip_ends { HasEnds operands.clip }
    ensures ok { OnOk result (CanCropTo window × ((polygons : List (List (List Point)))
        × IsTile window choice.rule choice.operation (edges_of operands.entry.subject) (edges_of operands.entry.clip) polygons
        × Appends polygons out.old out.new)) }
    ensures err { OnErr result (AreAsBefore out.old out.new) }
    ensures fault { IfErr result (IsFault window) }
{
    let _ = window.widened()?;
    let points = out.points.len();
    let rings = out.ring_ends.len();
    let polygons = out.polygon_ends.len();
    let outcome = append_within(window, operands, choice, out);
    if outcome.is_err() {
        out.points.truncate(points);
        out.ring_ends.truncate(rings);
        out.polygon_ends.truncate(polygons);
    }
    outcome
}

// The same for a window that rings can be cropped to. Where it is refused, it may have appended something.
fn append_within<A: Allocator + Copy>(
    window: Window,
    operands: Operands,
    choice: Choice,
    out: &mut Polygons<A>,
) -> Result<(), CropFault>
    requires ends { HasEnds operands.subject }
    requires clip_ends { HasEnds operands.clip }
    requires window { CanCropTo window }
    ensures ok { OnOk result ((polygons : List (List (List Point)))
        × IsTile window choice.rule choice.operation (edges_of operands.entry.subject) (edges_of operands.entry.clip) polygons
        × Appends polygons out.old out.new) }
    ensures err { OnErr result (AreExtended out.old out.new) }
    ensures fault { IfErr result (IsFault window) }
{
    let alloc = *out.points.allocator();
    let mut status = GrowingStatus::new(alloc)?;
    let kept = kept_edges(alloc, window, operands, choice, &mut status)?;
    cut(window, kept, &mut status, out)?;
    Ok(())
}

// The edges that bound what the operation makes of subject and clip, each cropped to the window. The border of the window and
// the same turned round are among the subject's rings: they wind around nothing together, but each edge that crosses the border
// is broken there.
fn kept_edges<C, A>(
    alloc: A,
    window: Window,
    operands: Operands,
    choice: Choice,
    status: &mut C,
) -> Result<Vec<Edge, A>, CropFault>
where
    C: StatusCollection<ActiveEdge, i64, ()>,
    A: Allocator + Copy,
    requires empty { C.stored status.old ≡ [] }
    requires ends { HasEnds operands.subject }
    requires clip_ends { HasEnds operands.clip }
    requires window { CanCropTo window }
    ensures bordered { IfOk result (λ kept. IsBordered window choice.rule choice.operation
        (edges_of operands.entry.subject) (edges_of operands.entry.clip) kept.items) }
    ensures fault { IfErr result (IsFault window) }
    ensures empty { C.stored status.new ≡ [] }
{
    let mut subject = near_rings(alloc, operands.subject, window)?;
    subject.append_border(window)?;
    subject.append_turned_border(window)?;
    let clip = near_rings(alloc, operands.clip, window)?;
    let (edges, count) = real_edges_of(alloc, subject.rings(), clip.rings())?;
    let kept = bounding_edges(alloc, &edges, count, choice, status)?;
    Ok(kept)
}

// Appends the polygons of what the kept edges bound within the window. Where it is refused, it may have appended something.
fn cut<C, A>(
    window: Window,
    mut kept: Vec<Edge, A>,
    status: &mut C,
    out: &mut Polygons<A>,
) -> Result<(), Refusal>
where
    C: StatusCollection<ActiveEdge, i64, ()>,
    A: Allocator + Copy,
    requires empty { C.stored status.old ≡ [] }
    requires window { CanCropTo window }
    requires closed { IsClosed kept.items }
    requires two_ends { All (λ edge. start_of edge ≢ end_of edge) kept.items }
    ensures ok { OnOk result ((polygons : List (List (List Point)))
        × IsOverlay NonZero Intersection kept.items (ring_edges (border window)) polygons
        × ((edges : List Edge) × HasSlopedEnds edges polygons)
        × Appends polygons out.old out.new) }
    ensures err { OnErr result (AreExtended out.old out.new) }
{
    let count = kept.len();
    append_sides(window, &mut kept)?;
    let choice = Choice {
        rule: FillRule::NonZero,
        operation: Operation::Intersection,
    };
    let alloc = *out.points.allocator();
    let bounding = bounding_edges(alloc, &kept, count, choice, status)?;
    let mut points = Vec::new(alloc);
    let mut ends = Vec::new(alloc);
    contours_in_place(bounding, &mut points, &mut ends)?;
    append_polygons(status, &points, &ends, out)
}
