//! `clip_lines`: the pieces of lines that lie inside of polygons, or those that lie outside.

ghost use Rattle.std.specs.Prelude.{◌≡◌, ◌↔◌, ◌⊎◌, List, IfErr, OnErr, OnOk};
ghost use Rattle.i_tree.specs.declared.Refusal.TheVariants.{OutOfMemory};
ghost use Rattle.plane.specs.declared.point.Point.{Point};
ghost use Rattle.overlay.specs.Rings.{HasEnds, edges_of};
ghost use Rattle.layers.specs.declared.fault.LayerFault.TheVariants.{Lengths, Refused};
ghost use Rattle.layers.specs.Lines.{Appends, AreAsBefore, AreClipped, AreExtended, HasLines, lines_of};

mod breaking;
mod joining;
mod keeping;

use crate::fault::LayerFault;
use crate::shapes::are_ends;
use breaking::broken_edges;
use i_tree::Refusal;
use joining::append_pieces;
use keeping::kept_edges;
use overlay::Rings;
use overlay::fill::FillRule;
use plane::point::Point;
use std::alloc::Allocator;

/// Lines: the points of all of them, one line after another, and where each stops among these. Points behind the last end are of no
/// line.
///
/// A line goes from each of its points to the next one. It may cross itself and others, lie along them, end where it begins,
/// stand on a point for a while, and have one point or none.
#[derive(Clone, Copy, Debug)]
pub struct Lines<'a> {
    pub points: &'a [Point],
    pub ends: &'a [usize],
}

/// On which side of rings a line is kept.
#[derive(Clone, Copy, Debug, PartialEq, Eq)]
pub enum Keep {
    /// What lies inside of them, or along them.
    Inside,
    /// What lies outside.
    Outside,
}

/// Pieces of lines: the points of all pieces, where each piece stops among the points, and where the pieces of each line stop among
/// the pieces.
#[derive(Drop)]
pub struct Pieces<A: Allocator> {
    pub points: Vec<Point, A>,
    pub piece_ends: Vec<usize, A>,
    pub line_ends: Vec<usize, A>,
}

impl<A: Allocator + Copy> Pieces<A> {
    ghost use Rattle.std.specs.Prelude.{◌≡◌, []};

    /// No pieces, of no line.
    pub fn new(alloc: A) -> Pieces<A>
        ensures points { result.points.items ≡ [] }
        ensures piece_ends { result.piece_ends.items ≡ [] }
        ensures line_ends { result.line_ends.items ≡ [] }
    {
        Pieces {
            points: Vec::new(alloc),
            piece_ends: Vec::new(alloc),
            line_ends: Vec::new(alloc),
        }
    }
}

/// Appends the pieces of each line that lie inside of the rings, or those that lie outside, and where the pieces of each line stop.
///
/// Lines and rings are broken together where they meet, and what they are broken into has whole ends again, within half a unit of
/// them on both axes (`noding::snap`). Such a part of a line lies inside where its middle does: where the parts of the rings wind
/// around it as the rule wants it, or where it lies on one of them. So what goes along a ring counts as inside. Parts that follow
/// each other are one piece, as long as they are kept, also across the line's own points. So each part of a line is in just one
/// piece of those inside and those outside, and a piece ends where the line does or goes over to the other side.
///
/// A piece has two points at least, and goes the way of its line. It has those points of its line, and also those at which another
/// line or ring breaks the line within the piece. A line that has fewer than two points has no piece, nor has one that stands on a
/// point; and where a line has a point twice in a row it is as if the point stood there once.
///
/// `Lengths` comes where the ends of lines or rings don't rise or go behind the points, and nothing else is done then. `Refused` comes
/// for want of memory alone. After any fault `out` is as it was. The memory is that of `out`.
pub fn clip_lines<A: Allocator + Copy>(
    lines: Lines,
    rings: Rings,
    rule: FillRule,
    keep: Keep,
    out: &mut Pieces<A>,
) -> Result<(), LayerFault>
    ensures ok { OnOk result ((clipped : List (List (List Point)))
        × AreClipped rule keep (lines_of lines.entry) (edges_of rings.entry) clipped
        × Appends clipped out.old out.new) }
    ensures err { OnErr result (AreAsBefore out.old out.new) }
    ensures lengths { (result ≡ Err Lengths) ↔ ¬ (HasLines lines.entry × HasEnds rings.entry) }
    ensures refused { IfErr result (λ fault. (fault ≡ Lengths) ⊎ (fault ≡ Refused OutOfMemory)) }
{
    if !are_ends(lines.ends, lines.points.len()) || !are_ends(rings.ends, rings.points.len()) {
        return Err(LayerFault::Lengths);
    }
    let points = out.points.len();
    let pieces = out.piece_ends.len();
    let clipped = out.line_ends.len();
    let outcome = append_clipped(lines, rings, rule, keep, out);
    if let Err(cause) = outcome {
        out.points.truncate(points);
        out.piece_ends.truncate(pieces);
        out.line_ends.truncate(clipped);
        return Err(LayerFault::Refused(cause));
    }
    Ok(())
}

// As `clip_lines`, from right ends on. Where it is refused, it may have appended something.
fn append_clipped<A: Allocator + Copy>(
    lines: Lines,
    rings: Rings,
    rule: FillRule,
    keep: Keep,
    out: &mut Pieces<A>,
) -> Result<(), Refusal>
    requires lines_end { HasLines lines }
    requires rings_end { HasEnds rings }
    ensures ok { OnOk result ((clipped : List (List (List Point)))
        × AreClipped rule keep (lines_of lines.entry) (edges_of rings.entry) clipped
        × Appends clipped out.old out.new) }
    ensures err { OnErr result (AreExtended out.old out.new) }
    ensures refused { IfErr result (λ cause. cause ≡ OutOfMemory) }
{
    let alloc = *out.points.allocator();
    let broken = broken_edges(alloc, lines, rings)?;
    let (edges, ring_edges) = broken.edges.split_at(broken.count);
    let kept = kept_edges(alloc, edges, ring_edges, &broken.ring_ends, rule, keep)?;
    append_pieces(edges, &broken.line_ends, &kept, out)?;
    Ok(())
}
