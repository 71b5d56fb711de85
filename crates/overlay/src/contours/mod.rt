//! Contours: closed edges become rings that visit no point twice.

ghost use Rattle.std.specs.Prelude.{◌≡◌, ◌++◌, List, OnOk, OnErr, IfErr, length, map};
ghost use Rattle.std.specs.List.{flat_map};
ghost use Rattle.i_tree.specs.declared.Refusal.TheVariants.{OutOfMemory};
ghost use Rattle.plane.specs.declared.point.Point.{Point};
ghost use Rattle.overlay.specs.Contours.Outlines.{AreOutlines, outline};
ghost use Rattle.overlay.specs.Contours.Rings.{AreContours};
ghost use Rattle.overlay.specs.Sides.{AreBorders, KeepSides};
ghost use Rattle.plane.specs.Lists.{Extends};
ghost use Rattle.noding.specs.Offsets.{offsets};
ghost use Rattle.noding.specs.Windings.{IsClosed};

use bends::append_outlines;
pub use bends::{append_outline, next_in};
use i_tree::Refusal;
use order::put_in_order;
use plane::edge::Edge;
use plane::point::Point;
use std::alloc::{AllocError, Allocator};
use walk::append_rings;

mod bends;
mod cutting;
mod ends;
mod fans;
mod order;
mod turns;
mod walk;

/// Appends rings of closed edges to `points`, one after another, and to `ring_ends` where each stops among these.
///
/// Edges are closed where as many of them start at each point as end there, as those of rings are, and the pieces of closed
/// edges. The edges of a ring go from each of its points to the next one, and from the last one to the first; that of a ring
/// of one point goes from it to itself. Each edge is that of one ring, and no ring visits a point twice.
///
/// Where several edges start at a point, a ring goes on along the one that turns furthest left. So where the edges meet only at
/// common ends, and wind once around a point or not at all, any closed list of some of them winds as often on the left of each
/// edge of a ring (`KeepSides`): rings which have their inside on the left touch, and don't cross.
///
/// It is refused for want of memory alone, and leaves `points` and `ring_ends` as they were then. The memory is that of their
/// allocator.
pub fn contours<A: Allocator + Copy>(
    edges: &[Edge],
    points: &mut Vec<Point, A>,
    ring_ends: &mut Vec<usize, A>,
) -> Result<(), Refusal>
    requires { IsClosed edges.now }
    ensures ok { OnOk result ((rings : List (List Point)) × AreContours edges.now rings
        × (points.new.items ≡ points.old.items ++ flat_map (λ ring. ring) rings)
        × (ring_ends.new.items ≡ ring_ends.old.items ++ offsets (length points.old.items) rings)
        × (AreBorders edges.now → KeepSides edges.now rings)) }
    ensures err { OnErr result ((points.new.items ≡ points.old.items) × (ring_ends.new.items ≡ ring_ends.old.items)) }
    ensures refused { IfErr result (λ cause. cause ≡ OutOfMemory) }
{
    let list = Vec::from_slice(*points.allocator(), edges)?;
    contours_in_place(list, points, ring_ends)
}

/// As `contours`, of edges in a list that is no longer needed: they are sorted in it, so that no copy of them is made.
pub fn contours_in_place<A: Allocator + Copy>(
    edges: Vec<Edge, A>,
    points: &mut Vec<Point, A>,
    ring_ends: &mut Vec<usize, A>,
) -> Result<(), Refusal>
    requires { IsClosed edges.items }
    ensures ok { OnOk result ((rings : List (List Point)) × AreContours edges.items rings
        × (points.new.items ≡ points.old.items ++ flat_map (λ ring. ring) rings)
        × (ring_ends.new.items ≡ ring_ends.old.items ++ offsets (length points.old.items) rings)
        × (AreBorders edges.items → KeepSides edges.items rings)) }
    ensures err { OnErr result ((points.new.items ≡ points.old.items) × (ring_ends.new.items ≡ ring_ends.old.items)) }
    ensures refused { IfErr result (λ cause. cause ≡ OutOfMemory) }
{
    let points_before = points.len();
    let ends_before = ring_ends.len();
    let outcome = append_all(edges, points, ring_ends);
    if outcome.is_err() {
        points.truncate(points_before);
        ring_ends.truncate(ends_before);
        return Err(Refusal::OutOfMemory);
    }
    Ok(())
}

/// As `contours`, but without the points at which a ring goes straight on: those that lie along one line with the points
/// before and behind them in the ring, between these. What is left of each ring is one, too: it has some points, and visits
/// none twice. All of them wind around each point with rational coordinates as the edges do.
///
/// It is refused for want of memory alone, and leaves `points` and `ring_ends` as they were then.
pub fn outlines<A: Allocator + Copy>(
    edges: &[Edge],
    points: &mut Vec<Point, A>,
    ring_ends: &mut Vec<usize, A>,
) -> Result<(), Refusal>
    requires { IsClosed edges.now }
    ensures ok { OnOk result ((rings : List (List Point)) × AreContours edges.now rings
        × (points.new.items ≡ points.old.items ++ flat_map outline rings)
        × (ring_ends.new.items ≡ ring_ends.old.items ++ offsets (length points.old.items) (map outline rings))
        × AreOutlines edges.now (map outline rings)) }
    ensures err { OnErr result ((points.new.items ≡ points.old.items) × (ring_ends.new.items ≡ ring_ends.old.items)) }
    ensures refused { IfErr result (λ cause. cause ≡ OutOfMemory) }
{
    let alloc = *points.allocator();
    let mut rings = Vec::with_capacity(alloc, edges.len())?;
    let mut ends = Vec::new(alloc);
    contours(edges, &mut rings, &mut ends)?;
    let points_start = points.len();
    let ends_start = ring_ends.len();
    match append_outlines(&rings, &ends, points, ring_ends) {
        Ok(()) => Ok(()),
        Err(_) => {
            points.truncate(points_start);
            ring_ends.truncate(ends_start);
            Err(Refusal::OutOfMemory)
        }
    }
}

// As `contours_in_place`, but where it is refused, it may have appended something.
fn append_all<A: Allocator + Copy>(
    mut edges: Vec<Edge, A>,
    points: &mut Vec<Point, A>,
    ring_ends: &mut Vec<usize, A>,
) -> Result<(), AllocError>
    requires { IsClosed edges.items }
    ensures ok { OnOk result ((rings : List (List Point)) × AreContours edges.items rings
        × (points.new.items ≡ points.old.items ++ flat_map (λ ring. ring) rings)
        × (ring_ends.new.items ≡ ring_ends.old.items ++ offsets (length points.old.items) rings)
        × (AreBorders edges.items → KeepSides edges.items rings)) }
    ensures err { OnErr result (Extends points.old.items points.new.items
        × Extends ring_ends.old.items ring_ends.new.items) }
{
    put_in_order(&mut edges)?;
    append_rings(*points.allocator(), &edges, points, ring_ends)
}
