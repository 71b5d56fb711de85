//! The holes, in the order in which they begin.

ghost use Rattle.std.specs.Prelude.{◌≡◌, ◌<◌, ◌+◌, [], All, IfOk, IsPermutation, List, OnOk, false, get_or, length, map};
ghost use Rattle.plane.specs.declared.point.Point.{Point};
ghost use Rattle.overlay.specs.Fill.Begins.{BeginInOrder};
ghost use Rattle.overlay.specs.Grouping.{AreFirsts, AreFirstsUpto, IsUntold, firsts_of, pieces_of};
ghost use Rattle.overlay.specs.Polygons.{is_counterclockwise};
ghost use Rattle.overlay.specs.Rings.{AreEnds, rings_of};

use super::directions::first_edge;
use super::sides::{Side, side_of};
use crate::fill::pieces::compare_begins;
use crate::rings::ring_at;
use plane::point::Point;
use std::alloc::{AllocError, Allocator};
use std::cmp::Ordering;

/// A hole: the side of it that begins first, and the highest side found so far below where that begins.
#[derive(Clone, Copy, Debug)]
pub struct Hole {
    pub first: Side,
    pub below: Option<Side>,
}

/// The holes, in the order in which they begin. Nothing is found below them yet.
pub fn holes_in_order<A: Allocator>(
    alloc: A,
    points: &[Point],
    ends: &[usize],
    are_outer: &[bool],
) -> Result<Vec<Hole, A>, AllocError>
    requires ends { AreEnds 0 ends.now (length points.now) }
    requires outer { are_outer.now ≡ map is_counterclockwise (rings_of points.now 0 ends.now) }
    ensures firsts { IfOk result (λ holes. AreFirsts (rings_of points.now 0 ends.now) (firsts_of holes.items)) }
    ensures untold { IfOk result (λ holes. All IsUntold holes.items) }
{
    let mut holes = holes(alloc, points, ends, are_outer)?;
    sort_holes(&mut holes);
    Ok(holes)
}

// Puts the holes in the order in which they begin.
fn sort_holes(holes: &mut [Hole])
    ensures same { IsPermutation holes.old holes.new }
    ensures order { BeginInOrder (pieces_of (firsts_of holes.new)) }
{
    holes.sort_unstable_by(|one: &Hole, other: &Hole| -> Ordering {
        compare_begins(one.first.piece.edge, other.first.piece.edge)
    });
}

// The holes, ring by ring.
fn holes<A: Allocator>(
    alloc: A,
    points: &[Point],
    ends: &[usize],
    are_outer: &[bool],
) -> Result<Vec<Hole, A>, AllocError>
    requires ends { AreEnds 0 ends.now (length points.now) }
    requires outer { are_outer.now ≡ map is_counterclockwise (rings_of points.now 0 ends.now) }
    ensures firsts { IfOk result (λ holes. AreFirstsUpto (rings_of points.now 0 ends.now) (length ends.now) (firsts_of holes.items)) }
    ensures untold { IfOk result (λ holes. All IsUntold holes.items) }
{
    let mut holes = Vec::new(alloc);
    for ring in 0..ends.len() {
        if are_outer[ring] {
            continue;
        }
        append_hole(&mut holes, ring_at(points, ends, ring), ring)?;
    }
    Ok(holes)
}

// Appends the ring of this number, which is a hole.
fn append_hole<A: Allocator>(
    holes: &mut Vec<Hole, A>,
    points: &[Point],
    ring: usize,
) -> Result<(), AllocError>
    ensures firsts { OnOk result ((rings : List (List Point)) → ring < length rings → points.now ≡ get_or rings ring []
        → is_counterclockwise points.now ≡ false → AreFirstsUpto rings ring (firsts_of holes.old.items)
        → AreFirstsUpto rings (ring + 1) (firsts_of holes.new.items)) }
    ensures untold { OnOk result (All IsUntold holes.old.items → All IsUntold holes.new.items) }
{
    if let Some(edge) = first_edge(points) {
        let first = side_of(edge, ring);
        holes.push(Hole { first, below: None })?;
    }
    Ok(())
}
