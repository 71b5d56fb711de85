//! The sides of rings: their edges that aren't vertical, in the order in which they begin.

ghost use Rattle.std.specs.Prelude.{◌≡◌, ◌≢◌, ◌<◌, ◌++◌, ◌∷◌, [], All, Contains, IfOk, IsPermutation, List, OnOk, get_or, length};
ghost use Rattle.plane.specs.declared.point.Point.{Point};
ghost use Rattle.overlay.specs.declared.fill.pieces.Operand.TheVariants.{Subject};
ghost use Rattle.overlay.specs.Contours.Rings.{ring_edges};
ghost use Rattle.overlay.specs.Fill.Begins.{BeginInOrder};
ghost use Rattle.overlay.specs.Fill.Turned.{piece_of, turned};
ghost use Rattle.overlay.specs.Grouping.{AreSides, IsRightward, IsSideOf, pieces_of};
ghost use Rattle.overlay.specs.Rings.{AreEnds, edges_in, rings_of};

use super::edges::edge_at;
use crate::fill::pieces::{Operand, Piece, compare_begins, is_sloped, piece_of};
use crate::rings::ring_at;
use plane::edge::Edge;
use plane::point::Point;
use std::alloc::{AllocError, Allocator};
use std::cmp::Ordering;

/// An edge that isn't vertical, turned rightwards, and the number of its ring.
#[derive(Clone, Copy, Debug)]
pub struct Side {
    pub piece: Piece,
    pub ring: usize,
}

/// The sides of all rings, in the order in which they begin.
pub fn sides_in_order<A: Allocator>(
    alloc: A,
    points: &[Point],
    ends: &[usize],
) -> Result<Vec<Side, A>, AllocError>
    requires { AreEnds 0 ends.now (length points.now) }
    ensures { IfOk result (λ sides. AreSides (rings_of points.now 0 ends.now) sides.items) }
{
    let mut sides = all_sides(alloc, points, ends)?;
    sort_sides(&mut sides);
    Ok(sides)
}

// Puts the sides in the order in which they begin.
fn sort_sides(sides: &mut [Side])
    ensures same { IsPermutation sides.old sides.new }
    ensures order { BeginInOrder (pieces_of sides.new) }
{
    sides.sort_unstable_by(|one: &Side, other: &Side| -> Ordering {
        compare_begins(one.piece.edge, other.piece.edge)
    });
}

// The sides of each ring, ring by ring.
#[tactic(auto, using(crate::proofs::EachRing::rings_all))]
fn all_sides<A: Allocator>(
    alloc: A,
    points: &[Point],
    ends: &[usize],
) -> Result<Vec<Side, A>, AllocError>
    requires { AreEnds 0 ends.now (length points.now) }
    ensures pieces { IfOk result (λ sides. pieces_of sides.items ≡ turned Subject (edges_in points.now ends.now)) }
    ensures of { IfOk result (λ sides. All (IsSideOf (rings_of points.now 0 ends.now)) sides.items) }
{
    let mut sides = Vec::with_capacity(alloc, points.len())?;
    for ring in 0..ends.len() {
        append_sides(&mut sides, ring_at(points, ends, ring), ring)?;
    }
    Ok(sides)
}

// Appends the sides of the ring of this number.
fn append_sides<A: Allocator>(
    sides: &mut Vec<Side, A>,
    points: &[Point],
    ring: usize,
) -> Result<(), AllocError>
    ensures pieces { OnOk result (pieces_of sides.new.items
        ≡ pieces_of sides.old.items ++ turned Subject (ring_edges points.now)) }
    ensures of { OnOk result ((rings : List (List Point)) → ring < length rings → points.now ≡ get_or rings ring []
        → All (IsSideOf rings) sides.old.items → All (IsSideOf rings) sides.new.items) }
{
    for place in 0..points.len() {
        append_side(sides, edge_at(points, place), ring)?;
    }
    Ok(())
}

// Appends the edge as a side, if it isn't vertical.
fn append_side<A: Allocator>(
    sides: &mut Vec<Side, A>,
    edge: Edge,
    ring: usize,
) -> Result<(), AllocError>
    ensures pieces { OnOk result (pieces_of sides.new.items
        ≡ pieces_of sides.old.items ++ turned Subject (edge ∷ [])) }
    ensures of { OnOk result ((rings : List (List Point)) → ring < length rings → Contains (ring_edges (get_or rings ring [])) edge
        → All (IsSideOf rings) sides.old.items → All (IsSideOf rings) sides.new.items) }
{
    if !is_sloped(edge) {
        return Ok(());
    }
    sides.push(side_of(edge, ring))?;
    Ok(())
}

/// The edge as a side of the ring of this number.
pub fn side_of(edge: Edge, ring: usize) -> Side
    requires { edge.x0 ≢ edge.x1 }
    ensures piece { result.piece ≡ piece_of Subject edge }
    ensures ring { result.ring ≡ ring }
    ensures right { IsRightward result }
{
    let piece = piece_of(edge, Operand::Subject);
    Side { piece, ring }
}
