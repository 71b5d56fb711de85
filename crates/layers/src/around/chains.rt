//! `Chain`: some edges of a shape, one behind another.

ghost use Rattle.std.specs.Prelude.{◌≡◌, ◌<◌, ◌≤◌, [], IfOk, OnOk, get_or, length, take};
ghost use Rattle.overlay.specs.Contours.Rings.{ring_edges};
ghost use Rattle.layers.specs.Chains.{AppendsChains, AreChainsOf, IsBounded};
ghost use Rattle.layers.specs.Shapes.{HasShapes, edges_of_each, shape_edges, shapes_of};

use crate::boxes::{box_at, grown};
use crate::shapes::{Shapes, list_at, range_at};
use plane::pairs::items::Bounds;
use plane::point::Point;
use std::alloc::{AllocError, Allocator};

// A chain has so many points at most.
const CHAIN_POINTS: usize = 16;

/// Edges of the shape at a place: from each of these points to the next, and from the last to the end. No point lies beyond the
/// bounds.
#[derive(Clone, Copy)]
pub struct Chain<'a> {
    pub shape: usize,
    pub points: &'a [Point],
    pub end: Point,
    pub bounds: Bounds,
}

impl<'a> Chain<'a> {
    /// The point at this place, or the end behind the last one.
    pub fn point_at(&self, place: usize) -> Point
        ensures { result ≡ get_or self.now.points.now place self.now.end }
    {
        match self.points.get(place) {
            Some(point) => *point,
            None => self.end,
        }
    }

    /// The edge from the first point to an end.
    pub fn straight_to(&self, end: Point) -> Chain<'a>
        requires { IsBounded self.now }
        ensures shape { result.shape ≡ self.now.shape }
        ensures points { result.points.now ≡ take 1 self.now.points.now }
        ensures end { result.end ≡ end }
        ensures bounded { IsBounded result }
    {
        chain_of(self.shape, &self.points[..1], end)
    }
}

/// The chain through these points to an end.
pub fn chain_of<'a>(shape: usize, points: &'a [Point], end: Point) -> Chain<'a>
    requires some { 0 < length points.now }
    requires few { length points.now ≤ 16 }
    ensures shape { result.shape ≡ shape }
    ensures points { result.points.now ≡ points.now }
    ensures end { result.end ≡ end }
    ensures bounded { IsBounded result }
{
    let mut bounds = box_at(end);
    for point in points {
        bounds = grown(bounds, *point);
    }
    Chain {
        shape,
        points,
        end,
        bounds,
    }
}

/// The chains of all edges, shape by shape.
pub fn chains_of<'a, A: Allocator>(
    alloc: A,
    shapes: Shapes<'a>,
) -> Result<Vec<Chain<'a>, A>, AllocError>
    requires { HasShapes shapes }
    ensures { IfOk result (λ chains. AreChainsOf (edges_of_each shapes.entry) chains.items) }
{
    let mut chains = Vec::new(alloc);
    // The chains are of the shapes before this one, and have all of their edges.
    for shape in 0..shapes.shape_ends.len() {
        append_shape(shapes, shape, &mut chains)?;
    }
    Ok(chains)
}

// Appends the chains of the shape's rings.
fn append_shape<'a, A: Allocator>(
    shapes: Shapes<'a>,
    shape: usize,
    chains: &mut Vec<Chain<'a>, A>,
) -> Result<(), AllocError>
    requires shapes { HasShapes shapes }
    requires shape { shape < length shapes.shape_ends.now }
    ensures { OnOk result (AppendsChains shape (shape_edges (get_or (shapes_of shapes.entry) shape []))
        chains.old.items chains.new.items) }
{
    let (first, behind) = range_at(shapes.shape_ends, shape);
    // The chains of the rings before this one are appended.
    for ring in first..behind {
        append_ring(
            list_at(shapes.points, shapes.ring_ends, ring),
            shape,
            chains,
        )?;
    }
    Ok(())
}

// Appends the chains of the ring.
fn append_ring<'a, A: Allocator>(
    ring: &'a [Point],
    shape: usize,
    chains: &mut Vec<Chain<'a>, A>,
) -> Result<(), AllocError>
    ensures { OnOk result (AppendsChains shape (ring_edges ring.now) chains.old.items chains.new.items) }
{
    if ring.is_empty() {
        return Ok(());
    }
    let mut start = 0;
    // The edges from the points before `start` on are in chains.
    while ring.len() - start > CHAIN_POINTS {
        let end = start + CHAIN_POINTS;
        chains.push(chain_of(shape, &ring[start..end], ring[end]))?;
        start = end;
    }
    chains.push(chain_of(shape, &ring[start..], ring[0]))?;
    Ok(())
}
