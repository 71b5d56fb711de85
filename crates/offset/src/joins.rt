//! `Join`: how corners that turn left are joined where polygons grow, and the curve that they make.

ghost use Rattle.std.specs.Prelude.{◌≡◌, ◌++◌, IfErr, OnOk, map};
ghost use Rattle.plane.specs.Ends.{end_of};
ghost use Rattle.offset.specs.Faults.{IsRawFault};
ghost use Rattle.offset.specs.Joins.{bevel, bevelled_joint, joined_of_ring, joined_of_two};
ghost use Rattle.offset.specs.Near.{IsOfFurthest};
ghost use Rattle.offset.specs.Raw.{moved_edge};
ghost use Rattle.offset.specs.Shape.{IsConvexAroundOrigin};

use crate::circles::swept;
use crate::fault::MinkowskiFault;
use crate::mitres::append_mitre;
use crate::raw::{
    append_fan, append_raw_of_two, append_ways, corner_behind, first_place, furthest, place_near,
    push_moved,
};
use crate::shape::{next_place, side_at, turn};
use plane::edge::{Edge, edge_between, end_of};
use plane::point::Point;
use std::alloc::Allocator;

/// How a corner that turns left is joined where polygons grow. A corner that turns right needs no join.
#[derive(Clone, Copy, Debug, PartialEq, Eq)]
pub enum Join {
    /// By the sides of the shape there: so the whole is the Minkowski sum. The corner is round where the shape is a circle.
    Round,
    /// By one straight line from the corner of the shape that the one edge is moved by to that of the next edge.
    Bevel,
    /// By the moved edges, carried on to where they cross. It stays round where that is farther out than the shape would reach if
    /// it were so many hundredths of its size: 200 is twice as large.
    Mitre(u32),
}

/// Appends the curve of the ring: each edge moved, and what joins it with the next one.
pub fn append_joined_of_ring<A: Allocator>(
    corners: &[Point],
    ring: &[Point],
    join: Join,
    edges: &mut Vec<Edge, A>,
) -> Result<(), MinkowskiFault>
    requires { IsConvexAroundOrigin corners.now }
    ensures ok { OnOk result (edges.new.items ≡ edges.old.items ++ joined_of_ring join corners.now ring.now) }
    ensures fault { IfErr result (IsRawFault (joined_of_ring join corners.now ring.now)) }
{
    let mut near = first_place(corners, ring);
    for index in 0..ring.len() {
        let edge = side_at(ring, index);
        let next = side_at(ring, next_place(index, ring.len()));
        append_joined_of_two(corners, edge, next, join, &mut near, edges)?;
    }
    Ok(())
}

// Appends that of an edge and the next one. The furthest corner of the edge stands behind the side at the place `near`, and from
// then on that of the next one does.
fn append_joined_of_two<A: Allocator>(
    corners: &[Point],
    edge: Edge,
    next: Edge,
    join: Join,
    near: &mut usize,
    edges: &mut Vec<Edge, A>,
) -> Result<(), MinkowskiFault>
    requires shape { IsConvexAroundOrigin corners.now }
    requires near { IsOfFurthest corners.now edge near.old }
    ensures ok { OnOk result (edges.new.items ≡ edges.old.items ++ joined_of_two join corners.now (edge, next)) }
    ensures fault { IfErr result (IsRawFault (joined_of_two join corners.now (edge, next))) }
    ensures near { OnOk result (IsOfFurthest corners.now next near.new) }
{
    match join {
        Join::Round => append_raw_of_two(corners, edge, next, near, edges),
        Join::Bevel => append_bevelled(corners, edge, next, near, edges),
        Join::Mitre(limit) => append_mitred(corners, edge, next, limit, near, edges),
    }
}

// Appends the raw curve, and the mitre.
fn append_mitred<A: Allocator>(
    corners: &[Point],
    edge: Edge,
    next: Edge,
    limit: u32,
    near: &mut usize,
    edges: &mut Vec<Edge, A>,
) -> Result<(), MinkowskiFault>
    requires shape { IsConvexAroundOrigin corners.now }
    requires near { IsOfFurthest corners.now edge near.old }
    ensures ok { OnOk result (edges.new.items ≡ edges.old.items ++ joined_of_two (Join.Mitre limit) corners.now (edge, next)) }
    ensures fault { IfErr result (IsRawFault (joined_of_two (Join.Mitre limit) corners.now (edge, next))) }
    ensures near { OnOk result (IsOfFurthest corners.now next near.new) }
{
    append_raw_of_two(corners, edge, next, near, edges)?;
    append_mitre(corners, edge, next, limit, edges)
}

// Appends the edge moved, and what joins it with the next one by a bevel.
fn append_bevelled<A: Allocator>(
    corners: &[Point],
    edge: Edge,
    next: Edge,
    near: &mut usize,
    edges: &mut Vec<Edge, A>,
) -> Result<(), MinkowskiFault>
    requires shape { IsConvexAroundOrigin corners.now }
    requires near { IsOfFurthest corners.now edge near.old }
    ensures ok { OnOk result (edges.new.items ≡ edges.old.items ++ joined_of_two Join.Bevel corners.now (edge, next)) }
    ensures fault { IfErr result (IsRawFault (joined_of_two Join.Bevel corners.now (edge, next))) }
    ensures near { OnOk result (IsOfFurthest corners.now next near.new) }
{
    push_moved(corner_behind(corners, *near), edge, edges)?;
    *near = place_near(corners, next, *near);
    if turn(edge, next) > 0 {
        append_bevel(corners, edge, next, edges)
    } else {
        append_ways(corners, edge, next, edges)
    }
}

// Appends the chord around the point between the edges, or the sides of the shape where the origin doesn't lie left of it.
fn append_bevel<A: Allocator>(
    corners: &[Point],
    edge: Edge,
    next: Edge,
    edges: &mut Vec<Edge, A>,
) -> Result<(), MinkowskiFault>
    ensures ok { OnOk result (edges.new.items ≡ edges.old.items ++ map (moved_edge (end_of edge)) (bevel corners.now edge next)) }
    ensures fault { IfErr result (IsRawFault (map (moved_edge (end_of edge)) (bevel corners.now edge next))) }
{
    let chord = edge_between(furthest(corners, edge), furthest(corners, next));
    if swept(chord) > 0 {
        push_moved(end_of(edge), chord, edges)
    } else {
        append_fan(corners, edge, next, edges)
    }
}
