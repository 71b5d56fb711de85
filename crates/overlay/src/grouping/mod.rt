//! Rings as polygons: which are outer ones, and to which of these each hole belongs.

ghost use Rattle.std.specs.Prelude.{◌≡◌, [], List, All, IfErr, IfOk, IsPermutation, OnErr, OnOk, length, map, position};
ghost use Rattle.i_tree.specs.declared.Refusal.TheVariants.{OutOfMemory};
ghost use Rattle.i_tree.specs.Root.Handles.{HasAllHandles};
ghost use Rattle.plane.specs.declared.point.Point.{Point};
ghost use Rattle.overlay.specs.Contours.Outlines.{outline};
ghost use Rattle.overlay.specs.Contours.Rings.{AreContours, IsRing};
ghost use Rattle.overlay.specs.Grouping.{AreWithin, placed_polygons};
ghost use Rattle.overlay.specs.Nesting.{AreNested};
ghost use Rattle.overlay.specs.Polygons.{Appends, AreExtended, BoundsSome, IsPolygon, rings_of as rings_of_all};
ghost use Rattle.overlay.specs.Rings.{AreEnds, edges_in, rings_of};

use crate::rings::Polygons;
use appending::append_in_order;
use directions::directions;
use homes::homes;
use i_tree::Refusal;
use i_tree::status::exp::StatusCollection;
use order::{PlacedRing, rings_in_order};
use plane::point::Point;
use plane::sweep_line::ActiveEdge;
use std::alloc::Allocator;

mod appending;
mod below;
mod directions;
mod edges;
mod holes;
mod homes;
mod order;
mod sides;
mod sweep;

/// Appends polygons whose rings are those of the points, which stop at these ends, without the points at which they go straight
/// on. `overlay` calls it for a program. One that has edges of its own calls it itself, behind `boundary`: so it makes polygons of
/// edges that `bounding_edges` kept, and others beside these.
///
/// No ring visits a point twice. Their edges meet only at common ends, and wind once around some points, and not at all around
/// any other. Rings that run counterclockwise are outer ones, each of a polygon of its own. The others are holes: what is just
/// below the first edge of a hole bounds the same piece of the plane. A walk along all rings tells it, and a sweep where most
/// edges go over many holes. The polygons have these rings, each once, and each hole is of the polygon of the edge just below where
/// the hole begins (`AreNested`).
///
/// It begins with an empty status. It is refused where memory was refused, or the status refused an edge: for want of memory alone
/// if it has handles for any number. It may have appended something then.
pub fn append_polygons<C, A>(
    status: &mut C,
    points: &[Point],
    ends: &[usize],
    out: &mut Polygons<A>,
) -> Result<(), Refusal>
where
    C: StatusCollection<ActiveEdge, i64, ()>,
    A: Allocator + Copy,
    requires empty { C.stored status.old ≡ [] }
    requires ends { AreEnds 0 ends.now (length points.now) }
    requires each { All IsRing (rings_of points.now 0 ends.now) }
    requires bounding { BoundsSome (edges_in points.now ends.now) }
    ensures ok { OnOk result ((whole : List (List (List Point))) × All IsPolygon whole
        × AreContours (edges_in points.now ends.now) (rings_of_all whole)
        × IsPermutation (rings_of_all whole) (rings_of points.now 0 ends.now)
        × AreNested whole
        × Appends (map (λ polygon. map outline polygon) whole) out.old out.new) }
    ensures err { OnErr result (AreExtended out.old out.new) }
    ensures refused { HasAllHandles C.has_handles → IfErr result (λ cause. cause ≡ OutOfMemory) }
{
    let alloc = *out.points.allocator();
    let order = order_of(alloc, status, points, ends)?;
    append_in_order(points, &order, out)?;
    Ok(())
}

// The rings in the order of their polygons. It is refused as `append_polygons` is.
fn order_of<C, A>(
    alloc: A,
    status: &mut C,
    points: &[Point],
    ends: &[usize],
) -> Result<Vec<PlacedRing, A>, Refusal>
where
    C: StatusCollection<ActiveEdge, i64, ()>,
    A: Allocator + Copy,
    requires empty { C.stored status.old ≡ [] }
    requires ends { AreEnds 0 ends.now (length points.now) }
    requires each { All IsRing (rings_of points.now 0 ends.now) }
    requires bounding { BoundsSome (edges_in points.now ends.now) }
    ensures within { IfOk result (λ order. AreWithin points.now order.items) }
    ensures polygons { IfOk result (λ order. All IsPolygon (placed_polygons points.now order.items)) }
    ensures contours { IfOk result (λ order.
        AreContours (edges_in points.now ends.now) (rings_of_all (placed_polygons points.now order.items))) }
    ensures moved { IfOk result (λ order.
        IsPermutation (rings_of_all (placed_polygons points.now order.items)) (rings_of points.now 0 ends.now)) }
    ensures nested { IfOk result (λ order. AreNested (placed_polygons points.now order.items)) }
    ensures refused { HasAllHandles C.has_handles → IfErr result (λ cause. cause ≡ OutOfMemory) }
{
    let are_outer = directions(alloc, points, ends)?;
    let Some(outer) = first_outer(&are_outer) else {
        return Ok(Vec::new(alloc));
    };
    let homes = homes(alloc, status, points, ends, &are_outer, outer)?;
    Ok(rings_in_order(alloc, ends, &are_outer, &homes)?)
}

// The place of the first outer ring.
fn first_outer(are_outer: &[bool]) -> Option<usize>
    ensures { result ≡ position (λ is. is) are_outer.now }
{
    are_outer.iter().position(|is| *is)
}
