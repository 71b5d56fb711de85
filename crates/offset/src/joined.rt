//! Polygons that grow by a shape, with bevelled or mitred corners.

ghost use Rattle.std.specs.Prelude.{◌≡◌, ◌↔◌, [], List, All, Err, IfErr, IfOk, OnErr, OnOk, length};
ghost use Rattle.plane.specs.declared.point.Point.{Point};
ghost use Rattle.overlay.specs.Boundary.{IsBoundary};
ghost use Rattle.overlay.specs.Polygons.{Appends, AreAsBefore, AreExtended};
ghost use Rattle.overlay.specs.Rings.{AreEnds, HasEnds, edges_of, real_edges, rings_of};
ghost use Rattle.overlay.specs.declared.fill.rules.Operation.TheVariants.{Union};
ghost use Rattle.offset.specs.Faults.{IsRawFault};
ghost use Rattle.offset.specs.Joins.{IsJoined, IsJoinedFault, joined_edges};
ghost use Rattle.offset.specs.Raw.{IsIn32Bits};
ghost use Rattle.offset.specs.Shape.{IsConvexAroundOrigin};

use crate::fault::MinkowskiFault;
use crate::joins::{Join, append_joined_of_ring};
use crate::shape::is_convex_around_origin;
use crate::sum::{append_wound, bounding_rings};
use i_tree::status::exp::StatusCollection;
use overlay::fill::FillRule;
use overlay::rings::{are_ends, ring_at};
use overlay::{Polygons, Rings};
use plane::edge::Edge;
use plane::point::Point;
use plane::sweep_line::{ActiveEdge, GrowingStatus};
use std::alloc::Allocator;

/// Appends the polygons that the inside of the polygons, by the rule, becomes when it grows by the shape, with corners joined as
/// asked. `minkowski` joins them by the sides of the shape, as `Join::Round` does.
///
/// The shape is a convex polygon with the origin inside, counterclockwise (`is_convex_around_origin`). Each edge of what bounds the
/// inside moves by the corner of the shape that lies furthest to the right of it; a join stands where two of them turn left.
///
/// `Lengths` comes where the ends of the polygons don't rise or go behind the points, and nothing else is done then. Else `Shape`
/// comes where the shape isn't one. Else `Range` comes where a corner of the curve around the answer, or the tip of a mitre, is no
/// point of 32 bits, and `OutOfMemory` where memory was refused. After any fault `out` is as it was. The memory is that of `out`.
pub fn minkowski_joined<A: Allocator + Copy>(
    polygons: Rings,
    rule: FillRule,
    shape: &[Point],
    join: Join,
    out: &mut Polygons<A>,
) -> Result<(), MinkowskiFault>
    ensures ok { OnOk result (IsConvexAroundOrigin shape.now × ((grown : List (List (List Point)))
        × IsJoined join rule (edges_of polygons.entry) shape.now grown
        × Appends grown out.old out.new)) }
    ensures err { OnErr result (AreAsBefore out.old out.new) }
    ensures lengths { (result ≡ Err MinkowskiFault.Lengths) ↔ ¬ (HasEnds polygons.entry) }
    ensures shape { (result ≡ Err MinkowskiFault.Shape) ↔ (HasEnds polygons.entry × (¬ (IsConvexAroundOrigin shape.now))) }
    ensures range { (result ≡ Err MinkowskiFault.Range) → (rings : List (List Point))
        × IsBoundary rule Union (real_edges (edges_of polygons.entry)) [] rings
        × (¬ (All IsIn32Bits (joined_edges join shape.now rings))) }
{
    if !are_ends(polygons) {
        return Err(MinkowskiFault::Lengths);
    }
    if !is_convex_around_origin(shape) {
        return Err(MinkowskiFault::Shape);
    }
    let points = out.points.len();
    let rings = out.ring_ends.len();
    let count = out.polygon_ends.len();
    let outcome = append_joined(polygons, rule, shape, join, out);
    if outcome.is_err() {
        out.points.truncate(points);
        out.ring_ends.truncate(rings);
        out.polygon_ends.truncate(count);
    }
    outcome
}

// The same, from right ends and a shape on. Where it is refused, it may have appended something.
fn append_joined<A: Allocator + Copy>(
    polygons: Rings,
    rule: FillRule,
    shape: &[Point],
    join: Join,
    out: &mut Polygons<A>,
) -> Result<(), MinkowskiFault>
    requires ends { HasEnds polygons }
    requires shape { IsConvexAroundOrigin shape.now }
    ensures ok { OnOk result ((grown : List (List (List Point)))
        × IsJoined join rule (edges_of polygons.entry) shape.now grown
        × Appends grown out.old out.new) }
    ensures err { OnErr result (AreExtended out.old out.new) }
    ensures fault { IfErr result (IsJoinedFault join rule (edges_of polygons.entry) shape.now) }
{
    let alloc = *out.points.allocator();
    let mut status = GrowingStatus::new(alloc)?;
    let raw = joined_around(alloc, polygons, rule, shape, join, &mut status)?;
    append_wound(&raw, FillRule::NonZero, &mut status, out)?;
    Ok(())
}

// The curve around the rings that bound the inside.
fn joined_around<C, A>(
    alloc: A,
    polygons: Rings,
    rule: FillRule,
    shape: &[Point],
    join: Join,
    status: &mut C,
) -> Result<Vec<Edge, A>, MinkowskiFault>
where
    C: StatusCollection<ActiveEdge, i64, ()>,
    A: Allocator + Copy,
    requires ends { HasEnds polygons }
    requires shape { IsConvexAroundOrigin shape.now }
    ensures ok { IfOk result (λ raw. (rings : List (List Point))
        × IsBoundary rule Union (real_edges (edges_of polygons.entry)) [] rings
        × (raw.items ≡ joined_edges join shape.now rings)) }
    ensures fault { IfErr result (IsJoinedFault join rule (edges_of polygons.entry) shape.now) }
    ensures empty { OnOk result (C.stored status.new ≡ []) }
{
    let (points, ends) = bounding_rings(alloc, polygons, rule, status)?;
    joined_of_rings(alloc, shape, join, &points, &ends)
}

// That of the rings that stop at these ends.
fn joined_of_rings<A: Allocator>(
    alloc: A,
    shape: &[Point],
    join: Join,
    points: &[Point],
    ends: &[usize],
) -> Result<Vec<Edge, A>, MinkowskiFault>
    requires ends { AreEnds 0 ends.now (length points.now) }
    requires shape { IsConvexAroundOrigin shape.now }
    ensures ok { IfOk result (λ raw. raw.items ≡ joined_edges join shape.now (rings_of points.now 0 ends.now)) }
    ensures fault { IfErr result (IsRawFault (joined_edges join shape.now (rings_of points.now 0 ends.now))) }
{
    let mut raw = Vec::with_capacity(alloc, points.len())?;
    for ring in 0..ends.len() {
        append_joined_of_ring(shape, ring_at(points, ends, ring), join, &mut raw)?;
    }
    Ok(raw)
}
