//! What is left of polygons where a shape is taken along outside of them.

ghost use Rattle.std.specs.Prelude.{◌≡◌, ◌<◌, ◌↔◌, ◌⊎◌, [], List, All, Err, IfErr, IfOk, OnErr, OnOk, length, map};
ghost use Rattle.plane.specs.declared.point.Point.{Point};
ghost use Rattle.overlay.specs.Boundary.{IsBoundary};
ghost use Rattle.overlay.specs.Polygons.{Appends, AreAsBefore, AreExtended};
ghost use Rattle.overlay.specs.Rings.{AreEnds, HasEnds, edges_of, real_edges, rings_of};
ghost use Rattle.overlay.specs.declared.fill.rules.Operation.TheVariants.{Union};
ghost use Rattle.offset.specs.declared.fault.MinkowskiFault.TheVariants.{Range};
ghost use Rattle.offset.specs.Cuts.{IsCurve};
ghost use Rattle.offset.specs.Faults.{IsPointFault, IsRawFault};
ghost use Rattle.offset.specs.Minkowski.{IsErosionFault, IsShrunk};
ghost use Rattle.offset.specs.Raw.{IsIn32Bits, IsPointIn32Bits, backwards, place_back, raw_edges, raw_inside};
ghost use Rattle.offset.specs.Shape.{IsConvexAroundOrigin, opposite, opposite_shape};

use crate::cuts::append_curve_of_ring;
use crate::fault::MinkowskiFault;
use crate::shape::is_convex_around_origin;
use crate::sum::{append_wound, bounding_rings};
use i_tree::status::exp::StatusCollection;
use overlay::fill::FillRule;
use overlay::rings::{are_ends, ring_at};
use overlay::{Polygons, Rings};
use plane::edge::Edge;
use plane::point::Point;
use plane::sweep_line::{ActiveEdge, GrowingStatus};
use std::alloc::{AllocError, Allocator};

/// Appends the polygons of what is left of the inside of the polygons, by the rule, where the shape is taken along outside: of each
/// point from which the whole shape lies inside. So polygons shrink by the shape on all sides: narrow parts go, and polygons come
/// apart there.
///
/// The shape is a convex polygon with the origin inside, counterclockwise (`is_convex_around_origin`). It is the opposite of the
/// shape that what is outside grows by.
///
/// The polygons lie where the raw curve of what bounds the inside, the other way round, and of the shape turned by half a turn
/// winds below 0.
///
/// `Lengths` comes where the ends of the polygons don't rise or go behind the points, and nothing else is done then. Else `Shape`
/// comes where the shape isn't one. Else `Range` comes where a corner of that curve is no point of 32 bits, or of the shape turned
/// (a corner at -2^31 isn't), and `OutOfMemory` where memory was refused. After any fault `out` is as it was. The memory is that of
/// `out`.
pub fn erode<A: Allocator + Copy>(
    polygons: Rings,
    rule: FillRule,
    shape: &[Point],
    out: &mut Polygons<A>,
) -> Result<(), MinkowskiFault>
    ensures ok { OnOk result (IsConvexAroundOrigin shape.now × ((left : List (List (List Point)))
        × IsShrunk rule (edges_of polygons.entry) shape.now left
        × Appends left out.old out.new)) }
    ensures err { OnErr result (AreAsBefore out.old out.new) }
    ensures lengths { (result ≡ Err MinkowskiFault.Lengths) ↔ ¬ (HasEnds polygons.entry) }
    ensures shape { (result ≡ Err MinkowskiFault.Shape) ↔ (HasEnds polygons.entry × (¬ (IsConvexAroundOrigin shape.now))) }
    ensures range { (result ≡ Err MinkowskiFault.Range) → (¬ (All IsPointIn32Bits (opposite_shape shape.now)))
        ⊎ ((rings : List (List Point))
        × IsBoundary rule Union (real_edges (edges_of polygons.entry)) [] rings
        × (¬ (All IsIn32Bits (raw_inside shape.now rings)))) }
{
    if !are_ends(polygons) {
        return Err(MinkowskiFault::Lengths);
    }
    if !is_convex_around_origin(shape) {
        return Err(MinkowskiFault::Shape);
    }
    let points = out.points.len();
    let rings = out.ring_ends.len();
    let count = out.polygon_ends.len();
    let outcome = append_erosion(polygons, rule, shape, out);
    if outcome.is_err() {
        out.points.truncate(points);
        out.ring_ends.truncate(rings);
        out.polygon_ends.truncate(count);
    }
    outcome
}

// The same, from right ends and a shape on. Where it is refused, it may have appended something.
fn append_erosion<A: Allocator + Copy>(
    polygons: Rings,
    rule: FillRule,
    shape: &[Point],
    out: &mut Polygons<A>,
) -> Result<(), MinkowskiFault>
    requires ends { HasEnds polygons }
    requires shape { IsConvexAroundOrigin shape.now }
    ensures ok { OnOk result ((left : List (List (List Point)))
        × IsShrunk rule (edges_of polygons.entry) shape.now left
        × Appends left out.old out.new) }
    ensures err { OnErr result (AreExtended out.old out.new) }
    ensures fault { IfErr result (IsErosionFault rule (edges_of polygons.entry) shape.now) }
{
    let alloc = *out.points.allocator();
    let mut status = GrowingStatus::new(alloc)?;
    let raw = raw_within(alloc, polygons, rule, shape, &mut status)?;
    append_wound(&raw, FillRule::Negative, &mut status, out)?;
    Ok(())
}

// The raw curve within the rings that bound the inside.
fn raw_within<C, A>(
    alloc: A,
    polygons: Rings,
    rule: FillRule,
    shape: &[Point],
    status: &mut C,
) -> Result<Vec<Edge, A>, MinkowskiFault>
where
    C: StatusCollection<ActiveEdge, i64, ()>,
    A: Allocator + Copy,
    requires ends { HasEnds polygons }
    requires shape { IsConvexAroundOrigin shape.now }
    ensures ok { IfOk result (λ raw. (rings : List (List Point))
        × IsBoundary rule Union (real_edges (edges_of polygons.entry)) [] rings
        × IsCurve (opposite_shape shape.now) (map backwards rings) raw.items) }
    ensures fault { IfErr result (IsErosionFault rule (edges_of polygons.entry) shape.now) }
    ensures empty { OnOk result (C.stored status.new ≡ []) }
{
    let turned = turned_shape(alloc, shape)?;
    let (points, ends) = bounding_rings(alloc, polygons, rule, status)?;
    raw_of_rings_back(alloc, &turned, &points, &ends)
}

// That of the rings that stop at these ends, each the other way round.
fn raw_of_rings_back<A: Allocator + Copy>(
    alloc: A,
    shape: &[Point],
    points: &[Point],
    ends: &[usize],
) -> Result<Vec<Edge, A>, MinkowskiFault>
    requires ends { AreEnds 0 ends.now (length points.now) }
    requires shape { IsConvexAroundOrigin shape.now }
    ensures ok { IfOk result (λ raw. IsCurve shape.now (map backwards (rings_of points.now 0 ends.now)) raw.items) }
    ensures fault { IfErr result (IsRawFault (raw_edges shape.now (map backwards (rings_of points.now 0 ends.now)))) }
{
    let mut raw = Vec::with_capacity(alloc, points.len())?;
    for ring in 0..ends.len() {
        let back = ring_back(alloc, ring_at(points, ends, ring))?;
        append_curve_of_ring(shape, &back, &mut raw)?;
    }
    Ok(raw)
}

// The ring the other way round, from the same point on.
fn ring_back<A: Allocator>(alloc: A, ring: &[Point]) -> Result<Vec<Point, A>, AllocError>
    ensures { IfOk result (λ back. back.items ≡ backwards ring.now) }
{
    let mut back = Vec::with_capacity(alloc, ring.len())?;
    for index in 0..ring.len() {
        back.push(ring[place_back(index, ring.len())])?;
    }
    Ok(back)
}

// The place in the ring of what stands at this place in it the other way round.
fn place_back(index: usize, count: usize) -> usize
    requires { index < count }
    ensures { result ≡ place_back index count }
{
    if index == 0 { 0 } else { count - index }
}

// The shape turned by half a turn.
fn turned_shape<A: Allocator>(alloc: A, shape: &[Point]) -> Result<Vec<Point, A>, MinkowskiFault>
    ensures ok { IfOk result (λ turned. turned.items ≡ opposite_shape shape.now) }
    ensures fault { IfErr result (IsPointFault (opposite_shape shape.now)) }
{
    let mut turned = Vec::new(alloc);
    for corner in shape {
        turned.push(opposite(*corner)?)?;
    }
    Ok(turned)
}

// The point on the other side of the origin.
fn opposite(point: Point) -> Result<Point, MinkowskiFault>
    ensures ok { IfOk result (λ told. told ≡ opposite point) }
    ensures fault { IfErr result (λ fault. (fault ≡ Range) × (¬ (IsPointIn32Bits (opposite point)))) }
{
    let zero: i32 = 0;
    match (zero.checked_sub(point.x), zero.checked_sub(point.y)) {
        (Some(x), Some(y)) => Ok(Point { x, y }),
        _ => Err(MinkowskiFault::Range),
    }
}
