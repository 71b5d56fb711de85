//! The Minkowski sum of polygons and a shape.

ghost use Rattle.std.specs.Prelude.{◌≡◌, ◌↔◌, [], List, All, Err, IfErr, IfOk, OnErr, OnOk, length};
ghost use Rattle.std.specs.List.{flat_map};
ghost use Rattle.plane.specs.declared.point.Point.{Point};
ghost use Rattle.noding.specs.Offsets.{AreJoined};
ghost use Rattle.noding.specs.Windings.{IsClosed};
ghost use Rattle.overlay.specs.Boundary.{IsBoundary};
ghost use Rattle.overlay.specs.Contours.Rings.{ring_edges};
ghost use Rattle.overlay.specs.Polygons.{Appends, AreAsBefore, AreExtended};
ghost use Rattle.overlay.specs.Rings.{AreEnds, HasEnds, edges_of, real_edges, rings_of};
ghost use Rattle.overlay.specs.declared.fill.rules.Operation.TheVariants.{Union};
ghost use Rattle.offset.specs.Cuts.{IsCurve};
ghost use Rattle.offset.specs.Faults.{IsRawFault};
ghost use Rattle.offset.specs.Minkowski.{IsGrown, IsSumFault, IsWound};
ghost use Rattle.offset.specs.Raw.{IsIn32Bits, raw_edges};
ghost use Rattle.offset.specs.Shape.{IsConvexAroundOrigin};

use crate::chained::append_boundary_of;
use crate::cuts::append_curve_of_ring;
use crate::fault::MinkowskiFault;
use crate::shape::is_convex_around_origin;
use i_tree::Refusal;
use i_tree::status::exp::StatusCollection;
use monotone_chains::call::ByChains;
use overlay::call::Bounding;
use overlay::fill::{Choice, FillRule, Operation};
use overlay::grouping::append_polygons;
use overlay::rings::{Operands, are_ends, ring_at};
use overlay::{Polygons, Rings};
use plane::edge::Edge;
use plane::point::Point;
use plane::sweep_line::{ActiveEdge, GrowingStatus};
use std::alloc::Allocator;

/// Appends the polygons of the Minkowski sum of what is inside of the polygons, by the rule, and the shape: of each point that
/// one of the inside and one of the shape add up to. So polygons grow by the shape on all sides: parts that come to touch become
/// one, and holes that are small close.
///
/// The shape is a convex polygon with the origin inside, counterclockwise (`is_convex_around_origin`).
///
/// The polygons wind as the curve that runs around the sum: each edge of what bounds the inside, moved by the corner of the shape
/// that lies furthest to the right of it, and what joins these at corners.
///
/// `Lengths` comes where the ends of the polygons don't rise or go behind the points, and nothing else is done then. Else `Shape`
/// comes where the shape isn't one. Else `Range` comes where a corner of that curve is no point of 32 bits, and `OutOfMemory`
/// where memory was refused. After any fault `out` is as it was. The memory is that of `out`.
pub fn minkowski<A: Allocator + Copy>(
    polygons: Rings,
    rule: FillRule,
    shape: &[Point],
    out: &mut Polygons<A>,
) -> Result<(), MinkowskiFault>
    ensures ok { OnOk result (IsConvexAroundOrigin shape.now × ((grown : List (List (List Point)))
        × IsGrown rule (edges_of polygons.entry) shape.now grown
        × Appends grown out.old out.new)) }
    ensures err { OnErr result (AreAsBefore out.old out.new) }
    ensures lengths { (result ≡ Err MinkowskiFault.Lengths) ↔ ¬ (HasEnds polygons.entry) }
    ensures shape { (result ≡ Err MinkowskiFault.Shape) ↔ (HasEnds polygons.entry × (¬ (IsConvexAroundOrigin shape.now))) }
    ensures range { (result ≡ Err MinkowskiFault.Range) → (rings : List (List Point))
        × IsBoundary rule Union (real_edges (edges_of polygons.entry)) [] rings
        × (¬ (All IsIn32Bits (raw_edges shape.now rings))) }
{
    if !are_ends(polygons) {
        return Err(MinkowskiFault::Lengths);
    }
    if !is_convex_around_origin(shape) {
        return Err(MinkowskiFault::Shape);
    }
    let points = out.points.len();
    let rings = out.ring_ends.len();
    let count = out.polygon_ends.len();
    let outcome = append_sum(polygons, rule, shape, out);
    if outcome.is_err() {
        out.points.truncate(points);
        out.ring_ends.truncate(rings);
        out.polygon_ends.truncate(count);
    }
    outcome
}

// The same, from right ends and a shape on. Where it is refused, it may have appended something.
fn append_sum<A: Allocator + Copy>(
    polygons: Rings,
    rule: FillRule,
    shape: &[Point],
    out: &mut Polygons<A>,
) -> Result<(), MinkowskiFault>
    requires ends { HasEnds polygons }
    requires shape { IsConvexAroundOrigin shape.now }
    ensures ok { OnOk result ((grown : List (List (List Point)))
        × IsGrown rule (edges_of polygons.entry) shape.now grown
        × Appends grown out.old out.new) }
    ensures err { OnErr result (AreExtended out.old out.new) }
    ensures fault { IfErr result (IsSumFault rule (edges_of polygons.entry) shape.now) }
{
    let alloc = *out.points.allocator();
    let mut status = GrowingStatus::new(alloc)?;
    let raw = raw_around(alloc, polygons, rule, shape, &mut status)?;
    append_wound(&raw, FillRule::NonZero, &mut status, out)?;
    Ok(())
}

// The raw curve around the rings that bound the inside.
fn raw_around<C, A>(
    alloc: A,
    polygons: Rings,
    rule: FillRule,
    shape: &[Point],
    status: &mut C,
) -> Result<Vec<Edge, A>, MinkowskiFault>
where
    C: StatusCollection<ActiveEdge, i64, ()>,
    A: Allocator + Copy,
    requires ends { HasEnds polygons }
    requires shape { IsConvexAroundOrigin shape.now }
    ensures ok { IfOk result (λ raw. (rings : List (List Point))
        × IsBoundary rule Union (real_edges (edges_of polygons.entry)) [] rings
        × IsCurve shape.now rings raw.items) }
    ensures fault { IfErr result (IsSumFault rule (edges_of polygons.entry) shape.now) }
    ensures empty { OnOk result (C.stored status.new ≡ []) }
{
    let (points, ends) = bounding_rings(alloc, polygons, rule, status)?;
    raw_of_rings(alloc, shape, &points, &ends)
}

/// Rings that bound the inside of the polygons, by the rule: their points, and where each stops among these.
pub fn bounding_rings<C, A>(
    alloc: A,
    polygons: Rings,
    rule: FillRule,
    status: &mut C,
) -> Result<(Vec<Point, A>, Vec<usize, A>), Refusal>
where
    C: StatusCollection<ActiveEdge, i64, ()>,
    A: Allocator + Copy,
    requires { HasEnds polygons }
    ensures ok { IfOk result (λ made. (rings : List (List Point))
        × IsBoundary rule Union (real_edges (edges_of polygons.entry)) [] rings
        × AreJoined rings made.0.items made.1.items) }
    ensures empty { OnOk result (C.stored status.new ≡ []) }
{
    let operands = Operands {
        subject: polygons,
        clip: Rings {
            points: &[],
            ends: &[],
        },
    };
    let choice = Choice {
        rule,
        operation: Operation::Union,
    };
    let mut points = Vec::new(alloc);
    let mut ends = Vec::new(alloc);
    ByChains.append_boundary(operands, choice, status, &mut points, &mut ends)?;
    Ok((points, ends))
}

// That of the rings that stop at these ends.
fn raw_of_rings<A: Allocator + Copy>(
    alloc: A,
    shape: &[Point],
    points: &[Point],
    ends: &[usize],
) -> Result<Vec<Edge, A>, MinkowskiFault>
    requires ends { AreEnds 0 ends.now (length points.now) }
    requires shape { IsConvexAroundOrigin shape.now }
    ensures ok { IfOk result (λ raw. IsCurve shape.now (rings_of points.now 0 ends.now) raw.items) }
    ensures fault { IfErr result (IsRawFault (raw_edges shape.now (rings_of points.now 0 ends.now))) }
{
    let mut raw = Vec::with_capacity(alloc, points.len())?;
    for ring in 0..ends.len() {
        append_curve_of_ring(shape, ring_at(points, ends, ring), &mut raw)?;
    }
    Ok(raw)
}

/// Appends the polygons of what is inside of closed edges, by the rule. Where it is refused, it may have appended something.
pub fn append_wound<C, A>(
    edges: &[Edge],
    rule: FillRule,
    status: &mut C,
    out: &mut Polygons<A>,
) -> Result<(), Refusal>
where
    C: StatusCollection<ActiveEdge, i64, ()>,
    A: Allocator + Copy,
    requires { IsClosed edges.now }
    ensures ok { OnOk result ((polygons : List (List (List Point)))
        × IsWound rule edges.now polygons × Appends polygons out.old out.new) }
    ensures err { OnErr result (AreExtended out.old out.new) }
{
    let choice = Choice {
        rule,
        operation: Operation::Union,
    };
    let alloc = *out.points.allocator();
    let mut points = Vec::new(alloc);
    let mut ends = Vec::new(alloc);
    append_boundary_of(edges, choice, status, &mut points, &mut ends)?;
    append_polygons(status, &points, &ends, out)
}
