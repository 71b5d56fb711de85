//! Lines that grow: the sum of paths and a shape.

ghost use Rattle.std.specs.Prelude.{◌≡◌, ◌<◌, ◌+◌, ◌++◌, ◌∷◌, ◌↔◌, [], List, All, Err, IfErr, IfOk, OnErr, OnOk, get_or, length};
ghost use Rattle.std.specs.List.{flat_map};
ghost use Rattle.plane.specs.declared.point.Point.{Point};
ghost use Rattle.noding.specs.Windings.{pieces};
ghost use Rattle.overlay.specs.Polygons.{Appends, AreAsBefore, AreExtended};
ghost use Rattle.overlay.specs.Rings.{AreEnds, HasEnds, rings_of};
ghost use Rattle.offset.specs.Faults.{IsRawFault};
ghost use Rattle.offset.specs.Lines.{AreGrownLines, along, raw_of_path, raw_of_paths, shape_at};
ghost use Rattle.offset.specs.Raw.{IsIn32Bits, nowhere};
ghost use Rattle.offset.specs.Shape.{IsConvexAroundOrigin};

use crate::fault::MinkowskiFault;
use crate::raw::{furthest, push_moved};
use crate::shape::{is_convex_around_origin, side_at};
use crate::sum::append_wound;
use overlay::fill::FillRule;
use overlay::rings::{are_ends, ring_at};
use overlay::{Polygons, Rings};
use plane::edge::{Edge, edge_between, end_of, reverse, start_of};
use plane::point::Point;
use plane::sweep_line::GrowingStatus;
use std::alloc::Allocator;

/// Appends the polygons of the Minkowski sum of lines and the shape: of each point that one of a line and one of the shape add up
/// to. So lines become as wide as the shape is, and their ends take its form; lines that come to touch become one.
///
/// A line is a path: it goes from each of its points to the next one, and not back to the first. A path of one point becomes the
/// shape there. The paths are given as `Rings` are: their points, one path after another, and where each stops among these.
///
/// The shape is a convex polygon with the origin inside, counterclockwise (`is_convex_around_origin`).
///
/// The polygons wind around what the shape winds around at some point of a path, or the parallelogram along some edge: the edge
/// moved by the corner of the shape that lies furthest to the right of it, and the edge moved by that furthest to the left.
///
/// `Lengths` comes where the ends of the paths don't rise or go behind the points, and nothing else is done then. Else `Shape`
/// comes where the shape isn't one. Else `Range` comes where a corner of these shapes and parallelograms is no point of 32 bits,
/// and `OutOfMemory` where memory was refused. After any fault `out` is as it was. The memory is that of `out`.
pub fn grow_lines<A: Allocator + Copy>(
    lines: Rings,
    shape: &[Point],
    out: &mut Polygons<A>,
) -> Result<(), MinkowskiFault>
    ensures ok { OnOk result (IsConvexAroundOrigin shape.now × ((grown : List (List (List Point)))
        × AreGrownLines (rings_of lines.entry.points.now 0 lines.entry.ends.now) shape.now grown
        × Appends grown out.old out.new)) }
    ensures err { OnErr result (AreAsBefore out.old out.new) }
    ensures lengths { (result ≡ Err MinkowskiFault.Lengths) ↔ ¬ (HasEnds lines.entry) }
    ensures shape { (result ≡ Err MinkowskiFault.Shape) ↔ (HasEnds lines.entry × (¬ (IsConvexAroundOrigin shape.now))) }
    ensures range { (result ≡ Err MinkowskiFault.Range)
        → ¬ (All IsIn32Bits (raw_of_paths shape.now (rings_of lines.entry.points.now 0 lines.entry.ends.now))) }
{
    if !are_ends(lines) {
        return Err(MinkowskiFault::Lengths);
    }
    if !is_convex_around_origin(shape) {
        return Err(MinkowskiFault::Shape);
    }
    let points = out.points.len();
    let rings = out.ring_ends.len();
    let count = out.polygon_ends.len();
    let outcome = append_lines(lines, shape, out);
    if outcome.is_err() {
        out.points.truncate(points);
        out.ring_ends.truncate(rings);
        out.polygon_ends.truncate(count);
    }
    outcome
}

// The same, from right ends and a shape on. Where it is refused, it may have appended something.
fn append_lines<A: Allocator + Copy>(
    lines: Rings,
    shape: &[Point],
    out: &mut Polygons<A>,
) -> Result<(), MinkowskiFault>
    requires ends { HasEnds lines }
    requires shape { IsConvexAroundOrigin shape.now }
    ensures ok { OnOk result ((grown : List (List (List Point)))
        × AreGrownLines (rings_of lines.entry.points.now 0 lines.entry.ends.now) shape.now grown
        × Appends grown out.old out.new) }
    ensures err { OnErr result (AreExtended out.old out.new) }
    ensures fault { IfErr result (IsRawFault (raw_of_paths shape.now (rings_of lines.entry.points.now 0 lines.entry.ends.now))) }
{
    let alloc = *out.points.allocator();
    let mut status = GrowingStatus::new(alloc)?;
    let raw = raw_of_lines(alloc, shape, lines.points, lines.ends)?;
    append_wound(&raw, FillRule::NonZero, &mut status, out)?;
    Ok(())
}

// The shapes and parallelograms of the paths that stop at these ends.
fn raw_of_lines<A: Allocator>(
    alloc: A,
    shape: &[Point],
    points: &[Point],
    ends: &[usize],
) -> Result<Vec<Edge, A>, MinkowskiFault>
    requires { AreEnds 0 ends.now (length points.now) }
    ensures ok { IfOk result (λ raw. raw.items ≡ raw_of_paths shape.now (rings_of points.now 0 ends.now)) }
    ensures fault { IfErr result (IsRawFault (raw_of_paths shape.now (rings_of points.now 0 ends.now))) }
{
    let mut raw = Vec::new(alloc);
    for line in 0..ends.len() {
        append_raw_of_path(shape, ring_at(points, ends, line), &mut raw)?;
    }
    Ok(raw)
}

// Appends those of a path.
fn append_raw_of_path<A: Allocator>(
    shape: &[Point],
    path: &[Point],
    edges: &mut Vec<Edge, A>,
) -> Result<(), MinkowskiFault>
    ensures ok { OnOk result (edges.new.items ≡ edges.old.items ++ raw_of_path shape.now path.now) }
    ensures fault { IfErr result (IsRawFault (raw_of_path shape.now path.now)) }
{
    append_shapes(shape, path, edges)?;
    append_alongs(shape, path, edges)
}

// Appends the shape at each of the points.
fn append_shapes<A: Allocator>(
    shape: &[Point],
    points: &[Point],
    edges: &mut Vec<Edge, A>,
) -> Result<(), MinkowskiFault>
    ensures ok { OnOk result (edges.new.items ≡ edges.old.items ++ flat_map (shape_at shape.now) points.now) }
    ensures fault { IfErr result (IsRawFault (flat_map (shape_at shape.now) points.now)) }
{
    for index in 0..points.len() {
        append_shape_at(shape, points[index], edges)?;
    }
    Ok(())
}

// Appends the shape at a point.
fn append_shape_at<A: Allocator>(
    shape: &[Point],
    point: Point,
    edges: &mut Vec<Edge, A>,
) -> Result<(), MinkowskiFault>
    ensures ok { OnOk result (edges.new.items ≡ edges.old.items ++ shape_at shape.now point) }
    ensures fault { IfErr result (IsRawFault (shape_at shape.now point)) }
{
    for index in 0..shape.len() {
        push_moved(point, side_at(shape, index), edges)?;
    }
    Ok(())
}

// Appends the parallelogram along each edge of the path.
fn append_alongs<A: Allocator>(
    shape: &[Point],
    path: &[Point],
    edges: &mut Vec<Edge, A>,
) -> Result<(), MinkowskiFault>
    ensures ok { OnOk result (edges.new.items ≡ edges.old.items ++ flat_map (along shape.now) (pieces path.now)) }
    ensures fault { IfErr result (IsRawFault (flat_map (along shape.now) (pieces path.now))) }
{
    for index in 0..path.len().saturating_sub(1) {
        append_along(shape, piece_at(path, index), edges)?;
    }
    Ok(())
}

// The edge of the path from the point of this number to the next one.
fn piece_at(path: &[Point], index: usize) -> Edge
    requires { index + 1 < length path.now }
    ensures { result ≡ get_or (pieces path.now) index nowhere }
{
    edge_between(path[index], path[index + 1])
}

// Appends the parallelogram along an edge.
fn append_along<A: Allocator>(
    shape: &[Point],
    edge: Edge,
    edges: &mut Vec<Edge, A>,
) -> Result<(), MinkowskiFault>
    ensures ok { OnOk result (edges.new.items ≡ edges.old.items ++ along shape.now edge) }
    ensures fault { IfErr result (IsRawFault (along shape.now edge)) }
{
    let back = reverse(edge);
    let right = furthest(shape, edge);
    let left = furthest(shape, back);
    push_moved(right, edge, edges)?;
    push_moved(end_of(edge), edge_between(right, left), edges)?;
    push_moved(left, back, edges)?;
    push_moved(start_of(edge), edge_between(left, right), edges)
}
