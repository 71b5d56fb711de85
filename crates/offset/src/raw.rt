//! The raw curve around the sum of rings and a shape.

ghost use Rattle.std.specs.Bool.{OnTrue};
ghost use Rattle.std.specs.Prelude.{◌≡◌, ◌<◌, ◌++◌, ◌∷◌, [], true, IfErr, IfOk, OnOk, filter, get_or, length, map};
ghost use Rattle.plane.specs.Ends.{edge_between, end_of};
ghost use Rattle.overlay.specs.Contours.Rings.{has_two_ends};
ghost use Rattle.offset.specs.declared.fault.MinkowskiFault.TheVariants.{Range};
ghost use Rattle.offset.specs.Faults.{IsRawFault};
ghost use Rattle.offset.specs.Near.{IsOfFurthest, corner_behind, sides_at};
ghost use Rattle.offset.specs.Raw.{IsPointIn32Bits, fan, furthest, is_furthest, is_of_fan, joint, moved, moved_edge, nowhere, raw_of_two, ways, ways_by};
ghost use Rattle.offset.specs.Shape.{IsConvexAroundOrigin, sides};

use crate::fault::MinkowskiFault;
use crate::shape::{next_place, side_at, turn};
use plane::edge::{Edge, edge_between, end_of, start_of};
use plane::point::Point;
use std::alloc::Allocator;

/// The place of the side behind which the furthest corner of the ring's first edge stands, if it has one.
pub fn first_place(corners: &[Point], ring: &[Point]) -> usize
    ensures { 0 < length ring.now → IsOfFurthest corners.now (get_or (sides ring.now) 0 nowhere) result }
{
    if ring.is_empty() {
        return 0;
    }
    furthest_place(corners, side_at(ring, 0))
}

/// Appends the raw curve of an edge and the next one. The furthest corner of the edge stands behind the side at the place `near`,
/// and from then on that of the next one does.
pub fn append_raw_of_two<A: Allocator>(
    corners: &[Point],
    edge: Edge,
    next: Edge,
    near: &mut usize,
    edges: &mut Vec<Edge, A>,
) -> Result<(), MinkowskiFault>
    requires shape { IsConvexAroundOrigin corners.now }
    requires near { IsOfFurthest corners.now edge near.old }
    ensures ok { OnOk result (edges.new.items ≡ edges.old.items ++ raw_of_two corners.now (edge, next)) }
    ensures fault { IfErr result (IsRawFault (raw_of_two corners.now (edge, next))) }
    ensures near { OnOk result (IsOfFurthest corners.now next near.new) }
{
    let from = corner_behind(corners, *near);
    push_moved(from, edge, edges)?;
    *near = place_near(corners, next, *near);
    let to = corner_behind(corners, *near);
    if differ(from, to) {
        append_joint(corners, edge, next, from, to, edges)
    } else {
        Ok(())
    }
}

// Appends what joins the edge, moved by the one corner, with the next one, moved by the other.
fn append_joint<A: Allocator>(
    corners: &[Point],
    edge: Edge,
    next: Edge,
    from: Point,
    to: Point,
    edges: &mut Vec<Edge, A>,
) -> Result<(), MinkowskiFault>
    requires from { from ≡ furthest corners.now edge }
    requires to { to ≡ furthest corners.now next }
    requires apart { has_two_ends (edge_between from to) ≡ true }
    ensures ok { OnOk result (edges.new.items ≡ edges.old.items ++ joint corners.now edge next) }
    ensures fault { IfErr result (IsRawFault (joint corners.now edge next)) }
{
    if turn(edge, next) > 0 {
        append_fan(corners, edge, next, edges)
    } else {
        append_ways_by(from, to, end_of(edge), edges)
    }
}

/// Appends the sides between the furthest corners of the edges, around the point between these.
pub fn append_fan<A: Allocator>(
    corners: &[Point],
    edge: Edge,
    next: Edge,
    edges: &mut Vec<Edge, A>,
) -> Result<(), MinkowskiFault>
    ensures ok { OnOk result (edges.new.items ≡ edges.old.items ++ map (moved_edge (end_of edge)) (fan corners.now edge next)) }
    ensures fault { IfErr result (IsRawFault (map (moved_edge (end_of edge)) (fan corners.now edge next))) }
{
    for index in 0..corners.len() {
        let side = side_at(corners, index);
        if is_of_fan(edge, next, side) {
            push_moved(end_of(edge), side, edges)?;
        }
    }
    Ok(())
}

/// Appends the ways to the point between the edges, and from it, if these go to different corners.
pub fn append_ways<A: Allocator>(
    corners: &[Point],
    edge: Edge,
    next: Edge,
    edges: &mut Vec<Edge, A>,
) -> Result<(), MinkowskiFault>
    ensures ok { OnOk result (edges.new.items ≡ edges.old.items ++ ways corners.now edge next) }
    ensures fault { IfErr result (IsRawFault (ways corners.now edge next)) }
{
    let from = furthest(corners, edge);
    let to = furthest(corners, next);
    if differ(from, to) {
        append_ways_by(from, to, end_of(edge), edges)
    } else {
        Ok(())
    }
}

// Appends the ways to the point from where the one corner moves it, and on to where the other one does.
fn append_ways_by<A: Allocator>(
    from: Point,
    to: Point,
    at: Point,
    edges: &mut Vec<Edge, A>,
) -> Result<(), MinkowskiFault>
    ensures ok { OnOk result (edges.new.items ≡ edges.old.items ++ ways_by from to at) }
    ensures fault { IfErr result (IsRawFault (ways_by from to at)) }
{
    edges.push(edge_between(moved(from, at)?, at))?;
    edges.push(edge_between(at, moved(to, at)?))?;
    Ok(())
}

/// Whether these are two points.
pub fn differ(one: Point, other: Point) -> bool
    ensures { result ≡ has_two_ends (edge_between one other) }
{
    one.x != other.x || one.y != other.y
}

/// The corner that lies furthest to the right of the edge, the first of two.
pub fn furthest(corners: &[Point], edge: Edge) -> Point
    ensures { result ≡ furthest corners.now edge }
{
    corner_behind(corners, furthest_place(corners, edge))
}

/// The place of the side behind which it stands. It is looked for first at this place, and beside it: that of an edge before this
/// one.
pub fn place_near(corners: &[Point], edge: Edge, near: usize) -> usize
    requires { IsConvexAroundOrigin corners.now }
    ensures { IsOfFurthest corners.now edge result }
{
    if is_of_furthest(corners, edge, near) {
        return near;
    }
    let after = near.saturating_add(1);
    if is_of_furthest(corners, edge, after) {
        return after;
    }
    let before = near.saturating_sub(1);
    if is_of_furthest(corners, edge, before) {
        return before;
    }
    furthest_place(corners, edge)
}

// Whether there is a side at this place, and the corner behind it is the furthest.
fn is_of_furthest(corners: &[Point], edge: Edge, place: usize) -> bool
    requires { IsConvexAroundOrigin corners.now }
    ensures { OnTrue result (IsOfFurthest corners.now edge place) }
{
    place < corners.len() && is_furthest_at(corners, edge, place)
}

// The place of the side behind which the furthest corner stands, or the one behind all where there is none.
fn furthest_place(corners: &[Point], edge: Edge) -> usize
    ensures { corner_behind corners.now result ≡ furthest corners.now edge }
{
    for index in 0..corners.len() {
        if is_furthest_at(corners, edge, index) {
            return index;
        }
    }
    corners.len()
}

/// The corner behind the side at this place, or the origin where there is no such side.
pub fn corner_behind(corners: &[Point], place: usize) -> Point
    ensures { result ≡ corner_behind corners.now place }
{
    if place < corners.len() {
        corners[next_place(place, corners.len())]
    } else {
        Point { x: 0, y: 0 }
    }
}

// Whether the corner behind the side at this place is the furthest.
fn is_furthest_at(corners: &[Point], edge: Edge, place: usize) -> bool
    requires { place < length corners.now }
    ensures { result ≡ is_furthest edge (sides_at corners.now place) }
{
    let next = next_place(place, corners.len());
    is_furthest(edge, side_at(corners, place), side_at(corners, next))
}

// Whether the corner between the sides is.
fn is_furthest(edge: Edge, side: Edge, next: Edge) -> bool
    ensures { result ≡ is_furthest edge (side, next) }
{
    turn(edge, side) < 0 && 0 <= turn(edge, next)
}

// Whether the side lies between the furthest corners of the edges.
fn is_of_fan(edge: Edge, next: Edge, side: Edge) -> bool
    ensures { result ≡ is_of_fan edge next side }
{
    0 <= turn(edge, side) && turn(next, side) < 0
}

/// Pushes the edge, moved.
pub fn push_moved<A: Allocator>(
    by: Point,
    edge: Edge,
    edges: &mut Vec<Edge, A>,
) -> Result<(), MinkowskiFault>
    ensures ok { OnOk result (edges.new.items ≡ edges.old.items ++ moved_edge by edge ∷ []) }
    ensures fault { IfErr result (IsRawFault (moved_edge by edge ∷ [])) }
{
    let from = moved(by, start_of(edge))?;
    let to = moved(by, end_of(edge))?;
    edges.push(edge_between(from, to))?;
    Ok(())
}

/// The point, moved by another one.
pub fn moved(by: Point, point: Point) -> Result<Point, MinkowskiFault>
    ensures ok { IfOk result (λ told. told ≡ moved by point) }
    ensures fault { IfErr result (λ fault. (fault ≡ Range) × (¬ (IsPointIn32Bits (moved by point)))) }
{
    match (by.x.checked_add(point.x), by.y.checked_add(point.y)) {
        (Some(x), Some(y)) => Ok(Point { x, y }),
        _ => Err(MinkowskiFault::Range),
    }
}
