//! Whether polygons are valid, and what is wrong with them.

ghost use Rattle.std.specs.Prelude.{◌≡◌, ◌↔◌, ◌<◌, [], All, Err, IfErr, IfOk, MatchOption, false, get_or, length, map};
ghost use Rattle.std.specs.List.{flat_map};
ghost use Rattle.overlay.specs.Contours.Rings.{real_edges, ring_edges};
ghost use Rattle.overlay.specs.Nesting.{PolygonWindsOnce};
ghost use Rattle.overlay.specs.OnePiece.{ComesFree, TouchAlongNoCircle, TouchesIn};
ghost use Rattle.overlay.specs.Overlay.{polygon_edges};
ghost use Rattle.overlay.specs.Rings.{HasEnds, edges_of};
ghost use Rattle.validity.specs.Given.{HasPolygons, directed, polygons_of, rings_at};
ghost use Rattle.validity.specs.Meeting.{AllMayMeet};
ghost use Rattle.validity.specs.Validity.{IsFault, IsSimple, IsValid, WindOnce, WindOtherwise};
ghost use Rattle.validity.specs.declared.unchecked.Unchecked.TheVariants.{Lengths, OutOfMemory};

use crate::directed::{directed_polygon, directed_rings};
use crate::fault::Fault;
use crate::given::{PolygonSet, are_polygons, has_one_ring, is_one_ring};
use crate::meeting::first_wrong;
use crate::once::{first_above, first_below};
use crate::one_piece::{Contact, first_circle};
use crate::unchecked::Unchecked;
use overlay::Rings;
use overlay::rings::{append_real_ones, edges_of, ring_at};
use plane::point::Point;
use std::alloc::Allocator;

/// What is wrong with the polygons, or nothing where they are valid. Nothing is rounded but a place that is told.
///
/// Polygons are valid where each ring has three points or more, visits none twice, and neither crosses nor touches itself; where
/// edges of several rings meet only in single points, at an end of one of them; where holes lie in their outer ring, side by
/// side; and where no two polygons overlap. They may touch in points, and so may a hole and its outer ring, but rings along no
/// circle: else the inside falls apart. Rings may run either way, and a point that is the next one again, as the first one at the
/// end of its ring, counts once.
///
/// `Lengths` comes where ends of rings or polygons don't rise, or go behind what they end in, or some ring is of no polygon. Else
/// `OutOfMemory` comes where memory was refused. The memory is that of the allocator.
pub fn first_fault<A: Allocator + Copy>(
    alloc: A,
    set: PolygonSet,
) -> Result<Option<Fault>, Unchecked>
    ensures ok { IfOk result (λ found. MatchOption found (IsValid (rings_at set.entry.rings) (polygons_of set.entry))
        (IsFault (rings_at set.entry.rings) (polygons_of set.entry))) }
    ensures lengths { (result ≡ Err Lengths) ↔ ¬ (HasPolygons set.entry) }
{
    if !are_polygons(set) {
        return Err(Unchecked::Lengths);
    }
    let fault = fault_of(alloc, set)?;
    Ok(fault)
}

// The same from right ends on.
fn fault_of<A: Allocator + Copy>(alloc: A, set: PolygonSet) -> Result<Option<Fault>, Unchecked>
    requires { HasPolygons set }
    ensures ok { IfOk result (λ found. MatchOption found (IsValid (rings_at set.entry.rings) (polygons_of set.entry))
        (IsFault (rings_at set.entry.rings) (polygons_of set.entry))) }
    ensures fault { IfErr result (λ cause. cause ≡ OutOfMemory) }
{
    if let Some(fault) = fault_of_rings(alloc, set)? {
        return Ok(Some(fault));
    }
    if let Some(fault) = fault_of_edges(alloc, set)? {
        return Ok(Some(fault));
    }
    if let Some(fault) = fault_of_polygons(alloc, set)? {
        return Ok(Some(fault));
    }
    if let Some(fault) = fault_of_all(alloc, set)? {
        return Ok(Some(fault));
    }
    let fault = fault_of_pieces(alloc, set)?;
    Ok(fault)
}

// What is wrong with a ring by itself.
fn fault_of_rings<A: Allocator + Copy>(
    alloc: A,
    set: PolygonSet,
) -> Result<Option<Fault>, Unchecked>
    requires { HasPolygons set }
    ensures ok { IfOk result (λ found. MatchOption found (All IsSimple (rings_at set.entry.rings))
        (IsFault (rings_at set.entry.rings) (polygons_of set.entry))) }
    ensures fault { IfErr result (λ cause. cause ≡ OutOfMemory) }
{
    // The rings before this one are simple.
    for ring in 0..set.rings.ends.len() {
        if let Some(fault) = fault_of_ring(alloc, set, ring)? {
            return Ok(Some(fault));
        }
    }
    Ok(None)
}

// What is wrong with the ring at this place by itself.
fn fault_of_ring<A: Allocator + Copy>(
    alloc: A,
    set: PolygonSet,
    ring: usize,
) -> Result<Option<Fault>, Unchecked>
    requires set { HasPolygons set }
    requires ring { ring < length set.rings.ends.now }
    ensures ok { IfOk result (λ found. MatchOption found (IsSimple (get_or (rings_at set.entry.rings) ring []))
        (IsFault (rings_at set.entry.rings) (polygons_of set.entry))) }
    ensures fault { IfErr result (λ cause. cause ≡ OutOfMemory) }
{
    let mut edges = Vec::new(alloc);
    append_real_ones(ring_at(set.rings.points, set.rings.ends, ring), &mut edges)?;
    if edges.len() < 3 {
        return Ok(Some(Fault::FewPoints { ring }));
    }
    let Some(pair) = first_wrong(alloc, &edges, true)? else {
        return Ok(None);
    };
    Ok(Some(Fault::MeetsItself {
        ring,
        one: edges[pair.0],
        other: edges[pair.1],
    }))
}

// What is wrong with two edges, where rings are simple.
fn fault_of_edges<A: Allocator + Copy>(
    alloc: A,
    set: PolygonSet,
) -> Result<Option<Fault>, Unchecked>
    requires set { HasPolygons set }
    requires simple { All IsSimple (rings_at set.rings) }
    ensures ok { IfOk result (λ found. MatchOption found (AllMayMeet false (polygon_edges (map directed (polygons_of set.entry))))
        (IsFault (rings_at set.entry.rings) (polygons_of set.entry))) }
    ensures fault { IfErr result (λ cause. cause ≡ OutOfMemory) }
{
    // Edges of a simple ring meet at common ends.
    if is_one_ring(set) {
        return Ok(None);
    }
    let all = directed_rings(alloc, set)?;
    let edges = edges_of(alloc, all.rings())?;
    let Some(pair) = first_wrong(alloc, &edges, false)? else {
        return Ok(None);
    };
    Ok(Some(Fault::RingsCross {
        one: edges[pair.0],
        other: edges[pair.1],
    }))
}

// What is wrong with a polygon, where rings are simple and edges meet as they may.
fn fault_of_polygons<A: Allocator + Copy>(
    alloc: A,
    set: PolygonSet,
) -> Result<Option<Fault>, Unchecked>
    requires set { HasPolygons set }
    requires simple { All IsSimple (rings_at set.rings) }
    requires meet { AllMayMeet false (polygon_edges (map directed (polygons_of set))) }
    ensures ok { IfOk result (λ found. MatchOption found (All (λ polygon. PolygonWindsOnce (directed polygon)) (polygons_of set.entry))
        (IsFault (rings_at set.entry.rings) (polygons_of set.entry))) }
    ensures fault { IfErr result (λ cause. cause ≡ OutOfMemory) }
{
    // The polygons before this one wind once.
    for polygon in 0..set.polygon_ends.len() {
        if let Some(point) = point_outside(alloc, set, polygon)? {
            return Ok(Some(Fault::HolesOutside { polygon, point }));
        }
    }
    Ok(None)
}

// A point around which the polygon at this place winds otherwise than once or not at all, if there is any.
fn point_outside<A: Allocator + Copy>(
    alloc: A,
    set: PolygonSet,
    polygon: usize,
) -> Result<Option<Point>, Unchecked>
    requires set { HasPolygons set }
    requires polygon { polygon < length set.polygon_ends.now }
    requires simple { All IsSimple (rings_at set.rings) }
    requires meet { AllMayMeet false (polygon_edges (map directed (polygons_of set))) }
    ensures ok { IfOk result (λ found. MatchOption found (PolygonWindsOnce (directed (get_or (polygons_of set.entry) polygon [])))
        (λ _. WindOtherwise (flat_map ring_edges (directed (get_or (polygons_of set.entry) polygon []))))) }
    ensures fault { IfErr result (λ cause. cause ≡ OutOfMemory) }
{
    // A simple ring by itself winds once or not at all.
    if has_one_ring(set, polygon) {
        return Ok(None);
    }
    let own = directed_polygon(alloc, set, polygon)?;
    let found = first_below(alloc, own)?;
    Ok(found)
}

// What is wrong with all polygons together, where edges meet as they may and each polygon winds once or not at all.
fn fault_of_all<A: Allocator + Copy>(alloc: A, set: PolygonSet) -> Result<Option<Fault>, Unchecked>
    requires set { HasPolygons set }
    requires each_once { All (λ polygon. PolygonWindsOnce (directed polygon)) (polygons_of set) }
    requires meet { AllMayMeet false (polygon_edges (map directed (polygons_of set))) }
    ensures ok { IfOk result (λ found. MatchOption found (WindOnce (polygon_edges (map directed (polygons_of set.entry))))
        (IsFault (rings_at set.entry.rings) (polygons_of set.entry))) }
    ensures fault { IfErr result (λ cause. cause ≡ OutOfMemory) }
{
    // One polygon alone winds as it does by itself.
    if set.polygon_ends.len() == 1 {
        return Ok(None);
    }
    let all = directed_rings(alloc, set)?;
    let Some(point) = first_above(alloc, all)? else {
        return Ok(None);
    };
    Ok(Some(Fault::PolygonsOverlap { point }))
}

// What is wrong with the inside of a polygon.
fn fault_of_pieces<A: Allocator + Copy>(
    alloc: A,
    set: PolygonSet,
) -> Result<Option<Fault>, Unchecked>
    requires { HasPolygons set }
    ensures ok { IfOk result (λ found. MatchOption found (All (λ polygon. TouchAlongNoCircle (directed polygon)) (polygons_of set.entry))
        (IsFault (rings_at set.entry.rings) (polygons_of set.entry))) }
    ensures fault { IfErr result (λ cause. cause ≡ OutOfMemory) }
{
    // The insides of the polygons before this one are one piece.
    for polygon in 0..set.polygon_ends.len() {
        if let Some(touch) = circle_in(alloc, set, polygon)? {
            return Ok(Some(Fault::Disconnected {
                polygon,
                ring: touch.ring,
                point: touch.point,
            }));
        }
    }
    Ok(None)
}

// A ring of the polygon at this place and a point in which it touches others, along a circle, if there are any.
fn circle_in<A: Allocator + Copy>(
    alloc: A,
    set: PolygonSet,
    polygon: usize,
) -> Result<Option<Contact>, Unchecked>
    requires set { HasPolygons set }
    requires polygon { polygon < length set.polygon_ends.now }
    ensures ok { IfOk result (λ found. MatchOption found (TouchAlongNoCircle (directed (get_or (polygons_of set.entry) polygon [])))
        (λ touch. TouchesIn (directed (get_or (polygons_of set.entry) polygon [])) touch.ring touch.point
        × (¬ (ComesFree (directed (get_or (polygons_of set.entry) polygon [])) touch.ring touch.point)))) }
    ensures fault { IfErr result (λ cause. cause ≡ OutOfMemory) }
{
    // One ring by itself touches no other.
    if has_one_ring(set, polygon) {
        return Ok(None);
    }
    let own = directed_polygon(alloc, set, polygon)?;
    let found = first_circle(alloc, own.rings())?;
    Ok(found)
}
