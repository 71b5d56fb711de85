//! Polygons on the heap, which an overlay has made.

ghost use Rattle.std.specs.Prelude.{◌≡◌, ◌∷◌, IfOk};
ghost use Rattle.std.specs.Vec.{vec_ptr, vec_len};
ghost use Rattle.std.specs.Option.{IsSome};
ghost use denote.Param.Send.{IsSend};

use crate::raw::Raw;
use overlay::{Point, Polygons};
use std::alloc::{AllocError, Allocator, Global};

/// The points of polygons, one ring behind the other, at which places among them each ring begins and stops, and at which
/// places among the rings each polygon does; and where the first of each lies. C reads them there.
#[derive(Drop)]
pub struct PolygonLists {
    pub(crate) points: *const Point,
    pub(crate) point_count: usize,
    pub(crate) ring_offsets: *const usize,
    pub(crate) ring_offset_count: usize,
    pub(crate) polygon_offsets: *const usize,
    pub(crate) polygon_offset_count: usize,
    pub(crate) held_points: Vec<Point, Global>,
    pub(crate) held_ring_offsets: Vec<usize, Global>,
    pub(crate) held_polygon_offsets: Vec<usize, Global>,
    ghost points_told: { (points ≡ vec_ptr held_points) × (point_count ≡ vec_len held_points) },
    ghost rings_told: { (ring_offsets ≡ vec_ptr held_ring_offsets) × (ring_offset_count ≡ vec_len held_ring_offsets) },
    ghost polygons_told: { (polygon_offsets ≡ vec_ptr held_polygon_offsets) × (polygon_offset_count ≡ vec_len held_polygon_offsets) },
}

// The pointers lead into memory that is the polygons' own.
unsafe impl Send for PolygonLists {}

// Another thread may take them over.
fn may_be_sent(polygons: Box<PolygonLists, Global>) {
    take_over(polygons);
}

fn take_over<T: Send + Drop>(_value: T)
    requires { IsSend T.row }
{}

// The polygons, on the heap, with where the first of each list lies.
pub(crate) fn boxed_lists(
    alloc: Global,
    polygons: Polygons<Global>,
) -> Result<Box<PolygonLists, Global>, AllocError>
    ensures { IfOk result (λ lists. (lists.value.held_points.items ≡ polygons.points.items)
        × (lists.value.held_ring_offsets.items ≡ polygons.ring_ends.items)
        × (lists.value.held_polygon_offsets.items ≡ polygons.polygon_ends.items)) }
{
    let Polygons {
        points: held_points,
        ring_ends: held_ring_offsets,
        polygon_ends: held_polygon_offsets,
    } = polygons;
    let points = held_points.as_ptr();
    let point_count = held_points.len();
    let ring_offsets = held_ring_offsets.as_ptr();
    let ring_offset_count = held_ring_offsets.len();
    let polygon_offsets = held_polygon_offsets.as_ptr();
    let polygon_offset_count = held_polygon_offsets.len();
    Ok(Box::new(
        alloc,
        PolygonLists {
            points,
            point_count,
            ring_offsets,
            ring_offset_count,
            polygon_offsets,
            polygon_offset_count,
            held_points,
            held_ring_offsets,
            held_polygon_offsets,
        },
    )?)
}

// The same with offsets: 0 stands before where each ring and where each polygon stops.
pub(crate) fn offset_lists(
    alloc: Global,
    polygons: Polygons<Global>,
) -> Result<Box<PolygonLists, Global>, AllocError>
    ensures { IfOk result (λ lists. (lists.value.held_points.items ≡ polygons.points.items)
        × (lists.value.held_ring_offsets.items ≡ 0 ∷ polygons.ring_ends.items)
        × (lists.value.held_polygon_offsets.items ≡ 0 ∷ polygons.polygon_ends.items)) }
{
    let mut polygons = polygons;
    polygons.ring_ends.insert(0, 0)?;
    polygons.polygon_ends.insert(0, 0)?;
    boxed_lists(alloc, polygons)
}

// The same of polygons whose lists stand elsewhere, which are copied.
pub(crate) fn copied_lists<A: Allocator>(
    alloc: Global,
    polygons: &Polygons<A>,
) -> Result<Box<PolygonLists, Global>, AllocError>
    ensures { IfOk result (λ lists. (lists.value.held_points.items ≡ polygons.now.points.items)
        × (lists.value.held_ring_offsets.items ≡ 0 ∷ polygons.now.ring_ends.items)
        × (lists.value.held_polygon_offsets.items ≡ 0 ∷ polygons.now.polygon_ends.items)) }
{
    boxed_lists(
        alloc,
        Polygons {
            points: Vec::from_slice(alloc, &polygons.points)?,
            ring_ends: offsets_of(alloc, &polygons.ring_ends)?,
            polygon_ends: offsets_of(alloc, &polygons.polygon_ends)?,
        },
    )
}

// 0, and then the ends.
fn offsets_of(alloc: Global, ends: &[usize]) -> Result<Vec<usize, Global>, AllocError>
    ensures { IfOk result (λ offsets. offsets.items ≡ 0 ∷ ends.now) }
{
    let mut offsets = Vec::with_capacity(alloc, ends.len().saturating_add(1))?;
    offsets.push(0)?;
    offsets.extend_from_slice(ends)?;
    Ok(offsets)
}

// Gives back all memory of the polygons.
pub(crate) fn drop_polygons(polygons: Raw<PolygonLists, Global>)
    requires { IsSome polygons.value }
{
    drop(polygons.into_box());
}
