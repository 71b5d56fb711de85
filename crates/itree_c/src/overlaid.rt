//! `itree_overlay`: the polygons of what an operation makes of two sets of rings, in one call, and the handle by which C
//! holds them.

ghost use Rattle.std.specs.Prelude.{◌≡◌, ◌↔◌, Option, Some, Err, IfOk, length};
ghost use Rattle.std.specs.Borrow.{sem};
ghost use Rattle.std.specs.Vec.{vec_ptr};
ghost use Rattle.overlay.specs.Rings.{HasEnds, edges_of};
ghost use Rattle.overlay.specs.declared.fault.OverlayFault.TheVariants.{Lengths};
ghost use Rattle.itree_c.specs.Overlay.{owns_polygons, AnswersOverlay, AreAllPolygons};
ghost use Rattle.itree_c.specs.declared.polygon_lists.PolygonLists.{PolygonLists as Held};

use crate::choices::{operation_of, rule_of};
use crate::handle::Handle;
use crate::polygon_lists::{PolygonLists, copied_lists, drop_polygons, offset_lists};
use crate::raw::Raw;
use crate::status::{ANSWERED, CHOICE, LENGTHS, REFUSED};
use bumpalo::Bump;
use monotone_chains::overlay;
use overlay::{FillRule, Operation, OverlayFault, Point, Polygons, Rings};
use std::alloc::Global;

/// Writes a handle of the polygons of what the operation makes of the inside of the subject and that of the clip, or null.
/// The ends of both say where each ring stops among their points.
///
/// The status is `ANSWERED` (0), and then the caller owns the handle and gives it to `itree_polygons_free` once; or
/// `REFUSED` (1) where memory was refused, `LENGTHS` (3) where a ring of the subject or of the clip stops before it begins
/// or behind the points, `CHOICE` (5) where no rule or no operation has the number: then null is written, and all memory has
/// been given back. At `CHOICE` the ends aren't looked at. What the polygons are is said at `overlay` of `monotone_chains`.
#[unsafe(no_mangle)]
pub unsafe extern "C" fn itree_overlay<'a>(
    alloc: Global,
    subject: &'a [Point],
    subject_ends: &'a [usize],
    clip: &'a [Point],
    clip_ends: &'a [usize],
    rule: i32,
    operation: i32,
    polygons: &mut *mut Handle,
) -> i32
    ensures* made { ∃ₛ (λ (made : Option Held).
        ⌜ AnswersOverlay subject.now subject_ends.now clip.now clip_ends.now rule operation result made ⌝
        ∗ sem 𝓛 (owns_polygons polygons.new made)) }
{
    let (status, Raw { at, alloc: _ }) = all_polygons(
        alloc,
        Rings {
            points: subject,
            ends: subject_ends,
        },
        Rings {
            points: clip,
            ends: clip_ends,
        },
        rule,
        operation,
    );
    *polygons = at as *mut Handle;
    status
}

/// Writes where the first point of the polygons lies, and answers how many there are.
///
/// They lie side by side, one ring behind the other, and stay until the handle is freed.
#[unsafe(no_mangle)]
pub unsafe extern "C" fn itree_polygons_points(
    polygons: *const Handle,
    first: &mut *const Point,
) -> usize
    ghost held: { Held }
    requires* owned { sem 𝓛 (owns_polygons polygons (Some held)) }
    ensures* read { sem 𝓛 (owns_polygons polygons (Some held))
        ∗ ⌜ (result ≡ length held.held_points.items) × (first.new ≡ vec_ptr held.held_points) ⌝ }
{
    let polygons = polygons as *const PolygonLists;
    *first = (*polygons).points;
    (*polygons).point_count
}

/// Writes where the first offset of the rings lies, and answers how many there are: one more than there are rings.
///
/// The offsets are 0, and then where each ring stops among the points. They lie side by side, and stay until the handle is
/// freed.
#[unsafe(no_mangle)]
pub unsafe extern "C" fn itree_polygons_ring_offsets(
    polygons: *const Handle,
    first: &mut *const usize,
) -> usize
    ghost held: { Held }
    requires* owned { sem 𝓛 (owns_polygons polygons (Some held)) }
    ensures* read { sem 𝓛 (owns_polygons polygons (Some held))
        ∗ ⌜ (result ≡ length held.held_ring_offsets.items) × (first.new ≡ vec_ptr held.held_ring_offsets) ⌝ }
{
    let polygons = polygons as *const PolygonLists;
    *first = (*polygons).ring_offsets;
    (*polygons).ring_offset_count
}

/// Writes where the first offset of the polygons lies, and answers how many there are: one more than there are polygons.
///
/// The offsets are 0, and then where each polygon stops among the rings. They lie side by side, and stay until the handle is
/// freed.
#[unsafe(no_mangle)]
pub unsafe extern "C" fn itree_polygons_polygon_offsets(
    polygons: *const Handle,
    first: &mut *const usize,
) -> usize
    ghost held: { Held }
    requires* owned { sem 𝓛 (owns_polygons polygons (Some held)) }
    ensures* read { sem 𝓛 (owns_polygons polygons (Some held))
        ∗ ⌜ (result ≡ length held.held_polygon_offsets.items) × (first.new ≡ vec_ptr held.held_polygon_offsets) ⌝ }
{
    let polygons = polygons as *const PolygonLists;
    *first = (*polygons).polygon_offsets;
    (*polygons).polygon_offset_count
}

/// Gives back all memory of the polygons. The handle is used up.
#[unsafe(no_mangle)]
pub unsafe extern "C" fn itree_polygons_free(alloc: Global, polygons: *mut Handle)
    ghost held: { Held }
    requires* owned { sem 𝓛 (owns_polygons polygons (Some held)) }
{
    drop_polygons(Raw {
        at: polygons as *mut PolygonLists,
        alloc,
    });
}

// The status of the call, and the polygons or null.
fn all_polygons<'a>(
    alloc: Global,
    subject: Rings<'a>,
    clip: Rings<'a>,
    rule: i32,
    operation: i32,
) -> (i32, Raw<PolygonLists, Global>)
    ensures { AnswersOverlay subject.entry.points.now subject.entry.ends.now clip.entry.points.now clip.entry.ends.now
        rule operation result.0 result.1.value }
{
    let (Some(rule), Some(operation)) = (rule_of(rule), operation_of(operation)) else {
        return (CHOICE, Raw::null(alloc));
    };
    match boxed_polygons(alloc, subject, clip, rule, operation) {
        Ok(polygons) => (ANSWERED, Raw::of(polygons)),
        Err(OverlayFault::Refused(_)) => (REFUSED, Raw::null(alloc)),
        Err(OverlayFault::Lengths) => (LENGTHS, Raw::null(alloc)),
    }
}

// Of so many points together, or fewer, an overlay takes its working lists from an arena, which asks for memory once, mostly. Where
// few points are overlaid, lists that are asked for one by one take a quarter of the time. What the arena has is given back when
// the polygons are made. It is less than what most allocators ask the system for by itself, 128 KB.
const FEW_POINTS: usize = 100;

// The working lists take so many bytes for each point, or fewer, mostly. Where they take more, the arena asks for more.
const BYTES_A_POINT: usize = 1024;

// The polygons of the overlay, on the heap.
fn boxed_polygons(
    alloc: Global,
    subject: Rings,
    clip: Rings,
    rule: FillRule,
    operation: Operation,
) -> Result<Box<PolygonLists, Global>, OverlayFault>
    ensures ok { IfOk result (λ polygons.
        AreAllPolygons rule operation (edges_of subject.entry) (edges_of clip.entry) polygons.value) }
    ensures lengths { (result ≡ Err Lengths) ↔ ¬ (HasEnds subject.entry × HasEnds clip.entry) }
{
    let points = subject.points.len().saturating_add(clip.points.len());
    if FEW_POINTS < points {
        let mut made = Polygons::new(alloc);
        overlay(subject, clip, rule, operation, &mut made)?;
        return Ok(offset_lists(alloc, made)?);
    }
    let arena = arena_for(alloc, points);
    let mut few = Polygons::new(&arena);
    overlay(subject, clip, rule, operation, &mut few)?;
    Ok(copied_lists(alloc, &few)?)
}

// An arena with room for the working lists of so few points. Where there is no memory for that now, it asks when it is used.
fn arena_for(alloc: Global, points: usize) -> Bump<Global> {
    match Bump::try_with_capacity(alloc, points.saturating_mul(BYTES_A_POINT)) {
        Ok(arena) => arena,
        Err(_) => Bump::new(alloc),
    }
}
