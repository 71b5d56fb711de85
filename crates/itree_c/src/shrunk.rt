//! `itree_erode`: what is left of polygons that shrink by a convex shape, behind the handle that polygons have.

ghost use Rattle.std.specs.Prelude.{◌≡◌, ◌↔◌, Option, Err, IfErr, IfOk};
ghost use Rattle.std.specs.Borrow.{sem};
ghost use Rattle.overlay.specs.Rings.{HasEnds, edges_of};
ghost use Rattle.offset.specs.Shape.{IsConvexAroundOrigin};
ghost use Rattle.offset.specs.declared.fault.MinkowskiFault.TheVariants.{Lengths, Shape};
ghost use Rattle.itree_c.specs.Overlay.{owns_polygons};
ghost use Rattle.itree_c.specs.Offsets.{AnswersShrunk, AreAllShrunk, IsOffsetFault, LeavesRangeInside};
ghost use Rattle.itree_c.specs.declared.polygon_lists.PolygonLists.{PolygonLists as Held};

use crate::choices::rule_of;
use crate::handle::Handle;
use crate::offsets::offered;
use crate::polygon_lists::{PolygonLists, offset_lists};
use crate::raw::Raw;
use crate::status::CHOICE;
use offset::{MinkowskiFault, erode};
use overlay::{FillRule, Point, Polygons, Rings};
use std::alloc::Global;

/// Writes a handle of the polygons of what is left of the inside of the rings where the shape is taken along outside, or null: of
/// each point from which the whole shape lies inside. So what is inside shrinks by the shape on all sides.
///
/// The status is `ANSWERED` (0), and then the caller owns the handle and gives it to `itree_polygons_free` once; or
/// `REFUSED` (1) where memory was refused, `LENGTHS` (3) where a ring stops before it begins or behind the points, `CHOICE` (5)
/// where no rule has the number, `SHAPE` (12) where the shape isn't convex around the origin, `RANGE` (13) where a corner of the
/// curve around what is outside, or of the shape turned by half a turn, is no point of 32 bits: then null is written, and all
/// memory has been given back. At `CHOICE` nothing else is looked at, and at `LENGTHS` the shape isn't. What the polygons are is
/// said at `erode` of `offset`.
#[unsafe(no_mangle)]
pub unsafe extern "C" fn itree_erode<'a>(
    alloc: Global,
    points: &'a [Point],
    ring_ends: &'a [usize],
    shape: &'a [Point],
    rule: i32,
    polygons: &mut *mut Handle,
) -> i32
    ensures* made { ∃ₛ (λ (made : Option Held).
        ⌜ AnswersShrunk points.now ring_ends.now shape.now rule result made ⌝
        ∗ sem 𝓛 (owns_polygons polygons.new made)) }
{
    let (status, Raw { at, alloc: _ }) = all_shrunk(
        alloc,
        Rings {
            points,
            ends: ring_ends,
        },
        shape,
        rule,
    );
    *polygons = at as *mut Handle;
    status
}

// The status of the call, and the polygons or null.
fn all_shrunk<'a>(
    alloc: Global,
    polygons: Rings<'a>,
    shape: &'a [Point],
    rule: i32,
) -> (i32, Raw<PolygonLists, Global>)
    ensures { AnswersShrunk polygons.entry.points.now polygons.entry.ends.now shape.now rule result.0 result.1.value }
{
    let Some(rule) = rule_of(rule) else {
        return (CHOICE, Raw::null(alloc));
    };
    offered(alloc, boxed_shrunk(alloc, polygons, shape, rule))
}

// The polygons of what is left, on the heap.
fn boxed_shrunk(
    alloc: Global,
    polygons: Rings,
    shape: &[Point],
    rule: FillRule,
) -> Result<Box<PolygonLists, Global>, MinkowskiFault>
    ensures ok { IfOk result (λ left. IsConvexAroundOrigin shape.now
        × AreAllShrunk rule (edges_of polygons.entry) shape.now left.value) }
    ensures lengths { (result ≡ Err Lengths) ↔ ¬ (HasEnds polygons.entry) }
    ensures shape { (result ≡ Err Shape) ↔ (HasEnds polygons.entry × (¬ (IsConvexAroundOrigin shape.now))) }
    ensures fault { IfErr result (IsOffsetFault (LeavesRangeInside rule (edges_of polygons.entry) shape.now)) }
{
    let mut made = Polygons::new(alloc);
    erode(polygons, rule, shape, &mut made)?;
    Ok(offset_lists(alloc, made)?)
}
