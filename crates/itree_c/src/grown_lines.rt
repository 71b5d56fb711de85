//! `itree_grow_lines`: lines that have grown by a convex shape, behind the handle that polygons have.

ghost use Rattle.std.specs.Prelude.{◌≡◌, ◌↔◌, Option, Err, IfErr, IfOk};
ghost use Rattle.std.specs.Borrow.{sem};
ghost use Rattle.overlay.specs.Rings.{HasEnds, rings_of};
ghost use Rattle.offset.specs.Shape.{IsConvexAroundOrigin};
ghost use Rattle.offset.specs.declared.fault.MinkowskiFault.TheVariants.{Lengths, Shape};
ghost use Rattle.itree_c.specs.Overlay.{owns_polygons};
ghost use Rattle.itree_c.specs.Offsets.{AnswersGrownLines, AreAllGrownLines, IsOffsetFault, LeavesRangeAlong};
ghost use Rattle.itree_c.specs.declared.polygon_lists.PolygonLists.{PolygonLists as Held};

use crate::handle::Handle;
use crate::offsets::offered;
use crate::polygon_lists::{PolygonLists, offset_lists};
use crate::raw::Raw;
use offset::{MinkowskiFault, grow_lines};
use overlay::{Point, Polygons, Rings};
use std::alloc::Global;

/// Writes a handle of the polygons of the Minkowski sum of lines and the shape, or null. So lines become as wide as the shape is.
///
/// The status is `ANSWERED` (0), and then the caller owns the handle and gives it to `itree_polygons_free` once; or
/// `REFUSED` (1) where memory was refused, `LENGTHS` (3) where a line stops before it begins or behind the points, `SHAPE` (12)
/// where the shape isn't convex around the origin, `RANGE` (13) where a corner of the shape at a point, or of the parallelogram
/// along an edge, is no point of 32 bits: then null is written, and all memory has been given back. At `LENGTHS` the shape isn't
/// looked at. What a line is, and what the polygons are, is said at `grow_lines` of `offset`.
#[unsafe(no_mangle)]
pub unsafe extern "C" fn itree_grow_lines<'a>(
    alloc: Global,
    points: &'a [Point],
    line_ends: &'a [usize],
    shape: &'a [Point],
    polygons: &mut *mut Handle,
) -> i32
    ensures* made { ∃ₛ (λ (made : Option Held).
        ⌜ AnswersGrownLines points.now line_ends.now shape.now result made ⌝
        ∗ sem 𝓛 (owns_polygons polygons.new made)) }
{
    let (status, Raw { at, alloc: _ }) = all_grown_lines(
        alloc,
        Rings {
            points,
            ends: line_ends,
        },
        shape,
    );
    *polygons = at as *mut Handle;
    status
}

// The status of the call, and the polygons or null.
fn all_grown_lines<'a>(
    alloc: Global,
    lines: Rings<'a>,
    shape: &'a [Point],
) -> (i32, Raw<PolygonLists, Global>)
    ensures { AnswersGrownLines lines.entry.points.now lines.entry.ends.now shape.now result.0 result.1.value }
{
    offered(alloc, boxed_grown_lines(alloc, lines, shape))
}

// The polygons of the sum, on the heap.
fn boxed_grown_lines(
    alloc: Global,
    lines: Rings,
    shape: &[Point],
) -> Result<Box<PolygonLists, Global>, MinkowskiFault>
    ensures ok { IfOk result (λ grown. IsConvexAroundOrigin shape.now
        × AreAllGrownLines (rings_of lines.entry.points.now 0 lines.entry.ends.now) shape.now grown.value) }
    ensures lengths { (result ≡ Err Lengths) ↔ ¬ (HasEnds lines.entry) }
    ensures shape { (result ≡ Err Shape) ↔ (HasEnds lines.entry × (¬ (IsConvexAroundOrigin shape.now))) }
    ensures fault { IfErr result (IsOffsetFault (LeavesRangeAlong (rings_of lines.entry.points.now 0 lines.entry.ends.now) shape.now)) }
{
    let mut made = Polygons::new(alloc);
    grow_lines(lines, shape, &mut made)?;
    Ok(offset_lists(alloc, made)?)
}
