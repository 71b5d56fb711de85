//! `itree_minkowski_joined`: polygons that have grown with bevelled or mitred corners, behind the handle that polygons have.

ghost use Rattle.std.specs.Prelude.{◌≡◌, ◌↔◌, Option, Err, IfErr, IfOk};
ghost use Rattle.std.specs.Borrow.{sem};
ghost use Rattle.overlay.specs.Rings.{HasEnds, edges_of};
ghost use Rattle.offset.specs.Shape.{IsConvexAroundOrigin};
ghost use Rattle.offset.specs.declared.fault.MinkowskiFault.TheVariants.{Lengths, Shape};
ghost use Rattle.itree_c.specs.Overlay.{owns_polygons};
ghost use Rattle.itree_c.specs.Offsets.{AnswersGrownJoined, AreAllJoined, IsOffsetFault, LeavesRangeJoined};
ghost use Rattle.itree_c.specs.declared.polygon_lists.PolygonLists.{PolygonLists as Held};

use crate::choices::{join_of, rule_of};
use crate::handle::Handle;
use crate::offsets::offered;
use crate::polygon_lists::{PolygonLists, offset_lists};
use crate::raw::Raw;
use crate::status::CHOICE;
use offset::{Join, MinkowskiFault, minkowski_joined};
use overlay::{FillRule, Point, Polygons, Rings};
use std::alloc::Global;

/// Writes a handle of the polygons that what is inside of the rings becomes when it grows by the shape, with corners joined as the
/// number says, or null. A corner that turns right needs no join.
///
/// The join is 0, round: by the sides of the shape, as `itree_minkowski` joins corners; 1, bevel: by one straight line; or 2,
/// mitre: by the moved edges, carried on to where they cross, and round where that is farther out than the shape would reach if it
/// were `limit` hundredths of its size. The limit is looked at for mitres alone.
///
/// The status is `ANSWERED` (0), and then the caller owns the handle and gives it to `itree_polygons_free` once; or
/// `REFUSED` (1) where memory was refused, `LENGTHS` (3) where a ring stops before it begins or behind the points, `CHOICE` (5)
/// where no rule or no join has the number, `SHAPE` (12) where the shape isn't convex around the origin, `RANGE` (13) where a
/// corner of the curve around the answer, or the tip of a mitre, is no point of 32 bits: then null is written, and all memory has
/// been given back. At `CHOICE` nothing else is looked at, and at `LENGTHS` the shape isn't. What the polygons are is said at
/// `minkowski_joined` of `offset`.
#[unsafe(no_mangle)]
pub unsafe extern "C" fn itree_minkowski_joined<'a>(
    alloc: Global,
    points: &'a [Point],
    ring_ends: &'a [usize],
    shape: &'a [Point],
    rule: i32,
    join: i32,
    limit: u32,
    polygons: &mut *mut Handle,
) -> i32
    ensures* made { ∃ₛ (λ (made : Option Held).
        ⌜ AnswersGrownJoined points.now ring_ends.now shape.now rule join limit result made ⌝
        ∗ sem 𝓛 (owns_polygons polygons.new made)) }
{
    let (status, Raw { at, alloc: _ }) = all_grown_joined(
        alloc,
        Rings {
            points,
            ends: ring_ends,
        },
        shape,
        rule,
        join,
        limit,
    );
    *polygons = at as *mut Handle;
    status
}

// The status of the call, and the polygons or null.
fn all_grown_joined<'a>(
    alloc: Global,
    polygons: Rings<'a>,
    shape: &'a [Point],
    rule: i32,
    join: i32,
    limit: u32,
) -> (i32, Raw<PolygonLists, Global>)
    ensures { AnswersGrownJoined polygons.entry.points.now polygons.entry.ends.now shape.now rule join limit result.0 result.1.value }
{
    let Some(rule) = rule_of(rule) else {
        return (CHOICE, Raw::null(alloc));
    };
    let Some(join) = join_of(join, limit) else {
        return (CHOICE, Raw::null(alloc));
    };
    offered(
        alloc,
        boxed_grown_joined(alloc, polygons, shape, rule, join),
    )
}

// The grown polygons, on the heap.
fn boxed_grown_joined(
    alloc: Global,
    polygons: Rings,
    shape: &[Point],
    rule: FillRule,
    join: Join,
) -> Result<Box<PolygonLists, Global>, MinkowskiFault>
    ensures ok { IfOk result (λ grown. IsConvexAroundOrigin shape.now
        × AreAllJoined join rule (edges_of polygons.entry) shape.now grown.value) }
    ensures lengths { (result ≡ Err Lengths) ↔ ¬ (HasEnds polygons.entry) }
    ensures shape { (result ≡ Err Shape) ↔ (HasEnds polygons.entry × (¬ (IsConvexAroundOrigin shape.now))) }
    ensures fault { IfErr result (IsOffsetFault (LeavesRangeJoined join rule (edges_of polygons.entry) shape.now)) }
{
    let mut made = Polygons::new(alloc);
    minkowski_joined(polygons, rule, shape, join, &mut made)?;
    Ok(offset_lists(alloc, made)?)
}
