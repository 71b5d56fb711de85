//! `itree_join`: the polygons of several windows as one set, behind the handle that polygons have.

ghost use Rattle.std.specs.Prelude.{Option, IfErr, IfOk};
ghost use Rattle.std.specs.Borrow.{sem};
ghost use Rattle.tiles.specs.Join.{CanJoin, IsJoinFault};
ghost use Rattle.itree_c.specs.Overlay.{owns_polygons};
ghost use Rattle.itree_c.specs.Tiles.{AnswersJoin, AreAllJoined};
ghost use Rattle.itree_c.specs.declared.polygon_lists.PolygonLists.{PolygonLists as Held};

use crate::handle::Handle;
use crate::polygon_lists::{PolygonLists, offset_lists};
use crate::raw::Raw;
use crate::status::{ANSWERED, LENGTHS, REFUSED, UNFIT, WINDOW};
use overlay::{Point, Polygons, Rings};
use std::alloc::Global;
use tiles::{JoinFault, Tiles, Window, join};

/// Writes a handle of the polygons of several windows as one set, without the borders between the windows, or null.
///
/// The status is `ANSWERED` (0), and then the caller owns the handle and gives it to `itree_polygons_free` once; or
/// `REFUSED` (1) where memory was refused, `LENGTHS` (3) where rings, polygons or the polygons of windows don't stop where they
/// can, or some are left over, `WINDOW` (10) where a window has no points, or two have a common point, `UNFIT` (11) where a
/// point of a polygon lies neither in its window nor on its sides, or where polygons that come to a border wind around some
/// point other than once or not at all: then null is written, and all memory has been given back. What the polygons are is
/// said at `join` of `tiles`.
#[unsafe(no_mangle)]
pub unsafe extern "C" fn itree_join<'a>(
    alloc: Global,
    windows: &'a [Window],
    tile_ends: &'a [usize],
    polygon_ends: &'a [usize],
    ring_ends: &'a [usize],
    points: &'a [Point],
    polygons: &mut *mut Handle,
) -> i32
    ensures* made { ∃ₛ (λ (made : Option Held).
        ⌜ AnswersJoin (record {
          windows = windows.entry;
          tile_ends = tile_ends.entry;
          polygon_ends = polygon_ends.entry;
          rings = record { points = points.entry; ends = ring_ends.entry };
        }) result made ⌝
        ∗ sem 𝓛 (owns_polygons polygons.new made)) }
{
    let (status, Raw { at, alloc: _ }) = all_joined(
        alloc,
        windows,
        tile_ends,
        polygon_ends,
        ring_ends,
        points,
    );
    *polygons = at as *mut Handle;
    status
}

// The status of the call, and the polygons or null.
fn all_joined<'a>(
    alloc: Global,
    windows: &'a [Window],
    tile_ends: &'a [usize],
    polygon_ends: &'a [usize],
    ring_ends: &'a [usize],
    points: &'a [Point],
) -> (i32, Raw<PolygonLists, Global>)
    ensures { AnswersJoin (record {
      windows = windows.entry;
      tile_ends = tile_ends.entry;
      polygon_ends = polygon_ends.entry;
      rings = record { points = points.entry; ends = ring_ends.entry };
    }) result.0 result.1.value }
{
    let tiles = Tiles {
        windows,
        tile_ends,
        polygon_ends,
        rings: Rings {
            points,
            ends: ring_ends,
        },
    };
    match boxed_joined(alloc, tiles) {
        Ok(polygons) => (ANSWERED, Raw::of(polygons)),
        Err(JoinFault::Lengths) => (LENGTHS, Raw::null(alloc)),
        Err(JoinFault::Empty) => (WINDOW, Raw::null(alloc)),
        Err(JoinFault::Overlap) => (WINDOW, Raw::null(alloc)),
        Err(JoinFault::Outside) => (UNFIT, Raw::null(alloc)),
        Err(JoinFault::Covered) => (UNFIT, Raw::null(alloc)),
        Err(JoinFault::OutOfMemory) => (REFUSED, Raw::null(alloc)),
    }
}

// The polygons of all windows, on the heap.
fn boxed_joined(alloc: Global, tiles: Tiles) -> Result<Box<PolygonLists, Global>, JoinFault>
    ensures ok { IfOk result (λ polygons. CanJoin tiles.entry × AreAllJoined tiles.entry polygons.value) }
    ensures fault { IfErr result (IsJoinFault tiles.entry) }
{
    let mut made = Polygons::new(alloc);
    join(tiles, &mut made)?;
    Ok(offset_lists(alloc, made)?)
}
