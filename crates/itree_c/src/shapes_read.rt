//! `itree_wkb_read`: shapes in well-known binary as points of a grid, behind the handle that polygons have.

ghost use Rattle.std.specs.Prelude.{Option, IfOk, IfErr};
ghost use Rattle.std.specs.Borrow.{sem};
ghost use Rattle.grid.specs.Grid.{IsGrid};
ghost use Rattle.wkb.specs.Reading.{IfFaulty, IsFaulty};
ghost use Rattle.itree_c.specs.Overlay.{owns_polygons};
ghost use Rattle.itree_c.specs.Shapes.{AnswersShapes, AreAllShapes};
ghost use Rattle.itree_c.specs.declared.polygon_lists.PolygonLists.{PolygonLists as Held};

use crate::handle::Handle;
use crate::polygon_lists::{PolygonLists, boxed_lists};
use crate::raw::Raw;
use crate::shapes::MOST_NESTED;
use crate::status::{ANSWERED, CHOICE, FAULTY, REFUSED};
use grid::Grid;
use grid::units::is_grid;
use overlay::Polygons;
use std::alloc::Global;
use wkb::{ReadFault, Shapes, read};

/// Writes a handle of the shapes as points of the grid with this exponent and this origin, or null: as that of
/// `itree_overlay`, but for each polygon's end that of a shape among the rings.
///
/// The status is `ANSWERED` (0), and then the caller owns the handle and gives it to `itree_polygons_free` once; or
/// `REFUSED` (1) where memory was refused, `CHOICE` (5) where the grid is none, `FAULTY` (8) where something is wrong with the
/// shapes, which `itree_wkb_fault` tells: then null is written, and all memory has been given back. What the shapes are is said
/// at `read` of `wkb`.
#[unsafe(no_mangle)]
pub unsafe extern "C" fn itree_wkb_read(
    alloc: Global,
    bytes: &[u8],
    offsets: &[usize],
    x: i64,
    y: i64,
    exponent: i32,
    shapes: &mut *mut Handle,
) -> i32
    ensures* made { ∃ₛ (λ (made : Option Held).
        ⌜ AnswersShapes bytes.now offsets.now x y exponent result made ⌝
        ∗ sem 𝓛 (owns_polygons shapes.new made)) }
{
    let (status, Raw { at, alloc: _ }) = all_shapes(alloc, bytes, offsets, x, y, exponent);
    *shapes = at as *mut Handle;
    status
}

// The status of the call, and the shapes or null.
fn all_shapes(
    alloc: Global,
    bytes: &[u8],
    offsets: &[usize],
    x: i64,
    y: i64,
    exponent: i32,
) -> (i32, Raw<PolygonLists, Global>)
    ensures { AnswersShapes bytes.now offsets.now x y exponent result.0 result.1.value }
{
    let grid = Grid { x, y, exponent };
    if !is_grid(&grid) {
        return (CHOICE, Raw::null(alloc));
    }
    match boxed_shapes(alloc, bytes, offsets, &grid) {
        Ok(shapes) => (ANSWERED, Raw::of(shapes)),
        Err(ReadFault::Refused(_)) => (REFUSED, Raw::null(alloc)),
        Err(ReadFault::Faulty(_)) => (FAULTY, Raw::null(alloc)),
    }
}

// The shapes, on the heap.
fn boxed_shapes(
    alloc: Global,
    bytes: &[u8],
    offsets: &[usize],
    grid: &Grid,
) -> Result<Box<PolygonLists, Global>, ReadFault>
    requires { IsGrid grid.now }
    ensures ok { IfOk result (λ shapes. AreAllShapes grid.now bytes.now offsets.now shapes.value) }
    ensures fault { IfErr result (λ e. IfFaulty e (λ fault. IsFaulty grid.now MOST_NESTED bytes.now offsets.now fault)) }
{
    let Shapes {
        points,
        mut ring_ends,
        mut shape_ends,
    } = read(alloc, bytes, offsets, MOST_NESTED, grid)?;
    ring_ends.insert(0, 0)?;
    shape_ends.insert(0, 0)?;
    let lists = Polygons {
        points,
        ring_ends,
        polygon_ends: shape_ends,
    };
    Ok(boxed_lists(alloc, lists)?)
}
