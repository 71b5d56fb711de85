//! `itree_wkb_write`: polygons of a grid, as well-known binary.

ghost use Rattle.std.specs.Prelude.{◌≡◌, ◌≢◌, ◌↔◌, ℕ, List, length, IsTrue};
ghost use Rattle.grid.specs.Grid.{IsGrid};
ghost use Rattle.itree_c.specs.Choices.{IsNumberOfForm};
ghost use Rattle.itree_c.specs.Written.{FillsRoom, HaveRoom, IsWriteStatus, WritesBytes};
ghost use Rattle.itree_c.specs.declared.status.TheConstants.{ANSWERED, CHOICE, LENGTHS};

use crate::choices::form_of;
use crate::status::{ANSWERED, CHOICE, LENGTHS, REFUSED};
use grid::Grid;
use grid::units::is_grid;
use plane::point::Point;
use std::alloc::Global;
use wkb::{PolygonPoints, are_ends, write};

/// Writes polygons whose points are of the grid as well-known binary, and how many bytes that takes.
///
/// The status is `ANSWERED` (0): `size` is written, and the bytes where there is room for just as many; with no room they are
/// counted alone. `CHOICE` (5) where the form has no such number or the grid is none; `LENGTHS` (3) where a ring or a polygon
/// stops before it begins or behind the points or the rings, where there are 2^32 - 1 points, rings or polygons or more, or where
/// there is other room: then `size` is written; or `REFUSED` (1) where memory was refused. What is written is said at `write`
/// of `wkb`.
#[unsafe(no_mangle)]
pub extern "C" fn itree_wkb_write(
    alloc: Global,
    points: &[Point],
    ring_ends: &[usize],
    polygon_ends: &[usize],
    grid: &Grid,
    form: i32,
    srid: u32,
    bytes: &mut [u8],
    size: &mut usize,
) -> i32
    ensures answered { result ≡ ANSWERED → (told : List ℕ)
        × WritesBytes grid.now points.now ring_ends.now polygon_ends.now form srid told
        × (size.new ≡ length told) × FillsRoom told bytes.old bytes.new }
    ensures choice { (result ≡ CHOICE) ↔ ¬ (IsGrid grid.now × IsNumberOfForm form) }
    ensures lengths { IsGrid grid.now → IsNumberOfForm form → ¬ (HaveRoom points.now ring_ends.now polygon_ends.now) → result ≡ LENGTHS }
    ensures room { result ≡ LENGTHS → HaveRoom points.now ring_ends.now polygon_ends.now → (told : List ℕ)
        × WritesBytes grid.now points.now ring_ends.now polygon_ends.now form srid told
        × (size.new ≡ length told) × (length bytes.old ≢ length told) }
    ensures kept { result ≢ ANSWERED → bytes.new ≡ bytes.old }
    ensures status { IsWriteStatus result }
{
    let Some(form) = form_of(form) else {
        return CHOICE;
    };
    if !is_grid(grid) {
        return CHOICE;
    }
    if !have_room(points, ring_ends, polygon_ends) {
        return LENGTHS;
    }
    let polygons = PolygonPoints {
        points,
        ring_ends,
        polygon_ends,
    };
    let Ok(told) = write(alloc, polygons, grid, form, srid) else {
        return REFUSED;
    };
    *size = told.len();
    if bytes.is_empty() {
        return ANSWERED;
    }
    if bytes.len() != told.len() {
        return LENGTHS;
    }
    bytes.copy_from_slice(&told);
    ANSWERED
}

// Whether rings and polygons stop where they can, and the format has room for all.
fn have_room(points: &[Point], ring_ends: &[usize], polygon_ends: &[usize]) -> bool
    ensures { IsTrue result ↔ HaveRoom points.now ring_ends.now polygon_ends.now }
{
    points.len() < 4294967295
        && ring_ends.len() < 4294967296
        && polygon_ends.len() < 4294967296
        && are_ends(ring_ends, points.len())
        && are_ends(polygon_ends, ring_ends.len())
}
