//! What is faulty of shapes in well-known binary, as C reads it; and `itree_wkb_fault`, `itree_wkb_corners` and `itree_wkb_srid`.

ghost use Rattle.std.specs.Prelude.{◌≡◌, ◌≢◌, ◌↔◌, ℕ, List, length};
ghost use Rattle.grid.specs.Grid.{IsGrid};
ghost use Rattle.plane.specs.declared.point.Point.{Point as PointValue};
ghost use Rattle.wkb.specs.Corners.{IsCornersFault};
ghost use Rattle.wkb.specs.Format.{srid_of};
ghost use Rattle.wkb.specs.Reading.{AreShapes, IsFaulty};
ghost use Rattle.wkb.specs.declared.fault.Fault.{Fault as FaultValue};
ghost use Rattle.itree_c.specs.Shapes.{IsCornersStatus, IsFaultStatus, WritesCorners, number_of_fault, place_of_fault};
ghost use Rattle.itree_c.specs.declared.status.TheConstants.{ANSWERED, CHOICE, FAULTY, LENGTHS};

use crate::status::{ANSWERED, CHOICE, FAULTY, LENGTHS, REFUSED};
use grid::units::is_grid;
use grid::{Grid, Position};
use std::alloc::Global;
use wkb::{Fault, FaultKind, ReadFault, corners_of, read, srid_of};

/// How deep collections may be nested: so a stack of 16 KB is enough for a call.
pub const MOST_NESTED: usize = 16;

/// The bytes of a shape end before it does.
pub const SHORT: usize = 1;

/// A byte order is neither 0 nor 1.
pub const BYTE_ORDER: usize = 2;

/// A geometry is of another kind than a polygon, a multipolygon or a collection.
pub const KIND: usize = 3;

/// Collections are nested too deep.
pub const NESTED: usize = 4;

/// A coordinate isn't finite.
pub const NOT_FINITE: usize = 5;

/// The point that is nearest to a position has no numbers of 32 bits.
pub const OFF_GRID: usize = 6;

/// Bytes stand behind the geometry.
pub const LEFT_OVER: usize = 7;

/// An offset is less than the one before it, or behind the bytes.
pub const OFFSETS: usize = 8;

// `itree.h` has these numbers.
const _: () = prove!(SHORT == 1 && BYTE_ORDER == 2 && KIND == 3 && NESTED == 4);

const _: () = prove!(NOT_FINITE == 5 && OFF_GRID == 6 && LEFT_OVER == 7 && OFFSETS == 8);

/// What is faulty, by its number; of which shape; and the place among all bytes at which it begins.
#[repr(C)]
#[derive(Clone, Copy)]
pub struct ShapePlace {
    pub kind: usize,
    pub shape: usize,
    pub byte: usize,
}

/// Tells what is faulty of shapes, where `itree_wkb_read` answers `FAULTY`.
///
/// The status is `FAULTY` (8), and `fault` is written; `ANSWERED` (0) where nothing is faulty; `CHOICE` (5) where the grid is
/// none; or `REFUSED` (1) where memory was refused.
#[unsafe(no_mangle)]
pub extern "C" fn itree_wkb_fault(
    alloc: Global,
    bytes: &[u8],
    offsets: &[usize],
    grid: &Grid,
    fault: &mut ShapePlace,
) -> i32
    ensures answered { result ≡ ANSWERED → (points : List PointValue) × (ring_ends : List ℕ) × (shape_ends : List ℕ)
        × AreShapes grid.now MOST_NESTED bytes.now offsets.now points ring_ends shape_ends }
    ensures faulty { result ≡ FAULTY → (told : FaultValue)
        × IsFaulty grid.now MOST_NESTED bytes.now offsets.now told × (fault.new ≡ place_of_fault told) }
    ensures choice { (result ≡ CHOICE) ↔ ¬ (IsGrid grid.now) }
    ensures kept { result ≢ FAULTY → fault.new ≡ fault.old }
    ensures status { IsFaultStatus result }
{
    if !is_grid(grid) {
        return CHOICE;
    }
    match read(alloc, bytes, offsets, MOST_NESTED, grid) {
        Ok(_) => ANSWERED,
        Err(ReadFault::Refused(_)) => REFUSED,
        Err(ReadFault::Faulty(told)) => {
            *fault = place_of_fault(told);
            FAULTY
        }
    }
}

/// Writes the least coordinates of all positions of shapes, and the greatest.
///
/// The status is `ANSWERED` (0): `found` is 2 and the corners are written, or it is 0 where there is no position;
/// `FAULTY` (8), and `fault` is written; `LENGTHS` (3) where there is no room for just two corners; or `REFUSED` (1) where
/// memory was refused. What the shapes are is said at `corners_of` of `wkb`.
#[unsafe(no_mangle)]
pub extern "C" fn itree_wkb_corners(
    alloc: Global,
    bytes: &[u8],
    offsets: &[usize],
    corners: &mut [Position],
    found: &mut usize,
    fault: &mut ShapePlace,
) -> i32
    ensures answered { result ≡ ANSWERED → WritesCorners bytes.now offsets.now found.new corners.old corners.new }
    ensures faulty { result ≡ FAULTY → (told : FaultValue)
        × IsCornersFault MOST_NESTED bytes.now offsets.now told × (fault.new ≡ place_of_fault told) }
    ensures lengths { (result ≡ LENGTHS) ↔ (length corners.old ≢ 2) }
    ensures kept { result ≢ ANSWERED → (corners.new ≡ corners.old) × (found.new ≡ found.old) }
    ensures place { result ≢ FAULTY → fault.new ≡ fault.old }
    ensures status { IsCornersStatus result }
{
    if corners.len() != 2 {
        return LENGTHS;
    }
    match corners_of(alloc, bytes, offsets, MOST_NESTED) {
        Ok(Some((low, high))) => {
            corners.copy_from_slice(&[low, high]);
            *found = 2;
            ANSWERED
        }
        Ok(None) => {
            *found = 0;
            ANSWERED
        }
        Err(ReadFault::Refused(_)) => REFUSED,
        Err(ReadFault::Faulty(told)) => {
            *fault = place_of_fault(told);
            FAULTY
        }
    }
}

/// Writes the number of the reference system that the bytes of one shape tell, or 0 where they tell none, and answers `ANSWERED`.
#[unsafe(no_mangle)]
pub extern "C" fn itree_wkb_srid(bytes: &[u8], srid: &mut u32) -> i32
    ensures srid { srid.new ≡ srid_of bytes.now }
    ensures status { result ≡ ANSWERED }
{
    *srid = srid_of(bytes);
    ANSWERED
}

// A fault as it is written.
fn place_of_fault(fault: Fault) -> ShapePlace
    ensures { result ≡ place_of_fault fault }
{
    ShapePlace {
        kind: number_of_fault(fault.kind),
        shape: fault.shape,
        byte: fault.byte,
    }
}

// The number of a kind of fault.
fn number_of_fault(kind: FaultKind) -> usize
    ensures { result ≡ number_of_fault kind }
{
    match kind {
        FaultKind::Short => SHORT,
        FaultKind::ByteOrder => BYTE_ORDER,
        FaultKind::Kind => KIND,
        FaultKind::Nested => NESTED,
        FaultKind::NotFinite => NOT_FINITE,
        FaultKind::OffGrid => OFF_GRID,
        FaultKind::LeftOver => LEFT_OVER,
        FaultKind::Offsets => OFFSETS,
    }
}
