//! Polygons as well-known binary.

ghost use Rattle.std.specs.Prelude.{◌≡◌, ◌≤◌, ◌+◌, ◌-◌, ◌<◌, ◌^◌, ◌++◌, length, IsTrue, OnOk, map, slice_index};
ghost use Rattle.std.specs.List.{flat_map, range_with_len};
ghost use Rattle.wkb.specs.Spelling.{AreEnds, start_of, closed, eight, four, head, place, polygon, polygon_of, polygons_of, ring, ring_of, written};

use grid::Position;
use std::alloc::{AllocError, Allocator};

/// What polygons are written as.
#[derive(Clone, Copy, Debug, PartialEq, Eq)]
pub enum Form {
    /// One multipolygon.
    MultiPolygon,
    /// A polygon for each, one after the other.
    EachPolygon,
}

/// Appends a number of four bytes.
fn put_number<A: Allocator>(number: u32, bytes: &mut Vec<u8, A>) -> Result<(), AllocError>
    ensures { OnOk result (bytes.new.items ≡ bytes.old.items ++ four number) }
{
    bytes.extend_from_slice(&number.to_le_bytes())
}

/// Appends a double.
fn put_double<A: Allocator>(double: u64, bytes: &mut Vec<u8, A>) -> Result<(), AllocError>
    ensures { OnOk result (bytes.new.items ≡ bytes.old.items ++ eight double) }
{
    bytes.extend_from_slice(&double.to_le_bytes())
}

/// Appends a position.
fn put_position<A: Allocator>(position: Position, bytes: &mut Vec<u8, A>) -> Result<(), AllocError>
    ensures { OnOk result (bytes.new.items ≡ bytes.old.items ++ place position) }
{
    put_double(position.x, bytes)?;
    put_double(position.y, bytes)?;
    Ok(())
}

/// Appends positions, one after the other.
fn put_positions<A: Allocator>(
    positions: &[Position],
    bytes: &mut Vec<u8, A>,
) -> Result<(), AllocError>
    ensures { OnOk result (bytes.new.items ≡ bytes.old.items ++ flat_map place positions.now) }
{
    for position in positions {
        put_position(*position, bytes)?;
    }
    Ok(())
}

/// Appends a ring, closed by its first position.
#[tactic(auto, unfolding(crate::specs::Spelling::ring))]
fn put_ring<A: Allocator>(positions: &[Position], bytes: &mut Vec<u8, A>) -> Result<(), AllocError>
    requires { length positions.now + 1 < 2 ^ 32 }
    ensures { OnOk result (bytes.new.items ≡ bytes.old.items ++ ring positions.now) }
{
    let [first, ..] = positions else {
        put_number(0, bytes)?;
        return Ok(());
    };
    put_number(positions.len() as u32 + 1, bytes)?;
    put_positions(positions, bytes)?;
    put_position(*first, bytes)?;
    Ok(())
}

/// Appends the head of a geometry.
#[tactic(auto, unfolding(crate::specs::Spelling::head))]
fn put_head<A: Allocator>(kind: u32, srid: u32, bytes: &mut Vec<u8, A>) -> Result<(), AllocError>
    requires { kind < 8 }
    ensures { OnOk result (bytes.new.items ≡ bytes.old.items ++ head kind srid) }
{
    bytes.push(1)?;
    if srid == 0 {
        return put_number(kind, bytes);
    }
    put_number(536870912 + kind, bytes)?;
    put_number(srid, bytes)
}

/// Where a piece starts: where the one before it stops.
fn start_of(ends: &[usize], index: usize) -> usize
    requires { index ≤ length ends.now }
    ensures { result ≡ start_of ends.now index }
{
    if index == 0 { 0 } else { ends[index - 1] }
}

/// Whether each piece stops where it starts or later, and none behind the limit.
pub fn are_ends(ends: &[usize], limit: usize) -> bool
    ensures yes { IsTrue result → AreEnds ends.now limit }
    ensures no { AreEnds ends.now limit → IsTrue result }
{
    // Each piece before stops where it starts or later, and not behind the limit.
    for index in 0..ends.len() {
        if !is_end(ends, index, limit) {
            return false;
        }
    }
    true
}

/// Whether a piece stops where it starts or later, and not behind the limit.
fn is_end(ends: &[usize], index: usize, limit: usize) -> bool
    requires { index < length ends.now }
    ensures yes { IsTrue result → (start_of ends.now index ≤ slice_index ends.now index) × (slice_index ends.now index ≤ limit) }
    ensures no { (start_of ends.now index ≤ slice_index ends.now index) → (slice_index ends.now index ≤ limit) → IsTrue result }
{
    start_of(ends, index) <= ends[index] && ends[index] <= limit
}

/// The positions of a ring among those of all.
#[tactic(auto, unfolding(crate::specs::Spelling::ring_of))]
fn ring_of<'a>(positions: &'a [Position], ring_ends: &[usize], index: usize) -> &'a [Position]
    requires ends { AreEnds ring_ends.now (length positions.now) }
    requires below { index < length ring_ends.now }
    ensures value { result.now ≡ ring_of positions.now ring_ends.now index }
    ensures most { length result.now ≤ length positions.now }
{
    let start = start_of(ring_ends, index);
    &positions[start..ring_ends[index]]
}

/// Appends the rings from one on and up to another.
fn put_rings<A: Allocator>(
    positions: &[Position],
    ring_ends: &[usize],
    start: usize,
    end: usize,
    bytes: &mut Vec<u8, A>,
) -> Result<(), AllocError>
    requires ends { AreEnds ring_ends.now (length positions.now) }
    requires few { length positions.now + 1 < 2 ^ 32 }
    requires range { (start ≤ end) × (end ≤ length ring_ends.now) }
    ensures { OnOk result (bytes.new.items ≡ bytes.old.items ++ flat_map ring (map (ring_of positions.now ring_ends.now) (range_with_len start (end - start)))) }
{
    // The rings from the start on and before this one are appended.
    for index in start..end {
        let positions_of_ring = ring_of(positions, ring_ends, index);
        put_ring(positions_of_ring, bytes)?;
    }
    Ok(())
}

/// Appends a polygon of the rings from one on and up to another.
#[tactic(auto, unfolding(crate::specs::Spelling::polygon))]
fn put_polygon<A: Allocator>(
    positions: &[Position],
    ring_ends: &[usize],
    start: usize,
    end: usize,
    srid: u32,
    bytes: &mut Vec<u8, A>,
) -> Result<(), AllocError>
    requires ends { AreEnds ring_ends.now (length positions.now) }
    requires few { length positions.now + 1 < 2 ^ 32 }
    requires few_rings { length ring_ends.now < 2 ^ 32 }
    requires range { (start ≤ end) × (end ≤ length ring_ends.now) }
    ensures { OnOk result (bytes.new.items ≡ bytes.old.items ++ polygon srid (map (ring_of positions.now ring_ends.now) (range_with_len start (end - start)))) }
{
    put_head(3, srid, bytes)?;
    put_number((end - start) as u32, bytes)?;
    put_rings(positions, ring_ends, start, end, bytes)?;
    Ok(())
}

/// Appends all polygons, one after the other.
fn put_polygons<A: Allocator>(
    positions: &[Position],
    ring_ends: &[usize],
    polygon_ends: &[usize],
    srid: u32,
    bytes: &mut Vec<u8, A>,
) -> Result<(), AllocError>
    requires ends { AreEnds ring_ends.now (length positions.now) }
    requires few { length positions.now + 1 < 2 ^ 32 }
    requires few_rings { length ring_ends.now < 2 ^ 32 }
    requires polygons { AreEnds polygon_ends.now (length ring_ends.now) }
    ensures { OnOk result (bytes.new.items ≡ bytes.old.items ++ flat_map (polygon srid) (polygons_of positions.now ring_ends.now polygon_ends.now)) }
{
    // The polygons before this one are appended.
    for index in 0..polygon_ends.len() {
        let start = start_of(polygon_ends, index);
        put_polygon(
            positions,
            ring_ends,
            start,
            polygon_ends[index],
            srid,
            bytes,
        )?;
    }
    Ok(())
}

/// Appends the polygons in the form that is asked for. Of all positions, rings and polygons there are fewer than 2^32 - 1.
#[tactic(auto, unfolding(crate::specs::Spelling::written))]
pub fn write_positions<A: Allocator>(
    positions: &[Position],
    ring_ends: &[usize],
    polygon_ends: &[usize],
    form: Form,
    srid: u32,
    bytes: &mut Vec<u8, A>,
) -> Result<(), AllocError>
    requires ends { AreEnds ring_ends.now (length positions.now) }
    requires few { length positions.now + 1 < 2 ^ 32 }
    requires few_rings { length ring_ends.now < 2 ^ 32 }
    requires polygons { AreEnds polygon_ends.now (length ring_ends.now) }
    requires few_polygons { length polygon_ends.now < 2 ^ 32 }
    ensures { OnOk result (bytes.new.items ≡ bytes.old.items ++ written form srid (polygons_of positions.now ring_ends.now polygon_ends.now)) }
{
    match form {
        Form::MultiPolygon => {
            put_head(6, srid, bytes)?;
            put_number(polygon_ends.len() as u32, bytes)?;
            put_polygons(positions, ring_ends, polygon_ends, 0, bytes)?;
            Ok(())
        }
        Form::EachPolygon => put_polygons(positions, ring_ends, polygon_ends, srid, bytes),
    }
}
