//! The corners of the box round shapes in well-known binary.

ghost use Rattle.std.specs.Prelude.{◌≡◌, ◌+◌, ◌<◌, ◌++◌, length, IfErr, IfOk, OnOk};
ghost use Rattle.std.specs.List.{AllByRecursion, flat_map};
ghost use Rattle.grid.specs.Fit.{AreFinite};
ghost use Rattle.wkb.specs.Coordinates.{positions_of};
ghost use Rattle.wkb.specs.Corners.{AreCornersOf, IsCornersFault, IsInfiniteAmong, IsInfiniteFlaw, IsInfiniteOf, LaysPositions};
ghost use Rattle.wkb.specs.Format.{LiesWithin};
ghost use Rattle.wkb.specs.Reading.{IfFaulty, IfFlawed, shape_bytes};

use crate::coordinates::{append_positions, place_of};
use crate::fault::{Fault, FaultKind, Flaw, LayoutFault, ReadFault};
use crate::reading::{BinaryArray, fault_among};
use crate::structure::{RingAt, layout};
use grid::Position;
use grid::corners::corners;
use std::alloc::Allocator;

/// Appends the positions of a ring, all of which have to be finite.
fn append_ring<A: Allocator>(
    bytes: &[u8],
    ring: &RingAt,
    positions: &mut Vec<Position, A>,
) -> Result<(), LayoutFault>
    requires lies { LiesWithin ring.now (length bytes.now) }
    requires finite { AreFinite positions.old.items }
    ensures ok { OnOk result (positions.new.items ≡ positions.old.items ++ positions_of bytes.now ring.now) }
    ensures finite { OnOk result (AreFinite positions.new.items) }
    ensures fault { IfErr result (λ e. IfFlawed e (λ flaw. IsInfiniteOf bytes.now ring.now flaw)) }
{
    let before = positions.as_slice();
    let start = before.len();
    append_positions(bytes, ring, positions)?;
    let Err(place) = corners(&positions[start..]) else {
        return Ok(());
    };
    Err(LayoutFault::Flawed(Flaw {
        kind: FaultKind::NotFinite,
        byte: place_of(ring, place, bytes.len()),
    }))
}

/// Appends the positions of rings, all of which have to be finite.
fn append_rings<A: Allocator>(
    bytes: &[u8],
    rings: &[RingAt],
    positions: &mut Vec<Position, A>,
) -> Result<(), LayoutFault>
    requires lie { AllByRecursion (λ ring. LiesWithin ring (length bytes.now)) rings.now }
    requires finite { AreFinite positions.old.items }
    ensures ok { OnOk result (positions.new.items ≡ positions.old.items ++ flat_map (positions_of bytes.now) rings.now) }
    ensures finite { OnOk result (AreFinite positions.new.items) }
    ensures fault { IfErr result (λ e. IfFlawed e (λ flaw. IsInfiniteAmong bytes.now rings.now flaw)) }
{
    for ring in rings {
        append_ring(bytes, ring, positions)?;
    }
    Ok(())
}

/// Appends the positions of a shape, all of which have to be finite.
fn append_shape<A: Allocator>(
    bytes: &[u8],
    most_nested: usize,
    rings: &mut Vec<RingAt, A>,
    positions: &mut Vec<Position, A>,
) -> Result<(), LayoutFault>
    requires { AreFinite positions.old.items }
    ensures ok { OnOk result (LaysPositions most_nested bytes.now positions.old.items positions.new.items) }
    ensures finite { OnOk result (AreFinite positions.new.items) }
    ensures fault { IfErr result (λ e. IfFlawed e (λ flaw. IsInfiniteFlaw most_nested bytes.now flaw)) }
{
    layout(bytes, most_nested, rings)?;
    append_rings(bytes, rings, positions)?;
    Ok(())
}

/// Appends the positions of one of many shapes, all of which have to be finite.
fn append_next<A: Allocator>(
    array: BinaryArray<'_>,
    shape: usize,
    most_nested: usize,
    rings: &mut Vec<RingAt, A>,
    positions: &mut Vec<Position, A>,
) -> Result<(), ReadFault>
    requires shape { shape + 1 < length array.offsets.now }
    requires finite { AreFinite positions.old.items }
    ensures ok { OnOk result (LaysPositions most_nested (shape_bytes array.entry.bytes.now array.entry.offsets.now shape) positions.old.items positions.new.items) }
    ensures finite { OnOk result (AreFinite positions.new.items) }
    ensures fault { IfErr result (λ e. IfFaulty e (λ fault. IsCornersFault most_nested array.entry.bytes.now array.entry.offsets.now fault)) }
{
    let start = array.offsets[shape];
    let end = array.offsets[shape + 1];
    if end < start || array.bytes.len() < end {
        return Err(ReadFault::Faulty(Fault {
            kind: FaultKind::Offsets,
            shape,
            byte: start,
        }));
    }
    match append_shape(&array.bytes[start..end], most_nested, rings, positions) {
        Ok(()) => Ok(()),
        Err(fault) => Err(fault_among(fault, shape, start)),
    }
}

/// The least coordinates of all positions of shapes, and the greatest. None where there is no position.
///
/// The shapes are as `read` of `reading` takes them; an `Err` says what is wrong with them, that a coordinate isn't finite, or
/// that memory was refused.
pub fn corners_of<A: Allocator + Copy>(
    alloc: A,
    bytes: &[u8],
    offsets: &[usize],
    most_nested: usize,
) -> Result<Option<(Position, Position)>, ReadFault>
    ensures ok { IfOk result (λ found. AreCornersOf most_nested bytes.now offsets.now found) }
    ensures fault { IfErr result (λ e. IfFaulty e (λ fault. IsCornersFault most_nested bytes.now offsets.now fault)) }
{
    let mut rings = Vec::new(alloc);
    let mut positions = Vec::new(alloc);
    let array = BinaryArray { bytes, offsets };
    for shape in 0..offsets.len().saturating_sub(1) {
        append_next(array, shape, most_nested, &mut rings, &mut positions)?;
    }
    let Ok(found) = corners(&positions) else {
        unreachable!();
    };
    Ok(found)
}
