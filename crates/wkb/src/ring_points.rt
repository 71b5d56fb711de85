//! The points of a ring, turned the way that it has to run.

ghost use Rattle.std.specs.Prelude.{◌≡◌, ◌≤◌, ◌<◌, ◌^◌, ◌++◌, length, All, IfErr, OnErr, OnOk, true, false, ◌+◌, ◌*◌};
ghost use Rattle.grid.specs.Grid.{IsFinitePosition};
ghost use Rattle.grid.specs.Grid.{IsGrid, IsFaultAt};
ghost use Rattle.wkb.specs.Coordinates.{positions_of};
ghost use Rattle.wkb.specs.Format.{LiesWithin};
ghost use Rattle.wkb.specs.Reading.{AreTold, IfFlawed, IsRing, IsRingFlaw, IsTurned, kind_of_fault};

use crate::coordinates::{append_positions, place_of};
use crate::fault::{FaultKind, Flaw, LayoutFault};
use crate::structure::RingAt;
use grid::points::points_of;
use grid::units::{CoordinateFault, Grid};
use grid::{Position, runs_counterclockwise};
use plane::point::Point;
use std::alloc::Allocator;

/// What a fault of a coordinate is among those of bytes.
fn kind_of_fault(fault: CoordinateFault) -> FaultKind
    ensures { result ≡ kind_of_fault fault }
{
    match fault {
        CoordinateFault::NotFinite => FaultKind::NotFinite,
        CoordinateFault::OffGrid => FaultKind::OffGrid,
    }
}

/// Turns an outer ring that doesn't run counterclockwise.
fn turn_outer(positions: &[Position], points: &mut [Point])
    requires finite { All IsFinitePosition positions.now }
    requires few { length positions.now < 2 ^ 32 }
    ensures { IsTurned false positions.now points.old points.new }
{
    if runs_counterclockwise(positions) {
        return;
    }
    points.reverse();
}

/// Turns a hole that runs counterclockwise.
fn turn_hole(positions: &[Position], points: &mut [Point])
    requires finite { All IsFinitePosition positions.now }
    requires few { length positions.now < 2 ^ 32 }
    ensures { IsTurned true positions.now points.old points.new }
{
    if !runs_counterclockwise(positions) {
        return;
    }
    points.reverse();
}

/// Turns a ring that doesn't run the way that it has to.
fn turn(is_hole: bool, positions: &[Position], points: &mut [Point])
    requires finite { All IsFinitePosition positions.now }
    requires few { length positions.now < 2 ^ 32 }
    ensures { IsTurned is_hole positions.now points.old points.new }
{
    match is_hole {
        true => turn_hole(positions, points),
        false => turn_outer(positions, points),
    }
}

/// The flaw of a position of a ring.
fn flaw_at(ring: &RingAt, index: usize, fault: CoordinateFault, size: usize) -> LayoutFault
    requires lies { LiesWithin ring.now size }
    requires below { index < ring.now.count }
    ensures { IfFlawed result (λ flaw. (flaw.kind ≡ kind_of_fault fault) × (flaw.byte ≡ ring.now.start + index * ring.now.stride)) }
{
    LayoutFault::Flawed(Flaw {
        kind: kind_of_fault(fault),
        byte: place_of(ring, index, size),
    })
}

/// Makes `told` the points that tell the positions of a ring.
fn tell<A: Allocator>(
    grid: &Grid,
    ring: &RingAt,
    size: usize,
    positions: &[Position],
    told: &mut Vec<Point, A>,
) -> Result<(), LayoutFault>
    requires grid { IsGrid grid.now }
    requires lies { LiesWithin ring.now size }
    requires most { length positions.now ≤ ring.now.count }
    ensures ok { OnOk result (AreTold grid.now positions.now told.new.items) }
    ensures fault { IfErr result (λ e. IfFlawed e (λ flaw. IsRingFlaw grid.now ring.now positions.now flaw)) }
{
    told.clear();
    told.resize(positions.len(), Point { x: 0, y: 0 })?;
    let found = points_of(grid, positions, told.as_mut_slice());
    match found {
        Ok(()) => Ok(()),
        Err((index, fault)) => Err(flaw_at(ring, index, fault, size)),
    }
}

/// Makes `positions` those of a ring.
fn take_positions<A: Allocator>(
    bytes: &[u8],
    ring: &RingAt,
    positions: &mut Vec<Position, A>,
) -> Result<(), LayoutFault>
    requires { LiesWithin ring.now (length bytes.now) }
    ensures value { OnOk result (positions.new.items ≡ positions_of bytes.now ring.now) }
    ensures most { OnOk result (length positions.new.items ≤ ring.now.count) }
    ensures few { OnOk result (length positions.new.items < 2 ^ 32) }
    ensures fault { IfErr result (λ e. IfFlawed e (λ _. ⊥)) }
{
    let _most = ring.count;
    positions.clear();
    append_positions(bytes, ring, positions)?;
    Ok(())
}

/// Appends the points of a ring, turned the way that it has to run. `positions` and `told` are room to work in.
///
/// At an `Err` for a flaw, a position of the ring has no point, and the flaw begins where the position does. The points are as
/// before then, and also where memory is refused.
pub fn append_points<A: Allocator>(
    bytes: &[u8],
    ring: &RingAt,
    grid: &Grid,
    positions: &mut Vec<Position, A>,
    told: &mut Vec<Point, A>,
    points: &mut Vec<Point, A>,
) -> Result<(), LayoutFault>
    requires grid { IsGrid grid.now }
    requires lies { LiesWithin ring.now (length bytes.now) }
    ensures ok { OnOk result (points.new.items ≡ points.old.items ++ told.new.items) }
    ensures ring { OnOk result (IsRing grid.now ring.now.is_hole (positions_of bytes.now ring.now) told.new.items) }
    ensures fault { IfErr result (λ e. IfFlawed e (λ flaw. IsRingFlaw grid.now ring.now (positions_of bytes.now ring.now) flaw)) }
    ensures err { OnErr result (points.new.items ≡ points.old.items) }
{
    take_positions(bytes, ring, positions)?;
    tell(grid, ring, bytes.len(), positions, told)?;
    turn(ring.is_hole, positions, told.as_mut_slice());
    points.extend_from_slice(told)?;
    Ok(())
}
