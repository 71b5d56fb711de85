//! Points of a grid as well-known binary.

ghost use Rattle.std.specs.Prelude.{◌≡◌, ◌+◌, ◌<◌, ◌^◌, length, IfOk};
ghost use Rattle.grid.specs.Grid.{IsGrid};
ghost use Rattle.wkb.specs.Spelling.{AreEnds, IsWritten};

use crate::writing::{Form, write_positions};
use grid::Position;
use grid::points::positions_of;
use grid::units::Grid;
use plane::point::Point;
use std::alloc::{AllocError, Allocator};

/// Polygons of a grid: the points of all rings, one ring after another, where each ring stops among the points, and where each
/// polygon stops among the rings. The first ring of a polygon is the outer one, and those behind it are holes.
#[derive(Clone, Copy, Debug)]
pub struct PolygonPoints<'a> {
    pub points: &'a [Point],
    pub ring_ends: &'a [usize],
    pub polygon_ends: &'a [usize],
}

/// Polygons as well-known binary. Each ring ends with its first point again.
///
/// The numbers are written lowest byte first. Where `srid` isn't 0 it is told behind the type, with PostGIS's flag. Memory that is
/// refused is the only error. `are_ends` says of ends whether they may be handed in.
pub fn write<A: Allocator + Copy>(
    alloc: A,
    polygons: PolygonPoints,
    grid: &Grid,
    form: Form,
    srid: u32,
) -> Result<Vec<u8, A>, AllocError>
    requires grid { IsGrid grid.now }
    requires ends { AreEnds polygons.ring_ends.now (length polygons.points.now) }
    requires few { length polygons.points.now + 1 < 2 ^ 32 }
    requires few_rings { length polygons.ring_ends.now < 2 ^ 32 }
    requires polygons { AreEnds polygons.polygon_ends.now (length polygons.ring_ends.now) }
    requires few_polygons { length polygons.polygon_ends.now < 2 ^ 32 }
    ensures { IfOk result (λ bytes. IsWritten grid.now polygons.entry.points.now polygons.entry.ring_ends.now
        polygons.entry.polygon_ends.now form srid bytes.items) }
{
    let PolygonPoints {
        points,
        ring_ends,
        polygon_ends,
    } = polygons;
    let mut positions = Vec::new(alloc);
    positions.resize(points.len(), Position { x: 0, y: 0 })?;
    positions_of(grid, points, positions.as_mut_slice());
    let mut bytes = Vec::new(alloc);
    write_positions(&positions, ring_ends, polygon_ends, form, srid, &mut bytes)?;
    Ok(bytes)
}
