//! Placed rings appended as polygons.

ghost use Rattle.std.specs.Prelude.{◌≡◌, ◌++◌, ◌+◌, ◌^◌, ◌<◌, OnErr, OnOk, length, map};
ghost use Rattle.std.specs.List.{flat_map};
ghost use Rattle.overlay.specs.Contours.Outlines.{outline};
ghost use Rattle.plane.specs.Lists.{Extends};
ghost use Rattle.noding.specs.Offsets.{offsets};
ghost use Rattle.overlay.specs.Grouping.{AreWithin, placed_polygons, polygons_of, ring_in};
ghost use Rattle.overlay.specs.Polygons.{Appends, AreExtended};

use super::order::PlacedRing;
use crate::contours::append_outline;
use crate::rings::Polygons;
use plane::point::Point;
use std::alloc::{AllocError, Allocator};

/// Appends the outlines of rings in the order of their polygons, and where each polygon stops.
pub fn append_in_order<A: Allocator>(
    points: &[Point],
    order: &[PlacedRing],
    out: &mut Polygons<A>,
) -> Result<(), AllocError>
    requires within { AreWithin points.now order.now }
    ensures ok { OnOk result (Appends (map (λ polygon. map outline polygon) (placed_polygons points.now order.now)) out.old out.new) }
    ensures err { OnErr result (AreExtended out.old out.new) }
{
    let first = out.ring_ends.len();
    append_rings(points, order, &mut out.points, &mut out.ring_ends)?;
    append_polygon_ends(order, first, &mut out.polygon_ends)
}

// Appends the outline of each ring, and where it stops.
fn append_rings<A: Allocator>(
    points: &[Point],
    order: &[PlacedRing],
    out: &mut Vec<Point, A>,
    ring_ends: &mut Vec<usize, A>,
) -> Result<(), AllocError>
    requires within { AreWithin points.now order.now }
    ensures ok { OnOk result ((out.new.items ≡ out.old.items ++ flat_map outline (map (ring_in points.now) order.now))
        × (ring_ends.new.items ≡ ring_ends.old.items ++ offsets (length out.old.items) (map outline (map (ring_in points.now) order.now)))) }
    ensures err { OnErr result (Extends out.old.items out.new.items × Extends ring_ends.old.items ring_ends.new.items) }
{
    for ring in order {
        append_outline(&points[ring.start..ring.end], out)?;
        ring_ends.push(out.len())?;
    }
    Ok(())
}

// Appends where each polygon stops, if so many rings are before these: before the next outer ring, and behind the last ring.
fn append_polygon_ends<A: Allocator>(
    order: &[PlacedRing],
    first: usize,
    polygon_ends: &mut Vec<usize, A>,
) -> Result<(), AllocError>
    requires { first + length order.now < 2 ^ 64 }
    ensures ok { OnOk result (polygon_ends.new.items ≡ polygon_ends.old.items ++ offsets first (polygons_of order.now)) }
    ensures err { OnErr result (Extends polygon_ends.old.items polygon_ends.new.items) }
{
    if order.is_empty() {
        return Ok(());
    }
    let mut end = first + 1;
    for ring in &order[1..] {
        if !ring.is_hole {
            polygon_ends.push(end)?;
        }
        end += 1;
    }
    polygon_ends.push(end)?;
    Ok(())
}
