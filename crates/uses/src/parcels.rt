//! How much of the parcels lies in each district.

ghost use Rattle.std.specs.Prelude.{length};
ghost use Rattle.overlay.specs.Rings.{AreEnds};

use overlay::areas::twice_area;
use overlay::{FillRule, Operation, OverlayFault, Polygons, Rings, overlay};
use std::alloc::Global;

/// Twice the area that the parcels have in each of the districts, in their order. Outer rings run counterclockwise, and holes
/// clockwise. What two parcels share counts once.
///
/// The corners of what is common are rounded to whole numbers, and of that the area is exact. It is refused as `overlay` is.
pub fn twice_areas(
    alloc: Global,
    parcels: Rings,
    districts: &[Rings],
) -> Result<Vec<i128>, OverlayFault> {
    let mut areas = Vec::new(alloc);
    for district in districts {
        let mut common = Polygons::new(alloc);
        overlay(
            parcels,
            *district,
            FillRule::NonZero,
            Operation::Intersection,
            &mut common,
        )?;
        areas.push(twice_area_of(&common))?;
    }
    Ok(areas)
}

// Twice the area of polygons: holes run clockwise, so that their areas are below 0.
fn twice_area_of(polygons: &Polygons<Global>) -> i128
    requires { AreEnds 0 polygons.now.ring_ends.items (length polygons.now.points.items) }
{
    let mut sum = 0;
    let mut start = 0;
    for end in &polygons.ring_ends {
        sum += twice_area(&polygons.points[start..*end]);
        start = *end;
    }
    sum
}
