//! Land that no water covers.

use overlay::{FillRule, Operation, OverlayFault, Polygons, Rings, overlay};
use std::alloc::Global;

/// The land that no water covers, as polygons with holes.
pub fn dry_land(
    alloc: Global,
    land: Rings,
    water: Rings,
) -> Result<Polygons<Global>, OverlayFault> {
    let mut dry = Polygons::new(alloc);
    overlay(
        land,
        water,
        FillRule::NonZero,
        Operation::Difference,
        &mut dry,
    )?;
    Ok(dry)
}
