//! How parts cover a whole: where there are gaps, and where parts overlap.

use overlay::{FillRule, Operation, OverlayFault, Polygons, Rings, overlay, simplify};
use std::alloc::Global;

/// Where parts don't cover their whole just once.
#[derive(Drop)]
pub struct Coverage {
    /// What is of the whole and of no part.
    pub gaps: Polygons<Global>,
    /// What is of two parts, or of four, and so on.
    pub overlaps: Polygons<Global>,
}

/// The gaps between the parts and their overlaps. Each ring is a part, and all parts run the same way, either one.
///
/// Within a unit of an edge, rounding may tell a point otherwise. It is refused as `overlay` is.
pub fn coverage_of(alloc: Global, whole: Rings, parts: Rings) -> Result<Coverage, OverlayFault> {
    let mut gaps = Polygons::new(alloc);
    overlay(
        whole,
        parts,
        FillRule::NonZero,
        Operation::Difference,
        &mut gaps,
    )?;
    let mut covered = Polygons::new(alloc);
    simplify(parts, FillRule::NonZero, &mut covered)?;
    let covered = Rings {
        points: &covered.points,
        ends: &covered.ring_ends,
    };
    // by the odd ones, a point of an even number of parts is of what is covered alone
    let mut overlaps = Polygons::new(alloc);
    overlay(
        covered,
        parts,
        FillRule::EvenOdd,
        Operation::Xor,
        &mut overlaps,
    )?;
    Ok(Coverage { gaps, overlaps })
}
