//! Rings in the order of their polygons.

ghost use Rattle.std.specs.Prelude.{◌≡◌, IfOk, IsPermutation, length};
ghost use Rattle.std.specs.List.Sorted.{IsNonDecreasingBy};
ghost use Rattle.overlay.specs.Grouping.{AreHomes, placed_from, rank};

use super::homes::home_of;
use std::alloc::{AllocError, Allocator};

/// A ring: where its points start and end, whether it is a hole, and the number of the outer ring of its polygon.
#[derive(Clone, Copy, Debug)]
pub struct PlacedRing {
    pub home: usize,
    pub is_hole: bool,
    pub start: usize,
    pub end: usize,
}

/// All rings, polygon by polygon, each outer ring before its holes.
pub fn rings_in_order<A: Allocator>(
    alloc: A,
    ends: &[usize],
    are_outer: &[bool],
    homes: &[usize],
) -> Result<Vec<PlacedRing, A>, AllocError>
    requires each { length are_outer.now ≡ length ends.now }
    requires homes { AreHomes are_outer.now homes.now }
    ensures all { IfOk result (λ rings. IsPermutation (placed_from are_outer.now homes.now 0 0 ends.now) rings.items) }
    ensures order { IfOk result (λ rings. IsNonDecreasingBy rank rings.items) }
{
    let mut rings = placed_rings(alloc, ends, are_outer, homes)?;
    rings.sort_unstable_by_key(|ring| rank(*ring));
    Ok(rings)
}

// Each ring, with the number of the outer ring of its polygon.
fn placed_rings<A: Allocator>(
    alloc: A,
    ends: &[usize],
    are_outer: &[bool],
    homes: &[usize],
) -> Result<Vec<PlacedRing, A>, AllocError>
    requires each { length are_outer.now ≡ length ends.now }
    requires homes { AreHomes are_outer.now homes.now }
    ensures { IfOk result (λ rings. rings.items ≡ placed_from are_outer.now homes.now 0 0 ends.now) }
{
    let mut rings = Vec::with_capacity(alloc, ends.len())?;
    let mut start = 0;
    for (place, end) in ends.iter().enumerate() {
        rings.push(PlacedRing {
            home: home_of(are_outer, homes, place),
            is_hole: !are_outer[place],
            start,
            end: *end,
        })?;
        start = *end;
    }
    Ok(rings)
}

// The rank of the ring among all: its polygon counts first, and an outer ring comes before its holes.
fn rank(ring: PlacedRing) -> u128
    ensures { result ≡ rank ring }
{
    let polygon = ring.home as u128 * 2;
    if ring.is_hole { polygon + 1 } else { polygon }
}
