//! Rings without the points at which they go straight on.

ghost use Rattle.std.specs.Prelude.{◌≡◌, ◌++◌, ◌<◌, ◌+◌, List, MatchBool, OnErr, OnOk, drop, length, map};
ghost use Rattle.std.specs.List.{flat_map};
ghost use Rattle.plane.specs.declared.point.Point.{Point};
ghost use Rattle.overlay.specs.Contours.Outlines.{IsStraight, next_or, outline, ring_point};
ghost use Rattle.plane.specs.Lists.{Extends};
ghost use Rattle.noding.specs.Offsets.{offsets};

use super::turns::is_ahead;
use crate::rings::ring_at;
use plane::point::Point;
use plane::vectors::{cross_product, vector_between};
use std::alloc::{AllocError, Allocator};

/// Appends the outline of each ring, and where it stops. The rings stand one after another, and each stops at its end.
pub fn append_outlines<A: Allocator>(
    rings: &[Point],
    ends: &[usize],
    points: &mut Vec<Point, A>,
    ring_ends: &mut Vec<usize, A>,
) -> Result<(), AllocError>
    requires { (lists : List (List Point)) × (rings.now ≡ flat_map (λ ring. ring) lists)
        × (ends.now ≡ offsets 0 lists) }
    ensures ok { (lists : List (List Point)) → rings.now ≡ flat_map (λ ring. ring) lists
        → ends.now ≡ offsets 0 lists → OnOk result (
        (points.new.items ≡ points.old.items ++ flat_map outline lists)
        × (ring_ends.new.items ≡ ring_ends.old.items ++ offsets (length points.old.items) (map outline lists))) }
    ensures err { OnErr result (Extends points.old.items points.new.items
        × Extends ring_ends.old.items ring_ends.new.items) }
{
    for ring in 0..ends.len() {
        append_outline(ring_at(rings, ends, ring), points)?;
        ring_ends.push(points.len())?;
    }
    Ok(())
}

/// Appends the points of the ring at which it doesn't go straight on. Memory that is refused is the only error.
pub fn append_outline<A: Allocator>(
    ring: &[Point],
    points: &mut Vec<Point, A>,
) -> Result<(), AllocError>
    ensures ok { OnOk result (points.new.items ≡ points.old.items ++ outline ring.now) }
    ensures err { OnErr result (Extends points.old.items points.new.items) }
{
    if ring.is_empty() {
        return Ok(());
    }
    let mut before = ring[ring.len() - 1];
    for (place, at) in ring.iter().enumerate() {
        if !goes_straight(before, *at, next_in(ring, place)) {
            points.push(*at)?;
        }
        before = *at;
    }
    Ok(())
}

/// The point behind this place in the ring.
pub fn next_in(ring: &[Point], place: usize) -> Point
    requires { place < length ring.now }
    ensures { result ≡ next_or (drop (place + 1) ring.now) (ring_point ring.now 0) }
{
    if place + 1 < ring.len() {
        return ring[place + 1];
    }
    ring[0]
}

// Whether it goes straight on from the first point over the second to the third.
fn goes_straight(before: Point, at: Point, after: Point) -> bool
    ensures { MatchBool result (IsStraight before at after) (¬ (IsStraight before at after)) }
{
    let one = vector_between(before, at);
    let other = vector_between(at, after);
    if cross_product(one, other) != 0 {
        return false;
    }
    is_ahead(one, other)
}
