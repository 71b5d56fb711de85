//! To which outer ring each ring belongs.

ghost use Rattle.std.specs.Prelude.{◌≡◌, ◌<◌, [], false, true, All, IfErr, IfOk, IfSome, OnOk, length, map};
ghost use Rattle.i_tree.specs.declared.Refusal.TheVariants.{OutOfMemory};
ghost use Rattle.i_tree.specs.Root.Handles.{HasAllHandles};
ghost use Rattle.overlay.specs.Grouping.{AreFirsts, AreHomes, AreInTurn, AreTold, IsOnlyOuter, IsSettled, IsUntold, ShareHomes, firsts_of, home_of, is_outer};
ghost use Rattle.overlay.specs.Polygons.{BoundsSome, is_counterclockwise};
ghost use Rattle.overlay.specs.Rings.{AreEnds, edges_in, rings_of};

use super::below::{beginnings, passes_few, walk_rings};
use super::holes::{Hole, holes_in_order};
use super::sides::sides_in_order;
use super::sweep::sweep_sides;
use i_tree::Refusal;
use i_tree::status::exp::StatusCollection;
use plane::point::Point;
use plane::sweep_line::ActiveEdge;
use std::alloc::Allocator;

/// For each ring the number of an outer ring: for a hole, that of its polygon. An outer ring is its own, whatever stands there.
///
/// Before any home is found, `outer` stands for each. It begins with an empty status. It is refused where memory was refused, or
/// the status refused an edge: for want of memory alone if it has handles for any number.
pub fn homes<C, A>(
    alloc: A,
    status: &mut C,
    points: &[Point],
    ends: &[usize],
    are_outer: &[bool],
    outer: usize,
) -> Result<Vec<usize, A>, Refusal>
where
    C: StatusCollection<ActiveEdge, i64, ()>,
    A: Allocator + Copy,
    requires empty { C.stored status.old ≡ [] }
    requires ends { AreEnds 0 ends.now (length points.now) }
    requires bounding { BoundsSome (edges_in points.now ends.now) }
    requires marks { are_outer.now ≡ map is_counterclockwise (rings_of points.now 0 ends.now) }
    requires outer { is_outer are_outer.now outer ≡ true }
    ensures ok { IfOk result (λ homes. AreHomes are_outer.now homes.items) }
    ensures share { IfOk result (λ homes. ShareHomes (rings_of points.now 0 ends.now) are_outer.now homes.items) }
    ensures refused { HasAllHandles C.has_handles → IfErr result (λ cause. cause ≡ OutOfMemory) }
{
    let mut homes = vec![in alloc; outer; are_outer.len()]?;
    if is_only_outer(are_outer, outer) {
        return Ok(homes);
    }
    let mut holes = holes_in_order(alloc, points, ends, are_outer)?;
    find_below(alloc, status, points, ends, &mut holes)?;
    settle_holes(&holes, are_outer, &mut homes);
    Ok(homes)
}

// Whether no other ring is an outer one. Then all holes are of its polygon, whatever is below them.
fn is_only_outer(are_outer: &[bool], outer: usize) -> bool
    ensures { result ≡ true → IsOnlyOuter are_outer.now outer }
{
    for (ring, is_outer) in are_outer.iter().enumerate() {
        if *is_outer && ring != outer {
            return false;
        }
    }
    true
}

// Finds the highest side of all rings below each hole: by a walk, or by a sweep where a walk passes many holes.
fn find_below<C, A>(
    alloc: A,
    status: &mut C,
    points: &[Point],
    ends: &[usize],
    holes: &mut [Hole],
) -> Result<(), Refusal>
where
    C: StatusCollection<ActiveEdge, i64, ()>,
    A: Allocator + Copy,
    requires empty { C.stored status.old ≡ [] }
    requires ends { AreEnds 0 ends.now (length points.now) }
    requires bounding { BoundsSome (edges_in points.now ends.now) }
    requires firsts { AreFirsts (rings_of points.now 0 ends.now) (firsts_of holes.old) }
    requires untold { All IsUntold holes.old }
    ensures told { OnOk result (AreTold (rings_of points.now 0 ends.now) (firsts_of holes.old) holes.new) }
    ensures refused { HasAllHandles C.has_handles → IfErr result (λ cause. cause ≡ OutOfMemory) }
{
    if holes.is_empty() {
        return Ok(());
    }
    let xs = beginnings(alloc, holes)?;
    if passes_few(&xs, points, ends) {
        walk_rings(&xs, holes, points, ends);
        return Ok(());
    }
    let sides = sides_in_order(alloc, points, ends)?;
    sweep_sides(status, &sides, holes)
}

// Notes the homes of holes one by one, in the order in which they begin: what is below the first side of a hole belongs to an
// outer ring, or to a hole that begins before it.
fn settle_holes(holes: &[Hole], are_outer: &[bool], homes: &mut [usize])
    requires of { All (λ hole. (hole.first.ring < length are_outer.now) × (is_outer are_outer.now hole.first.ring ≡ false)
        × IfSome hole.below (λ side. side.ring < length are_outer.now)) holes.now }
    requires turn { AreInTurn holes.now }
    requires homes { AreHomes are_outer.now homes.old }
    ensures homes { AreHomes are_outer.now homes.new }
    ensures settled { All (IsSettled are_outer.now homes.new) holes.now }
{
    for hole in holes {
        if let Some(below) = hole.below {
            homes[hole.first.ring] = home_of(are_outer, homes, below.ring);
        }
    }
}

/// The outer ring of the polygon of this ring.
pub fn home_of(are_outer: &[bool], homes: &[usize], ring: usize) -> usize
    requires ring { ring < length are_outer.now }
    requires homes { AreHomes are_outer.now homes.now }
    ensures { result ≡ home_of are_outer.now homes.now ring }
{
    if are_outer[ring] {
        return ring;
    }
    homes[ring]
}
