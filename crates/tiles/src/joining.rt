//! One set of polygons from those of several windows.

ghost use Rattle.std.specs.Prelude.{◌≡◌, ◌++◌, ◌∷◌, [], ◌≢◌, All, List, IfErr, IfOk, MatchBool, OnErr, OnOk};
ghost use Rattle.noding.specs.Offsets.{AreJoined};
ghost use Rattle.plane.specs.declared.point.Point.{Point};
ghost use Rattle.overlay.specs.declared.fill.rules.FillRule.TheVariants.{NonZero, Positive};
ghost use Rattle.overlay.specs.declared.fill.rules.Operation.TheVariants.{Intersection, Union};
ghost use Rattle.overlay.specs.Overlay.{IsOverlay};
ghost use Rattle.overlay.specs.Polygons.{Appends, AreAsBefore, AreExtended, rings_of};
ghost use Rattle.overlay.specs.Rings.{HasEnds, edges_of};
ghost use Rattle.tiles.specs.declared.join_fault.JoinFault.TheVariants.{OutOfMemory};
ghost use Rattle.tiles.specs.declared.window.Window.{Window};
ghost use Rattle.tiles.specs.Join.{CanJoin, IsIn, IsJoinFault, IsJoined, bordering_of, tiles_of};
ghost use Rattle.tiles.specs.Tile.{turned_border};
ghost use Rattle.tiles.specs.Window.{HasPoints};

use crate::join_fault::JoinFault;
use crate::joined::checks::check;
use crate::joined::gathering::append_those;
use crate::joined::given::Tiles;
use crate::joined::windows::around;
use crate::near::NearRings;
use monotone_chains::overlay;
use overlay::fill::{Choice, FillRule, Operation};
use overlay::{OverlayFault, Polygons, Rings};
use std::alloc::Allocator;

/// Appends the polygons of several windows as one set: borders between them are gone.
///
/// Where those of each window are a part (`IsPart`, as what `overlay_in` appends), nothing is moved: around each point they wind as
/// all polygons given do together, once or not at all. And they are a part of each window that all windows lie in, so what is
/// joined can be joined.
///
/// Polygons that come to no side of their window are copied as they are, behind those that the others are joined to.
///
/// `Lengths` comes where rings, polygons or the polygons of windows don't stop where they can, or some are left over. Else `Empty`
/// comes where a window has no points. Else `Overlap` comes where two have a common point. Else `Outside` comes where a point of a
/// polygon lies neither in its window nor on its sides. All this is tested before anything else is done. Else `Covered` comes where
/// the polygons that come to a border wind around some point other than once or not at all: some overlap, or something of one is
/// missing. Where those of some window are no part, their edges may be moved before this is found out. Else `OutOfMemory` comes
/// where memory was refused. After any fault `out` is as it was. The memory is that of `out`.
pub fn join<A: Allocator + Copy>(tiles: Tiles, out: &mut Polygons<A>) -> Result<(), JoinFault>
    ensures ok { OnOk result (CanJoin tiles.entry × ((polygons : List (List (List Point)))
        × IsJoined (tiles_of tiles.entry) polygons × Appends polygons out.old out.new)) }
    ensures err { OnErr result (AreAsBefore out.old out.new) }
    ensures fault { IfErr result (IsJoinFault tiles.entry) }
{
    check(tiles)?;
    let points = out.points.len();
    let rings = out.ring_ends.len();
    let polygons = out.polygon_ends.len();
    let outcome = append_joined(tiles, out);
    if outcome.is_err() {
        out.points.truncate(points);
        out.ring_ends.truncate(rings);
        out.polygon_ends.truncate(polygons);
    }
    outcome
}

// The same for tiles that can be joined. Where there is a fault, some may have been appended.
fn append_joined<A: Allocator + Copy>(tiles: Tiles, out: &mut Polygons<A>) -> Result<(), JoinFault>
    requires { CanJoin tiles }
    ensures ok { OnOk result ((polygons : List (List (List Point)))
        × IsJoined (tiles_of tiles.entry) polygons × Appends polygons out.old out.new) }
    ensures err { OnErr result (AreExtended out.old out.new) }
    ensures fault { IfErr result (IsJoinFault tiles.entry) }
{
    let alloc = *out.points.allocator();
    let near = bordering(alloc, tiles)?;
    let count = near.ends.len() - 1;
    let rings = Rings {
        points: &near.points,
        ends: &near.ends[..count],
    };
    if !wind_once(alloc, rings, near.rings())? {
        return Err(JoinFault::Covered);
    }
    unite(rings, out)?;
    append_those(tiles, false, out)?;
    Ok(())
}

// The rings of the polygons that come to the border of their window, and behind them the border of a window with all windows in it,
// clockwise.
fn bordering<A: Allocator + Copy>(alloc: A, tiles: Tiles) -> Result<NearRings<A>, JoinFault>
    requires { CanJoin tiles }
    ensures ok { IfOk result (λ near. (whole : Window) × HasPoints whole × All (λ tile. IsIn whole tile.0) (tiles_of tiles.entry)
        × AreJoined (rings_of (bordering_of (tiles_of tiles.entry)) ++ turned_border whole ∷ []) near.points.items near.ends.items) }
    ensures fault { IfErr result (λ fault. fault ≡ OutOfMemory) }
{
    let mut found = Polygons::new(alloc);
    append_those(tiles, true, &mut found)?;
    let Polygons {
        points,
        ring_ends: ends,
        ..
    } = found;
    let mut near = NearRings { points, ends };
    near.append_turned_border(around(tiles.windows))?;
    Ok(near)
}

// Whether nothing is in both: around each point the rings wind not at all, or the others don't.
fn wind_once<A: Allocator + Copy>(alloc: A, rings: Rings, others: Rings) -> Result<bool, JoinFault>
    requires ends { HasEnds rings }
    requires other_ends { HasEnds others }
    ensures ok { IfOk result (λ once. (polygons : List (List (List Point)))
        × IsOverlay NonZero Intersection (edges_of rings.entry) (edges_of others.entry) polygons
        × MatchBool once (polygons ≡ []) (polygons ≢ [])) }
    ensures fault { IfErr result (λ fault. fault ≡ OutOfMemory) }
{
    let mut both = Polygons::new(alloc);
    let choice = Choice {
        rule: FillRule::NonZero,
        operation: Operation::Intersection,
    };
    append_overlay(rings, others, choice, &mut both)?;
    Ok(both.polygon_ends.is_empty())
}

// Appends the polygons of the points that the rings wind around more than not at all.
fn unite<A: Allocator + Copy>(rings: Rings, out: &mut Polygons<A>) -> Result<(), JoinFault>
    requires { HasEnds rings }
    ensures ok { OnOk result ((polygons : List (List (List Point)))
        × IsOverlay Positive Union (edges_of rings.entry) [] polygons
        × Appends polygons out.old out.new) }
    ensures err { OnErr result (AreAsBefore out.old out.new) }
    ensures fault { IfErr result (λ fault. fault ≡ OutOfMemory) }
{
    let nothing = Rings {
        points: &[],
        ends: &[],
    };
    let choice = Choice {
        rule: FillRule::Positive,
        operation: Operation::Union,
    };
    append_overlay(rings, nothing, choice, out)
}

// Appends an overlay, by monotone chains, from right ends on.
fn append_overlay<A: Allocator + Copy>(
    subject: Rings,
    clip: Rings,
    choice: Choice,
    out: &mut Polygons<A>,
) -> Result<(), JoinFault>
    requires ends { HasEnds subject }
    requires clip_ends { HasEnds clip }
    ensures ok { OnOk result ((polygons : List (List (List Point)))
        × IsOverlay choice.rule choice.operation (edges_of subject.entry) (edges_of clip.entry) polygons
        × Appends polygons out.old out.new) }
    ensures err { OnErr result (AreAsBefore out.old out.new) }
    ensures fault { IfErr result (λ fault. fault ≡ OutOfMemory) }
{
    match overlay(subject, clip, choice.rule, choice.operation, out) {
        Ok(()) => Ok(()),
        Err(OverlayFault::Refused(_)) => Err(JoinFault::OutOfMemory),
        // The ends are right.
        Err(OverlayFault::Lengths) => unreachable!(),
    }
}
