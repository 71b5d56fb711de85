//! Whether polygons of several windows can be joined.

ghost use Rattle.std.specs.Prelude.{◌≡◌, ◌↔◌, ◌<◌, All, AllPairs, IfErr, IsTrue, OnOk, get_or, length};
ghost use Rattle.tiles.specs.Join.{AreBeside, CanJoin, HasTiles, IsJoinFault, LiesWithin, no_tile, tile_points, tiles_of};
ghost use Rattle.tiles.specs.Window.{HasPoints, IsWithin};

use crate::join_fault::JoinFault;
use crate::joined::given::{Tiles, are_ends, points_between, range_at, start_at, stop_all};
use crate::joined::windows::{are_beside, has_points, is_within};
use crate::window::Window;
use plane::point::Point;

// Whether they can, and if not, why.
pub(crate) fn check(tiles: Tiles) -> Result<(), JoinFault>
    ensures ok { OnOk result (CanJoin tiles.entry) }
    ensures fault { IfErr result (IsJoinFault tiles.entry) }
{
    if !are_tiles(tiles) {
        return Err(JoinFault::Lengths);
    }
    if !have_points(tiles.windows) {
        return Err(JoinFault::Empty);
    }
    if !are_all_beside(tiles.windows) {
        return Err(JoinFault::Overlap);
    }
    if !lie_within(tiles) {
        return Err(JoinFault::Outside);
    }
    Ok(())
}

// Whether rings, polygons and tiles stop where they can, and there are as many tiles as windows.
fn are_tiles(tiles: Tiles) -> bool
    ensures { IsTrue result ↔ HasTiles tiles.entry }
{
    are_ends(tiles.rings.ends, tiles.rings.points.len())
        && stop_all(tiles.polygon_ends, tiles.rings.ends.len())
        && stop_all(tiles.tile_ends, tiles.polygon_ends.len())
        && tiles.tile_ends.len() == tiles.windows.len()
}

// Whether some point lies in each window.
pub(crate) fn have_points(windows: &[Window]) -> bool
    ensures { IsTrue result ↔ All HasPoints windows.now }
{
    // Some point lies in each window so far.
    for window in windows {
        if !has_points(*window) {
            return false;
        }
    }
    true
}

// Whether each window lies beyond a side of each other one.
pub(crate) fn are_all_beside(windows: &[Window]) -> bool
    ensures { IsTrue result ↔ AllPairs AreBeside windows.now }
{
    // The windows before this place do so of all behind them.
    for at in 0..windows.len() {
        if !is_beside_all(windows[at], &windows[at + 1..]) {
            return false;
        }
    }
    true
}

// Whether the window and each of the others do.
fn is_beside_all(window: Window, others: &[Window]) -> bool
    ensures { IsTrue result ↔ All (AreBeside window) others.now }
{
    // It and those so far do.
    for other in others {
        if !are_beside(window, *other) {
            return false;
        }
    }
    true
}

// Whether each point of the polygons lies in their window or on its sides.
fn lie_within(tiles: Tiles) -> bool
    requires { HasTiles tiles }
    ensures { IsTrue result ↔ All LiesWithin (tiles_of tiles.entry) }
{
    // The points of the tiles before this one do.
    for at in 0..tiles.windows.len() {
        if !has_all(tiles.windows[at], tile_points(tiles, at)) {
            return false;
        }
    }
    true
}

// The points of the tile at this place.
fn tile_points<'a>(tiles: Tiles<'a>, at: usize) -> &'a [Point]
    requires tiles { HasTiles tiles }
    requires at { at < length tiles.windows.now }
    ensures { result.now ≡ tile_points (get_or (tiles_of tiles.entry) at no_tile) }
{
    let (first, behind) = range_at(tiles.tile_ends, at);
    points_between(
        tiles.rings,
        start_at(tiles.polygon_ends, first),
        start_at(tiles.polygon_ends, behind),
    )
}

// Whether each of the points lies in the window or on its sides.
fn has_all(window: Window, points: &[Point]) -> bool
    ensures { IsTrue result ↔ All (IsWithin window) points.now }
{
    // Those so far do.
    for point in points {
        if !is_within(window, *point) {
            return false;
        }
    }
    true
}
