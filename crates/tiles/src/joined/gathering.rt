//! Which polygons of windows come to a border, and which don't.

ghost use Rattle.std.specs.Prelude.{◌≡◌, ◌∷◌, ◌<◌, ◌≤◌, [], OnErr, OnOk, cond, get_or, length, not};
ghost use Rattle.std.specs.List.{between, list_any};
ghost use Rattle.overlay.specs.Polygons.{Appends, AreExtended};
ghost use Rattle.overlay.specs.Rings.{HasEnds};
ghost use Rattle.tiles.specs.Join.{HasTiles, all_rings, no_tile, those, those_of, tiles_of};
ghost use Rattle.tiles.specs.Part.{is_at_border};

use crate::joined::given::{Tiles, list_at, points_between, range_at};
use crate::joined::windows::is_at_border;
use crate::window::Window;
use overlay::{Polygons, Rings};
use plane::point::Point;
use std::alloc::{AllocError, Allocator};

// Appends of the polygons of each window those that come to its border, or the others.
pub(crate) fn append_those<A: Allocator>(
    tiles: Tiles,
    bordering: bool,
    out: &mut Polygons<A>,
) -> Result<(), AllocError>
    requires { HasTiles tiles }
    ensures ok { OnOk result (Appends (those bordering (tiles_of tiles.entry)) out.old out.new) }
    ensures err { OnErr result (AreExtended out.old out.new) }
{
    // Those of the tiles before this one are appended.
    for at in 0..tiles.windows.len() {
        append_those_of(tiles, at, bordering, out)?;
    }
    Ok(())
}

// The same of one window.
fn append_those_of<A: Allocator>(
    tiles: Tiles,
    at: usize,
    bordering: bool,
    out: &mut Polygons<A>,
) -> Result<(), AllocError>
    requires tiles { HasTiles tiles }
    requires at { at < length tiles.windows.now }
    ensures ok { OnOk result (Appends (those_of bordering (get_or (tiles_of tiles.entry) at no_tile)) out.old out.new) }
    ensures err { OnErr result (AreExtended out.old out.new) }
{
    let window = tiles.windows[at];
    let (start, end) = range_at(tiles.tile_ends, at);
    // Those of the polygons before this one are appended.
    for polygon in start..end {
        let (first, behind) = range_at(tiles.polygon_ends, polygon);
        let points = points_between(tiles.rings, first, behind);
        if is_wanted(window, points, bordering) {
            append_polygon(tiles.rings, first, behind, out)?;
        }
    }
    Ok(())
}

// Whether one of the points stands on the line along one side of the window, if that is wanted; or else whether none does.
fn is_wanted(window: Window, points: &[Point], bordering: bool) -> bool
    ensures { result ≡ cond bordering (list_any (is_at_border window) points.now) (not (list_any (is_at_border window) points.now)) }
{
    let comes = comes_to_border(window, points);
    if bordering { comes } else { !comes }
}

// Whether one of the points stands on the line along one side of the window.
fn comes_to_border(window: Window, points: &[Point]) -> bool
    ensures { result ≡ list_any (is_at_border window) points.now }
{
    // None of those so far does.
    for point in points {
        if is_at_border(window, *point) {
            return true;
        }
    }
    false
}

// Appends the polygon of the rings from the one place on, up to the other.
fn append_polygon<A: Allocator>(
    rings: Rings,
    first: usize,
    behind: usize,
    out: &mut Polygons<A>,
) -> Result<(), AllocError>
    requires rings { HasEnds rings }
    requires onwards { first ≤ behind }
    requires within { behind ≤ length rings.ends.now }
    ensures ok { OnOk result (Appends (between first behind (all_rings rings.entry) ∷ []) out.old out.new) }
    ensures err { OnErr result (AreExtended out.old out.new) }
{
    // The rings before this one are appended.
    for ring in first..behind {
        out.points
            .extend_from_slice(list_at(rings.points, rings.ends, ring))?;
        out.ring_ends.push(out.points.len())?;
    }
    out.polygon_ends.push(out.ring_ends.len())?;
    Ok(())
}
