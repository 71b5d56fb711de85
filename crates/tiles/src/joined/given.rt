//! `Tiles`: polygons of several windows.

ghost use Rattle.std.specs.Prelude.{◌≡◌, ◌↔◌, ◌<◌, ◌≤◌, ℕ, [], IsTrue, get_or, length, slice_index};
ghost use Rattle.std.specs.List.{between, flat_map};
ghost use Rattle.overlay.specs.Rings.{AreEnds, HasEnds};
ghost use Rattle.tiles.specs.Join.{StopAll, all_rings, lists_of, start_at};

use crate::window::Window;
use overlay::Rings;
use plane::point::Point;

/// Polygons of several windows, those of each window together.
#[derive(Clone, Copy, Debug)]
pub struct Tiles<'a> {
    pub windows: &'a [Window],
    /// Where the polygons of each window stop among the polygons.
    pub tile_ends: &'a [usize],
    /// Where each polygon stops among the rings.
    pub polygon_ends: &'a [usize],
    pub rings: Rings<'a>,
}

// Whether each of these stops where it begins or later, and the last of them behind so many.
pub(crate) fn stop_all(ends: &[usize], count: usize) -> bool
    ensures { IsTrue result ↔ StopAll ends.now count }
{
    are_ends(ends, count) && start_at(ends, ends.len()) == count
}

// Whether each of these stops where it begins or later, and none behind so many.
pub(crate) fn are_ends(ends: &[usize], count: usize) -> bool
    ensures { IsTrue result ↔ AreEnds 0 ends.now count }
{
    let mut start = 0;
    // Those so far stop where they begin or later, and the last of them at `start`.
    for end in ends {
        if *end < start || count < *end {
            return false;
        }
        start = *end;
    }
    true
}

// Where the list at this place starts, and where it stops.
pub(crate) fn range_at(ends: &[usize], place: usize) -> (usize, usize)
    requires { place < length ends.now }
    ensures start { result.0 ≡ start_at ends.now place }
    ensures end { result.1 ≡ slice_index ends.now place }
    ensures within { (count : ℕ) → AreEnds 0 ends.now count → (result.0 ≤ result.1) × (result.1 ≤ count) }
{
    (start_at(ends, place), ends[place])
}

// Where the list at this place starts: where the one before it stops.
pub(crate) fn start_at(ends: &[usize], place: usize) -> usize
    requires { place ≤ length ends.now }
    ensures { result ≡ start_at ends.now place }
{
    if place == 0 { 0 } else { ends[place - 1] }
}

// The list at this place, where lists stop at these ends.
pub(crate) fn list_at<'a, T>(items: &'a [T], ends: &[usize], place: usize) -> &'a [T]
    requires ends { AreEnds 0 ends.now (length items.now) }
    requires place { place < length ends.now }
    ensures { result.now ≡ get_or (lists_of items.now 0 ends.now) place [] }
{
    let (start, end) = range_at(ends, place);
    &items[start..end]
}

// The points of the rings from the one place on, up to the other: they stand one behind another.
pub(crate) fn points_between<'a>(rings: Rings<'a>, first: usize, behind: usize) -> &'a [Point]
    requires rings { HasEnds rings }
    requires onwards { first ≤ behind }
    requires within { behind ≤ length rings.ends.now }
    ensures { result.now ≡ flat_map (λ ring. ring) (between first behind (all_rings rings.entry)) }
{
    let start = start_at(rings.ends, first);
    let end = start_at(rings.ends, behind);
    &rings.points[start..end]
}
