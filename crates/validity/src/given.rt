//! `PolygonSet`: polygons, as points and where each ring and each polygon stops.

ghost use Rattle.std.specs.Prelude.{◌≡◌, ◌↔◌, ◌<◌, ◌≤◌, ℕ, IsTrue, MatchBool, length, slice_index};
ghost use Rattle.overlay.specs.Rings.{AreEnds};
ghost use Rattle.tiles.specs.Join.{StopAll, start_at};
ghost use Rattle.validity.specs.Given.{HasOneRing, HasPolygons, IsOneRing};

use overlay::Rings;

/// Polygons: rings, and where each polygon stops among them. The first ring of a polygon is the outer one, those behind it are its
/// holes. They may run either way.
#[derive(Clone, Copy, Debug)]
pub struct PolygonSet<'a> {
    pub rings: Rings<'a>,
    /// Where each polygon stops among the rings.
    pub polygon_ends: &'a [usize],
}

// Whether rings and polygons stop where they can, and each ring is of a polygon.
pub(crate) fn are_polygons(set: PolygonSet) -> bool
    ensures { IsTrue result ↔ HasPolygons set.entry }
{
    are_ends(set.rings.ends, set.rings.points.len())
        && stop_all(set.polygon_ends, set.rings.ends.len())
}

// Whether each of these stops where it begins or later, and the last of them behind so many.
fn stop_all(ends: &[usize], count: usize) -> bool
    ensures { IsTrue result ↔ StopAll ends.now count }
{
    are_ends(ends, count) && start_at(ends, ends.len()) == count
}

// Whether each of these stops where it begins or later, and none behind so many.
fn are_ends(ends: &[usize], count: usize) -> bool
    ensures { IsTrue result ↔ AreEnds 0 ends.now count }
{
    let mut start = 0;
    // Those so far stop where they begin or later, and the last of them at `start`.
    for end in ends {
        if *end < start || count < *end {
            return false;
        }
        start = *end;
    }
    true
}

// Where the polygon at this place starts among the rings, and where it stops.
pub(crate) fn range_at(ends: &[usize], place: usize) -> (usize, usize)
    requires { place < length ends.now }
    ensures start { result.0 ≡ start_at ends.now place }
    ensures end { result.1 ≡ slice_index ends.now place }
    ensures within { (count : ℕ) → AreEnds 0 ends.now count → (result.0 ≤ result.1) × (result.1 ≤ count) }
{
    (start_at(ends, place), ends[place])
}

// Where the polygon at this place starts: where the one before it stops.
fn start_at(ends: &[usize], place: usize) -> usize
    requires { place ≤ length ends.now }
    ensures { result ≡ start_at ends.now place }
{
    if place == 0 { 0 } else { ends[place - 1] }
}

// Whether the polygon at this place has one ring alone.
pub(crate) fn has_one_ring(set: PolygonSet, polygon: usize) -> bool
    requires set { HasPolygons set }
    requires polygon { polygon < length set.polygon_ends.now }
    ensures { MatchBool result (HasOneRing set.entry polygon) (¬ (HasOneRing set.entry polygon)) }
{
    let (first, behind) = range_at(set.polygon_ends, polygon);
    behind - first == 1
}

// Whether there is one polygon alone, and it has one ring alone.
pub(crate) fn is_one_ring(set: PolygonSet) -> bool
    requires { HasPolygons set }
    ensures { MatchBool result (IsOneRing set.entry) (¬ (IsOneRing set.entry)) }
{
    if set.polygon_ends.len() != 1 {
        return false;
    }
    has_one_ring(set, 0)
}
