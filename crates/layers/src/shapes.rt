//! Shapes and groups of shapes, as lists and where each stops.

ghost use Rattle.std.specs.Prelude.{◌≡◌, ◌↔◌, ◌<◌, ◌≤◌, ℕ, [], IsTrue, get_or, length, slice_index};
ghost use Rattle.overlay.specs.Rings.{AreEnds};
ghost use Rattle.layers.specs.Shapes.{AreNamed, HasGroups, HasShapes, lists_of, shape_points, shapes_of, start_of};

use plane::point::Point;

/// Shapes: each is some rings. The points of all rings, one ring after another, where each ring stops among the points, and where
/// each shape stops among the rings. So the ends are the offsets of Arrow and GeoArrow without the first, which is 0.
///
/// A ring goes from each of its points to the next one, and from the last to the first. Points behind the last ring, and rings
/// behind the last shape, are of none. A shape may have no ring, and a ring no point.
#[derive(Clone, Copy, Debug)]
pub struct Shapes<'a> {
    pub points: &'a [Point],
    pub ring_ends: &'a [usize],
    pub shape_ends: &'a [usize],
}

/// Groups of shapes: the places of the shapes of all groups, one group after another, and where each group stops among these.
///
/// A group may have no shape, and a shape may be in several groups, or in one more than once.
#[derive(Clone, Copy, Debug)]
pub struct Groups<'a> {
    pub places: &'a [usize],
    pub ends: &'a [usize],
}

/// Shapes, and groups of them: the groups' places are those of the shapes.
#[derive(Clone, Copy, Debug)]
pub struct GroupedShapes<'a> {
    pub shapes: Shapes<'a>,
    pub groups: Groups<'a>,
}

/// Whether each ring and each shape stops where it begins or later, and none behind the points or the rings.
pub fn are_shapes(shapes: Shapes) -> bool
    ensures { IsTrue result ↔ HasShapes shapes.entry }
{
    are_ends(shapes.ring_ends, shapes.points.len())
        && are_ends(shapes.shape_ends, shapes.ring_ends.len())
}

/// Whether each group stops where it begins or later, and none behind the places.
pub fn are_groups(groups: Groups) -> bool
    ensures { IsTrue result ↔ HasGroups groups.entry }
{
    are_ends(groups.ends, groups.places.len())
}

/// Whether each place is that of one of so many shapes.
pub fn are_named(groups: Groups, count: usize) -> bool
    ensures { IsTrue result ↔ AreNamed count groups.entry }
{
    groups.places.iter().all(|place| *place < count)
}

/// Whether each of these stops where it begins or later, and none behind so many.
pub(crate) fn are_ends(ends: &[usize], count: usize) -> bool
    ensures { IsTrue result ↔ AreEnds 0 ends.now count }
{
    let mut start = 0;
    // Those so far stop where they begin or later, and the last of them at `start`.
    for end in ends {
        if *end < start || count < *end {
            return false;
        }
        start = *end;
    }
    true
}

/// Where the list at this place starts, and where it stops.
pub(crate) fn range_at(ends: &[usize], place: usize) -> (usize, usize)
    requires { place < length ends.now }
    ensures start { result.0 ≡ start_of ends.now place }
    ensures end { result.1 ≡ slice_index ends.now place }
    ensures within { (count : ℕ) → AreEnds 0 ends.now count → (result.0 ≤ result.1) × (result.1 ≤ count) }
{
    (start_of(ends, place), ends[place])
}

/// Where the list at this place starts: where the one before it stops.
pub(crate) fn start_of(ends: &[usize], place: usize) -> usize
    requires { place ≤ length ends.now }
    ensures { result ≡ start_of ends.now place }
{
    if place == 0 { 0 } else { ends[place - 1] }
}

/// The list at this place, where lists stop at these ends.
pub(crate) fn list_at<'a, T>(items: &'a [T], ends: &[usize], place: usize) -> &'a [T]
    requires ends { AreEnds 0 ends.now (length items.now) }
    requires place { place < length ends.now }
    ensures { result.now ≡ get_or (lists_of items.now 0 ends.now) place [] }
{
    let (start, end) = range_at(ends, place);
    &items[start..end]
}

/// The points of all rings of the shape at this place: they stand one behind another.
pub(crate) fn points_at<'a>(shapes: Shapes<'a>, place: usize) -> &'a [Point]
    requires shapes { HasShapes shapes }
    requires place { place < length shapes.shape_ends.now }
    ensures { result.now ≡ shape_points (get_or (shapes_of shapes.entry) place []) }
{
    let (first, behind) = range_at(shapes.shape_ends, place);
    let start = start_of(shapes.ring_ends, first);
    let end = start_of(shapes.ring_ends, behind);
    &shapes.points[start..end]
}
