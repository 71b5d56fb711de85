//! Parts of rings: points along which x rises, or falls.

ghost use Rattle.std.specs.Prelude.{◌≡◌, ◌<◌, ◌≤◌, ◌+◌, suc, length};
ghost use Rattle.std.specs.List.{between};
ghost use Rattle.overlay.specs.Contours.Outlines.{ring_point};
ghost use Rattle.monotone_chains.specs.Stretches.Cut.{way};

use plane::point::Point;

/// Some points of a ring that follow each other, along which x rises, or falls; or the two ends of one of its edges, of any kind.
#[derive(Clone, Copy, Debug)]
pub struct Part<'a> {
    pub from: Point,
    /// The points between the first and the last.
    pub inner: &'a [Point],
    pub to: Point,
}

/// How many edges the part has.
pub fn count_edges(part: Part) -> usize
    ensures { result ≡ suc (length part.entry.inner.now) }
{
    part.inner.len() + 1
}

/// The part of these points from the one place on, up to the other.
pub fn part_between(points: &[Point], from: usize, upto: usize) -> Part
    requires { (from < upto) × (upto < length points.now) }
    ensures { way result ≡ between from (upto + 1) points.now }
{
    Part {
        from: points[from],
        inner: &points[from + 1..upto],
        to: points[upto],
    }
}

/// The part of this one from its point at the one place up to that at the other.
pub fn part_within<'a>(part: Part<'a>, from: usize, upto: usize) -> Part<'a>
    requires { (from < upto) × (upto ≤ suc (length part.inner.now)) }
    ensures { way result ≡ between from (upto + 1) (way part.entry) }
{
    Part {
        from: point_at(part, from),
        inner: &part.inner[from..upto - 1],
        to: point_at(part, upto),
    }
}

// The part's point at this place.
fn point_at(part: Part, place: usize) -> Point
    requires { place ≤ suc (length part.inner.now) }
    ensures { result ≡ ring_point (way part.entry) place }
{
    if place == 0 {
        return part.from;
    }
    if place > part.inner.len() {
        return part.to;
    }
    part.inner[place - 1]
}
