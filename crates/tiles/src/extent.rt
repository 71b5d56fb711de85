//! How far the points of a ring reach.

ghost use Rattle.std.specs.Prelude.{◌≡◌, ◌∷◌, MatchBool};
ghost use Rattle.tiles.specs.Pushing.{IsExtent};
ghost use Rattle.tiles.specs.Window.{LiesBeyond};

use crate::joined::windows::{are_beside, around_both};
use crate::window::Window;
use plane::point::Point;

// Whether all points of the ring lie beyond one side of the window, or on the line along it. Those of a ring with none do.
pub(crate) fn lies_beyond(ring: &[Point], window: Window) -> bool
    ensures { MatchBool result (LiesBeyond window ring.now) (¬ (LiesBeyond window ring.now)) }
{
    if ring.is_empty() {
        return true;
    }
    are_beside(extent_of(ring[0], ring), window)
}

// The least window that has the first point and these points in it or on its sides.
fn extent_of(first: Point, points: &[Point]) -> Window
    ensures { IsExtent result (first ∷ points.now) }
{
    let mut extent = at_point(first);
    // It has the first point and those so far.
    for point in points {
        extent = around_both(extent, at_point(*point));
    }
    extent
}

// The window all of whose corners are the point.
fn at_point(point: Point) -> Window
    ensures { result ≡ record { left = point.x; low = point.y; right = point.x; high = point.y } }
{
    Window {
        left: point.x,
        low: point.y,
        right: point.x,
        high: point.y,
    }
}
