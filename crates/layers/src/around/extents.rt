//! `Extent`: the box of half points, and where other boxes stand beside it.

ghost use Rattle.std.specs.Prelude.{◌≡◌, ◌*ℤ◌, pos, All};
ghost use Rattle.layers.specs.Chains.{IsInExtent, extent_at};

use super::half_point::HalfPoint;
use super::placed::Placed;
use plane::pairs::items::Bounds;
use plane::point::Point;

/// A box along the axes, by twice its sides. They are of it.
#[derive(Clone, Copy)]
pub struct Extent {
    pub left: i64,
    pub right: i64,
    pub low: i64,
    pub high: i64,
}

impl Extent {
    ghost use Rattle.std.specs.Prelude.{◌≡◌};
    ghost use Rattle.layers.specs.Chains.{is_above, is_apart, is_beside};

    /// Whether the whole box lies left of these bounds, right of them or below them.
    pub fn is_apart_from(self, bounds: Bounds) -> bool
        ensures { result ≡ is_apart self bounds }
    {
        if twice(bounds.right) < self.left {
            return true;
        }
        if self.right < twice(bounds.left) {
            return true;
        }
        self.high < twice(bounds.low)
    }

    /// Whether the whole box lies above these bounds.
    pub fn is_above(self, bounds: Bounds) -> bool
        ensures { result ≡ is_above self bounds }
    {
        twice(bounds.high) < self.low
    }

    /// Whether no point of the box lies right of the one point, or above or below it, and left of the other, whichever is which.
    pub fn is_beside(self, one: Point, other: Point) -> bool
        ensures { result ≡ is_beside self one.x other.x }
    {
        if one.x == other.x {
            return true;
        }
        if twice(one.x.max(other.x)) <= self.left {
            return true;
        }
        self.right < twice(one.x.min(other.x))
    }
}

/// Twice the number.
pub fn twice(number: i32) -> i64
    ensures { result ≡ pos 2 *ℤ number }
{
    2 * number as i64
}

/// The box of a single point.
pub fn extent_at(point: HalfPoint) -> Extent
    ensures { result ≡ extent_at point }
{
    Extent {
        left: point.twice_x,
        right: point.twice_x,
        low: point.twice_y,
        high: point.twice_y,
    }
}

/// A box that has all points of the group.
pub fn extent_of(group: &[Placed]) -> Extent
    ensures { All (λ placed. IsInExtent result placed.point) group.now }
{
    let mut extent = Extent {
        left: i64::MAX,
        right: i64::MIN,
        low: i64::MAX,
        high: i64::MIN,
    };
    // No point so far lies beyond a side.
    for placed in group {
        extent = grown(extent, placed.point);
    }
    extent
}

// The least box that has this one and the point.
fn grown(extent: Extent, point: HalfPoint) -> Extent
    ensures before { (other : HalfPoint) → IsInExtent extent other → IsInExtent result other }
    ensures point { IsInExtent result point }
{
    Extent {
        left: extent.left.min(point.twice_x),
        right: extent.right.max(point.twice_x),
        low: extent.low.min(point.twice_y),
        high: extent.high.max(point.twice_y),
    }
}
