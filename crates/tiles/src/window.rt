//! `Window`: a rectangle of the plane along the axes, with whole corners.

ghost use Rattle.std.specs.Bool.{OnTrue};
ghost use Rattle.std.specs.Prelude.{◌≡◌, ◌<ℤ◌, IfErr, IfOk, MatchBool};
ghost use Rattle.tiles.specs.Pushing.{AreAlongSide, GoesTo, IsBetween, clamped};
ghost use Rattle.tiles.specs.Window.{AreBeyond, CanCropTo, IsFault, widened};

use crate::fault::CropFault;
use plane::point::Point;

/// How much a window is widened by on each side, when a ring is cropped to it.
const MARGIN: i32 = 2;

/// A rectangle along the axes. It has the points on its left and its lower side, and not those on its right and its upper one: so
/// of windows side by side one has each point.
#[repr(C)]
#[derive(Clone, Copy, Debug, PartialEq, Eq)]
pub struct Window {
    pub left: i32,
    pub low: i32,
    pub right: i32,
    pub high: i32,
}

impl Window {
    // The window with a margin on each side.
    pub(crate) fn widened(self) -> Result<Window, CropFault>
        ensures ok { IfOk result (λ wide. (wide ≡ widened self) × CanCropTo self) }
        ensures err { IfErr result (IsFault self) }
    {
        if self.right <= self.left || self.high <= self.low {
            return Err(CropFault::Empty);
        }
        if self.left < i32::MIN + MARGIN || self.low < i32::MIN + MARGIN {
            return Err(CropFault::Margin);
        }
        if i32::MAX - MARGIN < self.right || i32::MAX - MARGIN < self.high {
            return Err(CropFault::Margin);
        }
        Ok(Window {
            left: self.left - MARGIN,
            low: self.low - MARGIN,
            right: self.right + MARGIN,
            high: self.high + MARGIN,
        })
    }

    // What the edge from the one point to the other goes to.
    pub(crate) fn fit(self, from: Point, to: Point) -> (Point, Point)
        ensures { GoesTo self from to result.0 result.1 }
    {
        if self.are_beyond(from, to) {
            (self.clamp(from), self.clamp(to))
        } else {
            (from, to)
        }
    }

    // Whether both points lie beyond one side.
    fn are_beyond(self, one: Point, other: Point) -> bool
        ensures { MatchBool result (AreBeyond self one other) (¬ (AreBeyond self one other)) }
    {
        if self.are_left(one, other) {
            return true;
        }
        if self.are_right(one, other) {
            return true;
        }
        if self.are_below(one, other) {
            return true;
        }
        self.are_above(one, other)
    }

    // Whether both points lie to the left of it.
    fn are_left(self, one: Point, other: Point) -> bool
        ensures { MatchBool result ((one.x <ℤ self.left) × (other.x <ℤ self.left)) (¬ ((one.x <ℤ self.left) × (other.x <ℤ self.left))) }
    {
        one.x < self.left && other.x < self.left
    }

    // Whether both points lie to the right of it.
    fn are_right(self, one: Point, other: Point) -> bool
        ensures { MatchBool result ((self.right <ℤ one.x) × (self.right <ℤ other.x)) (¬ ((self.right <ℤ one.x) × (self.right <ℤ other.x))) }
    {
        self.right < one.x && self.right < other.x
    }

    // Whether both points lie below it.
    fn are_below(self, one: Point, other: Point) -> bool
        ensures { MatchBool result ((one.y <ℤ self.low) × (other.y <ℤ self.low)) (¬ ((one.y <ℤ self.low) × (other.y <ℤ self.low))) }
    {
        one.y < self.low && other.y < self.low
    }

    // Whether both points lie above it.
    fn are_above(self, one: Point, other: Point) -> bool
        ensures { MatchBool result ((self.high <ℤ one.y) × (self.high <ℤ other.y)) (¬ ((self.high <ℤ one.y) × (self.high <ℤ other.y))) }
    {
        self.high < one.y && self.high < other.y
    }

    // The point of the window and its sides that is nearest.
    fn clamp(self, point: Point) -> Point
        ensures { result ≡ clamped self point }
    {
        Point {
            x: point.x.max(self.left).min(self.right),
            y: point.y.max(self.low).min(self.high),
        }
    }

    // Whether the second of three points stands on the line along one side, as the others do, and what joins these doesn't lie
    // beyond a side.
    pub(crate) fn is_between(self, one: Point, other: Point, third: Point) -> bool
        ensures { OnTrue result (IsBetween self one other third) }
    {
        self.are_along_side(one, other, third) && !self.are_beyond(one, third)
    }

    // Whether the three points stand on the line along one side.
    fn are_along_side(self, one: Point, other: Point, third: Point) -> bool
        ensures { OnTrue result (AreAlongSide self one other third) }
    {
        (one.x == other.x && other.x == third.x && (one.x == self.left || one.x == self.right))
            || (one.y == other.y && other.y == third.y && (one.y == self.low || one.y == self.high))
    }
}
