//! Windows side by side.

ghost use Rattle.std.specs.Prelude.{◌≡◌, ◌≢◌, ◌↔◌, ◌⊎◌, ◌≤ℤ◌, [], All, IsTrue, MatchBool, false, true};
ghost use Rattle.tiles.specs.Join.{AreBeside, IsIn, around_both};
ghost use Rattle.tiles.specs.Part.{is_at_border};
ghost use Rattle.tiles.specs.Window.{HasPoints, IsWithin};
ghost use Rattle.tiles.specs.declared.window.Window.{Window};

use crate::window::Window;
use plane::point::Point;

// Whether some point lies in the window.
pub(crate) fn has_points(window: Window) -> bool
    ensures { IsTrue result ↔ HasPoints window }
{
    window.left < window.right && window.low < window.high
}

// Whether one window lies beyond a side of the other one.
pub(crate) fn are_beside(one: Window, other: Window) -> bool
    ensures { MatchBool result (AreBeside one other) (¬ (AreBeside one other)) }
{
    if is_left_of(one, other) {
        return true;
    }
    if is_left_of(other, one) {
        return true;
    }
    if is_below(one, other) {
        return true;
    }
    is_below(other, one)
}

// Whether the one window lies to the left of the other one.
fn is_left_of(one: Window, other: Window) -> bool
    ensures { MatchBool result (one.right ≤ℤ other.left) (¬ (one.right ≤ℤ other.left)) }
{
    one.right <= other.left
}

// Whether the one window lies below the other one.
fn is_below(one: Window, other: Window) -> bool
    ensures { MatchBool result (one.high ≤ℤ other.low) (¬ (one.high ≤ℤ other.low)) }
{
    one.high <= other.low
}

// Whether the point lies in the window or on its sides.
pub(crate) fn is_within(window: Window, point: Point) -> bool
    ensures { MatchBool result (IsWithin window point) (¬ (IsWithin window point)) }
{
    if !lies_across(window, point) {
        return false;
    }
    lies_up(window, point)
}

// Whether the point lies from the left side on, up to the right one.
fn lies_across(window: Window, point: Point) -> bool
    ensures { MatchBool result ((window.left ≤ℤ point.x) × (point.x ≤ℤ window.right)) (¬ ((window.left ≤ℤ point.x) × (point.x ≤ℤ window.right))) }
{
    window.left <= point.x && point.x <= window.right
}

// Whether the point lies from the lower side on, up to the upper one.
fn lies_up(window: Window, point: Point) -> bool
    ensures { MatchBool result ((window.low ≤ℤ point.y) × (point.y ≤ℤ window.high)) (¬ ((window.low ≤ℤ point.y) × (point.y ≤ℤ window.high))) }
{
    window.low <= point.y && point.y <= window.high
}

// Whether the point stands on the line along one side of the window.
pub(crate) fn is_at_border(window: Window, point: Point) -> bool
    ensures { MatchBool result (is_at_border window point ≡ true) (is_at_border window point ≡ false) }
{
    if stands_across(window, point) {
        return true;
    }
    stands_up(window, point)
}

// Whether the point stands on the line along the left side or the right one.
fn stands_across(window: Window, point: Point) -> bool
    ensures { MatchBool result ((point.x ≡ window.left) ⊎ (point.x ≡ window.right)) (¬ ((point.x ≡ window.left) ⊎ (point.x ≡ window.right))) }
{
    point.x == window.left || point.x == window.right
}

// Whether the point stands on the line along the lower side or the upper one.
fn stands_up(window: Window, point: Point) -> bool
    ensures { MatchBool result ((point.y ≡ window.low) ⊎ (point.y ≡ window.high)) (¬ ((point.y ≡ window.low) ⊎ (point.y ≡ window.high))) }
{
    point.y == window.low || point.y == window.high
}

// The least window that has all of these in it, or if there are none, one with points.
pub(crate) fn around(windows: &[Window]) -> Window
    requires { All HasPoints windows.now }
    ensures some { HasPoints result }
    ensures all { All (IsIn result) windows.now }
    ensures least { (outer : Window) → windows.now ≢ [] → All (IsIn outer) windows.now → IsIn outer result }
{
    if windows.is_empty() {
        return Window {
            left: 0,
            low: 0,
            right: 1,
            high: 1,
        };
    }
    around_those(windows[0], windows)
}

// The least window that has the first one and all of these in it.
fn around_those(first: Window, windows: &[Window]) -> Window
    requires { HasPoints first }
    ensures some { HasPoints result }
    ensures all { All (IsIn result) windows.now }
    ensures least { (outer : Window) → IsIn outer first → All (IsIn outer) windows.now → IsIn outer result }
{
    let mut whole = first;
    // It is the least one that has the first one and those so far in it.
    for window in windows {
        whole = around_both(whole, *window);
    }
    whole
}

// The least window that has both in it.
pub(crate) fn around_both(one: Window, other: Window) -> Window
    ensures { result ≡ around_both one other }
{
    Window {
        left: one.left.min(other.left),
        low: one.low.min(other.low),
        right: one.right.max(other.right),
        high: one.high.max(other.high),
    }
}
