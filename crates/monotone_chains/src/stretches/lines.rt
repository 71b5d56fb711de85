//! Lines that keep the points of parts apart.

ghost use Rattle.std.specs.Bool.{OnTrue};
ghost use Rattle.std.specs.Prelude.{◌≡◌, ◌<◌, ◌+◌, ◌^◌, pos, ◌+ℤ◌, ◌-ℤ◌, ◌<ℤ◌, ◌≤ℤ◌, All, unsigned_abs};
ghost use Rattle.plane.specs.Meet.Crosses.{IsWithin};
ghost use Rattle.monotone_chains.specs.Stretches.{AreApart};
ghost use Rattle.monotone_chains.specs.Stretches.Cut.{way};
ghost use Rattle.plane.specs.Lines.{height_over, margin_of};

use super::parts::Part;
use plane::edge::{Edge, edge_between, height_over, margin_of, reverse};
use plane::point::Point;

/// Whether a line along one of the parts keeps their points apart.
pub fn are_apart(one: Part, other: Part) -> bool
    ensures { OnTrue result (AreApart (way one.entry) (way other.entry)) }
{
    if lies_beside(one, other) {
        return true;
    }
    lies_beside(other, one)
}

// Whether the other part lies on one side of the one, seen from its start to its end.
fn lies_beside(one: Part, other: Part) -> bool
    ensures { OnTrue result (AreApart (way one.entry) (way other.entry)) }
{
    let line = edge_between(one.from, one.to);
    if height_over(line, other.from) < 0 {
        lies_beyond(reverse(line), one, other)
    } else {
        lies_beyond(line, one, other)
    }
}

// Whether all points of the other part lie further to the left of the line than those of the one, by more than a unit.
fn lies_beyond(line: Edge, one: Part, other: Part) -> bool
    ensures { OnTrue result (AreApart (way one.entry) (way other.entry)) }
{
    // The line's own ends are of the one.
    if !is_above(line, 0, other.to) {
        return false;
    }
    let top = greatest_over(line, one);
    all_above(line, top, other)
}

// How far the farthest of the part's points lies to the left of the line, times its length.
fn greatest_over(line: Edge, part: Part) -> i128
    ensures within { IsWithin (2 ^ 65) result }
    ensures most { All (λ point. height_over line point ≤ℤ result) (way part.entry) }
{
    let mut most = higher(line, height_over(line, part.from), part.to);
    // No end of the part, and no point so far, lies farther.
    for point in part.inner {
        most = higher(line, most, *point);
    }
    most
}

// The number, or how far the point lies to the left of the line, times its length, if that is greater.
fn higher(line: Edge, most: i128, point: Point) -> i128
    requires { IsWithin (2 ^ 65) most }
    ensures within { IsWithin (2 ^ 65) result }
    ensures most { most ≤ℤ result }
    ensures point { height_over line point ≤ℤ result }
{
    most.max(height_over(line, point))
}

// Whether all of the part's points lie further than that to the left of the line, by more than a unit.
fn all_above(line: Edge, top: i128, part: Part) -> bool
    requires top { IsWithin (2 ^ 65) top }
    ensures { OnTrue result (All (λ point. (top +ℤ margin_of line) <ℤ height_over line point) (way part.entry)) }
{
    if !is_above(line, top, part.from) || !is_above(line, top, part.to) {
        return false;
    }
    for point in part.inner {
        if !is_above(line, top, *point) {
            return false;
        }
    }
    true
}

// Whether the point lies further than that to the left of the line, by more than a unit.
fn is_above(line: Edge, top: i128, point: Point) -> bool
    requires { IsWithin (2 ^ 65) top }
    ensures { OnTrue result ((top +ℤ margin_of line) <ℤ height_over line point) }
{
    top + margin_of(line) < height_over(line, point)
}
