//! What two edges that aren't parallel meet at, rounded to a whole point.

ghost use Rattle.std.specs.Prelude.{◌≡◌, ◌^◌, ℤ, pos, ◌+ℤ◌, ◌-ℤ◌, ◌*ℤ◌, ◌≤ℤ◌, ◌<ℤ◌, MatchBool, MatchOption};
ghost use Rattle.std.specs.Int.RustNames.{unsigned_abs};
ghost use Rattle.plane.specs.Meet.Crosses.{IsWithin};
ghost use Rattle.plane.specs.Meet.Edges.{Meet};
ghost use Rattle.noding.specs.Chains.{AreNotParallel, CrossAt};
ghost use Rattle.noding.specs.Crossing.{HasParts, IsCommonPart, IsThere, RoundsPart};
ghost use Rattle.noding.specs.Rounding.{RoundsOn};

use plane::edge::Edge;
use plane::point::Point;
use plane::vectors::{cross_product, vector_along, vector_between_starts};

/// What the common point of two edges that aren't parallel rounds to, if they meet.
pub fn crossing(one: Edge, other: Edge) -> Option<Point>
    ensures { MatchOption result (¬ (AreNotParallel one other × Meet one other)) (λ c. CrossAt one other c.x c.y) }
{
    let one_way = vector_along(one);
    let other_way = vector_along(other);
    let between = vector_between_starts(one, other);
    let whole = cross_product(one_way, other_way);
    let first = cross_product(between, other_way);
    let second = cross_product(between, one_way);
    if whole < 0 {
        return round_part(one, other, -whole, -first, -second);
    }
    round_part(one, other, whole, first, second)
}

fn round_part(edge: Edge, other: Edge, all: i128, first: i128, second: i128) -> Option<Point>
    requires from { pos 0 ≤ℤ all }
    requires upto { all ≤ℤ pos (2 ^ 66) }
    requires common { IsCommonPart edge other all first }
    ensures { MatchOption result (¬ (HasParts all first second)) (λ c. RoundsPart edge all first second c.x c.y) }
{
    if !has_parts(all, first, second) {
        return None;
    }
    Some(Point {
        x: round_on_axis(edge.x0, edge.x1, other.x0, other.x1, all, first),
        y: round_on_axis(edge.y0, edge.y1, other.y0, other.y1, all, first),
    })
}

fn has_parts(all: i128, first: i128, second: i128) -> bool
    ensures { MatchBool result (HasParts all first second) (¬ (HasParts all first second)) }
{
    (0 < all) & (0 <= first) & (first <= all) & (0 <= second) & (second <= all)
}

/// On one axis, what the common point of two edges rounds to. Where one of them goes nowhere on the axis it is there, and nothing
/// is divided.
fn round_on_axis(from: i32, to: i32, other_from: i32, other_to: i32, all: i128, first: i128) -> i32
    requires some { pos 0 <ℤ all }
    requires upto { all ≤ℤ pos (2 ^ 66) }
    requires first_from { pos 0 ≤ℤ first }
    requires first_upto { first ≤ℤ all }
    requires common { IsThere from to other_from other_to all first }
    ensures { RoundsOn (unsigned_abs all) ((all *ℤ from) +ℤ (first *ℤ (to -ℤ from))) result }
{
    if from == to {
        return from;
    }
    if other_from == other_to {
        return other_from;
    }
    round_mean(from, to, all, first)
}

/// The number that lies `first` of `all` parts of the way from the one to the other, rounded.
pub fn round_mean(from: i32, to: i32, all: i128, first: i128) -> i32
    requires some { pos 0 <ℤ all }
    requires upto { all ≤ℤ pos (2 ^ 66) }
    requires first_from { pos 0 ≤ℤ first }
    requires first_upto { first ≤ℤ all }
    ensures { RoundsOn (unsigned_abs all) ((all *ℤ from) +ℤ (first *ℤ (to -ℤ from))) result }
{
    round_half(scaled_mean(from, to, all, first), all) as i32
}

/// The number that lies `first` of `all` parts of the way from the one to the other, times `all`.
fn scaled_mean(from: i32, to: i32, all: i128, first: i128) -> i128
    requires all { IsWithin (2 ^ 66) all }
    requires first { IsWithin (2 ^ 66) first }
    ensures value { result ≡ (all *ℤ from) +ℤ (first *ℤ (to -ℤ from)) }
    ensures within { IsWithin (2 ^ 99) result }
{
    product(all, from as i128) + product(first, to as i128 - from as i128)
}

/// The product of two numbers, of at most 67 and 33 bits.
fn product(one: i128, other: i128) -> i128
    requires one { IsWithin (2 ^ 66) one }
    requires other { IsWithin (2 ^ 32) other }
    ensures value { result ≡ one *ℤ other }
    ensures within { IsWithin (2 ^ 98) result }
{
    one * other
}

/// The whole number that `n / d` rounds to, a half upwards.
fn round_half(n: i128, d: i128) -> i128
    requires positive { pos 0 <ℤ d }
    requires divisor { d ≤ℤ pos (2 ^ 100) }
    requires within { IsWithin (2 ^ 100) n }
    ensures { RoundsOn (unsigned_abs d) n result }
{
    let twice = d + d;
    let sum = n + n + d;
    sum.div_euclid(twice)
}
