//! Shapes: convex polygons of whole points around the origin.

ghost use Rattle.std.specs.Bool.{MatchBool};
ghost use Rattle.std.specs.Prelude.{◌≡◌, ◌<◌, ◌<ℤ◌, All, get_or, length, pos};
ghost use Rattle.plane.specs.Ends.{edge_between};
ghost use Rattle.overlay.specs.Areas.{swept};
ghost use Rattle.offset.specs.Raw.{nowhere};
ghost use Rattle.offset.specs.Shape.{GoesRoundOnce, IsConvexAroundOrigin, neighbours, next_place, sides, turn};

use plane::edge::{Edge, edge_between, height_over};
use plane::point::Point;
use plane::vectors::{cross_product, vector_along};

/// Whether these are the corners of a convex polygon that has the origin inside, counterclockwise: at each corner it turns left,
/// the origin lies left of each side, no corner lies right of one, and none stands there twice.
///
/// It looks at each corner a few times.
pub fn is_convex_around_origin(corners: &[Point]) -> bool
    ensures { MatchBool result (IsConvexAroundOrigin corners.now) (¬ (IsConvexAroundOrigin corners.now)) }
{
    if corners.is_empty() || !go_round_origin(corners) {
        return false;
    }
    if !turn_left(corners) {
        return false;
    }
    go_round_once(corners)
}

// Whether the origin lies left of each side.
fn go_round_origin(corners: &[Point]) -> bool
    ensures { MatchBool result (All (λ side. pos 0 <ℤ swept side) (sides corners.now))
        (¬ (All (λ side. pos 0 <ℤ swept side) (sides corners.now))) }
{
    let origin = Point { x: 0, y: 0 };
    for index in 0..corners.len() {
        if height_over(side_at(corners, index), origin) <= 0 {
            return false;
        }
    }
    true
}

// Whether at each corner it turns left.
fn turn_left(corners: &[Point]) -> bool
    ensures { MatchBool result (All (λ two. pos 0 <ℤ turn two.0 two.1) (neighbours (sides corners.now)))
        (¬ (All (λ two. pos 0 <ℤ turn two.0 two.1) (neighbours (sides corners.now)))) }
{
    for index in 0..corners.len() {
        let side = side_at(corners, index);
        let next = side_at(corners, next_place(index, corners.len()));
        if turn(side, next) <= 0 {
            return false;
        }
    }
    true
}

// Whether, once a corner doesn't lie left of the way to the first one, none behind it does.
fn go_round_once(corners: &[Point]) -> bool
    ensures { MatchBool result (GoesRoundOnce corners.now) (¬ (GoesRoundOnce corners.now)) }
{
    for index in 2..corners.len() {
        let before = sweep_between(corners[0], corners[index - 1]);
        let here = sweep_between(corners[0], corners[index]);
        if before <= 0 && here > 0 {
            return false;
        }
    }
    true
}

// Twice the area of the triangle of the origin and these: above 0 where it turns left from the one to the other.
fn sweep_between(one: Point, other: Point) -> i128
    ensures { result ≡ swept (edge_between one other) }
{
    height_over(edge_between(one, other), Point { x: 0, y: 0 })
}

/// The side of this number: from the corner of this number to the next one.
pub fn side_at(corners: &[Point], index: usize) -> Edge
    requires { index < length corners.now }
    ensures { result ≡ get_or (sides corners.now) index nowhere }
{
    edge_between(corners[index], corners[next_place(index, corners.len())])
}

/// The place behind this one, of so many that go round.
pub fn next_place(index: usize, count: usize) -> usize
    requires { index < count }
    ensures { result ≡ next_place index count }
{
    if index + 1 == count { 0 } else { index + 1 }
}

/// The cross product of the ways that two edges go: above 0 where the other one turns left, below 0 where it turns right.
pub fn turn(one: Edge, other: Edge) -> i128
    ensures { result ≡ turn one other }
{
    cross_product(vector_along(one), vector_along(other))
}
