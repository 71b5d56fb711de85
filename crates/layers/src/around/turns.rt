//! How often edges wind around a half point, and whether they go through it.

ghost use Rattle.std.specs.Prelude.{◌≡◌, ◌≤ℤ◌, ◌+ℤ◌, ◌^◌, ◌||◌, ◌∷◌, [], pos};
ghost use Rattle.plane.specs.Meet.Crosses.{IsWithin};
ghost use Rattle.plane.specs.Ends.{edge_between};
ghost use Rattle.noding.specs.Windings.{count};
ghost use Rattle.layers.specs.Around.{halved};
ghost use Rattle.layers.specs.Chains.{IsAround, IsBounded, chain_edges, is_under_side, side_of, steps_over};

use super::chains::Chain;
use super::extents::{extent_at, twice};
use super::half_point::HalfPoint;
use crate::boxes::{box_at, grown};
use plane::point::Point;
use plane::vectors::product;

/// How often edges wind around a point, and whether one goes through it.
#[derive(Clone, Copy)]
pub struct Around {
    pub turns: i64,
    pub touches: bool,
}

/// What the edges of the chain do.
pub fn around_chain(chain: Chain, point: HalfPoint) -> Around
    requires { IsBounded chain }
    ensures { IsAround (halved point) (chain_edges chain.entry) result }
{
    let extent = extent_at(point);
    if extent.is_apart_from(chain.bounds) {
        return Around {
            turns: 0,
            touches: false,
        };
    }
    if extent.is_above(chain.bounds) {
        return Around {
            turns: steps_over(chain.point_at(0), chain.end, point),
            touches: false,
        };
    }
    around_edges(chain, point)
}

// The same, edge by edge.
fn around_edges(chain: Chain, point: HalfPoint) -> Around
    requires { IsBounded chain }
    ensures { IsAround (halved point) (chain_edges chain.entry) result }
{
    let mut around = Around {
        turns: 0,
        touches: false,
    };
    // What the edges from the points before this place on do.
    for place in 0..chain.points.len() {
        let edge = around_edge(chain.point_at(place), chain.point_at(place + 1), point);
        around = both(around, edge);
    }
    around
}

/// What edges and others do together.
pub fn both(one: Around, other: Around) -> Around
    requires one { IsWithin (2 ^ 62) one.turns }
    requires other { IsWithin (2 ^ 61) other.turns }
    ensures turns { result.turns ≡ one.turns +ℤ other.turns }
    ensures touches { result.touches ≡ (one.touches || other.touches) }
{
    Around {
        turns: one.turns + other.turns,
        touches: one.touches || other.touches,
    }
}

// What the edge from the one point to the other does.
fn around_edge(from: Point, to: Point, point: HalfPoint) -> Around
    ensures { IsAround (halved point) (edge_between from to ∷ []) result }
{
    let bounds = grown(box_at(from), to);
    let extent = extent_at(point);
    if extent.is_apart_from(bounds) {
        return Around {
            turns: 0,
            touches: false,
        };
    }
    let turns = steps_over(from, to, point);
    if extent.is_above(bounds) {
        return Around {
            turns,
            touches: false,
        };
    }
    let side = side_of(from, to, point);
    if is_under(from, to, side) {
        return Around {
            turns,
            touches: side == 0,
        };
    }
    Around {
        turns: 0,
        touches: false,
    }
}

// How far the point lies to the left of the line from the one point to the other, times the line's length, and times 4.
fn side_of(from: Point, to: Point, point: HalfPoint) -> i128
    ensures { result ≡ side_of from to point }
{
    let x = twice(from.x);
    let y = twice(from.y);
    let right = twice(to.x) - x;
    let up = twice(to.y) - y;
    product(right, point.twice_y - y) - product(up, point.twice_x - x)
}

// Whether the line from the one point to the other, wherever it runs, isn't above what lies on this side of it.
fn is_under(from: Point, to: Point, side: i128) -> bool
    ensures { result ≡ is_under_side from to side }
{
    if from.x < to.x { 0 <= side } else { side <= 0 }
}

// 1 where a way below the point from one x to another one passes it rightwards, -1 leftwards, and 0 where it doesn't pass it.
fn steps_over(from: Point, to: Point, point: HalfPoint) -> i64
    ensures { result ≡ steps_over from to point }
{
    count(twice(from.x) <= point.twice_x) - count(twice(to.x) <= point.twice_x)
}

// 1 where the test is true, else 0.
fn count(test: bool) -> i64
    ensures value { result ≡ count test }
    ensures from { pos 0 ≤ℤ result }
    ensures upto { result ≤ℤ pos 1 }
{
    if test { 1 } else { 0 }
}
