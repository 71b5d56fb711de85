//! Vectors from one whole point to another, which take 33 bits along x and along y: what is made of two of them.

ghost use Rattle.std.specs.Prelude.{◌≡◌, ◌^◌, ◌-ℤ◌, ◌*ℤ◌, ◌≤ℤ◌, ◌<ℤ◌, pos, neg_ℤ};
ghost use Rattle.plane.specs.Meet.Crosses.{cross, IsWithin};

use crate::edge::{Edge, end_of, start_of};
use crate::point::Point;

/// How far it is from one whole point to another, along x and along y. A difference of two `i32` takes 33 bits.
#[derive(Clone, Copy)]
pub struct Vector {
    pub x: i64,
    pub y: i64,
    ghost x_within: { IsWithin (2 ^ 32) x },
    ghost y_within: { IsWithin (2 ^ 32) y },
}

/// The vector from the one point to the other.
pub fn vector_between(from: Point, to: Point) -> Vector
    ensures x { result.x ≡ to.x -ℤ from.x }
    ensures y { result.y ≡ to.y -ℤ from.y }
{
    Vector {
        x: difference(from.x, to.x),
        y: difference(from.y, to.y),
    }
}

/// The vector from the edge's start to its end.
pub fn vector_along(edge: Edge) -> Vector
    ensures x { result.x ≡ edge.x1 -ℤ edge.x0 }
    ensures y { result.y ≡ edge.y1 -ℤ edge.y0 }
{
    vector_between(start_of(edge), end_of(edge))
}

/// The vector from the one edge's start to the other's.
pub fn vector_between_starts(one: Edge, other: Edge) -> Vector
    ensures x { result.x ≡ other.x0 -ℤ one.x0 }
    ensures y { result.y ≡ other.y0 -ℤ one.y0 }
{
    vector_between(start_of(one), start_of(other))
}

/// How far it is from the one number to the other, along one axis: above 0 where that is the greater one.
pub(crate) fn difference(start: i32, end: i32) -> i64
    ensures value { result ≡ end -ℤ start }
    ensures within { IsWithin (2 ^ 32) result }
{
    end as i64 - start as i64
}

/// The cross product of two vectors: it is 0 where they are parallel, or where one of them is 0.
pub fn cross_product(one: Vector, other: Vector) -> i128
    ensures value { result ≡ cross one.x one.y other.x other.y }
    ensures within { IsWithin (2 ^ 65) result }
{
    product(one.x, other.y) - product(one.y, other.x)
}

/// The product of two numbers of 64 bits, which one multiplication makes. The bounds say that the difference of two products
/// fits too.
pub fn product(one: i64, other: i64) -> i128
    ensures value { result ≡ one *ℤ other }
    ensures above { neg_ℤ (pos (2 ^ 126)) <ℤ result }
    ensures upto { result ≤ℤ pos (2 ^ 126) }
{
    one as i128 * other as i128
}
