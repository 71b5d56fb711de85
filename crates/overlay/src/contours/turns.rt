//! Which of the edges that start at a point turns furthest left.

ghost use Rattle.std.specs.Prelude.{◌≡◌, ◌<◌, pos, ◌<ℤ◌, IfSome, MatchBool, MatchOption, length};
ghost use Rattle.overlay.specs.Contours.Order.{AreInOrder, IsFirstFrom};
ghost use Rattle.overlay.specs.Contours.Turns.{ComesBefore, IsBetter, IsLeft, IsLeftmost, NoneLeaves, direction, direction_between, dot};
ghost use Rattle.plane.specs.Ends.{start_of, end_of};

use plane::edge::{Edge, end_of, start_of};
use plane::point::Point;
use plane::vectors::{Vector, cross_product, product, vector_between};

/// The place of the edge that turns furthest left, of those that aren't walked yet and start at this point: the first one
/// clockwise from the way back, which goes to the point `back`. The edges are in order, and `first` of them start before the
/// point.
pub fn leftmost(
    sorted: &[Edge],
    used: &[bool],
    back: Point,
    at: Point,
    first: usize,
) -> Option<usize>
    requires order { AreInOrder sorted.now }
    requires first { IsFirstFrom sorted.now at first }
    requires size { length used.now ≡ length sorted.now }
    ensures { MatchOption result (NoneLeaves sorted.now used.now at)
        (λ place. IsLeftmost sorted.now used.now back at place) }
{
    let mut best = None;
    let mut place = first;
    while place < sorted.len() && starts_at(sorted[place], at) {
        if !used[place] {
            best = Some(better(sorted, back, at, best, place));
        }
        place += 1;
    }
    best
}

// Of the best place so far and this one, the one whose edge comes first.
fn better(sorted: &[Edge], back: Point, at: Point, best: Option<usize>, place: usize) -> usize
    requires inside { place < length sorted.now }
    requires best { IfSome best (λ other. other < length sorted.now) }
    ensures { MatchOption best (result ≡ place) (λ other. IsBetter sorted.now back at place other result) }
{
    let Some(other) = best else { return place };
    let way_back = vector_between(at, back);
    let one = vector_between(at, end_of(sorted[place]));
    if comes_before(way_back, one, vector_between(at, end_of(sorted[other]))) {
        return place;
    }
    other
}

/// Whether the edge starts at the point.
pub fn starts_at(edge: Edge, at: Point) -> bool
    ensures { MatchBool result (start_of edge ≡ at) (¬ (start_of edge ≡ at)) }
{
    edge.x0 == at.x && edge.y0 == at.y
}

/// Whether, clockwise from the way to the point `back`, the way to the one point comes before that to the other.
pub fn comes_first(at: Point, back: Point, one: Point, other: Point) -> bool
    ensures { let before = ComesBefore (direction_between at back) (direction_between at one) (direction_between at other) in
        MatchBool result before (¬ before) }
{
    let to_one = vector_between(at, one);
    comes_before(vector_between(at, back), to_one, vector_between(at, other))
}

/// Whether, clockwise from the way back, the one vector comes before the other.
fn comes_before(back: Vector, one: Vector, other: Vector) -> bool
    ensures { let before = ComesBefore (direction back) (direction one) (direction other) in
        MatchBool result before (¬ before) }
{
    let left = is_left(back, one);
    if left != is_left(back, other) {
        return left;
    }
    cross_product(one, other) < 0
}

/// Whether the vector lies within the half turn clockwise from the way back.
fn is_left(back: Vector, vector: Vector) -> bool
    ensures { let left = IsLeft (direction back) (direction vector) in MatchBool result left (¬ left) }
{
    let across = cross_product(back, vector);
    if across == 0 {
        return is_ahead(back, vector);
    }
    across < 0
}

/// Whether the scalar product of two vectors is above 0, so that they go less than a quarter turn apart. Their sum may take one
/// bit too many, so its parts are compared.
pub fn is_ahead(one: Vector, other: Vector) -> bool
    ensures { let ahead = pos 0 <ℤ dot one.x one.y other.x other.y in MatchBool result ahead (¬ ahead) }
{
    -product(one.x, other.x) < product(one.y, other.y)
}
