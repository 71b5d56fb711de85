//! Where the edges stand that start at the end of each edge. Hints tell it, by hashes of the points.

ghost use Rattle.std.specs.Prelude.{◌≡◌, ◌≤◌, IfOk, length};
ghost use Rattle.std.specs.Bool.{OnTrue};
ghost use Rattle.overlay.specs.Contours.Ends.{AreCornersOfEnds, StartBefore};
ghost use Rattle.overlay.specs.Contours.Order.{AreInOrder, IsFirstFrom};

use super::order::{first_from, is_behind};
use super::turns::starts_at;
use plane::edge::{Edge, end_of, start_of};
use plane::point::{Point, number_at};
use std::alloc::{AllocError, Allocator};

// More hints are no use, as each has 32 bits.
const MOST_BITS: u32 = 28;

/// For each of the edges in order, how many of them start before its end.
pub fn corners_of_ends<A: Allocator + Copy>(
    alloc: A,
    sorted: &[Edge],
) -> Result<Vec<usize, A>, AllocError>
    requires { AreInOrder sorted.now }
    ensures { IfOk result (λ corners. AreCornersOfEnds sorted.now corners.items) }
{
    let hints = hints_of(alloc, sorted)?;
    let mut corners = Vec::with_capacity(alloc, sorted.len())?;
    for edge in sorted {
        corners.push(first_at(sorted, &hints, end_of(*edge)))?;
    }
    Ok(corners)
}

// Of the points with one hash, where the first edges stand that start at two of them: the two that come first.
#[derive(Clone, Copy)]
struct Hint {
    first: u32,
    second: u32,
}

// The hints for all points at which edges start. A hash of which there is no such point has a wrong one.
fn hints_of<A: Allocator>(alloc: A, sorted: &[Edge]) -> Result<Vec<Hint, A>, AllocError> {
    let bits = sorted.len().max(1).ilog2().min(MOST_BITS) + 2;
    let none = Hint {
        first: 0,
        second: 0,
    };
    let mut hints = vec![in alloc; none; 1 << bits]?;
    for place in (0..sorted.len()).rev() {
        let at = start_of(sorted[place]);
        if place == 0 || !starts_at(sorted[place - 1], at) {
            put_hint(&mut hints, at, place);
        }
    }
    Ok(hints)
}

// The points come from the last one to the first, so that of three with one hash the last gives way.
fn put_hint(hints: &mut [Hint], at: Point, place: usize) {
    let hash = hash_of(at, hints.len());
    if hash < hints.len() {
        hints[hash] = Hint {
            first: (place % (1 << 32)) as u32,
            second: hints[hash].first,
        };
    }
}

// A hash of the point: a number below the count, where this is a power of 2.
fn hash_of(at: Point, count: usize) -> usize {
    let number = number_at(at.x, at.y).wrapping_mul(0x9E37_79B9_7F4A_7C15);
    let mixed = (number ^ (number >> 32)).wrapping_mul(0x9E37_79B9_7F4A_7C15);
    (mixed >> ((count.leading_zeros() + 1) % 64)) as usize
}

// How many of the edges in order start before the point. Where no hint leads there it is searched for.
fn first_at(sorted: &[Edge], hints: &[Hint], at: Point) -> usize
    requires { AreInOrder sorted.now }
    ensures { IsFirstFrom sorted.now at result }
{
    let hash = hash_of(at, hints.len());
    if hash < hints.len() {
        let hint = hints[hash];
        let first = hint.first as usize;
        if is_first(sorted, first, at) {
            return first;
        }
        let second = hint.second as usize;
        if is_first(sorted, second, at) {
            return second;
        }
    }
    first_from(sorted, at)
}

// Whether the edge at this place is the first that starts at the point.
fn is_first(sorted: &[Edge], place: usize, at: Point) -> bool
    requires { AreInOrder sorted.now }
    ensures { OnTrue result (IsFirstFrom sorted.now at place) }
{
    if sorted.len() <= place || !starts_at(sorted[place], at) {
        return false;
    }
    if place == 0 {
        return true;
    }
    !starts_at(sorted[place - 1], at)
}

/// How many of the edges in order start before the point, where so many do at least.
pub fn next_from(sorted: &[Edge], least: usize, point: Point) -> usize
    requires order { AreInOrder sorted.now }
    requires inside { least ≤ length sorted.now }
    requires before { StartBefore sorted.now point least }
    ensures { IsFirstFrom sorted.now point result }
{
    let mut first = least;
    while first < sorted.len() && !is_behind(sorted[first], point) {
        first += 1;
    }
    first
}
