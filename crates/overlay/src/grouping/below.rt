//! Which side is just below the beginning of each hole, by a walk along all rings.
//!
//! The holes stand in the order in which they begin, and so do the x at which they do. Of each point on the way it is known how
//! many holes begin left of it. From one point to the next this number passes those holes over whose beginnings the edge goes.

ghost use Rattle.std.specs.Bool.{OnTrue};
ghost use Rattle.std.specs.List.{flat_map};
ghost use Rattle.std.specs.Prelude.{◌≡◌, ◌++◌, ◌<◌, ◌≤◌, ◌<ℤ◌, ◌≤ℤ◌, ◌&&◌, ℕ, ℤ, true, [], All, IfOk, IfSome, List, get_or, length, map};
ghost use Rattle.plane.specs.declared.edge.Edge.{Edge};
ghost use Rattle.plane.specs.declared.point.Point.{Point};
ghost use Rattle.overlay.specs.Contours.Rings.{ring_edges};
ghost use Rattle.overlay.specs.Fill.Counts.{is_lower_on, is_over};
ghost use Rattle.overlay.specs.Fill.Filled.{AreNoded};
ghost use Rattle.overlay.specs.Grouping.{AreBefore, AreEndsAbove, AreEndsUpto, ArePassed, AreTold, IsHoleOf, IsRightward, IsSideOf, IsTold, IsUntold, Rise, begins_of, firsts_of, is_first_or_above, with_side};
ghost use Rattle.overlay.specs.Rings.{AreEnds, rings_of};

use super::holes::Hole;
use super::sides::{Side, side_of};
use crate::fill::pieces::is_sloped;
use crate::rings::ring_at;
use plane::edge::edge_between;
use plane::point::Point;
use plane::sweep_line::ActiveEdge;
use plane::sweep_line::active::compare_active;
use std::alloc::{AllocError, Allocator};
use std::cmp::Ordering;

// A walk passes so many holes for each edge at most. A hole that is passed takes some 10 ns, and a sweep 200 ns for an edge: so
// with more of them the sweep is faster.
const MOST_PASSED: usize = 16;

/// The x at which each hole begins.
pub fn beginnings<A: Allocator>(alloc: A, holes: &[Hole]) -> Result<Vec<i32, A>, AllocError>
    ensures { IfOk result (λ xs. xs.items ≡ begins_of (firsts_of holes.now)) }
{
    let mut xs = Vec::with_capacity(alloc, holes.len())?;
    for hole in holes {
        xs.push(hole.first.piece.edge.x0)?;
    }
    Ok(xs)
}

/// Whether a walk passes so few holes that it is faster than a sweep.
pub fn passes_few(xs: &[i32], points: &[Point], ends: &[usize]) -> bool
    requires ends { AreEnds 0 ends.now (length points.now) }
    requires rise { Rise xs.now }
{
    let most = points.len().saturating_mul(MOST_PASSED);
    let mut passed = 0;
    for ring in 0..ends.len() {
        passed = passed_with(passed, most, xs, ring_at(points, ends, ring));
        if passed > most {
            return false;
        }
    }
    true
}

// How many holes are passed, if so many were before this ring. It stops counting where they are more than the most.
fn passed_with(before: usize, most: usize, xs: &[i32], points: &[Point]) -> usize
    requires { Rise xs.now }
{
    let Some(last) = points.last() else {
        return before;
    };
    let mut passed = before;
    let mut count = count_before(xs, last.x);
    // So many holes begin left of the point before.
    for point in points {
        let next = count_from(xs, count, point.x);
        passed = passed.saturating_add(next.abs_diff(count));
        if passed > most {
            return passed;
        }
        count = next;
    }
    passed
}

/// Finds the highest side of all rings below each hole.
pub fn walk_rings(xs: &[i32], holes: &mut [Hole], points: &[Point], ends: &[usize])
    ghost rings: { List (List Point) }
    requires each { xs.now ≡ begins_of (firsts_of holes.old) }
    requires rise { Rise xs.now }
    requires ends { AreEnds 0 ends.now (length points.now) }
    requires rings { rings ≡ rings_of points.now 0 ends.now }
    requires noded { AreNoded (flat_map ring_edges rings) }
    requires holes { All (IsHoleOf rings) holes.old }
    requires untold { All IsUntold holes.old }
    ensures { AreTold rings (firsts_of holes.old) holes.new }
{
    for ring in 0..ends.len() {
        walk(xs, holes, ring_at(points, ends, ring), ring);
    }
}

// Notes the sides of the ring of this number at the holes that they are below.
fn walk(xs: &[i32], holes: &mut [Hole], points: &[Point], ring: usize)
    ghost rings: { List (List Point) }
    requires each { xs.now ≡ begins_of (firsts_of holes.old) }
    requires rise { Rise xs.now }
    requires noded { AreNoded (flat_map ring_edges rings) }
    requires within { ring < length rings }
    requires ring { points.now ≡ get_or rings ring [] }
    requires holes { All (IsHoleOf rings) holes.old }
    ensures same { firsts_of holes.new ≡ firsts_of holes.old }
    ensures holes { All (IsHoleOf rings) holes.new }
    ensures told { (edges : List Edge) → All (IsTold edges) holes.old → All (IsTold (edges ++ ring_edges points.now)) holes.new }
{
    let Some(last) = points.last() else {
        return;
    };
    let mut from = *last;
    let mut count = count_before(xs, from.x);
    // So many holes begin left of `from`.
    for to in points {
        let next = count_from(xs, count, to.x);
        let edge = edge_between(from, *to);
        if next != count && is_sloped(edge) {
            let side = side_of(edge, ring);
            pass(holes, count.min(next), count.max(next), side);
        }
        from = *to;
        count = next;
    }
}

// Notes the side at those of the holes from the one place on, and before the other, that it is below.
fn pass(holes: &mut [Hole], start: usize, end: usize, side: Side)
    ghost rings: { List (List Point) }
    requires noded { AreNoded (flat_map ring_edges rings) }
    requires side { IsSideOf rings side }
    requires upto { start ≤ end }
    requires end { end ≤ length holes.old }
    requires passed { ArePassed side.piece.edge start end (firsts_of holes.old) }
    requires holes { All (IsHoleOf rings) holes.old }
    ensures { holes.new ≡ map (with_side side) holes.old }
{
    for place in start..end {
        let Hole { first, below } = holes[place];
        if is_next_below(side, first, below) {
            holes[place].below = Some(side);
        }
    }
}

// How many holes begin left of this x.
fn count_before(xs: &[i32], x: i32) -> usize
    requires { Rise xs.now }
    ensures { AreBefore xs.now x result }
{
    xs.partition_point(|other| *other < x)
}

// The same, step by step from how many begin left of another x.
fn count_from(xs: &[i32], count: usize, x: i32) -> usize
    requires rise { Rise xs.now }
    requires count { count ≤ length xs.now }
    ensures { AreBefore xs.now x result }
{
    if count < xs.len() && xs[count] < x {
        return count_on(xs, count, x);
    }
    count_back(xs, count, x)
}

// The same, where they are more.
fn count_on(xs: &[i32], count: usize, x: i32) -> usize
    requires rise { Rise xs.now }
    requires within { count < length xs.now }
    requires less { get_or xs.now count x <ℤ x }
    ensures { AreBefore xs.now x result }
{
    for place in count..xs.len() {
        if xs[place] >= x {
            return place;
        }
    }
    xs.len()
}

// The same, where they are as many or fewer.
fn count_back(xs: &[i32], count: usize, x: i32) -> usize
    requires rise { Rise xs.now }
    requires count { count ≤ length xs.now }
    requires upto { count < length xs.now → x ≤ℤ get_or xs.now count x }
    ensures { AreBefore xs.now x result }
{
    let mut left = count;
    // The holes behind `left` don't begin left of it, up to those that were counted.
    while left > 0 && xs[left - 1] >= x {
        left -= 1;
    }
    left
}

// Whether the side is below where the hole's first side begins, and above the one found there so far. Four comparisons tell it of
// most sides.
fn is_next_below(side: Side, first: Side, below: Option<Side>) -> bool
    requires right { IsRightward side }
    requires first_right { IsRightward first }
    requires below_right { IfSome below IsRightward }
    ensures { (rings : List (List Point)) → AreNoded (flat_map ring_edges rings) → IsSideOf rings side
        → IsHoleOf rings (record { first = first; below = below }) → is_over first.piece.edge.x0 side.piece.edge ≡ true
        → result ≡ (is_lower_on first.piece.edge.x0 side.piece.edge first.piece.edge
        && is_first_or_above first.piece.edge.x0 side below) }
{
    !is_over(side, first) && is_first_or_above(side, below) && is_below(side, first)
}

// Whether both ends of the side are above where the other begins, so that it isn't below it.
fn is_over(side: Side, other: Side) -> bool
    ensures { OnTrue result (AreEndsAbove other.piece.edge.y0 side.piece.edge) }
{
    let height = other.piece.edge.y0;
    side.piece.edge.y0 > height && side.piece.edge.y1 > height
}

// Whether the side is above the best one so far, or there is none.
fn is_first_or_above(side: Side, best: Option<Side>) -> bool
    requires right { IsRightward side }
    requires best { IfSome best IsRightward }
    ensures { (rings : List (List Point)) (x : ℤ) → AreNoded (flat_map ring_edges rings) → IsSideOf rings side
        → is_over x side.piece.edge ≡ true
        → IfSome best (λ other. IsSideOf rings other × (is_over x other.piece.edge ≡ true))
        → result ≡ is_first_or_above x side best }
{
    match best {
        Some(other) => !is_under(side, other) && is_below(other, side),
        None => true,
    }
}

// Whether both ends of the side are no higher than the lower one of the other, so that it isn't above it.
fn is_under(side: Side, other: Side) -> bool
    ensures { OnTrue result (AreEndsUpto side.piece.edge other.piece.edge) }
{
    let height = other.piece.edge.y0.min(other.piece.edge.y1);
    side.piece.edge.y0 <= height && side.piece.edge.y1 <= height
}

// Whether the one is below the other at the first x that both span, or just behind it.
fn is_below(one: Side, other: Side) -> bool
    requires right { IsRightward one }
    requires other_right { IsRightward other }
    ensures { (rings : List (List Point)) (x : ℤ) → AreNoded (flat_map ring_edges rings) → IsSideOf rings one
        → IsSideOf rings other → is_over x one.piece.edge ≡ true → is_over x other.piece.edge ≡ true
        → result ≡ is_lower_on x one.piece.edge other.piece.edge }
{
    compare_active(active_of(one), active_of(other)) == Ordering::Less
}

// The side as it would stand in a status. No two lie along one line, so that its place tells nothing.
fn active_of(side: Side) -> ActiveEdge
    ensures { result ≡ record { edge = side.piece.edge; place = 0 } }
{
    ActiveEdge {
        edge: side.piece.edge,
        place: 0,
    }
}
