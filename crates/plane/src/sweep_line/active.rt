//! `ActiveEdge`: an edge that a sweep line meets, as it stands in the status, and the order along it.

ghost use Rattle.std.specs.Prelude.{◌≡◌, ◌-ℤ◌, ◌<ℤ◌, ◌≤ℤ◌, pos};
ghost use Rattle.std.specs.Ordering.{int_cmp};
ghost use Rattle.plane.specs.SweepLine.Active.{active_edge, cmp_active, cmp_behind, cmp_to_ending};
ghost use Rattle.plane.specs.SweepLine.Heights.{rightwards};

use super::heights::{Climbs, climbs_to_point, compare_slopes, compare_starts, turn_rightwards};
use crate::edge::{Edge, end_of, start_of};
use i_tree::ExpiredVal;
use std::cmp::Ordering;

/// An edge that goes to the right, and its place among the edges. It stands in the status from its lesser end on, up to
/// the x before its greater end.
#[derive(Clone, Copy, Debug)]
pub struct ActiveEdge {
    pub edge: Edge,
    pub place: usize,
}

/// It is live at each x before its end, so that an end needs no removal.
impl ExpiredVal<i64> for ActiveEdge {
    ghost expiration = { λ active. active.edge.x1 -ℤ pos 1 };

    fn expiration(&self) -> i64 {
        self.edge.x1 as i64 - 1
    }
}

/// The edge at this place of a list as it stands in the status: turned to the right. A vertical edge or a point, which goes
/// nowhere, stays as it is, and is never live.
pub fn active_edge_of(edge: Edge, place: usize) -> ActiveEdge
    ensures edge { result.edge ≡ rightwards edge }
    ensures place { result.place ≡ place }
{
    let edge = turn_rightwards(edge);
    ActiveEdge { edge, place }
}

/// How the one stands to the other among what is live: by their heights at the first x that both span, then by their
/// slopes. Where these are equal too they lie along one line, and the one that began first stands first. Both go to the
/// right.
pub fn compare_active(one: ActiveEdge, other: ActiveEdge) -> Ordering
    requires right { one.edge.x0 <ℤ one.edge.x1 }
    requires other_right { other.edge.x0 <ℤ other.edge.x1 }
    ensures { result ≡ cmp_active one other }
{
    let heights = compare_starts(one.edge, other.edge);
    if heights != Ordering::Equal {
        return heights;
    }
    compare_behind(one, other)
}

/// The same where their heights there are equal, by what comes behind these.
fn compare_behind(one: ActiveEdge, other: ActiveEdge) -> Ordering
    ensures { result ≡ cmp_behind one other }
{
    let slopes = compare_slopes(one.edge, other.edge);
    if slopes != Ordering::Equal {
        return slopes;
    }
    let begins = one.edge.x0.cmp(&other.edge.x0);
    if begins != Ordering::Equal {
        return begins;
    }
    one.place.cmp(&other.place)
}

/// The same where the other has begun by the x at which the one that begins does: its height there tells.
pub(crate) fn compare_to_beginning(other: ActiveEdge, beginning: ActiveEdge) -> Ordering
    requires begun { other.edge.x0 ≤ℤ beginning.edge.x0 }
    requires beginning_right { beginning.edge.x0 <ℤ beginning.edge.x1 }
    ensures { result ≡ cmp_active other beginning }
{
    let climbs = climbs_to_beginning(other, beginning);
    climbs.edge.cmp(&climbs.point)
}

/// Two numbers that stand to each other so. Numbers are told, and compared only behind that, so that in the machine's code few
/// steps lie between their comparison and the child that a search goes to.
fn climbs_to_beginning(other: ActiveEdge, beginning: ActiveEdge) -> Climbs
    requires begun { other.edge.x0 ≤ℤ beginning.edge.x0 }
    requires beginning_right { beginning.edge.x0 <ℤ beginning.edge.x1 }
    ensures { int_cmp result.edge result.point ≡ cmp_active other beginning }
{
    let climbs = climbs_to_point(other.edge, start_of(beginning.edge));
    if climbs.edge == climbs.point {
        let Edge { x0, y0, x1, y1 } = other.edge;
        return climbs_of(compare_touching(x0, y0, x1, y1, other.place, copy_of(beginning)));
    }
    climbs
}

/// How the other stands to an edge that ends, among what is live then: by its height at that end. Where it passes
/// through the end, as `compare_active` says. So no guess is made at which of the two began first.
pub fn compare_to_ending(other: ActiveEdge, ending: ActiveEdge) -> Ordering
    requires right { other.edge.x0 <ℤ other.edge.x1 }
    requires ending_right { ending.edge.x0 <ℤ ending.edge.x1 }
    ensures { result ≡ cmp_to_ending ending other }
{
    let climbs = climbs_to_ending(other, ending);
    climbs.edge.cmp(&climbs.point)
}

/// Two numbers that stand to each other so.
fn climbs_to_ending(other: ActiveEdge, ending: ActiveEdge) -> Climbs
    requires right { other.edge.x0 <ℤ other.edge.x1 }
    requires ending_right { ending.edge.x0 <ℤ ending.edge.x1 }
    ensures { int_cmp result.edge result.point ≡ cmp_to_ending ending other }
{
    let climbs = climbs_to_point(other.edge, end_of(ending.edge));
    if climbs.edge == climbs.point {
        let Edge { x0, y0, x1, y1 } = other.edge;
        return climbs_of(compare_through(x0, y0, x1, y1, other.place, copy_of(ending)));
    }
    climbs
}

/// As `compare_behind`, of an edge of these numbers. Few touch where one begins: so this stands apart, and takes the edge number
/// by number, since a whole one would lie in memory for each that is compared.
#[cold]
#[inline(never)]
fn compare_touching(
    x0: i32,
    y0: i32,
    x1: i32,
    y1: i32,
    place: usize,
    beginning: ActiveEdge,
) -> Ordering
    ensures { result ≡ cmp_behind (active_edge x0 y0 x1 y1 place) beginning }
{
    compare_behind(active_edge(x0, y0, x1, y1, place), beginning)
}

/// As `compare_active`, of an edge of these numbers that passes through the end of one that ends, which few do.
#[cold]
#[inline(never)]
fn compare_through(x0: i32, y0: i32, x1: i32, y1: i32, place: usize, ending: ActiveEdge) -> Ordering
    requires right { x0 <ℤ x1 }
    requires ending_right { ending.edge.x0 <ℤ ending.edge.x1 }
    ensures { result ≡ cmp_active (active_edge x0 y0 x1 y1 place) ending }
{
    compare_active(active_edge(x0, y0, x1, y1, place), ending)
}

/// The active edge of these numbers.
#[inline]
fn active_edge(x0: i32, y0: i32, x1: i32, y1: i32, place: usize) -> ActiveEdge
    ensures { result ≡ active_edge x0 y0 x1 y1 place }
{
    ActiveEdge {
        edge: Edge { x0, y0, x1, y1 },
        place,
    }
}

/// Two numbers that stand to each other as the answer says.
#[inline]
fn climbs_of(answer: Ordering) -> Climbs
    ensures { int_cmp result.edge result.point ≡ answer }
{
    match answer {
        Ordering::Less => Climbs { edge: 0, point: 1 },
        Ordering::Equal => Climbs { edge: 0, point: 0 },
        Ordering::Greater => Climbs { edge: 1, point: 0 },
    }
}

/// A copy, number by number. What is passed to a call that isn't inlined lies in memory: then that is the copy, which is
/// made only where the call is.
#[inline]
fn copy_of(active: ActiveEdge) -> ActiveEdge
    ensures { result ≡ active }
{
    let Edge { x0, y0, x1, y1 } = active.edge;
    ActiveEdge {
        edge: Edge { x0, y0, x1, y1 },
        place: active.place,
    }
}
