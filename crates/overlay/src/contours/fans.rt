//! Fans: the edges that start at a point where many do, in clockwise order.
//!
//! To find the one that turns furthest left, a walk would go over all edges of the point each time that it comes there: over
//! n * n in all. In a fan it is the next one, clockwise from the way back, that isn't walked yet. The first one is told by the
//! two between which the way back lies. Of those behind it, by links, what a fan tells is tested only for being no walked one.

ghost use Rattle.std.specs.Bool.{OnTrue};
ghost use Rattle.std.specs.Prelude.{◌≡◌, ◌<◌, [], All, Contains, IfOk, IfSome, MatchBool, MatchOption, OnOk, get_or, length};
ghost use Rattle.overlay.specs.Contours.Fans.{AreAllFrom, AreClockwise, AreFans, IsTold, end_at, places};
ghost use Rattle.overlay.specs.Contours.Order.{AreInOrder, IsFirstFrom, point_at};
ghost use Rattle.overlay.specs.Contours.Turns.{Leaves, NoneLeaves, TakesFirst};
ghost use Rattle.overlay.specs.Sides.{AreBorders};

use super::order::first_from;
use super::turns::{comes_first, leftmost, starts_at};
use plane::edge::{Edge, end_of, start_of};
use plane::point::Point;
use plane::vectors::{Vector, cross_product, vector_along, vector_between};
use std::alloc::{AllocError, Allocator};
use std::cmp::Ordering;

// To go over so many edges takes no longer than a search in a fan.
const MANY: usize = 64;

/// Fans, and the spokes of all of them, clockwise in each.
#[derive(Drop)]
pub struct Fans<A: Allocator> {
    fans: Vec<Fan, A>,
    spokes: Vec<Spoke, A>,
}

/// A fan: the place of the first edge that starts at its point, among all edges, and where its spokes stand among all spokes.
#[derive(Clone, Copy)]
pub struct Fan {
    corner: usize,
    start: usize,
    end: usize,
}

/// An edge of a fan: its place among all edges, and the way it goes.
#[derive(Clone, Copy)]
pub struct Spoke {
    place: usize,
    way: Vector,
}

// A half turn, or none.
#[derive(Clone, Copy, PartialEq, Eq, PartialOrd, Ord)]
enum Half {
    First,
    Second,
    None,
}

/// The fans of edges that are in order. Each point at which 2 * `MANY` of them start has one, and none at which `MANY` do or
/// fewer.
pub fn fans_of<A: Allocator + Copy>(alloc: A, sorted: &[Edge]) -> Result<Fans<A>, AllocError>
    requires { AreInOrder sorted.now }
    ensures { IfOk result (λ fans. AreFans sorted.now fans.spokes.items fans.fans.items) }
{
    let mut fans = Vec::new(alloc);
    let mut spokes = Vec::new(alloc);
    let mut end = 0;
    // The fans so far have the edges before `end`.
    for place in (0..sorted.len()).step_by(MANY) {
        if place < end {
            continue;
        }
        let Some(corner) = crowded_corner(sorted, place) else {
            continue;
        };
        let fan = spokes_from(alloc, sorted, corner)?;
        end = corner.saturating_add(fan.len());
        append_fan(sorted, corner, &fan, &mut fans, &mut spokes)?;
    }
    Ok(Fans { fans, spokes })
}

// Appends a fan of these spokes, all that there are of its point, if they stand clockwise.
fn append_fan<A: Allocator>(
    sorted: &[Edge],
    corner: usize,
    fan: &[Spoke],
    fans: &mut Vec<Fan, A>,
    spokes: &mut Vec<Spoke, A>,
) -> Result<(), AllocError>
    requires fans { AreFans sorted.now spokes.old.items fans.old.items }
    requires all { AreAllFrom sorted.now (point_at sorted.now corner) (places fan.now) }
    ensures { OnOk result (AreFans sorted.now spokes.new.items fans.new.items) }
{
    if !are_clockwise(sorted, corner, fan) {
        return Ok(());
    }
    let start = spokes.len();
    spokes.extend_from_slice(fan)?;
    let end = spokes.len();
    fans.push(Fan { corner, start, end })?;
    Ok(())
}

// Whether clockwise from the first of the edges none but it comes before the one that stands before it.
fn are_clockwise(sorted: &[Edge], corner: usize, fan: &[Spoke]) -> bool
    requires { All (λ place. place < length sorted.now) (places fan.now) }
    ensures { OnTrue result (AreClockwise sorted.now (point_at sorted.now corner) (places fan.now)) }
{
    if sorted.len() <= corner || fan.is_empty() {
        return false;
    }
    let at = start_of(sorted[corner]);
    let first = end_of_spoke(sorted, fan, 0);
    for spoke in 2..fan.len() {
        let before = end_of_spoke(sorted, fan, spoke - 1);
        if comes_first(at, first, end_of_spoke(sorted, fan, spoke), before) {
            return false;
        }
    }
    true
}

// The corner of this edge, where so many edges behind it start at its point.
fn crowded_corner(sorted: &[Edge], place: usize) -> Option<usize>
    requires { AreInOrder sorted.now }
    ensures { IfSome result (λ corner. (corner < length sorted.now) × IsFirstFrom sorted.now (point_at sorted.now corner) corner) }
{
    if !is_crowded(sorted, place) {
        return None;
    }
    Some(first_from(sorted, start_of(sorted[place])))
}

// Whether so many edges behind this one start at its point.
fn is_crowded(sorted: &[Edge], place: usize) -> bool
    ensures { OnTrue result (place < length sorted.now) }
{
    if sorted.len() <= place || sorted.len() - place <= MANY {
        return false;
    }
    starts_at(sorted[place + MANY], start_of(sorted[place]))
}

// The edges that start at the point of this one, clockwise from the way straight up on.
fn spokes_from<A: Allocator>(
    alloc: A,
    sorted: &[Edge],
    corner: usize,
) -> Result<Vec<Spoke, A>, AllocError>
    requires inside { corner < length sorted.now }
    requires order { AreInOrder sorted.now }
    requires first { IsFirstFrom sorted.now (point_at sorted.now corner) corner }
    ensures { IfOk result (λ spokes. AreAllFrom sorted.now (point_at sorted.now corner) (places spokes.items)) }
{
    let mut spokes = Vec::new(alloc);
    append_spokes(sorted, corner, &mut spokes)?;
    spokes.sort_unstable_by(|one: &Spoke, other: &Spoke| -> Ordering {
        compare_spokes(*one, *other)
    });
    Ok(spokes)
}

// Appends the edges that start at the point of this one, in order.
fn append_spokes<A: Allocator>(
    sorted: &[Edge],
    corner: usize,
    spokes: &mut Vec<Spoke, A>,
) -> Result<(), AllocError>
    requires inside { corner < length sorted.now }
    requires order { AreInOrder sorted.now }
    requires first { IsFirstFrom sorted.now (point_at sorted.now corner) corner }
    requires none { spokes.old.items ≡ [] }
    ensures { OnOk result (AreAllFrom sorted.now (point_at sorted.now corner) (places spokes.new.items)) }
{
    let at = start_of(sorted[corner]);
    let mut place = corner;
    while place < sorted.len() && starts_at(sorted[place], at) {
        let way = vector_along(sorted[place]);
        spokes.push(Spoke { place, way })?;
        place += 1;
    }
    Ok(())
}

/// At first the link of each spoke goes to the next one. Where a spoke is walked, its link goes to a later one, and all before
/// that are walked.
pub fn links_of<A: Allocator + Copy>(
    alloc: A,
    fans: &Fans<A>,
) -> Result<Vec<usize, A>, AllocError> {
    let count = fans.spokes.len();
    let mut links = Vec::with_capacity(alloc, count)?;
    for spoke in 0..count {
        links.push(spoke + 1)?;
    }
    Ok(links)
}

// In which order the spokes of a fan stand: clockwise, and those of one way by their places.
fn compare_spokes(one: Spoke, other: Spoke) -> Ordering {
    let turns = compare_ways(one.way, other.way);
    if turns != Ordering::Equal {
        return turns;
    }
    one.place.cmp(&other.place)
}

// Which of two ways comes first clockwise, from the way straight up on. One that goes nowhere comes last.
fn compare_ways(one: Vector, other: Vector) -> Ordering {
    let halves = half_of(one).cmp(&half_of(other));
    if halves != Ordering::Equal {
        return halves;
    }
    cross_product(one, other).cmp(&0)
}

// In which half turn clockwise from the way straight up the way goes: the first or the second, or in none.
fn half_of(way: Vector) -> Half {
    if way.x == 0 && way.y == 0 {
        Half::None
    } else if way.x < 0 || (way.x == 0 && way.y < 0) {
        Half::Second
    } else {
        Half::First
    }
}

/// The place of an edge to go on along, of those that aren't walked yet and start at this point. The edges are in order, and
/// `first` of them start before the point. It is the one that turns furthest left, as `leftmost` says. Where a fan tells it,
/// and the first one clockwise from the way back is walked, that is tried, and no clause says it.
pub fn next_edge<A: Allocator>(
    sorted: &[Edge],
    used: &[bool],
    fans: &Fans<A>,
    links: &mut [usize],
    back: Point,
    at: Point,
    first: usize,
) -> Option<usize>
    requires order { AreInOrder sorted.now }
    requires first { IsFirstFrom sorted.now at first }
    requires size { length used.now ≡ length sorted.now }
    requires fans { AreFans sorted.now fans.now.spokes.items fans.now.fans.items }
    ensures leaves { MatchOption result (NoneLeaves sorted.now used.now at) (λ place. Leaves sorted.now used.now at place) }
    ensures takes { AreBorders sorted.now → TakesFirst sorted.now used.now back at result }
{
    if fans.fans.is_empty() {
        return leftmost(sorted, used, back, at, first);
    }
    next_by_fan(sorted, used, fans, links, back, at, first)
}

// The same where some point has a fan. Hardly any edges have one, so this stands apart.
#[cold]
#[inline(never)]
fn next_by_fan<A: Allocator>(
    sorted: &[Edge],
    used: &[bool],
    fans: &Fans<A>,
    links: &mut [usize],
    back: Point,
    at: Point,
    first: usize,
) -> Option<usize>
    requires order { AreInOrder sorted.now }
    requires first { IsFirstFrom sorted.now at first }
    requires size { length used.now ≡ length sorted.now }
    requires fans { AreFans sorted.now fans.now.spokes.items fans.now.fans.items }
    ensures leaves { MatchOption result (NoneLeaves sorted.now used.now at) (λ place. Leaves sorted.now used.now at place) }
    ensures takes { AreBorders sorted.now → TakesFirst sorted.now used.now back at result }
{
    let Some(fan) = fan_at(&fans.fans, first) else {
        return leftmost(sorted, used, back, at, first);
    };
    let spokes = &fans.spokes[fan.start..fan.end];
    let still = first_behind(spokes, vector_between(at, at));
    let turn = first_around(spokes, vector_between(at, back), still);
    if !is_told(sorted, spokes, back, at, turn) {
        return leftmost(sorted, used, back, at, first);
    }
    let place = place_of(spokes, turn);
    if leaves(sorted, used, at, place) {
        return Some(place);
    }
    let parts = parts_from(fan, turn, still);
    if let Some(later) = next_clockwise(used, &fans.spokes, links, parts) {
        if leaves(sorted, used, at, later) {
            return Some(later);
        }
    }
    leftmost(sorted, used, back, at, first)
}

// The fan of this corner.
fn fan_at(fans: &[Fan], corner: usize) -> Option<Fan>
    ensures { IfSome result (λ fan. Contains fans.now fan × (fan.corner ≡ corner)) }
{
    let number = fans.partition_point(|fan| fan.corner < corner);
    if number < fans.len() && fans[number].corner == corner {
        return Some(fans[number]);
    }
    None
}

// The first spoke clockwise from the way back: one behind that way, or else from the way straight up on. Those from `still` on go
// nowhere, and come last.
fn first_around(spokes: &[Spoke], back: Vector, still: usize) -> usize {
    let turn = first_behind(spokes, back);
    if turn < still { turn } else { 0 }
}

// How many spokes of a fan stand before those that go this way or come behind it.
fn first_behind(spokes: &[Spoke], way: Vector) -> usize {
    spokes.partition_point(|spoke| compare_ways(spoke.way, way) == Ordering::Less)
}

// Whether the way back lies between this spoke and the one before it, around. Or some edge ends where it starts.
fn is_told(sorted: &[Edge], spokes: &[Spoke], back: Point, at: Point, spoke: usize) -> bool
    requires { All (λ place. place < length sorted.now) (places spokes.now) }
    ensures { OnTrue result ((spoke < length (places spokes.now)) × IsTold sorted.now (places spokes.now) back at spoke) }
{
    if spokes.len() <= spoke {
        return false;
    }
    let first = end_of_spoke(sorted, spokes, 0);
    let last = end_of_spoke(sorted, spokes, spokes.len() - 1);
    if last.x == at.x && last.y == at.y {
        return true;
    }
    if !comes_first(at, first, first, back) {
        return true;
    }
    if spoke == 0 {
        return !comes_first(at, first, back, last);
    }
    if comes_first(at, first, back, end_of_spoke(sorted, spokes, spoke - 1)) {
        return false;
    }
    !comes_first(at, first, end_of_spoke(sorted, spokes, spoke), back)
}

// Where the edge of this spoke ends.
fn end_of_spoke(sorted: &[Edge], spokes: &[Spoke], spoke: usize) -> Point
    requires inside { All (λ place. place < length sorted.now) (places spokes.now) }
    requires spoke { spoke < length spokes.now }
    ensures { result ≡ end_at sorted.now (places spokes.now) spoke }
{
    end_of(sorted[place_of(spokes, spoke)])
}

// The place of its edge.
fn place_of(spokes: &[Spoke], spoke: usize) -> usize
    requires { spoke < length spokes.now }
    ensures { result ≡ get_or (places spokes.now) spoke 0 }
{
    spokes[spoke].place
}

// Whether the edge at this place isn't walked yet, and starts at the point.
fn leaves(sorted: &[Edge], used: &[bool], at: Point, place: usize) -> bool
    requires size { length used.now ≡ length sorted.now }
    ensures { MatchBool result (Leaves sorted.now used.now at place) (¬ (Leaves sorted.now used.now at place)) }
{
    place < sorted.len() && !used[place] && starts_at(sorted[place], at)
}

// The spokes of a fan in the order in which a walk takes them, by their numbers among all: from this one on, around, and then
// those that go nowhere.
fn parts_from(fan: Fan, turn: usize, still: usize) -> [(usize, usize); 3] {
    let from = fan.start.saturating_add(turn);
    let moving = fan.start.saturating_add(still);
    [(from, moving), (fan.start, from), (moving, fan.end)]
}

// The place of the first spoke of these parts that isn't walked.
fn next_clockwise(
    used: &[bool],
    spokes: &[Spoke],
    links: &mut [usize],
    parts: [(usize, usize); 3],
) -> Option<usize> {
    for (from, to) in parts {
        let found = next_between(used, spokes, links, from, to);
        if found.is_some() {
            return found;
        }
    }
    None
}

// The place of the first spoke from the one number on, and before the other, that isn't walked.
fn next_between(
    used: &[bool],
    spokes: &[Spoke],
    links: &mut [usize],
    start: usize,
    end: usize,
) -> Option<usize> {
    let mut spoke = start;
    // Those from `start` on, and before this one, are walked.
    while spoke < end && is_walked(spokes, used, spoke) {
        spoke = next_link(used, spokes, links, spoke).max(spoke + 1);
    }
    if spoke < end && spoke < spokes.len() {
        return Some(spokes[spoke].place);
    }
    None
}

// Whether the spoke of this number is walked.
fn is_walked(spokes: &[Spoke], used: &[bool], spoke: usize) -> bool {
    if spokes.len() <= spoke {
        return true;
    }
    let place = spokes[spoke].place;
    used.len() <= place || used[place]
}

// The link of a spoke that is walked, put on to that of the next one where this is walked too: so what lies between is passed by
// half as many links the next time.
fn next_link(used: &[bool], spokes: &[Spoke], links: &mut [usize], spoke: usize) -> usize {
    if links.len() <= spoke {
        return spoke;
    }
    let next = links[spoke];
    if next < links.len() && is_walked(spokes, used, next) {
        links[spoke] = links[next];
    }
    links[spoke]
}
