//! The stops of edges: which hot points each passes between its ends, in the order along it.

ghost use Rattle.std.specs.Prelude.{◌≡◌, ◌↔◌, ◌<◌, ℕ, true, List, All, AllPairs, Contains, MatchBool, length, IfErr, IfOk, OnOk};
ghost use Rattle.i_tree.specs.declared.Refusal.TheVariants.{OutOfMemory};
ghost use Rattle.plane.specs.Pairs.Pairs.{ArePairs};
ghost use Rattle.noding.specs.Beside.{NoneCloses};
ghost use Rattle.noding.specs.Close.{ComeClose, PassesInside};
ghost use Rattle.noding.specs.Crossings.{AreCrossed, IsCrossed};
ghost use Rattle.plane.specs.Gains.{GainsThese, HaveSame, IsOfSome};
ghost use Rattle.noding.specs.Sections.{IsStopIn};
ghost use Rattle.noding.specs.declared.stops.Stop.{Stop};
ghost use Rattle.noding.specs.Stops.{AreStops, IsBefore, IsStopAlong, IsStopAmong, IsStopAt, IsStopAtCrossing, IsStopAtEnd, IsOfCrossing, IsStopCrossed, IsStopOfBoth, IsStopOfPair, IsStopThere, IsStopUpto, PassedByBoth, point_of, stop_of, reflected};

use crate::beside::{none_closes, stops_beside};
use crate::close::close_pairs;
use crate::columns::crossings::crossings_by_columns;
use crate::columns::passing::pairs_passed_by_columns;
use crate::columns::stops::stops_by_columns;
use crate::crossings::{Crossing, crossings_of_pairs, is_end_of_one, points_inside};
use crate::distinct::{distinct_of, stops_of_each};
use crate::passing::passes_inside;
use crate::sections::{Section, pairs_passed_here, sections_of};
use event_queue::buckets::sort_in_buckets;
use i_tree::Refusal;
use plane::edge::{Edge, run_along_axes};
use plane::point::Point;
use std::alloc::{AllocError, Allocator};
use std::cmp::Ordering;

// So few tests of an edge with a crossing are sooner made than the points of crossings are put in order and sought by rows.
const FEW_TESTS: usize = 1024;

// Fewer yet are sooner made than the pairs of edges that come close are asked.
const FEWEST_TESTS: usize = 96;

/// A hot point that an edge passes, and none of its ends: the edge's place among all, and how far the point is along it on
/// each axis.
#[derive(Clone, Copy, Debug, PartialEq, Eq, PartialOrd, Ord)]
pub struct Stop {
    pub place: usize,
    pub along_x: i32,
    pub along_y: i32,
}

/// The stops of all edges between their ends, in order: edge by edge, and those of each in the order along it.
///
/// What an edge passes lies in its box. So the pairs of edges that come close tell the stops at ends of edges, and which
/// edges cross. An edge may pass a crossing of two others that it comes close to neither of: where some edges cross, and not
/// all run along the axes, the crossings are sought among all edges.
///
/// Where edges stand there often each is looked at once, and its copies have its stops.
pub fn stops_in_order<A: Allocator + Copy>(
    alloc: A,
    edges: &[Edge],
) -> Result<Vec<Stop, A>, Refusal>
    ensures ok { IfOk result (λ stops. AreStops edges.now stops.items) }
    ensures refused { IfErr result (λ cause. cause ≡ OutOfMemory) }
{
    let Some(distinct) = distinct_of(alloc, edges)? else {
        return stops_of_edges(alloc, edges);
    };
    let stops = stops_of_edges(alloc, &distinct.edges)?;
    let copies = stops_of_each(alloc, &distinct, &stops)?;
    Ok(copies)
}

// The same, where each edge is looked at as often as it stands there.
fn stops_of_edges<A: Allocator + Copy>(alloc: A, edges: &[Edge]) -> Result<Vec<Stop, A>, Refusal>
    ensures ok { IfOk result (λ stops. AreStops edges.now stops.items) }
    ensures refused { IfErr result (λ cause. cause ≡ OutOfMemory) }
{
    let Some(pairs) = close_pairs(alloc, edges)? else {
        return stops_of_edges_by_columns(alloc, edges);
    };
    let crossings = crossings_of_pairs(alloc, edges, &pairs)?;
    stops_of_pairs(alloc, edges, &pairs, &crossings)
}

// The same by a sweep over columns.
fn stops_of_edges_by_columns<A: Allocator + Copy>(
    alloc: A,
    edges: &[Edge],
) -> Result<Vec<Stop, A>, Refusal>
    ensures ok { IfOk result (λ stops. AreStops edges.now stops.items) }
    ensures refused { IfErr result (λ cause. cause ≡ OutOfMemory) }
{
    let crossings = crossings_by_columns(alloc, edges)?;
    stops_by_columns(alloc, edges, &crossings)
}

/// The same, where these pairs of edges come close, and have these crossings.
pub(crate) fn stops_of_pairs<A: Allocator + Copy>(
    alloc: A,
    edges: &[Edge],
    pairs: &[(usize, usize)],
    crossings: &[Crossing],
) -> Result<Vec<Stop, A>, Refusal>
    requires close { ArePairs ComeClose edges.now pairs.now }
    requires within { All (λ pair. (pair.0 < length edges.now) × (pair.1 < length edges.now)) pairs.now }
    requires crossed { AreCrossed edges.now pairs.now crossings.now }
    ensures ok { IfOk result (λ stops. AreStops edges.now stops.items) }
    ensures refused { IfErr result (λ cause. cause ≡ OutOfMemory) }
{
    let mut stops = Vec::new(alloc);
    push_stops_at_ends(edges, pairs, &mut stops)?;
    if are_asked_by_pairs(edges, crossings) {
        return stops_by_pairs(edges, pairs, crossings, stops);
    }
    push_stops_at_crossings(edges, crossings, &mut stops)?;
    sort_stops(&mut stops)?;
    Ok(stops)
}

// Whether the stops at crossings are sought by the pairs that come close. Of few edges, and of such as run along the axes, they are
// sooner found otherwise.
fn are_asked_by_pairs(edges: &[Edge], crossings: &[Crossing]) -> bool
    requires { All (λ crossing. (crossing.one < length edges.now) × (crossing.other < length edges.now)) crossings.now }
    ensures { result ≡ true → NoneCloses edges.now crossings.now }
{
    if edges.len().saturating_mul(crossings.len()) <= FEWEST_TESTS || run_along_axes(edges) {
        return false;
    }
    none_closes(edges, crossings)
}

// The stops of all edges, where these are those at ends of others: those of two edges where they cross, and then those of edges at
// stops of others that they come close to.
fn stops_by_pairs<A: Allocator + Copy>(
    edges: &[Edge],
    pairs: &[(usize, usize)],
    crossings: &[Crossing],
    mut stops: Vec<Stop, A>,
) -> Result<Vec<Stop, A>, Refusal>
    requires close { ArePairs ComeClose edges.now pairs.now }
    requires within { All (λ pair. (pair.0 < length edges.now) × (pair.1 < length edges.now)) pairs.now }
    requires crossed { AreCrossed edges.now pairs.now crossings.now }
    requires none { NoneCloses edges.now crossings.now }
    requires ends { (stop : Stop) → Contains stops.items stop ↔ IsOfSome (IsStopOfPair edges.now) pairs.now stop }
    ensures ok { IfOk result (λ stops. AreStops edges.now stops.items) }
    ensures refused { IfErr result (λ cause. cause ≡ OutOfMemory) }
{
    push_stops_of_crossings(edges, crossings, &mut stops)?;
    sort_stops(&mut stops)?;
    let beside = stops_beside(*stops.allocator(), edges, pairs, crossings, &stops)?;
    if beside.is_empty() {
        return Ok(stops);
    }
    stops.extend_from_slice(&beside)?;
    sort_stops(&mut stops)?;
    Ok(stops)
}

/// Puts stops in order, each once.
pub(crate) fn sort_stops<A: Allocator + Copy>(stops: &mut Vec<Stop, A>) -> Result<(), AllocError>
    ensures same { OnOk result (HaveSame stops.old.items stops.new.items) }
    ensures in_order { OnOk result (AllPairs IsBefore stops.new.items) }
{
    sort_in_buckets(stops, number_of, |one: &Stop, other: &Stop| -> Ordering {
        one.cmp(other)
    })?;
    stops.dedup();
    Ok(())
}

// A number by which stops are nearly in order: the edge's place, and behind it how far the stop is along it.
fn number_of(stop: Stop) -> u64 {
    ((stop.place as u64) << 32) | u64::from(stop.along_x.abs_diff(i32::MIN))
}

// Appends the stops of the edges at each of these pairs at ends of one another.
fn push_stops_at_ends<A: Allocator>(
    edges: &[Edge],
    pairs: &[(usize, usize)],
    stops: &mut Vec<Stop, A>,
) -> Result<(), AllocError>
    requires { All (λ pair. (pair.0 < length edges.now) × (pair.1 < length edges.now)) pairs.now }
    ensures { OnOk result (GainsThese (IsOfSome (IsStopOfPair edges.now) pairs.now) stops.old.items stops.new.items) }
{
    for pair in pairs {
        let one = edges[pair.0];
        let other = edges[pair.1];
        push_ends_of(other, pair.0, one, stops)?;
        push_ends_of(one, pair.1, other, stops)?;
    }
    Ok(())
}

// Appends the stops of the edge, which is at this place, at ends of the other one.
fn push_ends_of<A: Allocator>(
    other: Edge,
    place: usize,
    edge: Edge,
    stops: &mut Vec<Stop, A>,
) -> Result<(), AllocError>
    ensures { OnOk result (GainsThese (IsStopAtEnd other place edge) stops.old.items stops.new.items) }
{
    push_if_inside(place, edge, other.x0, other.y0, stops)?;
    push_if_inside(place, edge, other.x1, other.y1, stops)?;
    Ok(())
}

// Appends the stop of the edge, which is at this place, at the whole point (x, y), if it passes that between its ends. Most
// often it doesn't, which is told where it is asked.
#[inline(always)]
fn push_if_inside<A: Allocator>(
    place: usize,
    edge: Edge,
    x: i32,
    y: i32,
    stops: &mut Vec<Stop, A>,
) -> Result<(), AllocError>
    ensures { OnOk result (GainsThese (IsStopAlong place edge x y) stops.old.items stops.new.items) }
{
    if passes_inside(edge, x, y) {
        stops.push(stop_of(place, edge, x, y))?;
    }
    Ok(())
}

// Appends the stops of all edges at these crossings, which are those of the pairs that come close. Of edges along the axes one that
// passes such a crossing crosses one of the two there, so that the two of each crossing have all stops.
fn push_stops_at_crossings<A: Allocator + Copy>(
    edges: &[Edge],
    crossings: &[Crossing],
    stops: &mut Vec<Stop, A>,
) -> Result<(), Refusal>
    requires within { All (λ crossing. (crossing.one < length edges.now) × (crossing.other < length edges.now)) crossings.now }
    requires each { All (IsCrossed edges.now) crossings.now }
    ensures ok { OnOk result ((pairs : List (ℕ × ℕ)) → ArePairs ComeClose edges.now pairs → AreCrossed edges.now pairs crossings.now →
        GainsThese (IsStopCrossed edges.now pairs) stops.old.items stops.new.items) }
    ensures refused { IfErr result (λ cause. cause ≡ OutOfMemory) }
{
    if run_along_axes(edges) {
        push_stops_of_crossings(edges, crossings, stops)?;
        return Ok(());
    }
    if edges.len().saturating_mul(crossings.len()) <= FEW_TESTS {
        push_stops_at_few(edges, crossings, stops)?;
        return Ok(());
    }
    let points = points_inside(*stops.allocator(), edges, crossings)?;
    push_stops_at_points(edges, &points, stops)?;
    Ok(())
}

// Appends the stops of all edges at the points of these crossings, each edge asked about each of them.
fn push_stops_at_few<A: Allocator>(
    edges: &[Edge],
    crossings: &[Crossing],
    stops: &mut Vec<Stop, A>,
) -> Result<(), AllocError>
    requires within { All (λ crossing. (crossing.one < length edges.now) × (crossing.other < length edges.now)) crossings.now }
    requires each { All (IsCrossed edges.now) crossings.now }
    ensures { OnOk result (GainsThese (IsOfSome (IsStopThere edges.now) crossings.now) stops.old.items stops.new.items) }
{
    for crossing in crossings {
        push_stops_there(edges, *crossing, stops)?;
    }
    Ok(())
}

// Appends the stops of all edges at the crossing's point, if that is no end of its two edges.
fn push_stops_there<A: Allocator>(
    edges: &[Edge],
    crossing: Crossing,
    stops: &mut Vec<Stop, A>,
) -> Result<(), AllocError>
    requires within { (crossing.one < length edges.now) × (crossing.other < length edges.now) }
    requires is { IsCrossed edges.now crossing }
    ensures { OnOk result (GainsThese (IsStopThere edges.now crossing) stops.old.items stops.new.items) }
{
    if is_end_of_one(edges[crossing.one], edges[crossing.other], crossing.point) {
        return Ok(());
    }
    push_stops_of_all(edges, crossing, stops)?;
    Ok(())
}

// Appends the stops of all edges at the crossing's point. Its two edges pass it.
fn push_stops_of_all<A: Allocator>(
    edges: &[Edge],
    crossing: Crossing,
    stops: &mut Vec<Stop, A>,
) -> Result<(), AllocError>
    requires { PassedByBoth edges.now crossing }
    ensures { OnOk result (GainsThese (IsStopUpto edges.now crossing.point (length edges.now)) stops.old.items stops.new.items) }
{
    // The stops of the edges so far stand there.
    for place in 0..edges.len() {
        push_if_passed(place, edges[place], crossing, stops)?;
    }
    Ok(())
}

// Appends the stop of the edge, which is at this place, at the crossing's point, if it passes that between its ends.
fn push_if_passed<A: Allocator>(
    place: usize,
    edge: Edge,
    crossing: Crossing,
    stops: &mut Vec<Stop, A>,
) -> Result<(), AllocError>
    requires { IsOfCrossing place crossing → PassesInside edge crossing.point.x crossing.point.y }
    ensures { OnOk result (GainsThese (IsStopAlong place edge crossing.point.x crossing.point.y) stops.old.items stops.new.items) }
{
    if passes_crossing(place, edge, crossing) {
        stops.push(stop_of(place, edge, crossing.point.x, crossing.point.y))?;
    }
    Ok(())
}

// Whether the edge, which is at this place, passes the crossing's point between its ends. The crossing's own edges aren't asked.
fn passes_crossing(place: usize, edge: Edge, crossing: Crossing) -> bool
    requires { IsOfCrossing place crossing → PassesInside edge crossing.point.x crossing.point.y }
    ensures { let passes = PassesInside edge crossing.point.x crossing.point.y in MatchBool result passes (¬ passes) }
{
    if is_of_crossing(place, crossing) {
        return true;
    }
    passes_inside(edge, crossing.point.x, crossing.point.y)
}

// Whether one of the crossing's two edges is at this place.
fn is_of_crossing(place: usize, crossing: Crossing) -> bool
    ensures { MatchBool result (IsOfCrossing place crossing) (¬ (IsOfCrossing place crossing)) }
{
    place == crossing.one || place == crossing.other
}

/// Appends the stops of the two edges of each crossing at its point.
pub(crate) fn push_stops_of_crossings<A: Allocator>(
    edges: &[Edge],
    crossings: &[Crossing],
    stops: &mut Vec<Stop, A>,
) -> Result<(), AllocError>
    requires { All (λ crossing. (crossing.one < length edges.now) × (crossing.other < length edges.now)) crossings.now }
    ensures { OnOk result (GainsThese (IsOfSome (IsStopAtCrossing edges.now) crossings.now) stops.old.items stops.new.items) }
{
    for crossing in crossings {
        push_stops_of_both(*crossing, edges[crossing.one], edges[crossing.other], stops)?;
    }
    Ok(())
}

// Appends the stops of the crossing's two edges at its point, if that is no end of the two.
fn push_stops_of_both<A: Allocator>(
    crossing: Crossing,
    one: Edge,
    other: Edge,
    stops: &mut Vec<Stop, A>,
) -> Result<(), AllocError>
    ensures { OnOk result (GainsThese (IsStopOfBoth crossing one other) stops.old.items stops.new.items) }
{
    let point = crossing.point;
    if is_end_of_one(one, other, point) {
        return Ok(());
    }
    stops.push(stop_of(crossing.one, one, point.x, point.y))?;
    stops.push(stop_of(crossing.other, other, point.x, point.y))?;
    Ok(())
}

/// Appends the stops of all edges at these points. They are sought in the sections of edges, and where that takes more tests than
/// edges mostly need, by columns.
pub(crate) fn push_stops_at_points<A: Allocator + Copy>(
    edges: &[Edge],
    points: &[Point],
    stops: &mut Vec<Stop, A>,
) -> Result<(), Refusal>
    ensures ok { OnOk result (GainsThese (IsStopAmong edges.now points.now) stops.old.items stops.new.items) }
    ensures refused { IfErr result (λ cause. cause ≡ OutOfMemory) }
{
    if points.is_empty() {
        return Ok(());
    }
    let alloc = *stops.allocator();
    let sections = sections_of(alloc, edges, points)?;
    let Some(passes) = pairs_passed_here(alloc, &sections, points)? else {
        let passes = pairs_passed_by_columns(alloc, edges, points)?;
        push_stops(edges, points, &passes, stops)?;
        return Ok(());
    };
    push_stops_here(&sections, points, &passes, stops)?;
    Ok(())
}

// Appends the stop of each pair of a section and a point.
fn push_stops_here<A: Allocator>(
    sections: &[Section],
    points: &[Point],
    passes: &[(usize, usize)],
    stops: &mut Vec<Stop, A>,
) -> Result<(), AllocError>
    requires { All (λ pair. (pair.0 < length sections.now) × (pair.1 < length points.now)) passes.now }
    ensures { OnOk result (GainsThese (IsOfSome (IsStopIn sections.now points.now) passes.now) stops.old.items stops.new.items) }
{
    for pair in passes {
        let section = sections[pair.0];
        let point = points[pair.1];
        stops.push(stop_of(section.place, section.edge, point.x, point.y))?;
    }
    Ok(())
}

/// Appends the stop of each pair of an edge and a point.
pub(crate) fn push_stops<A: Allocator>(
    edges: &[Edge],
    points: &[Point],
    passes: &[(usize, usize)],
    stops: &mut Vec<Stop, A>,
) -> Result<(), AllocError>
    requires { All (λ pair. (pair.0 < length edges.now) × (pair.1 < length points.now)) passes.now }
    ensures { OnOk result (GainsThese (IsOfSome (IsStopAt edges.now points.now) passes.now) stops.old.items stops.new.items) }
{
    for pair in passes {
        let point = points[pair.1];
        stops.push(stop_of(pair.0, edges[pair.0], point.x, point.y))?;
    }
    Ok(())
}

/// The stop of the edge, which is at this place, at the whole point (x, y).
pub(crate) fn stop_of(place: usize, edge: Edge, x: i32, y: i32) -> Stop
    ensures { result ≡ stop_of place edge x y }
{
    Stop {
        place,
        along_x: reflected(edge.x0, edge.x1, x),
        along_y: reflected(edge.y0, edge.y1, y),
    }
}

/// The point of a stop of the edge.
pub fn point_of(edge: Edge, stop: Stop) -> Point
    ensures { result ≡ point_of edge stop }
{
    Point {
        x: reflected(edge.x0, edge.x1, stop.along_x),
        y: reflected(edge.y0, edge.y1, stop.along_y),
    }
}

// The number, or where the way goes down its reflection: so that numbers rise along the way.
fn reflected(from: i32, to: i32, number: i32) -> i32
    ensures { result ≡ reflected from to number }
{
    if to < from { -1 - number } else { number }
}
