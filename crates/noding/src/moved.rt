//! Which edges a noding moves that moves only what it must.

ghost use Rattle.std.specs.List.Sorted.{IsPartitionPoint, IsPermutation};
ghost use Rattle.std.specs.Prelude.{◌≡◌, ◌≤◌, ◌⊎◌, ◌<◌, List, Some, All, IfOk, MatchBool, OnOk, length, slice_get};
ghost use Rattle.plane.specs.Lists.{Extends};
ghost use Rattle.plane.specs.Meet.Kinds.{HasPoint};
ghost use Rattle.plane.specs.declared.edge.Edge.{Edge};
ghost use Rattle.plane.specs.declared.point.Point.{Point};
ghost use Rattle.noding.specs.Chains.{AreChains, Passes};
ghost use Rattle.noding.specs.Crossings.{AreAllCrossed, IsCrossed};
ghost use Rattle.plane.specs.Gains.{GainsThese, IsOfSome};
ghost use Rattle.noding.specs.Local.{AreFirst, AreMoved, IsPointBeside, Moves};
ghost use Rattle.noding.specs.Moving.{AppendsUnlessKept, AreFlagged, AreFound, AreInOrder, AreSpread, AreVisits, IsInRange, IsMovedAt, IsNumberOf, IsPlaceOf, chain_of};
ghost use Rattle.noding.specs.Offsets.{AreJoined, between};
ghost use Rattle.noding.specs.Stops.{AreStops, IsKept, LiesOn};

use crate::chains::{append_chains, chain_at};
use crate::crossings::Crossing;
use crate::stops::{Stop, point_of};
use event_queue::buckets::sort_in_buckets;
use plane::edge::Edge;
use plane::meet::has_point;
use plane::point::Point;
use std::alloc::{AllocError, Allocator};
use std::cmp::Ordering;

// Which edges are found to be moved: a flag for each edge, and the places of those that are flagged, in the order in which they
// were found.
#[derive(Drop)]
struct Moved<A: Allocator> {
    flags: Vec<bool, A>,
    order: Vec<usize, A>,
}

// A point that the edge at this place passes and that doesn't lie on it, with its number.
#[derive(Clone, Copy, Debug)]
struct Visit {
    number: u64,
    point: Point,
    place: usize,
}

/// Whether each edge is moved, where these are the crossings of the edges, and all stops.
///
/// What two edges round to that cross at a point with fractions flags those of the two on which it doesn't lie. Most often no
/// other edge is moved: then all stops of edges that aren't flagged lie on them, and nothing is left to do.
pub fn moved_edges<A: Allocator + Copy>(
    alloc: A,
    edges: &[Edge],
    crossings: &[Crossing],
    stops: &[Stop],
) -> Result<Vec<bool, A>, AllocError>
    requires crossed { AreAllCrossed edges.now crossings.now }
    requires stops { AreStops edges.now stops.now }
    ensures { IfOk result (λ moved. AreMoved edges.now moved.items) }
{
    let mut moved = Moved {
        flags: vec![in alloc; false; edges.len()]?,
        order: Vec::new(alloc),
    };
    let mut crossed = Vec::new(alloc);
    flag_crossed(edges, crossings, &mut crossed, &mut moved)?;
    let visits = visits_beside(alloc, edges, stops, &moved.flags)?;
    flag_rest(edges, stops, &crossed, visits, &mut moved)?;
    Ok(moved.flags)
}

// Appends what those of these crossings round to that are points with fractions, and flags those of the two edges on which that
// doesn't lie.
fn flag_crossed<A: Allocator>(
    edges: &[Edge],
    crossings: &[Crossing],
    crossed: &mut Vec<Point, A>,
    moved: &mut Moved<A>,
) -> Result<(), AllocError>
    requires within { All (λ crossing. (crossing.one < length edges.now) × (crossing.other < length edges.now)) crossings.now }
    requires each { All (IsCrossed edges.now) crossings.now }
    requires found { AreFound edges.now moved.old.flags.items moved.old.order.items }
    ensures found { OnOk result (AreFound edges.now moved.new.flags.items moved.new.order.items) }
    ensures gains { OnOk result (GainsThese (IsOfSome (IsPointBeside edges.now) crossings.now) crossed.old.items crossed.new.items) }
{
    for crossing in crossings {
        flag_crossing(edges, *crossing, crossed, moved)?;
    }
    Ok(())
}

// The same of this crossing. A whole point in which the edges cross would lie on both.
fn flag_crossing<A: Allocator>(
    edges: &[Edge],
    crossing: Crossing,
    crossed: &mut Vec<Point, A>,
    moved: &mut Moved<A>,
) -> Result<(), AllocError>
    requires within { (crossing.one < length edges.now) × (crossing.other < length edges.now) }
    requires is { IsCrossed edges.now crossing }
    requires found { AreFound edges.now moved.old.flags.items moved.old.order.items }
    ensures found { OnOk result (AreFound edges.now moved.new.flags.items moved.new.order.items) }
    ensures gains { OnOk result (GainsThese (IsPointBeside edges.now crossing) crossed.old.items crossed.new.items) }
{
    let point = crossing.point;
    if lie_on(edges[crossing.one], edges[crossing.other], point) {
        return Ok(());
    }
    crossed.push(point)?;
    flag_beside(edges, crossing.one, point, moved)?;
    flag_beside(edges, crossing.other, point, moved)?;
    Ok(())
}

// Flags the edge at this place, which passes the point, unless this lies on it.
fn flag_beside<A: Allocator>(
    edges: &[Edge],
    place: usize,
    point: Point,
    moved: &mut Moved<A>,
) -> Result<(), AllocError>
    requires within { place < length edges.now }
    requires moves { Moves edges.now point.x point.y }
    requires passes { (edge : Edge) → slice_get edges.now place ≡ Some edge → Passes edge point.x point.y }
    requires found { AreFound edges.now moved.old.flags.items moved.old.order.items }
    ensures { OnOk result (AreFound edges.now moved.new.flags.items moved.new.order.items) }
{
    if has_point(edges[place], point.x, point.y) {
        return Ok(());
    }
    flag(place, moved)?;
    Ok(())
}

// Flags the edge at this place, unless it is flagged.
fn flag<A: Allocator>(place: usize, moved: &mut Moved<A>) -> Result<(), AllocError>
    requires within { place < length moved.old.flags.items }
    requires flagged { AreFlagged moved.old.flags.items moved.old.order.items }
    ensures size { OnOk result (length moved.new.flags.items ≡ length moved.old.flags.items) }
    ensures flagged { OnOk result (AreFlagged moved.new.flags.items moved.new.order.items) }
    ensures more { OnOk result (Extends moved.old.order.items moved.new.order.items) }
    ensures gains { OnOk result (GainsThese (λ other. other ≡ place) moved.old.order.items moved.new.order.items) }
{
    if moved.flags[place] {
        return Ok(());
    }
    moved.order.push(place)?;
    moved.flags[place] = true;
    Ok(())
}

/// Whether the point lies on both edges.
pub(crate) fn lie_on(one: Edge, other: Edge, point: Point) -> bool
    ensures { let both = HasPoint one point.x point.y × HasPoint other point.x point.y in MatchBool result both (¬ both) }
{
    has_point(one, point.x, point.y) && has_point(other, point.x, point.y)
}

/// Whether the stop's point lies on the edge.
pub fn lies_on(edge: Edge, stop: Stop) -> bool
    ensures { let on = LiesOn edge stop in MatchBool result on (¬ on) }
{
    let point = point_of(edge, stop);
    has_point(edge, point.x, point.y)
}

/// Whether the stop lies on the edge, or this is moved.
pub fn is_kept(edge: Edge, is_moved: bool, stop: Stop) -> bool
    ensures { let kept = IsKept edge is_moved stop in MatchBool result kept (¬ kept) }
{
    is_moved || lies_on(edge, stop)
}

// The visits of edges that aren't flagged, where these are all stops.
fn visits_beside<A: Allocator>(
    alloc: A,
    edges: &[Edge],
    stops: &[Stop],
    flags: &[bool],
) -> Result<Vec<Visit, A>, AllocError>
    requires stops { AreStops edges.now stops.now }
    requires size { length flags.now ≡ length edges.now }
    ensures { IfOk result (λ visits. AreVisits edges.now flags.now visits.items) }
{
    let mut visits = Vec::new(alloc);
    for stop in stops {
        push_unless_kept(edges[stop.place], flags[stop.place], *stop, &mut visits)?;
    }
    Ok(visits)
}

// Appends the visit of the stop, unless this lies on the edge or the edge is flagged.
fn push_unless_kept<A: Allocator>(
    edge: Edge,
    is_flagged: bool,
    stop: Stop,
    visits: &mut Vec<Visit, A>,
) -> Result<(), AllocError>
    ensures { OnOk result (AppendsUnlessKept edge is_flagged stop visits.old.items visits.new.items) }
{
    if is_kept(edge, is_flagged, stop) {
        return Ok(());
    }
    let point = point_of(edge, stop);
    visits.push(Visit {
        number: number_of(point),
        point,
        place: stop.place,
    })?;
    Ok(())
}

// A number by which points are in order: by x, and then by y.
fn number_of(point: Point) -> u64
    ensures is { IsNumberOf point result }
    ensures in_range { IsInRange point }
{
    let across = (point.x as i64 + 2147483648) as u64;
    let up = (point.y as i64 + 2147483648) as u64;
    across * 4294967296 + up
}

// Flags what else is moved, where these are all visits of edges that aren't flagged.
fn flag_rest<A: Allocator + Copy>(
    edges: &[Edge],
    stops: &[Stop],
    crossed: &[Point],
    mut visits: Vec<Visit, A>,
    moved: &mut Moved<A>,
) -> Result<(), AllocError>
    requires stops { AreStops edges.now stops.now }
    requires first { AreFirst edges.now crossed.now }
    requires visits { AreVisits edges.now moved.old.flags.items visits.items }
    requires found { AreFound edges.now moved.old.flags.items moved.old.order.items }
    ensures { OnOk result (AreMoved edges.now moved.new.flags.items) }
{
    if visits.is_empty() {
        return Ok(());
    }
    let alloc = *visits.allocator();
    let mut passed = Vec::new(alloc);
    let mut passed_ends = Vec::new(alloc);
    append_chains(edges, stops, &mut passed, &mut passed_ends)?;
    sort_visits(&mut visits)?;
    flag_passed(edges, &passed, &passed_ends, crossed, &visits, moved)?;
    Ok(())
}

// Puts the visits in order by their numbers.
fn sort_visits<A: Allocator + Copy>(visits: &mut Vec<Visit, A>) -> Result<(), AllocError>
    ensures in_order { OnOk result (AreInOrder visits.new.items) }
    ensures same { OnOk result (IsPermutation visits.old.items visits.new.items) }
{
    sort_in_buckets(
        visits,
        |visit| visit.number,
        |one: &Visit, other: &Visit| -> Ordering { one.number.cmp(&other.number) },
    )?;
    Ok(())
}

// Flags what else is moved, where these are the points that edges pass, and those that move edges to begin with.
fn flag_passed<A: Allocator + Copy>(
    edges: &[Edge],
    passed: &[Point],
    passed_ends: &[usize],
    crossed: &[Point],
    visits: &[Visit],
    moved: &mut Moved<A>,
) -> Result<(), AllocError>
    requires chains { (chains : List (List Point)) × AreChains edges.now chains × AreJoined chains passed.now passed_ends.now }
    requires first { AreFirst edges.now crossed.now }
    requires rising { AreInOrder visits.now }
    requires visits { AreVisits edges.now moved.old.flags.items visits.now }
    requires found { AreFound edges.now moved.old.flags.items moved.old.order.items }
    ensures { OnOk result (AreMoved edges.now moved.new.flags.items) }
{
    let mut spread = vec![in *moved.order.allocator(); false; visits.len()]?;
    move_at_all(visits, crossed, &mut spread, moved)?;
    let mut next = 0;
    // Edges are in `order` once they are flagged, and those before `next` have moved what their points move.
    while next < moved.order.len() {
        let chain = chain_of(moved.order[next], passed, passed_ends);
        move_at_all(visits, chain, &mut spread, moved)?;
        next += 1;
    }
    Ok(())
}

// Flags the edges that these points move.
fn move_at_all<A: Allocator>(
    visits: &[Visit],
    points: &[Point],
    spread: &mut [bool],
    moved: &mut Moved<A>,
) -> Result<(), AllocError>
    requires rising { AreInOrder visits.now }
    requires within { All (λ visit. visit.place < length moved.old.flags.items) visits.now }
    requires spread { AreSpread visits.now spread.old moved.old.order.items }
    requires flagged { AreFlagged moved.old.flags.items moved.old.order.items }
    ensures size { OnOk result (length moved.new.flags.items ≡ length moved.old.flags.items) }
    ensures spread { OnOk result (AreSpread visits.now spread.new moved.new.order.items) }
    ensures flagged { OnOk result (AreFlagged moved.new.flags.items moved.new.order.items) }
    ensures more { OnOk result (Extends moved.old.order.items moved.new.order.items) }
    ensures gains { OnOk result (GainsThese (IsOfSome (IsMovedAt visits.now) points.now) moved.old.order.items moved.new.order.items) }
{
    for point in points {
        move_at(visits, *point, spread, moved)?;
    }
    Ok(())
}

// Flags the edges that the point moves, unless it has done so before.
fn move_at<A: Allocator>(
    visits: &[Visit],
    point: Point,
    spread: &mut [bool],
    moved: &mut Moved<A>,
) -> Result<(), AllocError>
    requires rising { AreInOrder visits.now }
    requires within { All (λ visit. visit.place < length moved.old.flags.items) visits.now }
    requires spread { AreSpread visits.now spread.old moved.old.order.items }
    requires flagged { AreFlagged moved.old.flags.items moved.old.order.items }
    ensures size { OnOk result (length moved.new.flags.items ≡ length moved.old.flags.items) }
    ensures spread { OnOk result (AreSpread visits.now spread.new moved.new.order.items) }
    ensures flagged { OnOk result (AreFlagged moved.new.flags.items moved.new.order.items) }
    ensures more { OnOk result (Extends moved.old.order.items moved.new.order.items) }
    ensures gains { OnOk result (GainsThese (IsMovedAt visits.now point) moved.old.order.items moved.new.order.items) }
{
    let number = number_of(point);
    let first = visits_below(visits, number);
    let end = visits_upto(visits, number);
    if end <= first {
        return Ok(());
    }
    if spread[first] {
        return Ok(());
    }
    spread[first] = true;
    move_visits(visits_at(visits, first, end), moved)?;
    Ok(())
}

// How many visits have a lower number.
fn visits_below(visits: &[Visit], number: u64) -> usize
    requires { AreInOrder visits.now }
    ensures { IsPartitionPoint (λ visit. visit.number < number) (λ visit. number ≤ visit.number) visits.now result }
{
    visits.partition_point(|visit| visit.number < number)
}

// How many visits have this number or a lower one.
fn visits_upto(visits: &[Visit], number: u64) -> usize
    requires { AreInOrder visits.now }
    ensures bound { result ≤ length visits.now }
    ensures is { IsPartitionPoint (λ visit. visit.number ≤ number) (λ visit. number < visit.number) visits.now result }
{
    visits.partition_point(|visit| visit.number <= number)
}

// The visits from the one place on, and before the other.
fn visits_at(visits: &[Visit], start: usize, end: usize) -> &[Visit]
    requires { (start ≤ end) × (end ≤ length visits.now) }
    ensures { result.now ≡ between start end visits.now }
{
    &visits[start..end]
}

// Flags the edges of these visits.
fn move_visits<A: Allocator>(visits: &[Visit], moved: &mut Moved<A>) -> Result<(), AllocError>
    requires within { All (λ visit. visit.place < length moved.old.flags.items) visits.now }
    requires flagged { AreFlagged moved.old.flags.items moved.old.order.items }
    ensures size { OnOk result (length moved.new.flags.items ≡ length moved.old.flags.items) }
    ensures flagged { OnOk result (AreFlagged moved.new.flags.items moved.new.order.items) }
    ensures more { OnOk result (Extends moved.old.order.items moved.new.order.items) }
    ensures gains { OnOk result (GainsThese (IsOfSome IsPlaceOf visits.now) moved.old.order.items moved.new.order.items) }
{
    for visit in visits {
        flag(visit.place, moved)?;
    }
    Ok(())
}

// The chain at this place.
fn chain_of<'a>(place: usize, points: &'a [Point], ends: &[usize]) -> &'a [Point]
    requires joined { (chains : List (List Point)) × AreJoined chains points.now ends.now }
    requires within { place < length ends.now }
    ensures { result.now ≡ chain_of place points.now ends.now }
{
    let start = if place == 0 { 0 } else { ends[place - 1] };
    chain_at(points, start, ends[place])
}
