//! The sweep among edges: what is done at each event.

ghost use Rattle.std.specs.Prelude.{◌≡◌, ◌≢◌, ◌≤◌, ◌<◌, ◌+◌, ◌<ℤ◌, ◌≤ℤ◌, ◌∷◌, [], ℕ, All, AllPairs, Option, length, OnOk};
ghost use Rattle.std.specs.List.{AllZip};
ghost use Rattle.i_tree.specs.declared.Refusal.{Refusal};
ghost use Rattle.i_tree.specs.declared.Refusal.TheVariants.{OutOfMemory};
ghost use Rattle.i_tree.specs.Root.Along.{AreNeighbours, IsMonotoneAlong};
ghost use Rattle.i_tree.specs.Root.Change.{Without};
ghost use Rattle.i_tree.specs.Root.Handles.{HasHandlesFor};
ghost use Rattle.std.specs.declared.cmp.Ordering.TheVariants.{Less};
ghost use Rattle.plane.specs.Locate.Answers.{IsPlaceBelow};
ghost use Rattle.plane.specs.SweepLine.Crossings.{Cross, IsCrossing, NoneCross};
ghost use Rattle.plane.specs.Locate.Events.{IsQueue};
ghost use Rattle.plane.specs.SweepLine.Line.{BeganBefore, IsSortedAt, JoinsAt};
ghost use Rattle.plane.specs.Locate.Serving.{AreCrossing, AreInOrder, ArePlacesOfCrossing, HaveCrossing, IsPlaceUnder};
ghost use Rattle.plane.specs.SweepLine.Active.{AllRight, Entry, live_entries, IsExpiredAt, NotCross};
ghost use Rattle.plane.specs.SweepLine.Active.{cmp_active, cmp_to_ending, cmp_to_point};

use super::fault::LocateFault;
use super::read_ahead::{Payload, ReadAhead};
use crate::edge::Edge;
use crate::point::Point;
use crate::sweep_line::active::{ActiveEdge, compare_to_beginning, compare_to_ending};
use crate::sweep_line::crossing::cross;
use crate::sweep_line::heights::{compare_ends, compare_to_point};
use crate::sweep_line::insertion::insert_where;
use event_queue::Event;
use i_tree::status::exp::StatusCollection;
use std::alloc::Allocator;
use std::cmp::Ordering;

/// Serves the events in order, and puts each point's answer at its place.
pub fn serve_all<C, A>(
    alloc: A,
    status: &mut C,
    edges: &[Edge],
    points: &[Point],
    events: &[Event],
    answers: &mut [Option<usize>],
) -> Result<(), LocateFault>
where
    C: StatusCollection<ActiveEdge, i64, ()>,
    A: Allocator,
    requires empty { C.stored status.old ≡ [] }
    requires queue { IsQueue edges.now points.now events.now }
    requires room { length answers.old ≡ length points.now }
    ensures ok { OnOk result (NoneCross edges.now × AllZip (IsPlaceBelow edges.now) points.now answers.new) }
    ensures crossing { (i j : ℕ) → result ≡ Err (LocateFault.Cross i j) → IsCrossing edges.now i j }
    ensures refused { length edges.now ≤ C.room status.old → (cause : Refusal) →
        result ≡ Err (LocateFault.Refused cause) → cause ≡ OutOfMemory }
    ensures handles { HasHandlesFor C.has_handles (length edges.now) → (cause : Refusal) →
        result ≡ Err (LocateFault.Refused cause) → cause ≡ OutOfMemory }
{
    let mut read_ahead = ReadAhead::new(alloc);
    // The events so far are served: what is live stands in the status, in order along the sweep line, and no two that began cross
    // before it.
    for next in 0..events.len() {
        let payload = read_ahead.at(edges, points, events, next)?;
        match payload {
            Payload::Ends(active) => end(status, active)?,
            Payload::Begins(active) => begin(status, active)?,
            Payload::Asks(place, point) => answers[place] = place_below(status, point),
        }
    }
    Ok(())
}

/// Checks the two between which the edge stood that ends.
fn end<C: StatusCollection<ActiveEdge, i64, ()>>(
    status: &mut C,
    ending: ActiveEdge,
) -> Result<(), LocateFault>
    requires monotone { IsMonotoneAlong (cmp_to_ending ending)
        (live_entries ending.edge.x1 (C.stored status.old)) }
    requires right { ending.edge.x0 <ℤ ending.edge.x1 }
    requires all_right { AllRight (live_entries ending.edge.x1 (C.stored status.old)) }
    requires order { AllPairs (λ one other. cmp_active one.0 other.0 ≡ Less)
        (live_entries ending.edge.x1 (C.stored status.old)) }
    ensures ok { OnOk result (
        (found : Option Entry × Option Entry)
        × AreNeighbours (cmp_to_ending ending) (live_entries ending.edge.x1 (C.stored status.old)) found
        × NotCross found.0 found.1) }
    ensures crossing { (i j : ℕ) → result ≡ Err (LocateFault.Cross i j) →
        HaveCrossing (live_entries ending.edge.x1 (C.stored status.old)) i j }
    ensures never_refused { (cause : Refusal) → result ≢ Err (LocateFault.Refused cause) }
    ensures kept { Without (IsExpiredAt ending.edge.x1) (C.stored status.old) (C.stored status.new) }
    ensures room { C.room status.old ≤ C.room status.new }
{
    let stands = |other: ActiveEdge| -> Ordering
        requires right { other.edge.x0 <ℤ other.edge.x1 }
        requires ending_right { ending.edge.x0 <ℤ ending.edge.x1 }
        ensures { result ≡ cmp_to_ending ending other }
    { compare_to_ending(other, ending) };
    let (below, above) = status.neighbours_by(ending.edge.x1 as i64, stands);
    check_neighbours(below, above)
}

/// Puts the edge that begins where it stands, and checks it with the two between which that is.
fn begin<C: StatusCollection<ActiveEdge, i64, ()>>(
    status: &mut C,
    beginning: ActiveEdge,
) -> Result<(), LocateFault>
    requires right { beginning.edge.x0 <ℤ beginning.edge.x1 }
    requires sorted { IsSortedAt beginning.edge.x0 (live_entries beginning.edge.x0 (C.stored status.old)) }
    requires last { All (λ entry. BeganBefore entry.0 beginning)
        (live_entries beginning.edge.x0 (C.stored status.old)) }
    ensures ok { OnOk result (
        (found : Option Entry × Option Entry)
        × AreNeighbours (λ other. cmp_active other beginning)
        (live_entries beginning.edge.x0 (C.stored status.old)) found
        × NotCross found.0 (Some (beginning, tt)) × NotCross (Some (beginning, tt)) found.1
        × JoinsAt beginning.edge.x0 (beginning, tt) (C.stored status.old) (C.stored status.new)) }
    ensures crossing { (i j : ℕ) → result ≡ Err (LocateFault.Cross i j) →
        HaveCrossing ((beginning, tt) ∷ live_entries beginning.edge.x0 (C.stored status.old)) i j }
    ensures with_room { length (C.stored status.old) < C.room status.old → (cause : Refusal) →
        result ≢ Err (LocateFault.Refused cause) }
    ensures handles { C.has_handles (length (C.stored status.old) + 1) → (cause : Refusal) →
        result ≡ Err (LocateFault.Refused cause) → cause ≡ OutOfMemory }
    ensures room { C.room status.old ≤ C.room status.new }
{
    let stands = |other: ActiveEdge| -> Ordering
        requires begun { other.edge.x0 ≤ℤ beginning.edge.x0 }
        requires beginning_right { beginning.edge.x0 <ℤ beginning.edge.x1 }
        ensures { result ≡ cmp_active other beginning }
    { compare_to_beginning(other, beginning) };
    let (below, above) = insert_where(status, beginning, stands)?;
    let begun = Some((beginning, ()));
    check_neighbours(below, begun)?;
    check_neighbours(begun, above)
}

/// Whether two neighbours, where both are there, don't cross. They stand in order, so that the one isn't above the other where
/// they begin to share an x.
#[inline]
fn check_neighbours(
    below: Option<(ActiveEdge, ())>,
    above: Option<(ActiveEdge, ())>,
) -> Result<(), LocateFault>
    requires order { AreInOrder below above }
    ensures ok { OnOk result (NotCross below above) }
    ensures crossing { (i j : ℕ) → result ≡ Err (LocateFault.Cross i j) → AreCrossing below above i j }
    ensures never_refused { (cause : Refusal) → result ≢ Err (LocateFault.Refused cause) }
{
    let (Some((below, _)), Some((above, _))) = (below, above) else {
        return Ok(());
    };
    if compare_ends(below.edge, above.edge) != Ordering::Greater {
        return Ok(());
    }
    check_crossing(below, above)
}

/// Whether two edges don't cross. It is asked of few neighbours.
#[cold]
#[inline(never)]
fn check_crossing(below: ActiveEdge, above: ActiveEdge) -> Result<(), LocateFault>
    ensures ok { OnOk result (¬ (Cross below.edge above.edge)) }
    ensures crossing { (i j : ℕ) → result ≡ Err (LocateFault.Cross i j) → ArePlacesOfCrossing below above i j }
    ensures never_refused { (cause : Refusal) → result ≢ Err (LocateFault.Refused cause) }
{
    if cross(below.edge, above.edge) {
        let first = below.place.min(above.place);
        let second = below.place.max(above.place);
        return Err(LocateFault::Cross(first, second));
    }
    Ok(())
}

/// The place of the last edge of those that are live at the point's x whose height there is at most the point's.
fn place_below<C: StatusCollection<ActiveEdge, i64, ()>>(
    status: &mut C,
    point: Point,
) -> Option<usize>
    requires { IsSortedAt point.x (live_entries point.x (C.stored status.old)) }
    ensures value { IsPlaceUnder point (live_entries point.x (C.stored status.old)) result }
    ensures kept { Without (IsExpiredAt point.x) (C.stored status.old) (C.stored status.new) }
    ensures room { C.room status.old ≤ C.room status.new }
{
    let stands = |active: ActiveEdge| -> Ordering
        ensures { result ≡ cmp_to_point point active }
    { compare_to_point(active.edge, point) };
    let (below, _) = status.neighbours_by(point.x as i64, stands);
    match below {
        Some((active, _)) => Some(active.place),
        None => None,
    }
}
