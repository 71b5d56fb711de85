//! `itree_locate`: which edge lies straight below points, by a sweep over edges that don't cross.

ghost use Rattle.std.specs.Prelude.{◌≡◌, ◌≢◌, ◌↔◌, ℕ, length, map, IfOk};
ghost use Rattle.std.specs.List.{AllZip};
ghost use Rattle.plane.specs.Locate.Answers.{IsPlaceBelow};
ghost use Rattle.plane.specs.SweepLine.Crossings.{IsCrossing, NoneCross};
ghost use Rattle.itree_c.specs.Places.{ArePlaces, place_of};
ghost use Rattle.itree_c.specs.Status.{IsStatus};
ghost use Rattle.itree_c.specs.declared.status.TheConstants.{ANSWERED, REFUSED, CROSSING, LENGTHS};

use crate::status::{ANSWERED, CROSSING, LENGTHS, REFUSED};
use i_tree::status::tree::StatusTree;
use plane::edge::Edge;
use plane::locate::{LocateFault, Point, locate};
use std::alloc::Global;

/// The edge straight below a point: `found` is 1 and `place` its place among the edges, or both are 0 where there is none.
#[repr(C)]
#[derive(Clone, Copy)]
pub struct Place {
    pub found: usize,
    pub place: usize,
}

/// Writes for each of the points, in order, the place of the edge straight below it.
///
/// The status is `ANSWERED` (0), and no two edges cross; `REFUSED` (1) where memory was refused, or where more edges than
/// there are handles are met at once; `CROSSING` (6) where two cross, and then `first` and `second` are the places of two
/// that do, the lesser first; `LENGTHS` (3) where there are not as many places as points. Only at `ANSWERED` are places
/// written, and only at `CROSSING` the pair. Which edge lies straight below a point, which edges cross, and what it costs,
/// is said at `locate` of `plane`.
#[unsafe(no_mangle)]
pub extern "C" fn itree_locate(
    alloc: Global,
    edges: &[Edge],
    points: &[Point],
    places: &mut [Place],
    first: &mut usize,
    second: &mut usize,
) -> i32
    ensures answered { result ≡ ANSWERED → NoneCross edges.now × ArePlaces edges.now points.now places.new }
    ensures crossing { result ≡ CROSSING → IsCrossing edges.now first.new second.new }
    ensures lengths { (result ≡ LENGTHS) ↔ (length places.old ≢ length points.now) }
    ensures kept { result ≢ ANSWERED → places.new ≡ places.old }
    ensures pair { result ≢ CROSSING → (first.new ≡ first.old) × (second.new ≡ second.old) }
    ensures status { IsStatus CROSSING result }
{
    if places.len() != points.len() {
        return LENGTHS;
    }
    match places_below(alloc, edges, points) {
        Ok(found) => {
            write_places(&found, places);
            ANSWERED
        }
        Err(LocateFault::Refused(_)) => REFUSED,
        Err(LocateFault::Cross(one, other)) => {
            *first = one;
            *second = other;
            CROSSING
        }
    }
}

// The sweep's own answers, over a status that is made for it.
fn places_below(
    alloc: Global,
    edges: &[Edge],
    points: &[Point],
) -> Result<Vec<Option<usize>>, LocateFault>
    ensures ok { IfOk result (λ found.
        NoneCross edges.now × AllZip (IsPlaceBelow edges.now) points.now found.items) }
    ensures crossing { (i j : ℕ) → result ≡ Err (LocateFault.Cross i j) → IsCrossing edges.now i j }
{
    let mut status = StatusTree::new(alloc, 0)?;
    let mut found = Vec::new(alloc);
    locate(&mut status, edges, points, &mut found)?;
    Ok(found)
}

// Writes each answer at its place.
fn write_places(found: &[Option<usize>], places: &mut [Place])
    requires { length found.now ≡ length places.old }
    ensures { places.new ≡ map place_of found.now }
{
    for (place, answer) in found.iter().enumerate() {
        places[place] = written(*answer);
    }
}

// A place as it is written.
fn written(answer: Option<usize>) -> Place
    ensures { result ≡ place_of answer }
{
    match answer {
        Some(place) => Place { found: 1, place },
        None => Place { found: 0, place: 0 },
    }
}
