//! `itree_polygons_fault`: whether polygons are valid, or what is wrong with them, and where.

ghost use Rattle.std.specs.Prelude.{◌≡◌, ◌≢◌, ◌↔◌, ◌⊎◌, Err, IfOk};
ghost use Rattle.validity.specs.Given.{HasPolygons};
ghost use Rattle.validity.specs.declared.unchecked.Unchecked.TheVariants.{Lengths};
ghost use Rattle.itree_c.specs.Faults.{TellsFault, at_edges, at_point, place_of_fault, place_of_some};
ghost use Rattle.itree_c.specs.declared.status.TheConstants.{ANSWERED, REFUSED, LENGTHS};

use crate::status::{ANSWERED, LENGTHS, REFUSED};
use overlay::Rings;
use plane::edge::Edge;
use plane::point::Point;
use std::alloc::Global;
use validity::{Fault, PolygonSet, Unchecked, first_fault};

/// Nothing is wrong.
pub const VALID: usize = 0;

/// A ring has fewer than three points.
pub const FEW_POINTS: usize = 1;

/// A ring crosses or touches itself.
pub const MEETS_ITSELF: usize = 2;

/// Two rings cross, or share more than single points.
pub const RINGS_CROSS: usize = 3;

/// A hole lies outside of its outer ring, or in another hole.
pub const HOLES_OUTSIDE: usize = 4;

/// Two polygons overlap.
pub const POLYGONS_OVERLAP: usize = 5;

/// The inside of a polygon is no one piece.
pub const DISCONNECTED: usize = 6;

// `itree.h` has these numbers.
const _: () = prove!(VALID == 0 && FEW_POINTS == 1 && MEETS_ITSELF == 2 && RINGS_CROSS == 3);

const _: () = prove!(HOLES_OUTSIDE == 4 && POLYGONS_OVERLAP == 5 && DISCONNECTED == 6);

/// What is wrong with polygons, by its number, and where. What a number doesn't tell is 0.
#[repr(C)]
#[derive(Clone, Copy)]
pub struct FaultPlace {
    pub kind: usize,
    pub polygon: usize,
    pub ring: usize,
    pub point: Point,
    pub one: Edge,
    pub other: Edge,
}

/// Tells whether the polygons are valid, or what is wrong with them, and where.
///
/// The status is `ANSWERED` (0), and `fault` is written; `REFUSED` (1) where memory was refused; or `LENGTHS` (3) where a ring or
/// a polygon stops before it begins, or rings stop behind the points, or a ring is of no polygon. The kind of the fault is `VALID`
/// (0) where the polygons are valid, and else the number of what is wrong. When polygons are valid is said at `first_fault` of
/// `validity`.
#[unsafe(no_mangle)]
pub extern "C" fn itree_polygons_fault<'a>(
    alloc: Global,
    points: &'a [Point],
    ring_ends: &'a [usize],
    polygon_ends: &'a [usize],
    fault: &mut FaultPlace,
) -> i32
    ensures answered { result ≡ ANSWERED → TellsFault (record {
      rings = record { points = points.entry; ends = ring_ends.entry };
      polygon_ends = polygon_ends.entry;
    }) fault.new }
    ensures lengths { (result ≡ LENGTHS) ↔ ¬ (HasPolygons (record {
      rings = record { points = points.entry; ends = ring_ends.entry };
      polygon_ends = polygon_ends.entry;
    })) }
    ensures kept { result ≢ ANSWERED → fault.new ≡ fault.old }
    ensures status { (result ≡ ANSWERED) ⊎ (result ≡ REFUSED) ⊎ (result ≡ LENGTHS) }
{
    let polygons = PolygonSet {
        rings: Rings {
            points,
            ends: ring_ends,
        },
        polygon_ends,
    };
    match told_fault(alloc, polygons) {
        Ok(told) => {
            *fault = told;
            ANSWERED
        }
        Err(Unchecked::Lengths) => LENGTHS,
        Err(Unchecked::OutOfMemory) => REFUSED,
    }
}

// What is wrong with the polygons, as it is written.
fn told_fault(alloc: Global, polygons: PolygonSet) -> Result<FaultPlace, Unchecked>
    ensures ok { IfOk result (TellsFault polygons.entry) }
    ensures lengths { (result ≡ Err Lengths) ↔ ¬ (HasPolygons polygons.entry) }
{
    let found = first_fault(alloc, polygons)?;
    Ok(place_of(found))
}

// A fault as it is written, or that there is none.
fn place_of(found: Option<Fault>) -> FaultPlace
    ensures { result ≡ place_of_fault found }
{
    match found {
        None => at_point(VALID, 0, 0, Point { x: 0, y: 0 }),
        Some(fault) => place_of_some(fault),
    }
}

// A fault as it is written.
fn place_of_some(fault: Fault) -> FaultPlace
    ensures { result ≡ place_of_some fault }
{
    match fault {
        Fault::FewPoints { ring } => at_point(FEW_POINTS, 0, ring, Point { x: 0, y: 0 }),
        Fault::MeetsItself { ring, one, other } => at_edges(MEETS_ITSELF, ring, one, other),
        Fault::RingsCross { one, other } => at_edges(RINGS_CROSS, 0, one, other),
        Fault::HolesOutside { polygon, point } => at_point(HOLES_OUTSIDE, polygon, 0, point),
        Fault::PolygonsOverlap { point } => at_point(POLYGONS_OVERLAP, 0, 0, point),
        Fault::Disconnected {
            polygon,
            ring,
            point,
        } => at_point(DISCONNECTED, polygon, ring, point),
    }
}

// What is written of a fault that a point tells, or nothing more.
fn at_point(kind: usize, polygon: usize, ring: usize, point: Point) -> FaultPlace
    ensures { result ≡ at_point kind polygon ring point }
{
    FaultPlace {
        kind,
        polygon,
        ring,
        point,
        one: Edge {
            x0: 0,
            y0: 0,
            x1: 0,
            y1: 0,
        },
        other: Edge {
            x0: 0,
            y0: 0,
            x1: 0,
            y1: 0,
        },
    }
}

// What is written of a fault that two edges tell.
fn at_edges(kind: usize, ring: usize, one: Edge, other: Edge) -> FaultPlace
    ensures { result ≡ at_edges kind ring one other }
{
    FaultPlace {
        kind,
        polygon: 0,
        ring,
        point: Point { x: 0, y: 0 },
        one,
        other,
    }
}
