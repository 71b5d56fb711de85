//! Rings and the polygons of their overlay, as shapely tells them; ends that are none; and each request for memory refused in turn.

use crate::filled::{ROWS, Row};
use crate::walks::Regions;
use i_tree::Refusal;
use monotone_chains::{overlay, simplify};
use overlay::fill::Choice;
use overlay::{FillRule, Operation, OverlayFault, Polygons, Rings};
use plane::point::Point;
use std::alloc::{AllocError, Allocator, Global};
use std::test::Fail;
use test_kit::Refusing;
use test_kit::in_turn::{Trial, refuse_in_turn};

// Appends the points of each ring, and where it stops.
fn push_rings<A: Allocator>(
    rings: &[&[[i32; 2]]],
    points: &mut Vec<Point, A>,
    ends: &mut Vec<usize, A>,
) -> Result<(), AllocError> {
    for ring in rings {
        push_points(ring, points)?;
        ends.push(points.len())?;
    }
    Ok(())
}

fn push_points<A: Allocator>(
    ring: &[[i32; 2]],
    points: &mut Vec<Point, A>,
) -> Result<(), AllocError> {
    for [x, y] in ring {
        points.push(Point { x: *x, y: *y })?;
    }
    Ok(())
}

// Polygons by the points of their rings.
fn polygons_of(alloc: Global, polygons: &[&[&[[i32; 2]]]]) -> Result<Polygons<Global>, AllocError> {
    let mut wanted = Polygons::new(alloc);
    for rings in polygons {
        push_rings(rings, &mut wanted.points, &mut wanted.ring_ends)?;
        wanted.polygon_ends.push(wanted.ring_ends.len())?;
    }
    Ok(wanted)
}

// Appends the overlay of the regions' rings.
fn overlay_regions<A: Allocator + Copy>(
    alloc: Global,
    regions: Regions,
    out: &mut Polygons<A>,
) -> Result<Result<(), OverlayFault>, AllocError> {
    let mut points = Vec::new(alloc);
    let mut ends = Vec::new(alloc);
    push_rings(regions.subject, &mut points, &mut ends)?;
    let mut clip_points = Vec::new(alloc);
    let mut clip_ends = Vec::new(alloc);
    push_rings(regions.clip, &mut clip_points, &mut clip_ends)?;
    let subject = Rings {
        points: &points,
        ends: &ends,
    };
    let clip = Rings {
        points: &clip_points,
        ends: &clip_ends,
    };
    let Choice { rule, operation } = regions.choice;
    Ok(overlay(subject, clip, rule, operation, out))
}

// Whether for each choice of the row these are the polygons.
fn is_overlaid(alloc: Global, row: &Row) -> Result<bool, Fail> {
    for (choice, _, polygons) in row.answers {
        let wanted = polygons_of(alloc, polygons)?;
        let mut told = Polygons::new(alloc);
        let outcome = overlay_regions(alloc, row.regions(*choice), &mut told)?;
        if outcome != Ok(()) || !are_same(&told, &wanted) {
            return Ok(false);
        }
    }
    Ok(true)
}

fn are_same(told: &Polygons<Global>, wanted: &Polygons<Global>) -> bool {
    let same_rings = told.points == wanted.points && told.ring_ends == wanted.ring_ends;
    same_rings && told.polygon_ends == wanted.polygon_ends
}

#[test]
fn rings_are_overlaid_as_shapely_tells(rt: HostRuntime) -> Result<(), Fail> {
    for row in &ROWS {
        assert!(rt; is_overlaid(rt.alloc(), row)?, "{}", row.name);
    }
    Ok(())
}

// The lower side of a ring, which goes up and down in 250 steps to the right: its points from this one on.
fn push_steps(left: i32, low: i32, from: i32, points: &mut Vec<Point>) -> Result<(), AllocError> {
    for step in from..251i32 {
        points.push(Point {
            x: left.saturating_add(step.saturating_mul(3)),
            y: low.saturating_add(step % 2),
        })?;
    }
    Ok(())
}

// Appends the union of two rings with such sides, the one with a hole. The one's right side ends the other's 217th step.
fn overlay_steps<A: Allocator + Copy>(
    alloc: Global,
    out: &mut Polygons<A>,
) -> Result<Result<(), OverlayFault>, AllocError> {
    let mut points = Vec::new(alloc);
    push_steps(0, 0, 0, &mut points)?;
    push_points(&[[750, 50], [0, 50]], &mut points)?;
    let outer = points.len();
    push_points(HOLE, &mut points)?;
    let mut clip_points = Vec::new(alloc);
    push_steps(99, 30, 0, &mut clip_points)?;
    push_points(&[[849, 80], [99, 80]], &mut clip_points)?;
    let subject = Rings {
        points: &points,
        ends: &[outer, points.len()],
    };
    let clip = Rings {
        points: &clip_points,
        ends: &[clip_points.len()],
    };
    Ok(overlay(subject, clip, FillRule::NonZero, Operation::Union, out))
}

// Its one polygon.
fn stepped_polygon(alloc: Global) -> Result<Polygons<Global>, AllocError> {
    let mut wanted = Polygons::new(alloc);
    push_steps(0, 0, 0, &mut wanted.points)?;
    push_steps(99, 30, 217, &mut wanted.points)?;
    push_rings(
        &[&[[849, 80], [99, 80], [99, 50], [0, 50]], HOLE],
        &mut wanted.points,
        &mut wanted.ring_ends,
    )?;
    wanted.polygon_ends.push(2)?;
    Ok(wanted)
}

// Runs clockwise.
const HOLE: &[[i32; 2]] = &[[300, 10], [300, 20], [310, 20], [310, 10]];

#[test]
fn sides_of_many_steps_keep_their_points(rt: HostRuntime) -> Result<(), Fail> {
    let mut told = Polygons::new(rt.alloc());
    let outcome = overlay_steps(rt.alloc(), &mut told)?;
    assert_eq!(rt; outcome, Ok(()));
    assert!(rt; are_same(&told, &stepped_polygon(rt.alloc())?));
    Ok(())
}

// The rings of a square and a point, by where they would stop.
static ENDS: [(&[usize], bool); 6] = [
    (&[4, 5], true),
    (&[0, 4, 4, 5], true),
    (&[4], true),
    (&[4, 3], false),
    (&[6], false),
    (&[5, 4], false),
];

#[test]
fn ends_are_tested(rt: HostRuntime) -> Result<(), Fail> {
    let corners = [[0, 0], [2, 0], [2, 2], [0, 2], [7, 7]];
    let mut points = Vec::new(rt.alloc());
    push_points(&corners, &mut points)?;
    for (ends, are_right) in &ENDS {
        let rings = Rings {
            points: &points,
            ends: *ends,
        };
        let mut out = Polygons::new(rt.alloc());
        let outcome = simplify(rings, FillRule::NonZero, &mut out);
        let wanted = if *are_right {
            Ok(())
        } else {
            Err(OverlayFault::Lengths)
        };
        assert!(rt; outcome == wanted && out.polygon_ends.is_empty() != *are_right);
    }
    Ok(())
}

// The polygons behind what was there.
#[derive(Drop)]
struct Overlaid<'a> {
    out: Polygons<&'a Refusing<Global>>,
    outcome: Option<Result<(), OverlayFault>>,
}

#[derive(Drop)]
struct Overlaying<'a> {
    memory: &'a Refusing<Global>,
    alloc: Global,
}

impl<'a> Trial for Overlaying<'a> {
    type State = Overlaid<'a>;

    fn begin(&self) -> Option<Overlaid<'a>> {
        let mut out = Polygons::new(self.memory);
        out.points.push(Point { x: 7, y: 8 }).ok()?;
        out.ring_ends.push(1).ok()?;
        out.polygon_ends.push(1).ok()?;
        Some(Overlaid { out, outcome: None })
    }

    fn call(&self, overlaid: &mut Overlaid<'a>) {
        overlaid.outcome = overlay_steps(self.alloc, &mut overlaid.out).ok();
    }

    // Where room for all was asked in advance and refused, the call may still have found room for each.
    fn is_refused(&self, overlaid: &mut Overlaid<'a>, _nth: u64) -> bool {
        let done = self.is_done(overlaid);
        if done {
            overlaid.out.points.truncate(1);
            overlaid.out.ring_ends.truncate(1);
            overlaid.out.polygon_ends.truncate(1);
        }
        let refused = overlaid.outcome == Some(Err(OverlayFault::Refused(Refusal::OutOfMemory)));
        let kept = overlaid.out.points.len() == 1
            && overlaid.out.ring_ends.as_slice() == [1].as_slice();
        (done || refused) && kept && overlaid.out.polygon_ends.as_slice() == [1].as_slice()
    }

    fn is_done(&self, overlaid: &mut Overlaid<'a>) -> bool {
        let out = &overlaid.out;
        let is_whole = out.points.len() == 294
            && out.ring_ends.len() == 3
            && out.polygon_ends.len() == 2;
        overlaid.outcome == Some(Ok(())) && is_whole
    }
}

#[test]
fn keeps_what_was_there_at_each_refusal(rt: HostRuntime) -> Result<(), Fail> {
    let memory = Refusing::new(rt.alloc());
    let overlaying = Overlaying {
        memory: &memory,
        alloc: rt.alloc(),
    };
    assert!(rt; refuse_in_turn(&memory, &overlaying).is_ok_and(|requests| requests > 20));
    Ok(())
}
