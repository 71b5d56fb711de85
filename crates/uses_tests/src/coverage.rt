//! Gaps and overlaps of parts.

use overlay::{Point, Polygons, Rings};
use std::alloc::Global;
use std::test::Fail;
use uses::coverage::coverage_of;

const WHOLE: [(i32, i32); 4] = [(0, 0), (9, 0), (9, 6), (0, 6)];

// The second part overlaps the first one from 3 to 6, and within that the third part overlaps both.
const PARTS: [(i32, i32); 12] = [
    (0, 0),
    (6, 0),
    (6, 6),
    (0, 6),
    (3, 0),
    (8, 0),
    (8, 6),
    (3, 6),
    (4, 2),
    (5, 2),
    (5, 4),
    (4, 4),
];

const GAP: [(i32, i32); 4] = [(8, 0), (9, 0), (9, 6), (8, 6)];

// Where all three parts are is a hole.
const OVERLAP: [(i32, i32); 8] = [
    (3, 0),
    (6, 0),
    (6, 6),
    (3, 6),
    (4, 2),
    (4, 4),
    (5, 4),
    (5, 2),
];

fn point_at(at: (i32, i32)) -> Point {
    let (x, y) = at;
    Point { x, y }
}

// Whether it is one polygon of these rings.
fn is_one(polygons: &Polygons<Global>, points: &[Point], ends: &[usize]) -> bool {
    let rings = polygons.points.as_slice() == points && polygons.ring_ends.as_slice() == ends;
    rings && polygons.polygon_ends.as_slice() == [ends.len()].as_slice()
}

#[test]
fn tells_gaps_and_overlaps(rt: HostRuntime) -> Result<(), Fail> {
    let whole = Rings {
        points: &WHOLE.map(point_at),
        ends: &[4],
    };
    let parts = Rings {
        points: &PARTS.map(point_at),
        ends: &[4, 8, 12],
    };
    let coverage = coverage_of(rt.alloc(), whole, parts)?;
    assert!(rt; is_one(&coverage.gaps, &GAP.map(point_at), &[4]));
    assert!(rt; is_one(&coverage.overlaps, &OVERLAP.map(point_at), &[4, 8]));
    Ok(())
}
