//! Rings that are cropped to a window, worked by hand.

use plane::point::Point;
use std::alloc::Global;
use std::test::Fail;
use tiles::{CropFault, Window, crop};

// A window, a ring, and the points that the ring becomes for the window.
struct Row {
    name: &'static str,
    window: [i32; 4],
    ring: &'static [(i32, i32)],
    wanted: Result<&'static [(i32, i32)], CropFault>,
}

const LEAST: i32 = i32::MIN;

const MOST: i32 = i32::MAX;

static ROWS: [Row; 14] = [
    Row {
        name: "a ring in the window stays as it is",
        window: [0, 0, 10, 10],
        ring: &[(1, 1), (9, 1), (5, 8)],
        wanted: Ok(&[(1, 1), (9, 1), (5, 8)]),
    },
    Row {
        name: "points that repeat go",
        window: [0, 0, 10, 10],
        ring: &[(1, 1), (1, 1), (9, 1), (5, 8), (5, 8), (1, 1)],
        wanted: Ok(&[(1, 1), (9, 1), (5, 8)]),
    },
    Row {
        name: "a ring round the window becomes the corners of the widened window",
        window: [0, 0, 10, 10],
        ring: &[(-50, -50), (50, -50), (50, 50), (-50, 50)],
        wanted: Ok(&[(-2, -2), (12, -2), (12, 12), (-2, 12)]),
    },
    Row {
        name: "the other way round too",
        window: [0, 0, 10, 10],
        ring: &[(-50, -50), (-50, 50), (50, 50), (50, -50)],
        wanted: Ok(&[(-2, -2), (-2, 12), (12, 12), (12, -2)]),
    },
    Row {
        name: "a ring to the right becomes nothing",
        window: [0, 0, 10, 10],
        ring: &[(100, 0), (120, 5), (110, 30)],
        wanted: Ok(&[]),
    },
    Row {
        name: "a ring above becomes nothing",
        window: [0, 0, 10, 10],
        ring: &[(-90, 13), (90, 14), (3, 15), (4, 16)],
        wanted: Ok(&[]),
    },
    Row {
        name: "a ring far below becomes nothing, though its edges run under the window",
        window: [0, 0, 10, 10],
        ring: &[(-90, -2), (90, -3), (3, -70)],
        wanted: Ok(&[]),
    },
    Row {
        name: "edges that aren't beyond one side stay as they are",
        window: [0, 0, 10, 10],
        ring: &[(-20, 5), (30, 5), (5, 60)],
        wanted: Ok(&[(-20, 5), (30, 5), (5, 60)]),
    },
    Row {
        name: "two edges below the window, and two that reach into it",
        window: [0, 0, 10, 10],
        ring: &[(-20, -20), (30, -25), (40, -30), (5, 5)],
        wanted: Ok(&[(-2, -2), (12, -2), (40, -30), (5, 5), (-20, -20)]),
    },
    Row {
        name: "an edge on the line of the margin isn't beyond it",
        window: [0, 0, 10, 10],
        ring: &[(-50, -2), (50, -2), (5, 5)],
        wanted: Ok(&[(-50, -2), (50, -2), (5, 5)]),
    },
    Row {
        name: "a single point and no point become nothing",
        window: [0, 0, 10, 10],
        ring: &[(3, 3)],
        wanted: Ok(&[]),
    },
    Row {
        name: "no point lies in a window without width",
        window: [5, 0, 5, 10],
        ring: &[(1, 1)],
        wanted: Err(CropFault::Empty),
    },
    Row {
        name: "the margin leaves 32 bits",
        window: [0, LEAST + 1, 10, 10],
        ring: &[(1, 1)],
        wanted: Err(CropFault::Margin),
    },
    Row {
        name: "the greatest window",
        window: [LEAST + 2, LEAST + 2, MOST - 2, MOST - 2],
        ring: &[(LEAST, LEAST), (MOST, LEAST), (MOST, MOST)],
        wanted: Ok(&[(LEAST, LEAST), (MOST, LEAST), (MOST, MOST)]),
    },
];

/// The point that stands in `out` before a ring is cropped.
pub const EARLIER: Point = Point { x: 77, y: 78 };

/// The window with these sides: left, low, right and high.
pub fn window_of(sides: [i32; 4]) -> Window {
    let [left, low, right, high] = sides;
    Window {
        left,
        low,
        right,
        high,
    }
}

/// The points with these coordinates.
pub fn points_of(alloc: Global, ends: &[(i32, i32)]) -> Result<Vec<Point>, Fail> {
    let mut points = Vec::new(alloc);
    for (x, y) in ends {
        points.push(Point { x: *x, y: *y })?;
    }
    Ok(points)
}

/// Whether the first point is the earlier one, and the others are those.
pub fn has_joined(out: &[Point], wanted: &[Point]) -> bool {
    match out {
        [first, rest @ ..] => *first == EARLIER && rest == wanted,
        [] => false,
    }
}

fn is_told(alloc: Global, row: &Row) -> Result<bool, Fail> {
    let ring = points_of(alloc, row.ring)?;
    let mut out = Vec::new(alloc);
    out.push(EARLIER)?;
    let outcome = crop(&ring, window_of(row.window), &mut out);
    match row.wanted {
        Ok(wanted) => {
            let points = points_of(alloc, wanted)?;
            Ok(outcome == Ok(()) && has_joined(&out, &points))
        }
        Err(fault) => Ok(outcome == Err(fault) && has_joined(&out, &[])),
    }
}

#[test]
fn rings_are_cropped_as_worked_by_hand(rt: HostRuntime) -> Result<(), Fail> {
    for row in &ROWS {
        assert!(rt; is_told(rt.alloc(), row)?, "{}", row.name);
    }
    Ok(())
}
