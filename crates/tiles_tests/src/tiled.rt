//! Overlays within a window, worked by hand.

use crate::worked::{points_of, window_of};
use overlay::{FillRule, Operation, Polygons, Rings};
use plane::point::Point;
use std::alloc::Global;
use std::test::Fail;
use tiles::{TileFault, overlay_in};

// The polygons of a tile: points, and where rings and polygons stop.
type Told = (&'static [(i32, i32)], &'static [usize], &'static [usize]);

// A window, a ring and a clip, and what their difference is within the window. The order of rings and points is open.
struct Row {
    name: &'static str,
    window: [i32; 4],
    ring: &'static [(i32, i32)],
    clip: &'static [(i32, i32)],
    end: usize,
    wanted: Result<Told, TileFault>,
}

const AROUND: &[(i32, i32)] = &[(-50, -50), (50, -50), (50, 50), (-50, 50)];

static ROWS: [Row; 7] = [
    Row {
        name: "a square is cut by the window",
        window: [0, 0, 10, 10],
        ring: &[(5, 5), (20, 5), (20, 20), (5, 20)],
        clip: &[],
        end: 4,
        wanted: Ok((&[(5, 5), (10, 5), (10, 10), (5, 10)], &[4], &[1])),
    },
    Row {
        name: "a ring round the window gives its corners",
        window: [0, 0, 10, 10],
        ring: AROUND,
        clip: &[],
        end: 4,
        wanted: Ok((&[(0, 0), (10, 0), (10, 10), (0, 10)], &[4], &[1])),
    },
    Row {
        name: "nothing lies inside",
        window: [0, 0, 10, 10],
        ring: &[(20, 20), (30, 20), (30, 30)],
        clip: &[],
        end: 3,
        wanted: Ok((&[], &[], &[])),
    },
    Row {
        name: "a hole",
        window: [0, 0, 10, 10],
        ring: AROUND,
        clip: &[(3, 3), (6, 3), (6, 6), (3, 6)],
        end: 4,
        wanted: Ok((
            &[
                (0, 0),
                (10, 0),
                (10, 10),
                (0, 10),
                (3, 3),
                (3, 6),
                (6, 6),
                (6, 3),
            ],
            &[4, 8],
            &[2],
        )),
    },
    Row {
        name: "a ring stops behind the points, and the window is empty",
        window: [5, 0, 5, 10],
        ring: AROUND,
        clip: &[],
        end: 5,
        wanted: Err(TileFault::Lengths),
    },
    Row {
        name: "no point lies in a window without width",
        window: [5, 0, 5, 10],
        ring: AROUND,
        clip: &[],
        end: 4,
        wanted: Err(TileFault::Empty),
    },
    Row {
        name: "the margin leaves 32 bits",
        window: [0, i32::MIN + 1, 10, 10],
        ring: AROUND,
        clip: &[],
        end: 4,
        wanted: Err(TileFault::Margin),
    },
];

fn has_points(points: &[Point], wanted: &[Point]) -> bool {
    points == wanted
}

fn have_ends(ends: &[usize], wanted: &[usize]) -> bool {
    ends == wanted
}

fn is_told(alloc: Global, row: &Row) -> Result<bool, Fail> {
    let points = points_of(alloc, row.ring)?;
    let clip_points = points_of(alloc, row.clip)?;
    let mut out = Polygons::new(alloc);
    let outcome = overlay_in(
        window_of(row.window),
        Rings {
            points: &points,
            ends: &[row.end],
        },
        Rings {
            points: &clip_points,
            ends: &[row.clip.len()],
        },
        FillRule::NonZero,
        Operation::Difference,
        &mut out,
    );
    let (wanted, told): (Told, Result<(), TileFault>) = match row.wanted {
        Ok(told) => (told, Ok(())),
        Err(fault) => ((&[], &[], &[]), Err(fault)),
    };
    let corners = points_of(alloc, wanted.0)?;
    Ok(
        outcome == told
            && has_points(&out.points, &corners)
            && have_ends(&out.ring_ends, wanted.1)
            && have_ends(&out.polygon_ends, wanted.2),
    )
}

#[test]
fn tiles_are_as_worked_by_hand(rt: HostRuntime) -> Result<(), Fail> {
    for row in &ROWS {
        assert!(rt; is_told(rt.alloc(), row)?, "{}", row.name);
    }
    Ok(())
}
