//! Polygons of several windows, joined, worked by hand.

use crate::worked::{points_of, window_of};
use overlay::{Polygons, Rings};
use plane::point::Point;
use std::alloc::Global;
use std::test::Fail;
use tiles::{JoinFault, Tiles, Window, join};

// Polygons: points, and where rings and polygons stop.
type Told = (&'static [(i32, i32)], &'static [usize], &'static [usize]);

// Two windows, the polygons of both, where those of each stop, and what they are joined to. The order of rings and points is open.
struct Row {
    name: &'static str,
    windows: [[i32; 4]; 2],
    tile_ends: [usize; 2],
    given: Told,
    wanted: Result<Told, JoinFault>,
}

const LEFT: [i32; 4] = [0, 0, 10, 10];

const RIGHT: [i32; 4] = [10, 0, 20, 10];

static ROWS: [Row; 8] = [
    Row {
        name: "a border goes, and what comes to none is copied",
        windows: [LEFT, RIGHT],
        tile_ends: [2, 3],
        given: (
            &[
                (2, 2),
                (4, 2),
                (4, 4),
                (5, 5),
                (10, 5),
                (10, 8),
                (5, 8),
                (10, 5),
                (15, 5),
                (15, 8),
                (10, 8),
            ],
            &[3, 7, 11],
            &[1, 2, 3],
        ),
        wanted: Ok((
            &[(5, 5), (15, 5), (15, 8), (5, 8), (2, 2), (4, 2), (4, 4)],
            &[4, 7],
            &[1, 2],
        )),
    },
    Row {
        name: "nothing",
        windows: [LEFT, RIGHT],
        tile_ends: [0, 0],
        given: (&[], &[], &[]),
        wanted: Ok((&[], &[], &[])),
    },
    Row {
        name: "a polygon is of no window",
        windows: [LEFT, RIGHT],
        tile_ends: [0, 0],
        given: (&[(2, 2), (4, 2), (4, 4)], &[3], &[1]),
        wanted: Err(JoinFault::Lengths),
    },
    Row {
        name: "a ring is of no polygon",
        windows: [LEFT, RIGHT],
        tile_ends: [1, 1],
        given: (&[(2, 2), (4, 2), (4, 4)], &[3, 3], &[1]),
        wanted: Err(JoinFault::Lengths),
    },
    Row {
        name: "a window has no points",
        windows: [LEFT, [10, 0, 10, 10]],
        tile_ends: [0, 0],
        given: (&[], &[], &[]),
        wanted: Err(JoinFault::Empty),
    },
    Row {
        name: "two windows share a strip",
        windows: [LEFT, [9, 0, 20, 10]],
        tile_ends: [0, 0],
        given: (&[], &[], &[]),
        wanted: Err(JoinFault::Overlap),
    },
    Row {
        name: "a polygon leaves its window",
        windows: [LEFT, RIGHT],
        tile_ends: [1, 1],
        given: (&[(2, 2), (11, 2), (4, 4)], &[3], &[1]),
        wanted: Err(JoinFault::Outside),
    },
    Row {
        name: "a polygon at the border stands twice",
        windows: [LEFT, RIGHT],
        tile_ends: [2, 2],
        given: (
            &[(0, 2), (4, 2), (4, 4), (0, 2), (4, 2), (4, 4)],
            &[3, 6],
            &[1, 2],
        ),
        wanted: Err(JoinFault::Covered),
    },
];

fn has_points(points: &[Point], wanted: &[Point]) -> bool {
    points == wanted
}

fn have_ends(ends: &[usize], wanted: &[usize]) -> bool {
    ends == wanted
}

fn is_told(alloc: Global, row: &Row) -> Result<bool, Fail> {
    let points = points_of(alloc, row.given.0)?;
    let windows: [Window; 2] = [window_of(row.windows[0]), window_of(row.windows[1])];
    let tile_ends = row.tile_ends;
    let tiles = Tiles {
        windows: &windows,
        tile_ends: &tile_ends,
        polygon_ends: row.given.2,
        rings: Rings {
            points: &points,
            ends: row.given.1,
        },
    };
    let mut out = Polygons::new(alloc);
    let outcome = join(tiles, &mut out);
    let (wanted, told): (Told, Result<(), JoinFault>) = match row.wanted {
        Ok(told) => (told, Ok(())),
        Err(fault) => ((&[], &[], &[]), Err(fault)),
    };
    let corners = points_of(alloc, wanted.0)?;
    Ok(
        outcome == told
            && has_points(&out.points, &corners)
            && have_ends(&out.ring_ends, wanted.1)
            && have_ends(&out.polygon_ends, wanted.2),
    )
}

#[test]
fn rows(rt: HostRuntime) -> Result<(), Fail> {
    for row in &ROWS {
        assert!(rt; is_told(rt.alloc(), row)?, "{}", row.name);
    }
    Ok(())
}
