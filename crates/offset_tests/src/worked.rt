//! Polygons that grow and shrink, and lines that grow, worked by hand.

use offset::{Join, MinkowskiFault, erode, grow_lines, minkowski, minkowski_joined};
use overlay::{FillRule, Polygons, Rings};
use plane::point::Point;
use std::alloc::Global;
use std::test::Fail;

// Polygons: points, and where rings and polygons stop.
type Told = (&'static [(i32, i32)], &'static [usize], &'static [usize]);

// What is called.
#[derive(Clone, Copy)]
enum Call {
    Grow,
    Shrink,
    Lines,
    Join(Join),
}

// A shape, rings or lines, and the polygons that they become.
struct Row {
    call: Call,
    name: &'static str,
    shape: &'static [(i32, i32)],
    points: &'static [(i32, i32)],
    ends: &'static [usize],
    wanted: Result<Told, MinkowskiFault>,
}

const SQUARE: &[(i32, i32)] = &[(-2, -2), (2, -2), (2, 2), (-2, 2)];

const UNIT: &[(i32, i32)] = &[(-1, -1), (1, -1), (1, 1), (-1, 1)];

const DIAMOND: &[(i32, i32)] = &[(2, 0), (0, 2), (-2, 0), (0, -2)];

const OCTAGON: &[(i32, i32)] = &[
    (2, -1),
    (2, 1),
    (1, 2),
    (-1, 2),
    (-2, 1),
    (-2, -1),
    (-1, -2),
    (1, -2),
];

const TEN: &[(i32, i32)] = &[(0, 0), (10, 0), (10, 10), (0, 10)];

static ROWS: [Row; 53] = [
    Row {
        call: Call::Grow,
        name: "a square grows by a square",
        shape: SQUARE,
        points: TEN,
        ends: &[4],
        wanted: Ok((&[(-2, -2), (12, -2), (12, 12), (-2, 12)], &[4], &[1])),
    },
    Row {
        call: Call::Grow,
        name: "so it does the other way round",
        shape: SQUARE,
        points: &[(0, 0), (0, 10), (10, 10), (10, 0)],
        ends: &[4],
        wanted: Ok((&[(-2, -2), (12, -2), (12, 12), (-2, 12)], &[4], &[1])),
    },
    Row {
        call: Call::Grow,
        name: "a square grows by a diamond",
        shape: DIAMOND,
        points: TEN,
        ends: &[4],
        wanted: Ok((
            &[
                (-2, 0),
                (0, -2),
                (10, -2),
                (12, 0),
                (12, 10),
                (10, 12),
                (0, 12),
                (-2, 10),
            ],
            &[8],
            &[1],
        )),
    },
    Row {
        call: Call::Grow,
        name: "a hole becomes smaller",
        shape: SQUARE,
        points: &[
            (0, 0),
            (20, 0),
            (20, 20),
            (0, 20),
            (6, 6),
            (6, 14),
            (14, 14),
            (14, 6),
        ],
        ends: &[4, 8],
        wanted: Ok((
            &[
                (-2, -2),
                (22, -2),
                (22, 22),
                (-2, 22),
                (8, 8),
                (8, 12),
                (12, 12),
                (12, 8),
            ],
            &[4, 8],
            &[2],
        )),
    },
    Row {
        call: Call::Grow,
        name: "a hole closes",
        shape: SQUARE,
        points: &[
            (0, 0),
            (20, 0),
            (20, 20),
            (0, 20),
            (8, 8),
            (8, 12),
            (12, 12),
            (12, 8),
        ],
        ends: &[4, 8],
        wanted: Ok((&[(-2, -2), (22, -2), (22, 22), (-2, 22)], &[4], &[1])),
    },
    Row {
        call: Call::Grow,
        name: "two parts become one",
        shape: UNIT,
        points: &[
            (0, 0),
            (4, 0),
            (4, 4),
            (0, 4),
            (6, 0),
            (10, 0),
            (10, 4),
            (6, 4),
        ],
        ends: &[4, 8],
        wanted: Ok((&[(-1, -1), (11, -1), (11, 5), (-1, 5)], &[4], &[1])),
    },
    Row {
        call: Call::Grow,
        name: "two parts stay two",
        shape: UNIT,
        points: &[
            (0, 0),
            (4, 0),
            (4, 4),
            (0, 4),
            (7, 0),
            (11, 0),
            (11, 4),
            (7, 4),
        ],
        ends: &[4, 8],
        wanted: Ok((
            &[
                (-1, -1),
                (5, -1),
                (5, 5),
                (-1, 5),
                (6, -1),
                (12, -1),
                (12, 5),
                (6, 5),
            ],
            &[4, 8],
            &[1, 2],
        )),
    },
    Row {
        call: Call::Grow,
        name: "a corridor closes",
        shape: UNIT,
        points: &[
            (0, 0),
            (10, 0),
            (10, 10),
            (6, 10),
            (6, 4),
            (4, 4),
            (4, 10),
            (0, 10),
        ],
        ends: &[8],
        wanted: Ok((&[(-1, -1), (11, -1), (11, 11), (-1, 11)], &[4], &[1])),
    },
    Row {
        call: Call::Grow,
        name: "an edge there and back is nothing",
        shape: SQUARE,
        points: &[
            (0, 0),
            (10, 0),
            (10, 10),
            (5, 10),
            (5, 20),
            (5, 10),
            (0, 10),
        ],
        ends: &[7],
        wanted: Ok((&[(-2, -2), (12, -2), (12, 12), (-2, 12)], &[4], &[1])),
    },
    Row {
        call: Call::Grow,
        name: "nothing stays nothing",
        shape: SQUARE,
        points: &[],
        ends: &[],
        wanted: Ok((&[], &[], &[])),
    },
    Row {
        call: Call::Grow,
        name: "a ring stops behind the points",
        shape: SQUARE,
        points: TEN,
        ends: &[5],
        wanted: Err(MinkowskiFault::Lengths),
    },
    Row {
        call: Call::Grow,
        name: "a shape runs clockwise",
        shape: &[(-2, -2), (-2, 2), (2, 2), (2, -2)],
        points: TEN,
        ends: &[4],
        wanted: Err(MinkowskiFault::Shape),
    },
    Row {
        call: Call::Grow,
        name: "the origin is on a side of the shape",
        shape: &[(0, -2), (2, -2), (2, 2), (0, 2)],
        points: TEN,
        ends: &[4],
        wanted: Err(MinkowskiFault::Shape),
    },
    Row {
        call: Call::Grow,
        name: "a shape goes round twice",
        shape: &[(-2, -2), (2, -2), (0, 2), (-2, -2), (2, -2), (0, 2)],
        points: TEN,
        ends: &[4],
        wanted: Err(MinkowskiFault::Shape),
    },
    Row {
        call: Call::Grow,
        name: "a corner leaves 32 bits",
        shape: UNIT,
        points: &[(0, 0), (i32::MAX, 0), (i32::MAX, 10)],
        ends: &[3],
        wanted: Err(MinkowskiFault::Range),
    },
    Row {
        call: Call::Shrink,
        name: "a square shrinks by a square",
        shape: SQUARE,
        points: TEN,
        ends: &[4],
        wanted: Ok((&[(2, 2), (8, 2), (8, 8), (2, 8)], &[4], &[1])),
    },
    Row {
        call: Call::Shrink,
        name: "so it does where it runs the other way round",
        shape: SQUARE,
        points: &[(0, 0), (0, 10), (10, 10), (10, 0)],
        ends: &[4],
        wanted: Ok((&[(2, 2), (8, 2), (8, 8), (2, 8)], &[4], &[1])),
    },
    Row {
        call: Call::Shrink,
        name: "a shape reaches further to the right and up",
        shape: &[(-1, -1), (3, -1), (-1, 3)],
        points: TEN,
        ends: &[4],
        wanted: Ok((&[(1, 1), (7, 1), (7, 7), (1, 7)], &[4], &[1])),
    },
    Row {
        call: Call::Shrink,
        name: "a square as wide as the shape shrinks to nothing",
        shape: SQUARE,
        points: &[(0, 0), (4, 0), (4, 4), (0, 4)],
        ends: &[4],
        wanted: Ok((&[], &[], &[])),
    },
    Row {
        call: Call::Shrink,
        name: "a hole becomes larger",
        shape: SQUARE,
        points: &[
            (0, 0),
            (20, 0),
            (20, 20),
            (0, 20),
            (8, 8),
            (8, 12),
            (12, 12),
            (12, 8),
        ],
        ends: &[4, 8],
        wanted: Ok((
            &[
                (2, 2),
                (18, 2),
                (18, 18),
                (2, 18),
                (6, 6),
                (6, 14),
                (14, 14),
                (14, 6),
            ],
            &[4, 8],
            &[2],
        )),
    },
    Row {
        call: Call::Shrink,
        name: "a frame as narrow as the shape goes",
        shape: SQUARE,
        points: &[
            (0, 0),
            (20, 0),
            (20, 20),
            (0, 20),
            (4, 4),
            (4, 16),
            (16, 16),
            (16, 4),
        ],
        ends: &[4, 8],
        wanted: Ok((&[], &[], &[])),
    },
    Row {
        call: Call::Shrink,
        name: "rooms come apart where the corridor is narrow",
        shape: UNIT,
        points: &[
            (0, 0),
            (10, 0),
            (10, 4),
            (20, 4),
            (20, 0),
            (30, 0),
            (30, 10),
            (20, 10),
            (20, 6),
            (10, 6),
            (10, 10),
            (0, 10),
        ],
        ends: &[12],
        wanted: Ok((
            &[
                (1, 1),
                (9, 1),
                (9, 9),
                (1, 9),
                (21, 1),
                (29, 1),
                (29, 9),
                (21, 9),
            ],
            &[4, 8],
            &[1, 2],
        )),
    },
    Row {
        call: Call::Shrink,
        name: "a spike goes",
        shape: UNIT,
        points: &[
            (0, 0),
            (10, 0),
            (10, 10),
            (6, 10),
            (6, 20),
            (5, 20),
            (5, 10),
            (0, 10),
        ],
        ends: &[8],
        wanted: Ok((&[(1, 1), (9, 1), (9, 9), (1, 9)], &[4], &[1])),
    },
    Row {
        call: Call::Shrink,
        name: "a corner is cut off by a diamond",
        shape: DIAMOND,
        points: &[(0, 0), (20, 0), (20, 10), (10, 10), (10, 20), (0, 20)],
        ends: &[6],
        wanted: Ok((
            &[(2, 2), (18, 2), (18, 8), (10, 8), (8, 10), (8, 18), (2, 18)],
            &[7],
            &[1],
        )),
    },
    Row {
        call: Call::Shrink,
        name: "nothing shrinks to nothing",
        shape: SQUARE,
        points: &[],
        ends: &[],
        wanted: Ok((&[], &[], &[])),
    },
    Row {
        call: Call::Shrink,
        name: "a ring that shrinks stops behind the points",
        shape: SQUARE,
        points: TEN,
        ends: &[5],
        wanted: Err(MinkowskiFault::Lengths),
    },
    Row {
        call: Call::Shrink,
        name: "a shape to shrink by runs clockwise",
        shape: &[(-2, -2), (-2, 2), (2, 2), (2, -2)],
        points: TEN,
        ends: &[4],
        wanted: Err(MinkowskiFault::Shape),
    },
    Row {
        call: Call::Shrink,
        name: "the opposite of a shape leaves 32 bits",
        shape: &[(i32::MIN, -1), (1, -1), (1, 1)],
        points: TEN,
        ends: &[4],
        wanted: Err(MinkowskiFault::Range),
    },
    Row {
        call: Call::Shrink,
        name: "a corner of the curve within leaves 32 bits",
        shape: &[(-1, -2147483000), (1, -2147483000), (1, 1), (-1, 1)],
        points: &[(0, 0), (10, 0), (10, 1000), (0, 1000)],
        ends: &[4],
        wanted: Err(MinkowskiFault::Range),
    },
    Row {
        call: Call::Lines,
        name: "a line grows by a square",
        shape: SQUARE,
        points: &[(0, 0), (10, 0)],
        ends: &[2],
        wanted: Ok((&[(-2, -2), (12, -2), (12, 2), (-2, 2)], &[4], &[1])),
    },
    Row {
        call: Call::Lines,
        name: "a line grows by a diamond",
        shape: DIAMOND,
        points: &[(0, 0), (10, 0)],
        ends: &[2],
        wanted: Ok((
            &[(-2, 0), (0, -2), (10, -2), (12, 0), (10, 2), (0, 2)],
            &[6],
            &[1],
        )),
    },
    Row {
        call: Call::Lines,
        name: "a slanted line grows by a square",
        shape: UNIT,
        points: &[(0, 0), (4, 4)],
        ends: &[2],
        wanted: Ok((
            &[(-1, -1), (1, -1), (5, 3), (5, 5), (3, 5), (-1, 1)],
            &[6],
            &[1],
        )),
    },
    Row {
        call: Call::Lines,
        name: "a line turns a corner",
        shape: UNIT,
        points: &[(0, 0), (10, 0), (10, 10)],
        ends: &[3],
        wanted: Ok((
            &[(-1, -1), (11, -1), (11, 11), (9, 11), (9, 1), (-1, 1)],
            &[6],
            &[1],
        )),
    },
    Row {
        call: Call::Lines,
        name: "a line goes there and back",
        shape: UNIT,
        points: &[(0, 0), (10, 0), (0, 0)],
        ends: &[3],
        wanted: Ok((&[(-1, -1), (11, -1), (11, 1), (-1, 1)], &[4], &[1])),
    },
    Row {
        call: Call::Lines,
        name: "a line stands still",
        shape: UNIT,
        points: &[(0, 0), (0, 0), (10, 0)],
        ends: &[3],
        wanted: Ok((&[(-1, -1), (11, -1), (11, 1), (-1, 1)], &[4], &[1])),
    },
    Row {
        call: Call::Lines,
        name: "a path of one point",
        shape: SQUARE,
        points: &[(3, 4)],
        ends: &[1],
        wanted: Ok((&[(1, 2), (5, 2), (5, 6), (1, 6)], &[4], &[1])),
    },
    Row {
        call: Call::Lines,
        name: "a path of no points",
        shape: SQUARE,
        points: &[],
        ends: &[0],
        wanted: Ok((&[], &[], &[])),
    },
    Row {
        call: Call::Lines,
        name: "a line comes back to its start",
        shape: UNIT,
        points: &[(0, 0), (10, 0), (10, 10), (0, 10), (0, 0)],
        ends: &[5],
        wanted: Ok((
            &[
                (-1, -1),
                (11, -1),
                (11, 11),
                (-1, 11),
                (1, 1),
                (1, 9),
                (9, 9),
                (9, 1),
            ],
            &[4, 8],
            &[2],
        )),
    },
    Row {
        call: Call::Lines,
        name: "two lines cross",
        shape: UNIT,
        points: &[(0, 5), (10, 5), (5, 0), (5, 10)],
        ends: &[2, 4],
        wanted: Ok((
            &[
                (-1, 4),
                (4, 4),
                (4, -1),
                (6, -1),
                (6, 4),
                (11, 4),
                (11, 6),
                (6, 6),
                (6, 11),
                (4, 11),
                (4, 6),
                (-1, 6),
            ],
            &[12],
            &[1],
        )),
    },
    Row {
        call: Call::Lines,
        name: "two lines stay two",
        shape: UNIT,
        points: &[(0, 0), (10, 0), (0, 4), (10, 4)],
        ends: &[2, 4],
        wanted: Ok((
            &[
                (-1, -1),
                (11, -1),
                (11, 1),
                (-1, 1),
                (-1, 3),
                (11, 3),
                (11, 5),
                (-1, 5),
            ],
            &[4, 8],
            &[1, 2],
        )),
    },
    Row {
        call: Call::Lines,
        name: "a line reaches further to the right and up",
        shape: &[(-1, -1), (3, -1), (-1, 3)],
        points: &[(0, 0), (10, 0)],
        ends: &[2],
        wanted: Ok((&[(-1, -1), (13, -1), (9, 3), (-1, 3)], &[4], &[1])),
    },
    Row {
        call: Call::Lines,
        name: "a line stops behind the points",
        shape: SQUARE,
        points: &[(0, 0), (10, 0)],
        ends: &[3],
        wanted: Err(MinkowskiFault::Lengths),
    },
    Row {
        call: Call::Lines,
        name: "a line grows by a shape that runs clockwise",
        shape: &[(-2, -2), (-2, 2), (2, 2), (2, -2)],
        points: &[(0, 0), (10, 0)],
        ends: &[2],
        wanted: Err(MinkowskiFault::Shape),
    },
    Row {
        call: Call::Lines,
        name: "a corner around a line leaves 32 bits",
        shape: UNIT,
        points: &[(0, 0), (i32::MAX, 0)],
        ends: &[2],
        wanted: Err(MinkowskiFault::Range),
    },
    Row {
        call: Call::Join(Join::Mitre(200)),
        name: "a square keeps its corners by mitres of a diamond",
        shape: DIAMOND,
        points: TEN,
        ends: &[4],
        wanted: Ok((&[(-2, -2), (12, -2), (12, 12), (-2, 12)], &[4], &[1])),
    },
    Row {
        call: Call::Join(Join::Mitre(199)),
        name: "mitres that are a little too long stay round",
        shape: DIAMOND,
        points: TEN,
        ends: &[4],
        wanted: Ok((
            &[
                (-2, 0),
                (0, -2),
                (10, -2),
                (12, 0),
                (12, 10),
                (10, 12),
                (0, 12),
                (-2, 10),
            ],
            &[8],
            &[1],
        )),
    },
    Row {
        call: Call::Join(Join::Round),
        name: "round joins are those of the shape",
        shape: DIAMOND,
        points: TEN,
        ends: &[4],
        wanted: Ok((
            &[
                (-2, 0),
                (0, -2),
                (10, -2),
                (12, 0),
                (12, 10),
                (10, 12),
                (0, 12),
                (-2, 10),
            ],
            &[8],
            &[1],
        )),
    },
    Row {
        call: Call::Join(Join::Round),
        name: "a square grows by an octagon",
        shape: OCTAGON,
        points: TEN,
        ends: &[4],
        wanted: Ok((
            &[
                (-2, -1),
                (-1, -2),
                (11, -2),
                (12, -1),
                (12, 11),
                (11, 12),
                (-1, 12),
                (-2, 11),
            ],
            &[8],
            &[1],
        )),
    },
    Row {
        call: Call::Join(Join::Bevel),
        name: "bevels cut from one corner of the octagon to another",
        shape: OCTAGON,
        points: TEN,
        ends: &[4],
        wanted: Ok((
            &[
                (-2, 1),
                (-1, -2),
                (9, -2),
                (12, -1),
                (12, 9),
                (11, 12),
                (1, 12),
                (-2, 11),
            ],
            &[8],
            &[1],
        )),
    },
    Row {
        call: Call::Join(Join::Mitre(300)),
        name: "a corner that turns right has no mitre",
        shape: DIAMOND,
        points: &[(0, 0), (10, 0), (10, 10), (5, 10), (5, 5), (0, 5)],
        ends: &[6],
        wanted: Ok((
            &[(-2, -2), (12, -2), (12, 12), (3, 12), (3, 7), (-2, 7)],
            &[6],
            &[1],
        )),
    },
    Row {
        call: Call::Join(Join::Mitre(200)),
        name: "the tip of a mitre leaves 32 bits",
        shape: SQUARE,
        points: &[
            (i32::MAX - 12, 0),
            (i32::MAX - 7, -5),
            (i32::MAX - 2, 0),
            (i32::MAX - 7, 5),
        ],
        ends: &[4],
        wanted: Err(MinkowskiFault::Range),
    },
    Row {
        call: Call::Join(Join::Bevel),
        name: "a shape for bevels runs clockwise",
        shape: &[(-2, -2), (-2, 2), (2, 2), (2, -2)],
        points: TEN,
        ends: &[4],
        wanted: Err(MinkowskiFault::Shape),
    },
    Row {
        call: Call::Join(Join::Bevel),
        name: "a ring for bevels stops behind the points",
        shape: SQUARE,
        points: TEN,
        ends: &[5],
        wanted: Err(MinkowskiFault::Lengths),
    },
];

fn points_of(alloc: Global, ends: &[(i32, i32)]) -> Result<Vec<Point>, Fail> {
    let mut points = Vec::new(alloc);
    for (x, y) in ends {
        points.push(Point { x: *x, y: *y })?;
    }
    Ok(points)
}

fn has_points(points: &[Point], wanted: &[Point]) -> bool {
    points == wanted
}

fn have_ends(ends: &[usize], wanted: &[usize]) -> bool {
    ends == wanted
}

fn is_told(alloc: Global, row: &Row) -> Result<bool, Fail> {
    let points = points_of(alloc, row.points)?;
    let shape = points_of(alloc, row.shape)?;
    let mut out = Polygons::new(alloc);
    let rings = Rings {
        points: &points,
        ends: row.ends,
    };
    let outcome = match row.call {
        Call::Grow => minkowski(rings, FillRule::NonZero, &shape, &mut out),
        Call::Shrink => erode(rings, FillRule::NonZero, &shape, &mut out),
        Call::Lines => grow_lines(rings, &shape, &mut out),
        Call::Join(join) => minkowski_joined(rings, FillRule::NonZero, &shape, join, &mut out),
    };
    let (wanted, told): (Told, Result<(), MinkowskiFault>) = match row.wanted {
        Ok(told) => (told, Ok(())),
        Err(fault) => ((&[], &[], &[]), Err(fault)),
    };
    let corners = points_of(alloc, wanted.0)?;
    Ok(
        outcome == told
            && has_points(&out.points, &corners)
            && have_ends(&out.ring_ends, wanted.1)
            && have_ends(&out.polygon_ends, wanted.2),
    )
}

#[test]
fn polygons_become_as_worked_by_hand(rt: HostRuntime) -> Result<(), Fail> {
    for row in &ROWS {
        assert!(rt; is_told(rt.alloc(), row)?, "{}", row.name);
    }
    Ok(())
}
