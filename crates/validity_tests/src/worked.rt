//! Polygons by hand, with what is wrong with them.

use overlay::Rings;
use plane::edge::Edge;
use plane::point::Point;
use std::alloc::{Allocator, Global};
use std::test::Fail;
use validity::{Fault, PolygonSet, Unchecked, first_fault};

// Polygons, of which rings and polygons stop at these, and what is wrong with them. Where several things are, or one is told of
// several points, which of them is told is open in the contracts, and may change with the code.
struct Row {
    name: &'static str,
    places: &'static [(i32, i32)],
    ends: &'static [usize],
    polygon_ends: &'static [usize],
    wanted: Result<Option<Fault>, Unchecked>,
}

static ROWS: [Row; 25] = [
    Row {
        name: "no polygons",
        places: &[],
        ends: &[],
        polygon_ends: &[],
        wanted: Ok(None),
    },
    Row {
        name: "a square",
        places: &[(0, 0), (9, 0), (9, 9), (0, 9)],
        ends: &[4],
        polygon_ends: &[1],
        wanted: Ok(None),
    },
    Row {
        name: "a square that runs clockwise, with its first point again",
        places: &[(0, 0), (0, 9), (9, 9), (9, 0), (0, 0)],
        ends: &[5],
        polygon_ends: &[1],
        wanted: Ok(None),
    },
    Row {
        name: "a point that is the next one again counts once",
        places: &[(0, 0), (9, 0), (9, 0), (9, 9), (0, 9)],
        ends: &[5],
        polygon_ends: &[1],
        wanted: Ok(None),
    },
    Row {
        name: "a hole, the same way round, that touches the outer ring in one point",
        places: &[(0, 0), (9, 0), (9, 9), (0, 9), (0, 4), (3, 3), (3, 6)],
        ends: &[4, 7],
        polygon_ends: &[2],
        wanted: Ok(None),
    },
    Row {
        name: "two squares that touch at a corner",
        places: &[
            (0, 0),
            (4, 0),
            (4, 4),
            (0, 4),
            (4, 4),
            (9, 4),
            (9, 9),
            (4, 9),
        ],
        ends: &[4, 8],
        polygon_ends: &[1, 2],
        wanted: Ok(None),
    },
    Row {
        name: "an island in a hole",
        places: &[
            (0, 0),
            (9, 0),
            (9, 9),
            (0, 9),
            (1, 1),
            (1, 8),
            (8, 8),
            (8, 1),
            (3, 3),
            (5, 3),
            (5, 5),
        ],
        ends: &[4, 8, 11],
        polygon_ends: &[2, 3],
        wanted: Ok(None),
    },
    Row {
        name: "a polygon without rings",
        places: &[(0, 0), (9, 0), (9, 9)],
        ends: &[3],
        polygon_ends: &[0, 1],
        wanted: Ok(None),
    },
    Row {
        name: "two points, and one of them again",
        places: &[(0, 0), (4, 4), (0, 0)],
        ends: &[3],
        polygon_ends: &[1],
        wanted: Ok(Some(Fault::FewPoints { ring: 0 })),
    },
    Row {
        name: "a ring without points, behind another one",
        places: &[(0, 0), (9, 0), (9, 9)],
        ends: &[3, 3],
        polygon_ends: &[1, 2],
        wanted: Ok(Some(Fault::FewPoints { ring: 1 })),
    },
    Row {
        name: "a bow-tie",
        places: &[(0, 0), (9, 9), (9, 0), (0, 9)],
        ends: &[4],
        polygon_ends: &[1],
        wanted: Ok(Some(Fault::MeetsItself {
            ring: 0,
            one: Edge {
                x0: 0,
                y0: 0,
                x1: 9,
                y1: 9,
            },
            other: Edge {
                x0: 9,
                y0: 0,
                x1: 0,
                y1: 9,
            },
        })),
    },
    Row {
        name: "a spike",
        places: &[(0, 0), (4, 0), (4, 4), (4, 2), (0, 2)],
        ends: &[5],
        polygon_ends: &[1],
        wanted: Ok(Some(Fault::MeetsItself {
            ring: 0,
            one: Edge {
                x0: 4,
                y0: 0,
                x1: 4,
                y1: 4,
            },
            other: Edge {
                x0: 4,
                y0: 4,
                x1: 4,
                y1: 2,
            },
        })),
    },
    Row {
        name: "the second ring touches itself at a point, between the ends of an edge",
        places: &[
            (20, 0),
            (29, 0),
            (29, 9),
            (0, 0),
            (8, 0),
            (8, 8),
            (4, 0),
            (0, 8),
        ],
        ends: &[3, 8],
        polygon_ends: &[1, 2],
        wanted: Ok(Some(Fault::MeetsItself {
            ring: 1,
            one: Edge {
                x0: 0,
                y0: 0,
                x1: 8,
                y1: 0,
            },
            other: Edge {
                x0: 8,
                y0: 8,
                x1: 4,
                y1: 0,
            },
        })),
    },
    Row {
        name: "two rings cross, and touch at a corner",
        places: &[(0, 0), (4, 0), (4, 4), (0, 4), (2, 2), (6, 2), (4, 4)],
        ends: &[4, 7],
        polygon_ends: &[1, 2],
        wanted: Ok(Some(Fault::RingsCross {
            one: Edge {
                x0: 4,
                y0: 0,
                x1: 4,
                y1: 4,
            },
            other: Edge {
                x0: 2,
                y0: 2,
                x1: 6,
                y1: 2,
            },
        })),
    },
    Row {
        name: "two squares share a side",
        places: &[
            (0, 0),
            (4, 0),
            (4, 4),
            (0, 4),
            (4, 0),
            (8, 0),
            (8, 4),
            (4, 4),
        ],
        ends: &[4, 8],
        polygon_ends: &[1, 2],
        wanted: Ok(Some(Fault::RingsCross {
            one: Edge {
                x0: 4,
                y0: 0,
                x1: 4,
                y1: 4,
            },
            other: Edge {
                x0: 4,
                y0: 4,
                x1: 4,
                y1: 0,
            },
        })),
    },
    Row {
        name: "a hole along the outer ring, which runs the other way",
        places: &[(0, 0), (9, 0), (9, 9), (3, 0), (6, 0), (6, 3)],
        ends: &[3, 6],
        polygon_ends: &[2],
        wanted: Ok(Some(Fault::RingsCross {
            one: Edge {
                x0: 0,
                y0: 0,
                x1: 9,
                y1: 0,
            },
            other: Edge {
                x0: 6,
                y0: 0,
                x1: 3,
                y1: 0,
            },
        })),
    },
    Row {
        name: "a hole beside its outer ring",
        places: &[(0, 0), (9, 0), (9, 9), (0, 9), (11, 1), (12, 1), (11, 2)],
        ends: &[4, 7],
        polygon_ends: &[2],
        wanted: Ok(Some(Fault::HolesOutside {
            polygon: 0,
            point: Point { x: 11, y: 1 },
        })),
    },
    Row {
        name: "a hole in a hole, of the second polygon",
        places: &[
            (20, 0),
            (29, 0),
            (29, 9),
            (0, 0),
            (9, 0),
            (9, 9),
            (0, 9),
            (1, 1),
            (8, 1),
            (8, 8),
            (1, 8),
            (3, 3),
            (4, 3),
            (3, 4),
        ],
        ends: &[3, 7, 11, 14],
        polygon_ends: &[1, 4],
        wanted: Ok(Some(Fault::HolesOutside {
            polygon: 1,
            point: Point { x: 3, y: 3 },
        })),
    },
    Row {
        name: "a polygon in another one",
        places: &[(0, 0), (9, 0), (9, 9), (0, 9), (1, 1), (2, 1), (1, 2)],
        ends: &[4, 7],
        polygon_ends: &[1, 2],
        wanted: Ok(Some(Fault::PolygonsOverlap {
            point: Point { x: 1, y: 1 },
        })),
    },
    Row {
        name: "a hole that touches the outer ring twice",
        places: &[
            (3, 0),
            (6, 0),
            (9, 3),
            (9, 6),
            (6, 9),
            (3, 9),
            (0, 6),
            (0, 3),
            (0, 4),
            (4, 2),
            (9, 4),
            (4, 7),
        ],
        ends: &[8, 12],
        polygon_ends: &[2],
        wanted: Ok(Some(Fault::Disconnected {
            polygon: 0,
            ring: 1,
            point: Point { x: 9, y: 4 },
        })),
    },
    Row {
        name: "two holes that touch each other and the outer ring",
        places: &[
            (0, 0),
            (12, 0),
            (12, 9),
            (0, 9),
            (0, 4),
            (3, 3),
            (6, 4),
            (3, 5),
            (6, 4),
            (9, 3),
            (12, 4),
            (9, 5),
        ],
        ends: &[4, 8, 12],
        polygon_ends: &[3],
        wanted: Ok(Some(Fault::Disconnected {
            polygon: 0,
            ring: 2,
            point: Point { x: 12, y: 4 },
        })),
    },
    Row {
        name: "two holes that touch each other alone",
        places: &[
            (0, 0),
            (12, 0),
            (12, 9),
            (0, 9),
            (1, 4),
            (3, 3),
            (6, 4),
            (3, 5),
            (6, 4),
            (9, 3),
            (11, 4),
            (9, 5),
        ],
        ends: &[4, 8, 12],
        polygon_ends: &[3],
        wanted: Ok(None),
    },
    Row {
        name: "a ring that stops behind the points",
        places: &[(0, 0), (9, 0), (9, 9), (0, 9)],
        ends: &[5],
        polygon_ends: &[1],
        wanted: Err(Unchecked::Lengths),
    },
    Row {
        name: "a ring of no polygon",
        places: &[(0, 0), (9, 0), (9, 9), (0, 9)],
        ends: &[4],
        polygon_ends: &[],
        wanted: Err(Unchecked::Lengths),
    },
    Row {
        name: "a polygon that stops before it begins",
        places: &[(0, 0), (9, 0), (9, 9), (20, 0), (29, 0), (29, 9)],
        ends: &[3, 6],
        polygon_ends: &[2, 1],
        wanted: Err(Unchecked::Lengths),
    },
];

/// The points with these coordinates.
pub fn points_of(alloc: Global, places: &[(i32, i32)]) -> Result<Vec<Point>, Fail> {
    let mut points = Vec::new(alloc);
    for (x, y) in places {
        points.push(Point { x: *x, y: *y })?;
    }
    Ok(points)
}

/// What is wrong with the polygons of points, of which rings and polygons stop at these.
pub fn fault_of<'a, A: Allocator + Copy>(
    alloc: A,
    points: &'a [Point],
    ends: &'a [usize],
    polygon_ends: &'a [usize],
) -> Result<Option<Fault>, Unchecked> {
    let set = PolygonSet {
        rings: Rings { points, ends },
        polygon_ends,
    };
    first_fault(alloc, set)
}

fn is_told(alloc: Global, row: &Row) -> Result<bool, Fail> {
    let points = points_of(alloc, row.places)?;
    Ok(fault_of(alloc, &points, row.ends, row.polygon_ends) == row.wanted)
}

#[test]
fn faults_are_told_as_worked_by_hand(rt: HostRuntime) -> Result<(), Fail> {
    for row in &ROWS {
        assert!(rt; is_told(rt.alloc(), row)?, "{}", row.name);
    }
    Ok(())
}
