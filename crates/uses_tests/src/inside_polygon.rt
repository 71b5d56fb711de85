//! Points inside polygons.

use plane::locate::{LocateFault, Point};
use std::alloc::Global;
use std::test::Fail;
use uses::inside_polygon::are_inside;

// A polygon by its corners, points, and which of them are inside or, where sides cross, the corners where these end.
struct Row {
    name: &'static str,
    corners: &'static [(i32, i32)],
    points: &'static [(i32, i32)],
    wanted: Result<&'static [bool], LocateFault>,
}

const ROWS: [Row; 4] = [
    Row {
        // Straight above its leftmost corner the upper edge is told, and on it.
        name: "an arrow that points upwards, and has a notch from below",
        corners: &[(0, 0), (10, 4), (20, 0), (10, 20)],
        points: &[
            (10, 4),
            (10, 3),
            (10, 19),
            (10, 21),
            (5, 1),
            (5, 3),
            (5, 11),
            (-1, 0),
            (20, 9),
            (0, 5),
            (0, 0),
        ],
        wanted: Ok(&[
            true, false, true, false, false, true, false, false, false, false, false,
        ]),
    },
    Row {
        name: "a notch from the right",
        corners: &[(0, 0), (20, 0), (10, 10), (20, 20), (0, 20)],
        points: &[
            (10, 15),
            (10, 10),
            (10, 5),
            (15, 10),
            (15, 16),
            (15, 4),
            (10, 21),
        ],
        wanted: Ok(&[true, true, true, false, true, true, false]),
    },
    Row {
        name: "sides that cross",
        corners: &[(0, 0), (10, 10), (10, 0), (0, 10)],
        points: &[],
        wanted: Err(LocateFault::Cross(1, 3)),
    },
    Row {
        name: "no corners",
        corners: &[],
        points: &[(0, 0)],
        wanted: Ok(&[false]),
    },
];

fn points_of(alloc: Global, places: &[(i32, i32)]) -> Result<Vec<Point>, Fail> {
    let mut points = Vec::new(alloc);
    for (x, y) in places.iter().copied() {
        points.push(Point { x, y })?;
    }
    Ok(points)
}

#[test]
fn tells_points_inside(rt: HostRuntime) -> Result<(), Fail> {
    for row in &ROWS {
        let corners = points_of(rt.alloc(), row.corners)?;
        let points = points_of(rt.alloc(), row.points)?;
        let is_told = match (are_inside(rt.alloc(), &corners, &points), row.wanted) {
            (Ok(inside), Ok(wanted)) => inside.as_slice() == wanted,
            (Err(fault), Err(wanted)) => fault == wanted,
            _ => false,
        };
        assert!(rt; is_told, "{}", row.name);
    }
    Ok(())
}
