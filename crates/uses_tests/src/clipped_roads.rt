//! Roads clipped to polygons.

use overlay::Rings;
use plane::edge::Edge;
use plane::point::Point;
use std::test::Fail;
use uses::clipped_roads::clipped_roads;

type Road = (i32, i32, i32, i32);

// A square with a hole, and a spike whose sides both pass (95, 101) where the last road crosses them: from there on to the tip
// they fall together.
const CORNERS: [(i32, i32); 11] = [
    (0, 0),
    (12, 0),
    (12, 12),
    (0, 12),
    (4, 4),
    (4, 8),
    (8, 8),
    (8, 4),
    (100, 101),
    (0, 101),
    (0, 100),
];

// A road, and its pieces inside.
struct Row {
    name: &'static str,
    road: Road,
    inside: &'static [Road],
}

const ROWS: [Row; 12] = [
    Row {
        name: "through the square",
        road: (-3, 2, 15, 2),
        inside: &[(0, 2, 12, 2)],
    },
    Row {
        name: "through the hole, upwards",
        road: (6, 14, 6, -1),
        inside: &[(6, 12, 6, 8), (6, 4, 6, 0)],
    },
    Row {
        name: "along the lower side",
        road: (-1, 0, 13, 0),
        inside: &[(0, 0, 12, 0)],
    },
    Row {
        name: "along the upper side",
        road: (-1, 12, 13, 12),
        inside: &[],
    },
    Row {
        name: "along the left side",
        road: (0, 13, 0, -1),
        inside: &[(0, 12, 0, 0)],
    },
    Row {
        name: "along the right side",
        road: (12, 0, 12, 12),
        inside: &[],
    },
    Row {
        name: "along the hole's lower side, and on",
        road: (0, 4, 9, 4),
        inside: &[(0, 4, 4, 4), (8, 4, 9, 4)],
    },
    Row {
        name: "outside",
        road: (-5, -5, -1, 20),
        inside: &[],
    },
    Row {
        name: "that ends inside",
        road: (-3, 0, 3, 2),
        inside: &[(0, 1, 3, 2)],
    },
    Row {
        name: "that is a point",
        road: (2, 2, 2, 2),
        inside: &[],
    },
    Row {
        name: "across the square by its corners",
        road: (12, 0, 0, 12),
        inside: &[(12, 0, 8, 4), (4, 8, 0, 12)],
    },
    Row {
        name: "up through the spike, near its tip",
        road: (90, 90, 99, 110),
        inside: &[],
    },
];

fn edge_of(road: Road) -> Edge {
    let (x0, y0, x1, y1) = road;
    Edge { x0, y0, x1, y1 }
}

#[test]
fn keeps_what_lies_inside(rt: HostRuntime) -> Result<(), Fail> {
    let rings = Rings {
        points: &CORNERS.map(|(x, y)| Point { x, y }),
        ends: &[4, 8, 11],
    };
    for row in &ROWS {
        let inside = clipped_roads(rt.alloc(), &[edge_of(row.road)], rings)?;
        let mut wanted = Vec::new(rt.alloc());
        for road in row.inside {
            wanted.push(edge_of(*road))?;
        }
        assert!(rt; inside.as_slice() == wanted.as_slice(), "{}", row.name);
    }
    Ok(())
}
