//! Roads that are broken where they meet.

use plane::edge::Edge;
use std::test::Fail;
use uses::broken_roads::broken_roads;

type Road = (i32, i32, i32, i32);

// Two roads that cross in (3 / 2, 1 / 2), which rounds to (2, 1); one that begins there and goes over an end of the first, so
// that both have a piece in common; and one that is a point.
const ROADS: [Road; 4] = [(0, 0, 3, 1), (0, 1, 3, 0), (2, 1, 4, 1), (5, 5, 5, 5)];

const PIECES: [Road; 6] = [
    (0, 0, 2, 1),
    (2, 1, 3, 1),
    (0, 1, 2, 1),
    (2, 1, 3, 0),
    (2, 1, 3, 1),
    (3, 1, 4, 1),
];

fn edge_of(road: Road) -> Edge {
    let (x0, y0, x1, y1) = road;
    Edge { x0, y0, x1, y1 }
}

#[test]
fn breaks_two_roads_where_they_cross(rt: HostRuntime) -> Result<(), Fail> {
    let pieces = broken_roads(rt.alloc(), &ROADS.map(edge_of))?;
    assert!(rt; pieces.as_slice() == PIECES.map(edge_of).as_slice());
    Ok(())
}
