//! Rings that cross themselves, and the corners of a ring.

use plane::edge::Edge;
use std::test::Fail;
use uses::ring_crossings::{corners, crosses_itself};

// The edges from each corner to the next one, and from the last to the first.
fn ring(corners: [(i32, i32); 4]) -> [Edge; 4] {
    let [a, b, c, d] = corners;
    [(a, b), (b, c), (c, d), (d, a)].map(|((x0, y0), (x1, y1))| Edge { x0, y0, x1, y1 })
}

// Four corners, and whether the ring through them crosses itself: a square; a bow, two of whose sides cross; one whose last
// corner lies on its first side; and one that goes back along its second side.
const RINGS: [([(i32, i32); 4], bool); 4] = [
    ([(0, 0), (10, 0), (10, 10), (0, 10)], false),
    ([(0, 0), (10, 10), (10, 0), (0, 10)], true),
    ([(0, 0), (10, 0), (10, 10), (5, 0)], true),
    ([(0, 0), (10, 0), (10, 10), (10, 5)], true),
];

#[test]
fn tells_the_rings_that_cross_themselves(rt: HostRuntime) -> Result<(), Fail> {
    for (row, crosses) in RINGS {
        assert!(rt; crosses_itself(rt.alloc(), &ring(row))? == crosses);
    }
    assert!(rt; !crosses_itself(rt.alloc(), &[])?);
    Ok(())
}

#[test]
fn tells_the_corners_of_a_ring(rt: HostRuntime) -> Result<(), Fail> {
    let (bow, _) = RINGS[1];
    let mut pairs = corners(rt.alloc(), &ring(bow))?;
    pairs.sort_unstable();
    assert!(rt; pairs.as_slice() == [(0, 1), (0, 3), (1, 2), (2, 3)].as_slice());
    Ok(())
}
