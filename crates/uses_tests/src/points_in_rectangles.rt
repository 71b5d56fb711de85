//! Points in rectangles.

use std::test::Fail;
use uses::points_in_rectangles::{Rectangle, Spot, points_in_rectangles};

// The second one lies in both rectangles, the first at a corner of the square, and the last in none.
const SPOTS: [Spot; 3] = [
    Spot { x: 0, y: 0 },
    Spot { x: 5, y: 5 },
    Spot { x: 9, y: 1 },
];

#[test]
fn finds_what_lies_in_each(rt: HostRuntime) -> Result<(), Fail> {
    let square = Rectangle {
        left: 0,
        right: 6,
        low: 0,
        high: 6,
    };
    let flat = Rectangle {
        left: 4,
        right: 20,
        low: 5,
        high: 5,
    };
    let mut pairs = points_in_rectangles(rt.alloc(), &[square, flat], &SPOTS)?;
    pairs.sort_unstable();
    assert!(rt; pairs.as_slice() == [(0, 0), (0, 1), (1, 1)].as_slice());
    Ok(())
}
