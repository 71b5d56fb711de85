//! What is of rectangles and of no mask.

use overlay::Point;
use std::test::Fail;
use uses::free_of_masks::{Rectangle, free_of_masks};

type Sides = (i32, i32, i32, i32);

// Two that share a side, and one that has no points.
const RECTANGLES: [Sides; 3] = [(0, 0, 4, 4), (4, 0, 8, 4), (9, 9, 1, 5)];

// One over the side that is shared, and one that has no points.
const MASKS: [Sides; 2] = [(2, 1, 6, 3), (8, 4, 0, 0)];

// The outer ring, and the hole that the mask makes.
const POINTS: [(i32, i32); 8] = [
    (0, 0),
    (8, 0),
    (8, 4),
    (0, 4),
    (2, 1),
    (2, 3),
    (6, 3),
    (6, 1),
];

fn rectangle(sides: Sides) -> Rectangle {
    let (left, low, right, high) = sides;
    Rectangle {
        left,
        low,
        right,
        high,
    }
}

#[test]
fn tells_what_no_mask_covers(rt: HostRuntime) -> Result<(), Fail> {
    let free = free_of_masks(
        rt.alloc(),
        &RECTANGLES.map(rectangle),
        &MASKS.map(rectangle),
    )?;
    assert!(rt; free.points.as_slice() == POINTS.map(|(x, y)| Point { x, y }).as_slice());
    assert!(rt; free.ring_ends.as_slice() == [4, 8].as_slice());
    assert!(rt; free.polygon_ends.as_slice() == [2].as_slice());
    Ok(())
}
