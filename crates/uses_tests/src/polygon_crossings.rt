//! Polygons that meet.

use std::test::Fail;
use uses::polygon_crossings::{Corner, crossings};

const SQUARE: [(i32, i32); 4] = [(0, 0), (10, 0), (10, 10), (0, 10)];

// The place of a triangle's left corner, and how many pairs of its sides and the square's meet. The right side of the
// square ends at its corner 2. Two sides of the triangle meet at its corner 0.
const TRIANGLES: [(i32, i32, usize); 3] = [(5, 5, 2), (10, 5, 2), (11, 5, 0)];

#[test]
fn finds_where_a_square_and_a_triangle_meet(rt: HostRuntime) -> Result<(), Fail> {
    let square = SQUARE.map(|(x, y)| Corner { x, y });
    for (left, y, count) in TRIANGLES {
        let triangle = [(left, y), (15, 4), (15, 6)].map(|(x, y)| Corner { x, y });
        let mut pairs = crossings(rt.alloc(), &square, &triangle)?;
        pairs.sort_unstable();
        assert!(rt;
            pairs.as_slice() == &[(2, 0), (2, 1)][..count],
            "from {left}"
        );
    }
    assert!(rt; crossings(rt.alloc(), &square, &[])?.is_empty());
    Ok(())
}
