//! Candidates for crossings.

use i_tree::seg::exp::SegRange;
use std::test::Fail;
use uses::crossing_candidates::{Edge, candidates};

// Edges by their left ends: from and to which x and height.
const EDGES: [(i32, i32, i32, i32); 6] = [
    (0, 9, 0, 100),
    (2, 5, 90, 300),
    (5, 9, 300, 310),
    (6, 9, 50, 60),
    (9, 9, 512, 1023),
    (10, 20, 0, 1023),
];

// Those whose boxes meet: of the second and the third only corners do.
const WANTED: [(u32, u32); 3] = [(0, 1), (0, 3), (1, 2)];

#[test]
fn names_each_pair_of_boxes_that_meet_once(rt: HostRuntime) -> Result<(), Fail> {
    let mut edges = Vec::new(rt.alloc());
    for ((left, right, min, max), name) in EDGES.iter().copied().zip(0..) {
        let heights = SegRange { min, max };
        edges.push(Edge {
            name,
            left,
            right,
            heights,
        })?;
    }
    let whole = SegRange { min: 0, max: 1023 };
    let mut pairs = candidates(rt.alloc(), &edges, whole)?.ok_or("an edge is not in order")?;
    pairs.sort_unstable();
    assert!(rt; pairs.as_slice() == WANTED.as_slice());
    Ok(())
}
