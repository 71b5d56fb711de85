//! What is seen below points.

use horizontal::{Point, Segment, SweepFault};
use std::test::Fail;
use uses::seen_below::seen_below;

#[test]
fn sees_the_first_segment_below(rt: HostRuntime) -> Result<(), Fail> {
    let segments = [(0, 10, 5), (2, 6, 8), (6, 9, 3)].map(|(x0, x1, y)| Segment { x0, x1, y });
    let points = [(0, 5), (2, 9), (6, 7), (6, 3), (7, 9), (10, 4), (11, 9)];
    let points = points.map(|(x, y)| Point { x, y });
    let Ok(seen) = seen_below(rt.alloc(), &segments, &points) else {
        return Err(Fail::from("refused or overlapping"));
    };
    let wanted = [Some(5), Some(8), Some(5), Some(3), Some(5), None, None];
    assert!(rt; seen.as_slice() == wanted.as_slice());
    let [first, second, _] = segments;
    let twice = seen_below(rt.alloc(), &[first, second, first], &[]);
    assert!(rt; matches!(twice, Err(SweepFault::Overlap(2))));
    Ok(())
}
