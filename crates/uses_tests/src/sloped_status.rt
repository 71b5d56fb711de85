//! Sloped segments below points.

use std::test::Fail;
use uses::sloped_status::{Sloped, below};

#[test]
fn answers_the_segment_below(rt: HostRuntime) -> Result<(), Fail> {
    // The second one starts above the first, which ends where it would pass above; the third starts below both lines.
    let segments = [
        Sloped {
            x0: 0,
            y0: 0,
            x1: 10,
            y1: 10,
        },
        Sloped {
            x0: 2,
            y0: 12,
            x1: 30,
            y1: 12,
        },
        Sloped {
            x0: 14,
            y0: 4,
            x1: 24,
            y1: -6,
        },
    ];
    for (x, y, wanted) in [
        (1, 0, None),
        (1, 1, Some(0)),
        (5, 4, None),
        (5, 11, Some(0)),
        (5, 12, Some(1)),
        (10, 10, Some(0)),
        (11, 11, None),
        (20, 0, Some(2)),
        (20, -3, None),
        (24, 20, Some(1)),
        (31, 50, None),
    ] {
        assert_eq!(rt; below(rt.alloc(), &segments, x, y)?, wanted);
    }
    Ok(())
}
