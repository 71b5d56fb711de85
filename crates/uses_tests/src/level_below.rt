//! The level below.

use std::test::Fail;
use uses::level_below::{Level, below};

#[test]
fn answers_the_live_level_below(rt: HostRuntime) -> Result<(), Fail> {
    let levels = [
        Level { height: 3, end: 10 },
        Level { height: 5, end: 4 },
        Level { height: 3, end: 10 },
    ];
    for (at, height, wanted) in [
        (2, 6, 5),
        (4, 6, 5),
        (5, 6, 3),
        (5, 3, 3),
        (5, 2, -1),
        (10, 6, 3),
        (11, 6, -1),
    ] {
        assert_eq!(rt; below(rt.alloc(), &levels, at, height)?, wanted);
    }
    Ok(())
}
