//! Windows, and which window they make up, worked by hand.

use crate::worked::window_of;
use std::alloc::Global;
use std::test::Fail;
use tiles::{JoinFault, Window, whole_of};

// Windows, and what they make up.
struct Row {
    name: &'static str,
    windows: &'static [[i32; 4]],
    wanted: Result<Option<[i32; 4]>, JoinFault>,
}

static ROWS: [Row; 5] = [
    Row {
        name: "four windows part a square, and each has another height",
        windows: &[[-5, 0, 0, 3], [0, 0, 5, 4], [-5, 3, 0, 10], [0, 4, 5, 10]],
        wanted: Ok(Some([-5, 0, 5, 10])),
    },
    Row {
        name: "one of them is missing",
        windows: &[[-5, 0, 0, 3], [0, 0, 5, 4], [0, 4, 5, 10]],
        wanted: Ok(None),
    },
    Row {
        name: "no window",
        windows: &[],
        wanted: Ok(None),
    },
    Row {
        name: "two have a common point",
        windows: &[[0, 0, 5, 5], [4, 4, 9, 9]],
        wanted: Err(JoinFault::Overlap),
    },
    Row {
        name: "a window has no points",
        windows: &[[0, 0, 5, 5], [4, 4, 4, 9]],
        wanted: Err(JoinFault::Empty),
    },
];

fn is_told(alloc: Global, row: &Row) -> Result<bool, Fail> {
    let mut windows: Vec<Window> = Vec::new(alloc);
    for sides in row.windows {
        windows.push(window_of(*sides))?;
    }
    let wanted = match row.wanted {
        Ok(Some(sides)) => Ok(Some(window_of(sides))),
        Ok(None) => Ok(None),
        Err(fault) => Err(fault),
    };
    Ok(whole_of(&windows) == wanted)
}

#[test]
fn windows_make_up_one_as_worked_by_hand(rt: HostRuntime) -> Result<(), Fail> {
    for row in &ROWS {
        assert!(rt; is_told(rt.alloc(), row)?, "{}", row.name);
    }
    Ok(())
}
