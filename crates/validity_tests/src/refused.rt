//! Each request of `first_fault` for memory refused in turn.

use crate::worked::{fault_of, points_of};
use plane::point::Point;
use std::alloc::Global;
use std::test::Fail;
use test_kit::Refusing;
use test_kit::in_turn::{Trial, refuse_in_turn};
use validity::{Fault, Unchecked};

// A square with a hole that touches it once, and another one that touches it twice: so each step is gone through.
const GIVEN: &[(i32, i32)] = &[
    (0, 0),
    (12, 0),
    (12, 9),
    (0, 9),
    (0, 7),
    (2, 6),
    (2, 8),
    (0, 4),
    (6, 3),
    (12, 4),
    (6, 5),
];

const WANTED: Fault = Fault::Disconnected {
    polygon: 0,
    ring: 2,
    point: Point { x: 12, y: 4 },
};

// The polygon, and memory.
#[derive(Drop)]
struct Checking<'a> {
    memory: &'a Refusing<Global>,
    points: Vec<Point>,
}

// What is told.
#[derive(Drop)]
struct Checked {
    outcome: Result<Option<Fault>, Unchecked>,
}

impl<'a> Trial for Checking<'a> {
    type State = Checked;

    fn begin(&self) -> Option<Checked> {
        Some(Checked { outcome: Ok(None) })
    }

    fn call(&self, checked: &mut Checked) {
        checked.outcome = fault_of(self.memory, &self.points, &[4, 7, 11], &[3]);
    }

    fn is_refused(&self, checked: &mut Checked, _nth: u64) -> bool {
        // The edges in the air may go into a list, where a tree has no room: then it is done.
        self.is_done(checked) || checked.outcome == Err(Unchecked::OutOfMemory)
    }

    fn is_done(&self, checked: &mut Checked) -> bool {
        checked.outcome == Ok(Some(WANTED))
    }
}

#[test]
fn first_fault_tells_each_refusal(rt: HostRuntime) -> Result<(), Fail> {
    let memory = Refusing::new(rt.alloc());
    let checking = Checking {
        memory: &memory,
        points: points_of(rt.alloc(), GIVEN)?,
    };
    assert!(rt; refuse_in_turn(&memory, &checking).is_ok_and(|requests| requests > 10));
    memory.refuse_nth(1);
    let refused = fault_of(&memory, &checking.points, &[4, 7, 11], &[3]);
    assert_eq!(rt; refused, Err(Unchecked::OutOfMemory));
    Ok(())
}
