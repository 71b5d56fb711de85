//! Worked pairs of edges: whether they meet and how, and whether they cross.

use crate::edges::{Ends, edge, turned};
use plane::locate::cross;
use plane::meet::{Meeting, how_they_meet, meet};

const LEAST: i32 = i32::MIN;

const MOST: i32 = i32::MAX;

// The diagonals of the whole plane cross at (-1/2, -1/2). The points of the falling one have an x and a y that are -1
// together, and its half ends at (-1, 0), before the crossing.
const RISING: Ends = [LEAST, LEAST, MOST, MOST];

const FALLING: Ends = [LEAST, MOST, MOST, LEAST];

const HALF: Ends = [LEAST, MOST, -1, 0];

// Two edges, how they meet, and whether they cross. An upright edge is crossed by none.
static PAIRS: [(Ends, Ends, Meeting, bool); 17] = [
    // They change sides, between two neighbouring whole xs too.
    ([0, 0, 4, 4], [0, 4, 4, 0], Meeting::Cross, true),
    ([0, 0, 1, 1], [0, 1, 1, 0], Meeting::Cross, true),
    ([0, 0, 10, 10], [5, -5, 5, 20], Meeting::Cross, false),
    // They touch, or come near each other.
    ([0, 0, 10, 10], [5, 5, 9, 0], Meeting::Touch, false),
    ([0, 0, 5, 5], [5, 5, 10, 0], Meeting::Touch, false),
    ([0, 0, 2, 1], [1, 1, 1, 5], Meeting::Apart, false),
    // They lie along one line.
    ([0, 0, 4, 4], [2, 2, 6, 6], Meeting::Share, false),
    ([0, 0, 4, 2], [8, 4, 4, 2], Meeting::Touch, false),
    ([0, 0, 4, 4], [5, 5, 6, 6], Meeting::Apart, false),
    ([7, 2, -3, 5], [7, 2, -3, 5], Meeting::Share, false),
    // One is a point, or both are.
    ([0, 0, 4, 4], [3, 3, 3, 3], Meeting::Touch, false),
    ([0, 0, 4, 4], [3, 2, 3, 2], Meeting::Apart, false),
    ([7, 7, 7, 7], [7, 7, 7, 7], Meeting::Touch, false),
    // They reach over the whole plane.
    (RISING, FALLING, Meeting::Cross, true),
    (RISING, HALF, Meeting::Apart, false),
    (FALLING, HALF, Meeting::Share, false),
    (FALLING, [0, 0, 0, 0], Meeting::Apart, false),
];

// Whether both are answered as wanted.
fn answers(one: Ends, other: Ends, meeting: Meeting, crosses: bool) -> bool {
    let (one, other) = (edge(one), edge(other));
    how_they_meet(one, other) == meeting
        && meet(one, other) == (meeting != Meeting::Apart)
        && cross(one, other) == crosses
}

#[test]
fn pairs_meet_and_cross_as_worked_by_hand(rt: HostRuntime) {
    for (one, other, meeting, crosses) in &PAIRS {
        let is_so = answers(*one, *other, *meeting, *crosses)
            && answers(*other, turned(*one), *meeting, *crosses);
        assert!(rt; is_so, "{one:?} and {other:?}");
    }
}
