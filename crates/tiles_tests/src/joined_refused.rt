//! Each request of `join` for memory refused in turn.

use crate::worked::{EARLIER, has_joined, points_of, window_of};
use overlay::{Polygons, Rings};
use plane::point::Point;
use std::alloc::Global;
use std::test::Fail;
use test_kit::Refusing;
use test_kit::in_turn::{Trial, refuse_in_turn};
use tiles::{JoinFault, Tiles, Window, join};

// The polygon that comes to no border has so many points that its copy asks for memory.
const GIVEN: &[(i32, i32)] = &[
    (2, 1),
    (3, 1),
    (4, 2),
    (4, 3),
    (3, 4),
    (2, 4),
    (1, 3),
    (1, 2),
    (5, 5),
    (10, 5),
    (10, 8),
    (5, 8),
    (10, 5),
    (15, 5),
    (15, 8),
    (10, 8),
];

// The two squares as one, and the other as it is.
const WANTED: &[(i32, i32)] = &[
    (5, 5),
    (15, 5),
    (15, 8),
    (5, 8),
    (2, 1),
    (3, 1),
    (4, 2),
    (4, 3),
    (3, 4),
    (2, 4),
    (1, 3),
    (1, 2),
];

// Two windows, a polygon in the first that comes to no border, and one of each that do.
#[derive(Drop)]
struct Joining<'a> {
    memory: &'a Refusing<Global>,
    windows: [Window; 2],
    points: Vec<Point>,
    wanted: Vec<Point>,
}

// The polygons behind a point that was there.
#[derive(Drop)]
struct Joined<'a> {
    out: Polygons<&'a Refusing<Global>>,
    outcome: Result<(), JoinFault>,
}

impl<'a> Trial for Joining<'a> {
    type State = Joined<'a>;

    fn begin(&self) -> Option<Joined<'a>> {
        let mut out = Polygons::new(self.memory);
        out.points.push(EARLIER).ok()?;
        Some(Joined {
            out,
            outcome: Ok(()),
        })
    }

    fn call(&self, joined: &mut Joined<'a>) {
        let tiles = Tiles {
            windows: &self.windows,
            tile_ends: &[2, 3],
            polygon_ends: &[1, 2, 3],
            rings: Rings {
                points: &self.points,
                ends: &[8, 12, 16],
            },
        };
        joined.outcome = join(tiles, &mut joined.out);
    }

    fn is_refused(&self, joined: &mut Joined<'a>, _nth: u64) -> bool {
        // The edges in the air may go into a list, where a tree has no room: then it is done.
        if self.is_done(joined) {
            joined.out.points.truncate(1);
            joined.out.ring_ends.truncate(0);
            joined.out.polygon_ends.truncate(0);
            return true;
        }
        joined.outcome == Err(JoinFault::OutOfMemory)
            && has_joined(&joined.out.points, &[])
            && joined.out.ring_ends.is_empty()
            && joined.out.polygon_ends.is_empty()
    }

    fn is_done(&self, joined: &mut Joined<'a>) -> bool {
        joined.outcome == Ok(()) && has_joined(&joined.out.points, &self.wanted)
    }
}

#[test]
fn join_keeps_out_at_each_refusal(rt: HostRuntime) -> Result<(), Fail> {
    let memory = Refusing::new(rt.alloc());
    let joining = Joining {
        memory: &memory,
        windows: [window_of([0, 0, 10, 10]), window_of([10, 0, 20, 10])],
        points: points_of(rt.alloc(), GIVEN)?,
        wanted: points_of(rt.alloc(), WANTED)?,
    };
    assert!(rt; refuse_in_turn(&memory, &joining).is_ok_and(|requests| requests > 10));
    Ok(())
}
