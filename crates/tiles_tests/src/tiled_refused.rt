//! Each request of `overlay_in` for memory refused in turn.

use crate::worked::{EARLIER, has_joined, points_of, window_of};
use overlay::{FillRule, Operation, Polygons, Rings};
use plane::point::Point;
use std::alloc::Global;
use std::test::Fail;
use test_kit::Refusing;
use test_kit::in_turn::{Trial, refuse_in_turn};
use tiles::{TileFault, overlay_in};

// A ring that crosses the border of the window.
#[derive(Drop)]
struct Tiling<'a> {
    memory: &'a Refusing<Global>,
    ring: Vec<Point>,
    wanted: Vec<Point>,
}

// The polygons behind a point that was there.
#[derive(Drop)]
struct Tiled<'a> {
    out: Polygons<&'a Refusing<Global>>,
    outcome: Result<(), TileFault>,
}

impl<'a> Trial for Tiling<'a> {
    type State = Tiled<'a>;

    fn begin(&self) -> Option<Tiled<'a>> {
        let mut out = Polygons::new(self.memory);
        out.points.push(EARLIER).ok()?;
        Some(Tiled {
            out,
            outcome: Ok(()),
        })
    }

    fn call(&self, tiled: &mut Tiled<'a>) {
        let subject = Rings {
            points: &self.ring,
            ends: &[4],
        };
        let clip = Rings {
            points: &[],
            ends: &[],
        };
        tiled.outcome = overlay_in(
            window_of([0, 0, 10, 10]),
            subject,
            clip,
            FillRule::NonZero,
            Operation::Union,
            &mut tiled.out,
        );
    }

    fn is_refused(&self, tiled: &mut Tiled<'a>, _nth: u64) -> bool {
        // The edges in the air may go into a list, where a tree has no room: then it is done.
        if self.is_done(tiled) {
            tiled.out.points.truncate(1);
            tiled.out.ring_ends.truncate(0);
            tiled.out.polygon_ends.truncate(0);
            return true;
        }
        tiled.outcome == Err(TileFault::OutOfMemory)
            && has_joined(&tiled.out.points, &[])
            && tiled.out.ring_ends.is_empty()
            && tiled.out.polygon_ends.is_empty()
    }

    fn is_done(&self, tiled: &mut Tiled<'a>) -> bool {
        tiled.outcome == Ok(()) && has_joined(&tiled.out.points, &self.wanted)
    }
}

#[test]
fn overlay_in_keeps_out_at_each_refusal(rt: HostRuntime) -> Result<(), Fail> {
    let memory = Refusing::new(rt.alloc());
    let tiling = Tiling {
        memory: &memory,
        ring: points_of(rt.alloc(), &[(5, 5), (20, 5), (20, 20), (5, 20)])?,
        wanted: points_of(rt.alloc(), &[(5, 5), (10, 5), (10, 10), (5, 10)])?,
    };
    assert!(rt; refuse_in_turn(&memory, &tiling).is_ok_and(|requests| requests > 10));
    Ok(())
}
