//! Each request of `crop` for memory refused in turn.

use crate::worked::{EARLIER, has_joined, window_of};
use plane::point::Point;
use std::alloc::Global;
use std::test::Fail;
use test_kit::Refusing;
use test_kit::in_turn::{Trial, refuse_in_turn};
use tiles::{CropFault, crop};

// A ring in the window.
#[derive(Drop)]
struct Cropping<'a> {
    memory: &'a Refusing<Global>,
    ring: Vec<Point>,
}

// The points behind one that was there.
#[derive(Drop)]
struct Cropped<'a> {
    out: Vec<Point, &'a Refusing<Global>>,
    outcome: Result<(), CropFault>,
}

impl<'a> Trial for Cropping<'a> {
    type State = Cropped<'a>;

    fn begin(&self) -> Option<Cropped<'a>> {
        let mut out = Vec::new(self.memory);
        out.push(EARLIER).ok()?;
        Some(Cropped {
            out,
            outcome: Ok(()),
        })
    }

    fn call(&self, cropped: &mut Cropped<'a>) {
        cropped.outcome = crop(&self.ring, window_of([0, 0, 99, 99]), &mut cropped.out);
    }

    fn is_refused(&self, cropped: &mut Cropped<'a>, _nth: u64) -> bool {
        cropped.outcome == Err(CropFault::OutOfMemory) && has_joined(&cropped.out, &[])
    }

    fn is_done(&self, cropped: &mut Cropped<'a>) -> bool {
        cropped.outcome == Ok(()) && has_joined(&cropped.out, &self.ring)
    }
}

#[test]
fn crop_keeps_out_at_each_refusal(rt: HostRuntime) -> Result<(), Fail> {
    let memory = Refusing::new(rt.alloc());
    let mut ring = Vec::new(rt.alloc());
    for place in 0..60 {
        ring.push(Point {
            x: place,
            y: place % 7,
        })?;
    }
    let cropping = Cropping {
        memory: &memory,
        ring,
    };
    assert!(rt; refuse_in_turn(&memory, &cropping).is_ok_and(|requests| requests > 3));
    Ok(())
}
