//! Which faults a trial of refused memory tells.

use std::alloc::Allocator;
use test_kit::Refusing;
use test_kit::in_turn::{Fault, Trial, refuse_in_turn};

// Two vectors, and whether an item went to both.
#[derive(Drop)]
struct Pair<A: Allocator + Copy> {
    first: Vec<u8, A>,
    second: Vec<u8, A>,
    is_pushed: bool,
}

// How an item goes to both vectors.
#[derive(Clone, Copy)]
enum Way {
    // Room for both is taken first.
    Whole,
    // The first has it where the second was refused.
    Halved,
    // It answers that it was refused, always.
    Never,
    // It goes to neither where there is no room.
    WithoutGrowth,
}

#[derive(Drop)]
struct Pushing<A: Allocator + Copy> {
    memory: A,
    way: Way,
}

impl<A: Allocator + Copy> Trial for Pushing<A> {
    type State = Pair<A>;

    fn begin(&self) -> Option<Pair<A>> {
        Some(Pair {
            first: Vec::new(self.memory),
            second: Vec::new(self.memory),
            is_pushed: false,
        })
    }

    fn call(&self, pair: &mut Pair<A>) {
        let is_roomy = match self.way {
            Way::Whole | Way::Never => {
                pair.first.reserve(1).is_ok() && pair.second.reserve(1).is_ok()
            }
            Way::Halved => true,
            Way::WithoutGrowth => false,
        };
        let is_pushed = is_roomy && pair.first.push(7).is_ok() && pair.second.push(7).is_ok();
        pair.is_pushed = is_pushed && !matches!(self.way, Way::Never);
    }

    fn is_refused(&self, pair: &mut Pair<A>, _nth: u64) -> bool {
        !pair.is_pushed && pair.first.is_empty() && pair.second.is_empty()
    }

    fn is_done(&self, pair: &mut Pair<A>) -> bool {
        let is_in_both = pair.first.len() == 1 && pair.second.len() == 1;
        matches!(self.way, Way::WithoutGrowth) || (pair.is_pushed && is_in_both)
    }
}

#[test]
fn tells_a_call_that_does_all_or_nothing_from_others(rt: HostRuntime) {
    let memory = Refusing::new(rt.alloc());
    for (way, outcome) in [
        (Way::Whole, Ok(2)),
        (Way::Halved, Err(Fault::AfterRefusal { nth: 2 })),
        (Way::Never, Err(Fault::MadeAgain { nth: 1 })),
        (Way::WithoutGrowth, Err(Fault::NoRequest)),
    ] {
        let pushing = Pushing {
            memory: &memory,
            way,
        };
        assert!(rt; refuse_in_turn(&memory, &pushing) == outcome);
    }
}
