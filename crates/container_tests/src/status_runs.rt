//! Runs of commands over a status, with each request for memory refused in turn.

use crate::sloped::Sloped;
use crate::statuses::{Sought, stands, through};
use i_tree::Refusal;
use i_tree::status::exp::StatusCollection;
use i_tree::status::tree::StatusTree;
use runs::{StatusCommand, StatusReply, run_status};
use std::alloc::Allocator;
use test_kit::Refusing;
use test_kit::in_turn::{Trial, refuse_in_turn};

type Command = StatusCommand<Sloped, i32, i32, Sought>;

type Reply = StatusReply<Sloped, i32>;

// Runs the commands, and appends their replies to `out`.
fn run_commands<C: StatusCollection<Sloped, i32, i32>, B: Allocator>(
    status: &mut C,
    commands: &[Command],
    out: &mut Vec<Reply, B>,
) -> Result<(), Refusal> {
    run_status(status, commands, stands, out)
}

// An insertion at 0 of a level segment.
fn insertion(number: i32) -> Command {
    let height = i64::from(number);
    StatusCommand::InsertBy {
        key: through(height, 0, 10),
        val: number,
        time: 0,
        probe: Sought { time: 0, height },
    }
}

// A run of each command, behind a clearing. There is room for seven: the eighth insertion takes slots.
fn commands() -> [Command; 14] {
    let at_most = StatusCommand::LessOrEqualBy {
        time: 3,
        default: -1,
        probe: Sought { time: 3, height: 4 },
    };
    [
        StatusCommand::Clear,
        insertion(1),
        insertion(2),
        insertion(3),
        insertion(4),
        insertion(5),
        insertion(6),
        insertion(7),
        insertion(8),
        insertion(1),
        at_most,
        StatusCommand::GreaterBy {
            time: 3,
            default: -1,
            probe: Sought { time: 3, height: 4 },
        },
        StatusCommand::NeighboursBy {
            time: 4,
            probe: Sought { time: 4, height: 0 },
        },
        at_most,
    ]
}

// Its replies, with that to the eighth insertion.
fn replies(eighth: Reply) -> [Reply; 14] {
    [
        StatusReply::Cleared,
        StatusReply::Inserted,
        StatusReply::Inserted,
        StatusReply::Inserted,
        StatusReply::Inserted,
        StatusReply::Inserted,
        StatusReply::Inserted,
        StatusReply::Inserted,
        eighth,
        StatusReply::Present,
        StatusReply::Value(4),
        StatusReply::Value(5),
        StatusReply::Neighbours(None, Some((through(1, 0, 10), 1))),
        StatusReply::Late,
    ]
}

#[derive(Drop)]
struct Running<A: Allocator + Copy> {
    memory: A,
}

#[derive(Drop)]
struct Run<A: Allocator + Copy> {
    status: StatusTree<Sloped, i32, i32, A>,
    out: Vec<Reply, A>,
    answer: Result<(), Refusal>,
}

impl<A: Allocator + Copy> Trial for Running<A> {
    type State = Run<A>;

    fn begin(&self) -> Option<Run<A>> {
        Some(Run {
            status: StatusTree::new(self.memory, 0).ok()?,
            out: Vec::new(self.memory),
            answer: Ok(()),
        })
    }

    fn call(&self, run: &mut Run<A>) {
        run.out.clear();
        run.answer = run_commands(&mut run.status, &commands(), &mut run.out);
    }

    // Without room for the replies nothing is done. Where a growth is refused, the run goes on.
    fn is_refused(&self, run: &mut Run<A>, nth: u64) -> bool {
        if nth == 1 {
            return run.answer == Err(Refusal::OutOfMemory)
                && run.out.is_empty()
                && run.status.stored() == 0;
        }
        let wanted = replies(StatusReply::Refused(Refusal::OutOfMemory));
        run.answer == Ok(()) && run.out.as_slice() == wanted.as_slice()
    }

    fn is_done(&self, run: &mut Run<A>) -> bool {
        let wanted = replies(StatusReply::Inserted);
        run.answer == Ok(()) && run.out.as_slice() == wanted.as_slice()
    }
}

#[test]
fn a_run_goes_on_after_a_refused_growth(rt: HostRuntime) {
    let memory = Refusing::new(rt.alloc());
    let running = Running { memory: &memory };
    assert!(rt; refuse_in_turn(&memory, &running) == Ok(2));
}
