//! Each request for memory of a sweep, of its store and of `out`, refused in turn.

use crate::worked::{EARLIER, is_empty, is_wanted};
use horizontal::{Level, Point, Segment, SweepFault, below};
use i_tree::Refusal;
use i_tree::key::tree::KeyExpTree;
use std::alloc::Global;
use std::test::Fail;
use test_kit::Refusing;
use test_kit::in_turn::{Trial, refuse_in_turn};

type Memory<'a> = &'a Refusing<Global>;

type Tree<'a> = KeyExpTree<Level, i32, Option<i32>, Memory<'a>>;

// A sweep over segments above one another, which all cover one x, with a point on each there; and its answers.
#[derive(Drop)]
struct Stack<'a> {
    memory: Memory<'a>,
    segments: Vec<Segment>,
    points: Vec<Point>,
    answers: Vec<Option<i32>>,
}

// The store and `out`, and how the last sweep ended.
#[derive(Drop)]
struct Swept<'a> {
    store: Tree<'a>,
    out: Vec<Option<i32>, Memory<'a>>,
    outcome: Result<(), SweepFault>,
}

impl Swept<'_> {
    // Whether the sweep ended so, and left the store empty.
    fn has_ended(&mut self, wanted: Result<&[Option<i32>], SweepFault>) -> bool {
        is_wanted(wanted, self.outcome, &self.out) && is_empty(&mut self.store)
    }
}

impl<'a> Trial for Stack<'a> {
    type State = Swept<'a>;

    fn begin(&self) -> Option<Swept<'a>> {
        let store = KeyExpTree::new(self.memory, 0).ok()?;
        let mut out = Vec::new(self.memory);
        out.push(EARLIER).ok()?;
        Some(Swept {
            store,
            out,
            outcome: Ok(()),
        })
    }

    fn call(&self, swept: &mut Swept<'a>) {
        let Swept {
            store,
            out,
            outcome,
        } = swept;
        *outcome = below(store, &self.segments, &self.points, out);
    }

    fn is_refused(&self, swept: &mut Swept<'a>, _nth: u64) -> bool {
        swept.has_ended(Err(SweepFault::Refused(Refusal::OutOfMemory)))
    }

    fn is_done(&self, swept: &mut Swept<'a>) -> bool {
        swept.has_ended(Ok(&self.answers))
    }
}

#[test]
fn keeps_out_at_each_refusal(rt: HostRuntime) -> Result<(), Fail> {
    let memory = Refusing::new(rt.alloc());
    let mut segments = Vec::new(rt.alloc());
    let mut points = Vec::new(rt.alloc());
    let mut answers = Vec::new(rt.alloc());
    for y in 1..=20 {
        segments.push(Segment { x0: y, x1: 30, y })?;
        points.push(Point { x: 25, y })?;
        answers.push(Some(y))?;
    }
    let stack = Stack {
        memory: &memory,
        segments,
        points,
        answers,
    };
    assert!(rt; matches!(refuse_in_turn(&memory, &stack), Ok(4..)));
    Ok(())
}
