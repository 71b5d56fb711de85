//! Each request for memory of a call of `locate` refused in turn, and a status that refuses each edge.

use crate::edges::{Ends, edge};
use crate::located::{EARLIER, Wanted, is_empty, is_wanted};
use i_tree::status::exp::StatusCollection;
use i_tree::{Expiration, ExpiredVal, Refusal};
use plane::edge::Edge;
use plane::locate::{ActiveEdge, LocateFault, Point, locate};
use plane::sweep_line::GrowingStatus;
use std::alloc::Global;
use std::cmp::Ordering;
use std::test::Fail;
use test_kit::Refusing;
use test_kit::in_turn::{Trial, refuse_in_turn};

type Memory<'a> = &'a Refusing<Global>;

type Status<'a> = GrowingStatus<ActiveEdge, i64, (), Memory<'a>>;

// Edges above one another, which all cover one x, with a point on each there; and their places.
#[derive(Drop)]
struct Stack<'a> {
    memory: Memory<'a>,
    edges: Vec<Edge>,
    points: Vec<Point>,
    answers: Vec<Option<usize>>,
}

// The status and `out`, and how the last call ended.
#[derive(Drop)]
struct Located<'a> {
    status: Status<'a>,
    out: Vec<Option<usize>, Memory<'a>>,
    outcome: Result<(), LocateFault>,
}

impl Located<'_> {
    // Whether the call ended so, and left the status empty.
    fn has_ended(&mut self, wanted: Wanted) -> bool {
        is_wanted(wanted, self.outcome, &self.out) && is_empty(&mut self.status)
    }
}

impl<'a> Trial for Stack<'a> {
    type State = Located<'a>;

    fn begin(&self) -> Option<Located<'a>> {
        let status = GrowingStatus::new(self.memory).ok()?;
        let mut out = Vec::new(self.memory);
        out.push(EARLIER).ok()?;
        Some(Located {
            status,
            out,
            outcome: Ok(()),
        })
    }

    fn call(&self, located: &mut Located<'a>) {
        let Located {
            status,
            out,
            outcome,
        } = located;
        *outcome = locate(status, &self.edges, &self.points, out);
    }

    // Where the tree is refused the room, all edges stay in the list, and the call goes on.
    fn is_refused(&self, located: &mut Located<'a>, _nth: u64) -> bool {
        if located.outcome == Ok(()) {
            let is_done = self.is_done(located);
            located.out.truncate(1);
            return is_done;
        }
        located.has_ended(Err(LocateFault::Refused(Refusal::OutOfMemory)))
    }

    fn is_done(&self, located: &mut Located<'a>) -> bool {
        located.has_ended(Ok(&self.answers))
    }
}

// So many edges above one another, with a point on each.
fn stack_of<'a>(memory: Memory<'a>, alloc: Global, count: u8) -> Result<Stack<'a>, Fail> {
    let mut edges = Vec::new(alloc);
    let mut points = Vec::new(alloc);
    let mut answers = Vec::new(alloc);
    for place in 0..count {
        let y = place as i32;
        edges.push(edge([0, y, 30, y]))?;
        points.push(Point { x: 25, y })?;
        answers.push(Some(place as usize))?;
    }
    Ok(Stack {
        memory,
        edges,
        points,
        answers,
    })
}

#[test]
fn keeps_out_at_each_refusal(rt: HostRuntime) -> Result<(), Fail> {
    let memory = Refusing::new(rt.alloc());
    // More than a list takes.
    let stack = stack_of(&memory, rt.alloc(), 140)?;
    assert!(rt; matches!(refuse_in_turn(&memory, &stack), Ok(4..)));
    Ok(())
}

// A status without a handle: it takes no edge.
#[derive(Drop)]
struct Full;

impl<K: ExpiredVal<E>, E: Expiration, V: Copy> StatusCollection<K, E, V> for Full {
    ghost use Rattle.std.specs.Prelude.{[]};

    ghost stored = { λ full. [] };

    fn insert_by<F: Fn(K) -> Ordering>(
        &mut self,
        _time: E,
        _f: F,
        _key: K,
        _val: V,
    ) -> Result<bool, Refusal> {
        Err(Refusal::NoHandle)
    }

    fn insert_between<F: Fn(K) -> Ordering>(
        &mut self,
        _time: E,
        _f: F,
        _key: K,
        _val: V,
    ) -> Result<Option<(Option<(K, V)>, Option<(K, V)>)>, Refusal> {
        Err(Refusal::NoHandle)
    }

    fn first_less_or_equal_by<F: Fn(K) -> Ordering>(&mut self, _time: E, default: V, _f: F) -> V {
        default
    }

    fn first_greater_by<F: Fn(K) -> Ordering>(&mut self, _time: E, default: V, _f: F) -> V {
        default
    }

    fn neighbours_by<F: Fn(K) -> Ordering>(
        &mut self,
        _time: E,
        _f: F,
    ) -> (Option<(K, V)>, Option<(K, V)>) {
        (None, None)
    }

    fn clear(&mut self) {}
}

// An edge over a status without a handle, and what is wanted of a point above its start. An upright one doesn't stand in the
// status.
static REFUSED: [(Ends, Wanted<'static>); 2] = [
    ([0, 0, 9, 9], Err(LocateFault::Refused(Refusal::NoHandle))),
    ([0, 0, 0, 9], Ok(&[None])),
];

#[test]
fn tells_the_refusal_of_the_status(rt: HostRuntime) -> Result<(), Fail> {
    for (ends, wanted) in &REFUSED {
        let mut out = vec![in rt.alloc(); EARLIER]?;
        let outcome = locate(&mut Full, &[edge(*ends)], &[Point { x: 0, y: 9 }], &mut out);
        assert!(rt; is_wanted(*wanted, outcome, &out));
    }
    Ok(())
}
