//! Calls that append pairs of places, with each request for memory refused in turn.

use crate::edges::edge;
use crate::points::{Dot, points_on};
use i_tree::Refusal;
use plane::edge::Edge;
use plane::meet::meetings;
use std::alloc::Global;
use std::test::Fail;
use test_kit::Refusing;
use test_kit::in_turn::{Trial, refuse_in_turn};

// The pairs behind one that was there.
#[derive(Drop)]
struct Told<'a> {
    pairs: Vec<(usize, usize), &'a Refusing<Global>>,
    outcome: Result<(), Refusal>,
}

// The edges that meet, or, where there are points, those on which they lie; and how many pairs there are.
#[derive(Drop)]
struct Telling<'a> {
    memory: &'a Refusing<Global>,
    edges: Vec<Edge>,
    dots: Vec<Dot>,
    count: usize,
}

impl<'a> Trial for Telling<'a> {
    type State = Told<'a>;

    fn begin(&self) -> Option<Told<'a>> {
        let mut pairs = Vec::new(self.memory);
        pairs.push((9, 9)).ok()?;
        Some(Told {
            pairs,
            outcome: Ok(()),
        })
    }

    fn call(&self, told: &mut Told<'a>) {
        told.outcome = if self.dots.is_empty() {
            meetings(&self.edges, &mut told.pairs)
        } else {
            points_on(&self.edges, &self.dots, &mut told.pairs)
        };
    }

    fn is_refused(&self, told: &mut Told<'a>, _nth: u64) -> bool {
        // A list that is collected grows step by step where it isn't given its room at once.
        if self.is_done(told) {
            told.pairs.truncate(1);
            return true;
        }
        told.outcome == Err(Refusal::OutOfMemory) && told.pairs.as_slice() == [(9, 9)].as_slice()
    }

    fn is_done(&self, told: &mut Told<'a>) -> bool {
        let Some((first, pairs)) = told.pairs.split_first() else {
            return false;
        };
        told.outcome == Ok(()) && *first == (9, 9) && pairs.len() == self.count
    }
}

// Each level edge meets each upright one, which boxes around runs tell.
fn crossing_edges(alloc: Global) -> Result<Vec<Edge>, Refusal> {
    let mut edges = Vec::new(alloc);
    for place in 0..36 {
        edges.push(edge([0, place, 36, place]))?;
        edges.push(edge([place, 0, place, 35]))?;
    }
    Ok(edges)
}

// Those that follow each other lie far apart, so that a sweep is made. Four stand at each height.
fn scattered_edges(alloc: Global) -> Result<Vec<Edge>, Refusal> {
    let mut edges = Vec::new(alloc);
    for place in 0..72i32 {
        let height = place.saturating_mul(7) % 18 * 40;
        edges.push(edge([place, height, place.saturating_add(720), height]))?;
    }
    Ok(edges)
}

#[test]
fn meetings_keep_out_at_each_refusal(rt: HostRuntime) -> Result<(), Fail> {
    let memory = Refusing::new(rt.alloc());
    let both = [
        (crossing_edges(rt.alloc())?, 1296),
        (scattered_edges(rt.alloc())?, 108),
    ];
    for (edges, count) in both {
        let telling = Telling {
            memory: &memory,
            edges,
            dots: Vec::new(rt.alloc()),
            count,
        };
        assert!(rt; refuse_in_turn(&memory, &telling).is_ok_and(|requests| requests > 8));
    }
    Ok(())
}

#[test]
fn points_keep_out_at_each_refusal(rt: HostRuntime) -> Result<(), Fail> {
    let memory = Refusing::new(rt.alloc());
    // Each point lies on each edge.
    let mut edges = Vec::new(rt.alloc());
    let mut dots = Vec::new(rt.alloc());
    for place in 0..12 {
        edges.push(edge([0, 0, 12, 12]))?;
        dots.push(Dot { x: place, y: place })?;
    }
    let telling = Telling {
        memory: &memory,
        edges,
        dots,
        count: 144,
    };
    assert!(rt; refuse_in_turn(&memory, &telling).is_ok_and(|requests| requests > 4));
    Ok(())
}
