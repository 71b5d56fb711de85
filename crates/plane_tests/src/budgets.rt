//! When searches for pairs give up: no clause says it, so this may change with the code.

use crate::edges::edge;
use i_tree::Refusal;
use plane::edge::Edge;
use plane::meet::{meet, meetings};
use plane::pairs::{Budget, pairs_within_budget};
use std::alloc::{Allocator, Global};
use std::test::Fail;

// Of the more a sample is taken before a search begins.
const COUNTS: [i32; 2] = [300, 2_500];

// Edges beside each other, as a hatching has them: all boxes overlap, and none meet.
fn hatching(alloc: Global, count: i32) -> Result<Vec<Edge>, Fail> {
    let mut edges = Vec::new(alloc);
    for place in 0..count {
        let low = place.saturating_mul(2);
        edges.push(edge([0, low, 2000, low.saturating_add(2000)]))?;
    }
    Ok(edges)
}

// A line of edges, each of which meets the next one.
fn zigzag(alloc: Global, count: i32) -> Result<Vec<Edge>, Fail> {
    let mut edges = Vec::new(alloc);
    for place in 0..count {
        let left = place.saturating_mul(4);
        let low = place % 2;
        edges.push(edge([left, low, left.saturating_add(4), 1 - low]))?;
    }
    Ok(edges)
}

fn found<A: Allocator + Copy>(
    edges: &[Edge],
    tests: usize,
    out: &mut Vec<(usize, usize), A>,
) -> Result<bool, Refusal> {
    let budget = Budget {
        tests,
        per_pair: 16,
    };
    pairs_within_budget(edges, budget, out)
}

#[test]
fn a_search_gives_up_where_many_boxes_overlap(rt: HostRuntime) -> Result<(), Fail> {
    for count in COUNTS {
        let edges = hatching(rt.alloc(), count)?;
        let few = edges.len().saturating_mul(16);
        let enough = edges.len().saturating_mul(edges.len());
        let mut pairs = Vec::new(rt.alloc());
        pairs.push((7, 8))?;
        assert!(rt; !found(&edges, few, &mut pairs)?, "few tests");
        assert!(rt; found(&edges, enough, &mut pairs)?, "enough tests");
        assert!(rt; pairs.as_slice() == [(7, 8)].as_slice(), "no pair came");
    }
    Ok(())
}

#[test]
fn each_pair_that_is_found_allows_more_tests(rt: HostRuntime) -> Result<(), Fail> {
    for count in COUNTS {
        let edges = zigzag(rt.alloc(), count)?;
        let mut pairs = Vec::new(rt.alloc());
        assert!(rt;
            found(&edges, 16, &mut pairs)?,
            "few tests, and sixteen for each pair"
        );
        assert!(rt; pairs.len() + 1 == edges.len(), "neighbours");
    }
    Ok(())
}

// How many pairs of edges meet, by trying each.
fn count_meetings(edges: &[Edge]) -> usize {
    let mut count = 0usize;
    for (place, one) in edges.iter().enumerate() {
        let met = edges[place..].iter().filter(|other| meet(*one, **other));
        count = count.saturating_add(met.count().saturating_sub(1));
    }
    count
}

#[test]
fn what_crosses_a_hatching_is_found_by_columns(rt: HostRuntime) -> Result<(), Fail> {
    let mut edges = hatching(rt.alloc(), COUNTS[0])?;
    for ends in [
        [-10, 1000, 3000, 1000],
        [500, -10, 500, 4000],
        [0, 0, 2000, 2000],
        [1000, 1000, 3000, 3000],
        [2000, 2000, 2000, 2000],
        [2000, 2000, 2000, 2000],
    ] {
        edges.push(edge(ends))?;
    }
    let mut pairs = Vec::new(rt.alloc());
    meetings(&edges, &mut pairs)?;
    assert!(rt; pairs.len() == count_meetings(&edges), "as many as meet");
    Ok(())
}
