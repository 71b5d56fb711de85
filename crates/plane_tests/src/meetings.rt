//! Worked sets of edges that meet.

use crate::edges::{Ends, edges_of};
use i_tree::Refusal;
use plane::edge::Edge;
use plane::meet::{first_meeting, meet, meetings, meetings_between};
use plane::pairs::pairs_upto;
use std::alloc::{Allocator, Global};
use std::test::Fail;

const LEAST: i32 = i32::MIN;

const MOST: i32 = i32::MAX;

// A set, and the pairs of places whose edges meet, in rising order.
struct Row {
    name: &'static str,
    edges: &'static [Ends],
    pairs: &'static [(usize, usize)],
}

static ROWS: [Row; 4] = [
    Row {
        name: "three through one point",
        edges: &[[0, 0, 10, 10], [0, 10, 10, 0], [5, -3, 5, 9]],
        pairs: &[(0, 1), (0, 2), (1, 2)],
    },
    Row {
        name: "one edge in three places",
        edges: &[[7, 2, -3, 5], [7, 2, -3, 5], [-3, 5, 7, 2]],
        pairs: &[(0, 1), (0, 2), (1, 2)],
    },
    Row {
        name: "level ones at 0",
        edges: &[
            [0, 0, 4, 0],
            [9, 0, 4, 0],
            [10, 0, 12, 0],
            [12, 0, 12, 0],
            [3, 0, 5, 0],
        ],
        pairs: &[(0, 1), (0, 4), (1, 4), (2, 3)],
    },
    Row {
        // The first two cross between whole points; (0, 2) and (1, 3) only come near each other.
        name: "at the ends of the numbers",
        edges: &[
            [LEAST, LEAST, MOST, MOST],
            [LEAST, MOST, MOST, LEAST],
            [LEAST, MOST, -1, 0],
            [0, 0, 0, 0],
            [MOST, MOST, MOST, LEAST],
            [LEAST, MOST, LEAST, MOST],
        ],
        pairs: &[(0, 1), (0, 3), (0, 4), (1, 2), (1, 4), (1, 5), (2, 5)],
    },
];

// The pairs of places whose edges meet, in rising order. Each is two indices of the list, by a clause.
fn sorted_meetings(alloc: Global, edges: &[Edge]) -> Result<Vec<(usize, usize)>, Fail> {
    let mut pairs = Vec::new(alloc);
    meetings(edges, &mut pairs)?;
    for (one, other) in &pairs {
        if !meet(edges[*one], edges[*other]) {
            return Err("a pair that is apart").map_err(Fail::from);
        }
    }
    pairs.sort_unstable();
    Ok(pairs)
}

fn is_met(alloc: Global, row: &Row) -> Result<bool, Fail> {
    let edges = edges_of(alloc, row.edges)?;
    Ok(sorted_meetings(alloc, &edges)?.as_slice() == row.pairs)
}

// Whether the first meeting is one of the pairs, or none where there are none.
fn is_first(alloc: Global, row: &Row) -> Result<bool, Fail> {
    let edges = edges_of(alloc, row.edges)?;
    Ok(match first_meeting(alloc, &edges)? {
        Some((one, other)) => {
            row.pairs.contains(&(one, other)) && meet(edges[one], edges[other])
        }
        None => row.pairs.is_empty(),
    })
}

fn meetings_upto<A: Allocator + Copy>(
    edges: &[Edge],
    most: usize,
    out: &mut Vec<(usize, usize), A>,
) -> Result<bool, Refusal> {
    pairs_upto(edges, most, out)
}

// Whether all pairs are told up to their number, and up to two fewer more than these.
fn is_met_upto(alloc: Global, row: &Row) -> Result<bool, Fail> {
    let edges = edges_of(alloc, row.edges)?;
    let count = row.pairs.len();
    let mut pairs = Vec::new(alloc);
    let are_all = meetings_upto(&edges, count, &mut pairs)?;
    pairs.sort_unstable();
    let fewer = count.saturating_sub(2);
    let mut some = Vec::new(alloc);
    let are_some_all = meetings_upto(&edges, fewer, &mut some)?;
    let are_of_row = some.iter().all(|pair| row.pairs.contains(pair));
    Ok(
        are_all
            && pairs.as_slice() == row.pairs
            && are_of_row
            && are_some_all == (count == 0)
            && (count == 0 || some.len() > fewer),
    )
}

// Whether the edges before the middle meet those behind it as the pairs say.
fn is_met_between(alloc: Global, row: &Row) -> Result<bool, Fail> {
    let middle = row.edges.len() / 2;
    let (ends, other_ends) = row.edges.split_at(middle);
    let (edges, others) = (edges_of(alloc, ends)?, edges_of(alloc, other_ends)?);
    let mut pairs = Vec::new(alloc);
    meetings_between(&edges, &others, &mut pairs)?;
    let all = pairs
        .iter()
        .all(|(one, other)| meet(edges[*one], others[*other]));
    pairs.sort_unstable();
    let mut wanted = Vec::new(alloc);
    for (first, second) in row.pairs {
        if *first < middle && middle <= *second {
            wanted.push((*first, *second - middle))?;
        }
    }
    Ok(all && pairs == wanted)
}

#[test]
fn sets_meet_as_worked_by_hand(rt: HostRuntime) -> Result<(), Fail> {
    for row in &ROWS {
        assert!(rt; is_met(rt.alloc(), row)?, "{}", row.name);
        assert!(rt; is_first(rt.alloc(), row)?, "{}", row.name);
        assert!(rt; is_met_upto(rt.alloc(), row)?, "{}", row.name);
        assert!(rt; is_met_between(rt.alloc(), row)?, "{}", row.name);
    }
    Ok(())
}
