//! The counted calls of a tree of keys, by a counter that a running program can read.

use crate::timed_key::{TimedKey, timed};
use i_tree::Refusal;
use i_tree::key::tree::KeyExpTree;
use i_tree::steps::Counter;
use std::alloc::Allocator;

/// How often each thing was counted.
#[derive(Clone, Copy)]
pub struct Made {
    comparisons: u64,
    tests: u64,
    removals: u64,
    rotations: u64,
}

/// Any counts may have been made.
impl Counter for Made {
    ghost use Rattle.std.specs.Prelude.{⊤};
    ghost use Rattle.i_tree.specs.Laws.Counters.{any-accumulate};

    ghost made = { λ _ _ _. ⊤ };

    fn add_comparison(&mut self) {
        self.comparisons = self.comparisons.saturating_add(1);
    }

    fn add_test(&mut self) {
        self.tests = self.tests.saturating_add(1);
    }

    fn add_removal(&mut self) {
        self.removals = self.removals.saturating_add(1);
    }

    fn add_rotation(&mut self) {
        self.rotations = self.rotations.saturating_add(1);
    }

    ghost law = { any-accumulate };
}

const NOTHING: Made = Made {
    comparisons: 0,
    tests: 0,
    removals: 0,
    rotations: 0,
};

type Tree<A> = KeyExpTree<TimedKey, i32, i32, A>;

// A query about 9 at 2.
#[derive(Clone, Copy)]
enum Query {
    Below,
    AtMost,
    Above,
}

// Keys that are inserted in this order at 0, each its own value, with their ends. Then a query, what it answers, and its
// comparisons, tests and removals. How often the tree turns is open in the clauses, up to a bound, and so are the comparisons.
struct Row {
    name: &'static str,
    keys: &'static [(i32, i32)],
    query: Query,
    answer: i32,
    made: (u64, u64, u64),
    // How often the insertions turn the tree, and how often the query does.
    rotations: (u64, u64),
}

const THIRD_EXPIRED: &[(i32, i32)] = &[(1, 10), (2, 10), (3, 1), (4, 10)];

static ROWS: &[Row] = &[
    Row {
        name: "on at what takes the place",
        keys: THIRD_EXPIRED,
        query: Query::Below,
        answer: 4,
        made: (2, 3, 1),
        rotations: (1, 0),
    },
    Row {
        name: "above all",
        keys: THIRD_EXPIRED,
        query: Query::Above,
        answer: -1,
        made: (2, 3, 1),
        rotations: (1, 0),
    },
    Row {
        name: "where a removal turns the tree",
        keys: &[(4, 10), (2, 10), (5, 1), (1, 10)],
        query: Query::AtMost,
        answer: 4,
        made: (1, 2, 1),
        rotations: (0, 1),
    },
];

// Inserts the keys, half of them by each call.
fn insert_all<C: Counter, A: Allocator + Copy>(
    tree: &mut Tree<A>,
    keys: &[(i32, i32)],
    made: &mut C,
) -> Result<(), Refusal> {
    for (number, end) in keys {
        let key = timed(*number, *end);
        if number % 2 == 0 || tree.contains_key_counted(made, 0, key) {
            tree.insert_new_counted(made, key, *number, 0)?;
        } else {
            tree.insert_counted(made, key, *number, 0)?;
        }
    }
    Ok(())
}

fn ask<C: Counter, A: Allocator + Copy>(tree: &mut Tree<A>, query: Query, made: &mut C) -> i32 {
    let stands = |key: TimedKey| key.key.cmp(&9);
    match query {
        Query::Below => tree.first_less_counted(made, 2, -1, timed(9, 0)),
        Query::AtMost => tree.first_less_or_equal_by_counted(made, 2, -1, stands),
        Query::Above => tree.first_greater_by_counted(made, 2, -1, stands),
    }
}

// Inserts the keys and asks, and compares the answer and the counts.
fn goes_down<A: Allocator + Copy>(row: &Row, memory: A) -> Option<bool> {
    let mut tree = KeyExpTree::new(memory, 0).ok()?;
    let mut put = NOTHING;
    insert_all(&mut tree, row.keys, &mut put).ok()?;
    let mut made = NOTHING;
    let answer = ask(&mut tree, row.query, &mut made);
    let counts = (made.comparisons, made.tests, made.removals);
    let turned = (put.rotations, made.rotations);
    Some(answer == row.answer && counts == row.made && turned == row.rotations)
}

#[test]
fn a_descent_counts_what_it_makes(rt: HostRuntime) {
    for row in ROWS {
        let name = row.name;
        assert!(rt; goes_down(row, rt.alloc()) == Some(true), "{name}");
    }
}
