//! Edges of rings and what a fill keeps of them, as worked by hand, and each request for memory refused in turn.

use crate::walks::{Regions, fill_walks};
use i_tree::Refusal;
use i_tree::status::tree::StatusTree;
use overlay::fill::{Choice, FillRule, Operation};
use plane::edge::Edge;
use plane::sweep_line::ActiveEdge;
use std::alloc::Global;
use std::test::Fail;
use test_kit::Refusing;
use test_kit::in_turn::{Trial, refuse_in_turn};

const LEAST: i32 = i32::MIN;

const MOST: i32 = i32::MAX;

/// Rings by their points, cut by hand where they meet, and for each choice the edges that a fill keeps of them, in any order, and
/// the polygons that these bound, without points on straight lines, of which each has its outer ring and then its holes.
pub struct Row {
    pub name: &'static str,
    pub subject: &'static [&'static [[i32; 2]]],
    pub clip: &'static [&'static [[i32; 2]]],
    pub answers: &'static [Answer],
}

pub type Answer = (
    Choice,
    &'static [[i32; 4]],
    &'static [&'static [&'static [[i32; 2]]]],
);

impl Row {
    /// The rings, by what they are overlaid.
    pub fn regions(&self, choice: Choice) -> Regions {
        Regions {
            subject: self.subject,
            clip: self.clip,
            choice,
        }
    }
}

pub const UNION: Choice = Choice {
    rule: FillRule::NonZero,
    operation: Operation::Union,
};

pub const INTERSECTION: Choice = Choice {
    rule: FillRule::NonZero,
    operation: Operation::Intersection,
};

pub const DIFFERENCE: Choice = Choice {
    rule: FillRule::NonZero,
    operation: Operation::Difference,
};

pub const XOR: Choice = Choice {
    rule: FillRule::NonZero,
    operation: Operation::Xor,
};

pub const EVEN_ODD: Choice = Choice {
    rule: FillRule::EvenOdd,
    operation: Operation::Union,
};

const EVEN_ODD_DIFFERENCE: Choice = Choice {
    rule: FillRule::EvenOdd,
    operation: Operation::Difference,
};

const EVEN_ODD_XOR: Choice = Choice {
    rule: FillRule::EvenOdd,
    operation: Operation::Xor,
};

const POSITIVE: Choice = Choice {
    rule: FillRule::Positive,
    operation: Operation::Union,
};

const NEGATIVE: Choice = Choice {
    rule: FillRule::Negative,
    operation: Operation::Union,
};

const SQUARE: &[[i32; 2]] = &[[0, 0], [2, 0], [2, 2], [0, 2]];

const SQUARE_BACK: &[[i32; 2]] = &[[0, 0], [0, 2], [2, 2], [2, 0]];

const AROUND: &[[i32; 4]] = &[[0, 0, 2, 0], [2, 0, 2, 2], [2, 2, 0, 2], [0, 2, 0, 0]];

const ONE_SQUARE: &[&[&[[i32; 2]]]] = &[&[SQUARE]];

pub static ROWS: [Row; 17] = [
    Row {
        name: "a square",
        subject: &[SQUARE],
        clip: &[],
        answers: &[
            (EVEN_ODD, AROUND, ONE_SQUARE),
            (UNION, AROUND, ONE_SQUARE),
            (POSITIVE, AROUND, ONE_SQUARE),
            (NEGATIVE, &[], &[]),
        ],
    },
    Row {
        name: "a square run the other way",
        subject: &[SQUARE_BACK],
        clip: &[],
        answers: &[
            (EVEN_ODD, AROUND, ONE_SQUARE),
            (UNION, AROUND, ONE_SQUARE),
            (POSITIVE, &[], &[]),
            (NEGATIVE, AROUND, ONE_SQUARE),
        ],
    },
    Row {
        name: "a square in a square",
        subject: &[
            &[[0, 0], [6, 0], [6, 6], [0, 6]],
            &[[2, 2], [4, 2], [4, 4], [2, 4]],
        ],
        clip: &[],
        answers: &[
            (
                EVEN_ODD,
                &[
                    [0, 0, 6, 0],
                    [6, 0, 6, 6],
                    [6, 6, 0, 6],
                    [0, 6, 0, 0],
                    [4, 2, 2, 2],
                    [2, 2, 2, 4],
                    [2, 4, 4, 4],
                    [4, 4, 4, 2],
                ],
                &[&[
                    &[[0, 0], [6, 0], [6, 6], [0, 6]],
                    &[[2, 2], [2, 4], [4, 4], [4, 2]],
                ]],
            ),
            (
                UNION,
                &[[0, 0, 6, 0], [6, 0, 6, 6], [6, 6, 0, 6], [0, 6, 0, 0]],
                &[&[&[[0, 0], [6, 0], [6, 6], [0, 6]]]],
            ),
            (
                POSITIVE,
                &[[0, 0, 6, 0], [6, 0, 6, 6], [6, 6, 0, 6], [0, 6, 0, 0]],
                &[&[&[[0, 0], [6, 0], [6, 6], [0, 6]]]],
            ),
        ],
    },
    Row {
        name: "a square in a square run the other way",
        subject: &[
            &[[0, 0], [6, 0], [6, 6], [0, 6]],
            &[[2, 2], [2, 4], [4, 4], [4, 2]],
        ],
        clip: &[],
        answers: &[
            (
                UNION,
                &[
                    [0, 0, 6, 0],
                    [6, 0, 6, 6],
                    [6, 6, 0, 6],
                    [0, 6, 0, 0],
                    [4, 2, 2, 2],
                    [2, 2, 2, 4],
                    [2, 4, 4, 4],
                    [4, 4, 4, 2],
                ],
                &[&[
                    &[[0, 0], [6, 0], [6, 6], [0, 6]],
                    &[[2, 2], [2, 4], [4, 4], [4, 2]],
                ]],
            ),
            (
                POSITIVE,
                &[
                    [0, 0, 6, 0],
                    [6, 0, 6, 6],
                    [6, 6, 0, 6],
                    [0, 6, 0, 0],
                    [4, 2, 2, 2],
                    [2, 2, 2, 4],
                    [2, 4, 4, 4],
                    [4, 4, 4, 2],
                ],
                &[&[
                    &[[0, 0], [6, 0], [6, 6], [0, 6]],
                    &[[2, 2], [2, 4], [4, 4], [4, 2]],
                ]],
            ),
        ],
    },
    Row {
        name: "squares that share an edge",
        subject: &[SQUARE],
        clip: &[&[[2, 0], [4, 0], [4, 2], [2, 2]]],
        answers: &[
            (
                UNION,
                &[
                    [0, 0, 2, 0],
                    [2, 0, 4, 0],
                    [4, 0, 4, 2],
                    [4, 2, 2, 2],
                    [2, 2, 0, 2],
                    [0, 2, 0, 0],
                ],
                &[&[&[[0, 0], [4, 0], [4, 2], [0, 2]]]],
            ),
            (INTERSECTION, &[], &[]),
        ],
    },
    Row {
        name: "squares that share a part of an edge",
        subject: &[&[[0, 0], [2, 0], [2, 1], [2, 2], [0, 2]]],
        clip: &[&[[2, 1], [4, 1], [4, 3], [2, 3], [2, 2]]],
        answers: &[(
            UNION,
            &[
                [0, 0, 2, 0],
                [2, 0, 2, 1],
                [2, 1, 4, 1],
                [4, 1, 4, 3],
                [4, 3, 2, 3],
                [2, 3, 2, 2],
                [2, 2, 0, 2],
                [0, 2, 0, 0],
            ],
            &[&[&[
                [0, 0],
                [2, 0],
                [2, 1],
                [4, 1],
                [4, 3],
                [2, 3],
                [2, 2],
                [0, 2],
            ]]],
        )],
    },
    Row {
        name: "squares that touch at a corner",
        subject: &[&[[0, 0], [1, 0], [1, 1], [0, 1]]],
        clip: &[&[[1, 1], [2, 1], [2, 2], [1, 2]]],
        answers: &[(
            UNION,
            &[
                [0, 0, 1, 0],
                [1, 0, 1, 1],
                [1, 1, 0, 1],
                [0, 1, 0, 0],
                [1, 1, 2, 1],
                [2, 1, 2, 2],
                [2, 2, 1, 2],
                [1, 2, 1, 1],
            ],
            &[
                &[&[[0, 0], [1, 0], [1, 1], [0, 1]]],
                &[&[[1, 1], [2, 1], [2, 2], [1, 2]]],
            ],
        )],
    },
    Row {
        name: "squares that overlap",
        subject: &[&[[0, 0], [2, 0], [2, 1], [2, 2], [1, 2], [0, 2]]],
        clip: &[&[[1, 1], [2, 1], [3, 1], [3, 3], [1, 3], [1, 2]]],
        answers: &[
            (
                UNION,
                &[
                    [0, 0, 2, 0],
                    [2, 0, 2, 1],
                    [2, 1, 3, 1],
                    [3, 1, 3, 3],
                    [3, 3, 1, 3],
                    [1, 3, 1, 2],
                    [1, 2, 0, 2],
                    [0, 2, 0, 0],
                ],
                &[&[&[
                    [0, 0],
                    [2, 0],
                    [2, 1],
                    [3, 1],
                    [3, 3],
                    [1, 3],
                    [1, 2],
                    [0, 2],
                ]]],
            ),
            (
                INTERSECTION,
                &[[1, 1, 2, 1], [2, 1, 2, 2], [2, 2, 1, 2], [1, 2, 1, 1]],
                &[&[&[[1, 1], [2, 1], [2, 2], [1, 2]]]],
            ),
            (
                DIFFERENCE,
                &[
                    [0, 0, 2, 0],
                    [2, 0, 2, 1],
                    [2, 1, 1, 1],
                    [1, 1, 1, 2],
                    [1, 2, 0, 2],
                    [0, 2, 0, 0],
                ],
                &[&[&[[0, 0], [2, 0], [2, 1], [1, 1], [1, 2], [0, 2]]]],
            ),
            (
                XOR,
                &[
                    [0, 0, 2, 0],
                    [2, 0, 2, 1],
                    [2, 1, 1, 1],
                    [1, 1, 1, 2],
                    [1, 2, 0, 2],
                    [0, 2, 0, 0],
                    [2, 1, 3, 1],
                    [3, 1, 3, 3],
                    [3, 3, 1, 3],
                    [1, 3, 1, 2],
                    [1, 2, 2, 2],
                    [2, 2, 2, 1],
                ],
                &[
                    &[&[[0, 0], [2, 0], [2, 1], [1, 1], [1, 2], [0, 2]]],
                    &[&[[1, 2], [2, 2], [2, 1], [3, 1], [3, 3], [1, 3]]],
                ],
            ),
        ],
    },
    Row {
        name: "one square as both",
        subject: &[SQUARE],
        clip: &[SQUARE_BACK],
        answers: &[
            (UNION, AROUND, ONE_SQUARE),
            (INTERSECTION, AROUND, ONE_SQUARE),
            (DIFFERENCE, &[], &[]),
            (XOR, &[], &[]),
        ],
    },
    // Its left half is run counterclockwise, its right half isn't.
    Row {
        name: "a bow-tie",
        subject: &[&[[0, 0], [1, 1], [2, 2], [2, 0], [1, 1], [0, 2]]],
        clip: &[],
        answers: &[
            (
                EVEN_ODD,
                &[
                    [0, 0, 1, 1],
                    [1, 1, 0, 2],
                    [0, 2, 0, 0],
                    [1, 1, 2, 0],
                    [2, 0, 2, 2],
                    [2, 2, 1, 1],
                ],
                &[&[&[[0, 0], [1, 1], [0, 2]]], &[&[[1, 1], [2, 0], [2, 2]]]],
            ),
            (
                UNION,
                &[
                    [0, 0, 1, 1],
                    [1, 1, 0, 2],
                    [0, 2, 0, 0],
                    [1, 1, 2, 0],
                    [2, 0, 2, 2],
                    [2, 2, 1, 1],
                ],
                &[&[&[[0, 0], [1, 1], [0, 2]]], &[&[[1, 1], [2, 0], [2, 2]]]],
            ),
            (
                POSITIVE,
                &[[0, 0, 1, 1], [1, 1, 0, 2], [0, 2, 0, 0]],
                &[&[&[[0, 0], [1, 1], [0, 2]]]],
            ),
            (
                NEGATIVE,
                &[[1, 1, 2, 0], [2, 0, 2, 2], [2, 2, 1, 1]],
                &[&[&[[1, 1], [2, 0], [2, 2]]]],
            ),
        ],
    },
    Row {
        name: "no subject",
        subject: &[],
        clip: &[SQUARE],
        answers: &[
            (EVEN_ODD, AROUND, ONE_SQUARE),
            (EVEN_ODD_DIFFERENCE, &[], &[]),
        ],
    },
    Row {
        name: "no clip, what only the subject has",
        subject: &[SQUARE],
        clip: &[],
        answers: &[(EVEN_ODD_DIFFERENCE, AROUND, ONE_SQUARE)],
    },
    Row {
        name: "neither",
        subject: &[],
        clip: &[],
        answers: &[(EVEN_ODD_XOR, &[], &[])],
    },
    Row {
        name: "a point, and an edge there and back",
        subject: &[&[[5, 5]], &[[0, 0], [3, 1]]],
        clip: &[&[[0, 0], [3, 1]]],
        answers: &[(UNION, &[], &[])],
    },
    Row {
        name: "a ring run twice",
        subject: &[SQUARE, SQUARE],
        clip: &[],
        answers: &[
            (EVEN_ODD, &[], &[]),
            (UNION, AROUND, ONE_SQUARE),
            (POSITIVE, AROUND, ONE_SQUARE),
        ],
    },
    Row {
        name: "a hole that touches its outer ring",
        subject: &[
            &[[0, 0], [4, 0], [4, 2], [4, 4], [0, 4]],
            &[[4, 2], [2, 1], [2, 3]],
        ],
        clip: &[],
        answers: &[(
            UNION,
            &[
                [0, 0, 4, 0],
                [4, 0, 4, 2],
                [4, 2, 4, 4],
                [4, 4, 0, 4],
                [0, 4, 0, 0],
                [4, 2, 2, 1],
                [2, 1, 2, 3],
                [2, 3, 4, 2],
            ],
            &[&[&[[0, 0], [4, 0], [4, 4], [0, 4]], &[[4, 2], [2, 1], [2, 3]]]],
        )],
    },
    Row {
        name: "from corner to corner",
        subject: &[&[[LEAST, LEAST], [MOST, LEAST], [MOST, MOST]]],
        clip: &[&[[LEAST, LEAST], [MOST, MOST], [LEAST, MOST]]],
        answers: &[
            (
                UNION,
                &[
                    [LEAST, LEAST, MOST, LEAST],
                    [MOST, LEAST, MOST, MOST],
                    [MOST, MOST, LEAST, MOST],
                    [LEAST, MOST, LEAST, LEAST],
                ],
                &[&[&[[LEAST, LEAST], [MOST, LEAST], [MOST, MOST], [LEAST, MOST]]]],
            ),
            (
                DIFFERENCE,
                &[
                    [LEAST, LEAST, MOST, LEAST],
                    [MOST, LEAST, MOST, MOST],
                    [MOST, MOST, LEAST, LEAST],
                ],
                &[&[&[[LEAST, LEAST], [MOST, LEAST], [MOST, MOST]]]],
            ),
        ],
    },
];

// Whether these edges are kept and no others, each once.
fn are_kept(edges: &[Edge], kept: &[[i32; 4]]) -> bool {
    for [x0, y0, x1, y1] in kept {
        let wanted = Edge {
            x0: *x0,
            y0: *y0,
            x1: *x1,
            y1: *y1,
        };
        if !edges.contains(&wanted) {
            return false;
        }
    }
    edges.len() == kept.len()
}

// Whether for each choice of the row these edges are kept.
fn is_filled(alloc: Global, row: &Row) -> Result<bool, Fail> {
    let mut status = StatusTree::new(alloc, 0)?;
    for (choice, kept, _) in row.answers {
        let mut out = Vec::new(alloc);
        let outcome = fill_walks(alloc, row.regions(*choice), &mut status, &mut out)?;
        if outcome != Some(Ok(())) || !are_kept(&out, kept) {
            return Ok(false);
        }
    }
    Ok(true)
}

#[test]
fn rings_are_filled_as_worked_by_hand(rt: HostRuntime) -> Result<(), Fail> {
    for row in &ROWS {
        assert!(rt; is_filled(rt.alloc(), row)?, "{}", row.name);
    }
    Ok(())
}

// The kept edges behind what was there.
#[derive(Drop)]
struct Filled<'a> {
    status: StatusTree<ActiveEdge, i64, (), &'a Refusing<Global>>,
    out: Vec<Edge, &'a Refusing<Global>>,
    outcome: Option<Result<(), Refusal>>,
}

#[derive(Drop)]
struct Filling<'a> {
    memory: &'a Refusing<Global>,
    alloc: Global,
}

// Two squares that share a part of an edge: eight edges are kept.
const TWO_SQUARES: Regions = Regions {
    subject: &[&[[0, 0], [2, 0], [2, 1], [2, 2], [0, 2]]],
    clip: &[&[[2, 1], [4, 1], [4, 3], [2, 3], [2, 2]]],
    choice: UNION,
};

const EARLIER: Edge = Edge {
    x0: 7,
    y0: 8,
    x1: 9,
    y1: 9,
};

impl<'a> Trial for Filling<'a> {
    type State = Filled<'a>;

    fn begin(&self) -> Option<Filled<'a>> {
        let status = StatusTree::new(self.memory, 0).ok()?;
        let mut out = Vec::new(self.memory);
        out.push(EARLIER).ok()?;
        Some(Filled {
            status,
            out,
            outcome: None,
        })
    }

    fn call(&self, filled: &mut Filled<'a>) {
        let Filled {
            status,
            out,
            outcome,
        } = filled;
        *outcome = fill_walks(self.alloc, TWO_SQUARES, status, out)
            .ok()
            .flatten();
    }

    fn is_refused(&self, filled: &mut Filled<'a>, _nth: u64) -> bool {
        let refused = filled.outcome == Some(Err(Refusal::OutOfMemory));
        refused && filled.out.as_slice() == [EARLIER].as_slice()
    }

    fn is_done(&self, filled: &mut Filled<'a>) -> bool {
        filled.outcome == Some(Ok(())) && filled.out.len() == 9
    }
}

#[test]
fn keeps_out_at_each_refusal(rt: HostRuntime) -> Result<(), Fail> {
    let memory = Refusing::new(rt.alloc());
    let filling = Filling {
        memory: &memory,
        alloc: rt.alloc(),
    };
    assert!(rt; refuse_in_turn(&memory, &filling).is_ok_and(|requests| requests > 3));
    Ok(())
}
