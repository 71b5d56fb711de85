//! Statuses of a sweep line.

use crate::roomy::Calls;
use crate::sloped::Sloped;
use i_tree::Refusal;
use i_tree::status::exp::StatusCollection;
use std::cell::Cell;
use std::cmp::Ordering;

/// A height at the line.
#[derive(Clone, Copy)]
pub struct Sought {
    pub time: i32,
    pub height: i64,
}

/// How a segment stands to the height that is sought.
pub fn stands(sought: Sought, sloped: Sloped) -> Ordering {
    sloped.height(sought.time).cmp(&sought.height)
}

/// A segment that goes through the height at time 0, up to an end.
pub fn through(at: i64, slope: i64, end: i32) -> Sloped {
    Sloped { at, slope, end }
}

// The value of the pair, or -1 where there is none.
fn value(pair: Option<(Sloped, i32)>) -> i32 {
    match pair {
        Some((_, val)) => val,
        None => -1,
    }
}

// Inserts the segment, which is live at 0, with its value, and answers between which values it joined, where the call tells.
fn put<C: StatusCollection<Sloped, i32, i32>>(
    status: &mut C,
    sloped: Sloped,
    val: i32,
    tells: bool,
) -> Result<Option<(i32, i32)>, Refusal> {
    let height = sloped.at;
    let ask = |other: Sloped| other.at.cmp(&height);
    if !tells {
        let is_new = status.insert_by(0, ask, sloped, val)?;
        return Ok(is_new.then_some((-1, -1)));
    }
    match status.insert_between(0, ask, sloped, val)? {
        Some((before, after)) => Ok(Some((value(before), value(after)))),
        None => Ok(None),
    }
}

// Inserts two segments that rise and fall, one that is level between them, and that again. The one that rises is first at 0.
fn inserts<C: StatusCollection<Sloped, i32, i32>>(status: &mut C) -> Result<bool, Refusal> {
    let first = put(status, through(10, 1, 10), 1, false)?;
    put(status, through(40, -1, 3), 3, false)?;
    let between = put(status, through(20, 0, 10), 2, true)?;
    let again = put(status, through(20, 0, 10), 9, true)?;
    Ok(first == Some((-1, -1)) && between == Some((1, 3)) && again.is_none())
}

// What a query tells.
#[derive(Clone, Copy)]
enum Query {
    AtMost,
    Above,
    Around,
}

// The values that a query about the height tells, where -1 stands for none. What asks about a segment is counted.
fn told<C: StatusCollection<Sloped, i32, i32>>(
    status: &mut C,
    query: Query,
    sought: Sought,
    asked: &Cell<usize>,
) -> (i32, i32) {
    let time = sought.time;
    let ask = |other: Sloped| {
        asked.set(asked.get().saturating_add(1));
        stands(sought, other)
    };
    match query {
        Query::AtMost => (status.first_less_or_equal_by(time, -1, ask), -1),
        Query::Above => (-1, status.first_greater_by(time, -1, ask)),
        Query::Around => {
            let (before, after) = status.neighbours_by(time, ask);
            (value(before), value(after))
        }
    }
}

// Whether the queries about the height 20 answer at 3, where all are live, and at 4.
fn answers<C: StatusCollection<Sloped, i32, i32>>(status: &mut C) -> bool {
    let asked = Cell::new(0);
    let height = 20;
    let around = told(status, Query::Around, Sought { time: 3, height }, &asked);
    let below = told(status, Query::AtMost, Sought { time: 4, height }, &asked);
    let above = told(status, Query::Above, Sought { time: 4, height }, &asked);
    around == (2, 3) && below == (2, -1) && above == (-1, -1)
}

/// Numbers as level segments, each its own value.
pub struct AsStatus;

impl<C: StatusCollection<Sloped, i32, i32>> Calls<C> for AsStatus {
    fn insert(status: &mut C, number: i32, tells: bool) -> Result<(), Refusal> {
        put(status, through(i64::from(number), 0, 10), number, tells)?;
        Ok(())
    }

    fn asked(status: &mut C, number: i32) -> usize {
        let asked = Cell::new(0);
        let height = i64::from(number);
        told(status, Query::AtMost, Sought { time: 0, height }, &asked);
        asked.get()
    }

    fn serves(status: &mut C) -> bool {
        let is_served = inserts(status) == Ok(true) && answers(status);
        status.clear();
        let asked = Cell::new(0);
        let sought = Sought {
            time: 0,
            height: 20,
        };
        is_served && told(status, Query::Around, sought, &asked) == (-1, -1)
    }
}
