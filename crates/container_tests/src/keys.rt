//! Collections of keys that expire.

use crate::roomy::Calls;
use crate::timed_key::{TimedKey, timed};
use i_tree::Refusal;
use i_tree::key::exp::KeyExpCollection;
use runs::{KeyCommand, KeyReply, run_keys};
use std::alloc::Allocator;
use std::cell::Cell;
use std::cmp::Ordering;

/// A command over such keys.
pub type Command = KeyCommand<TimedKey, i32, i32, i32>;

/// How a key stands to the number that is sought.
pub fn compare(sought: i32, timed: TimedKey) -> Ordering {
    timed.key.cmp(&sought)
}

/// Runs the commands, and appends their replies to `out`.
pub fn run_commands<C: KeyExpCollection<TimedKey, i32, i32>, B: Allocator>(
    keys: &mut C,
    commands: &[Command],
    out: &mut Vec<KeyReply<i32>, B>,
) -> Result<(), Refusal> {
    run_keys(keys, commands, compare, out)
}

// Inserts a key that is its own value, unless it is there.
fn put<C: KeyExpCollection<TimedKey, i32, i32>>(
    keys: &mut C,
    key: TimedKey,
) -> Result<(), Refusal> {
    if keys.contains_key(0, key) {
        return Ok(());
    }
    keys.insert(key, key.key, 0)
}

// Inserts the keys 3, 5 and 4, of which the last expires at 1.
fn inserts<C: KeyExpCollection<TimedKey, i32, i32>>(keys: &mut C) -> Result<bool, Refusal> {
    put(keys, timed(3, 10))?;
    let is_new = keys.insert_new(timed(5, 10), 5, 0)?;
    let is_again = keys.insert_new(timed(5, 10), 9, 0)?;
    Ok(keys.insert_new(timed(4, 1), 4, 0)? && is_new && !is_again)
}

// The value nearest to the number: above it, or at most it. What asks about a key is counted.
fn nearest<C: KeyExpCollection<TimedKey, i32, i32>>(
    keys: &mut C,
    time: i32,
    number: i32,
    is_above: bool,
    asked: &Cell<usize>,
) -> i32 {
    let ask = |key: TimedKey| {
        asked.set(asked.get().saturating_add(1));
        key.key.cmp(&number)
    };
    if is_above {
        keys.first_greater_by(time, -1, ask)
    } else {
        keys.first_less_or_equal_by(time, -1, ask)
    }
}

// Whether the queries answer at 1, where all three are live, and at 2.
fn answers<C: KeyExpCollection<TimedKey, i32, i32>>(keys: &mut C) -> bool {
    let before = (
        keys.contains_key(1, timed(4, 0)),
        keys.first_less(1, -1, timed(5, 0)),
    );
    let asked = Cell::new(0);
    let around = (
        nearest(keys, 2, 4, false, &asked),
        nearest(keys, 2, 3, true, &asked),
    );
    before == (true, 4) && around == (3, 5) && !keys.contains_key(2, timed(4, 0))
}

/// Numbers as keys, each its own value.
pub struct AsKeys;

impl<C: KeyExpCollection<TimedKey, i32, i32>> Calls<C> for AsKeys {
    fn insert(keys: &mut C, number: i32, tells: bool) -> Result<(), Refusal> {
        let key = timed(number, 10);
        if tells {
            keys.insert_new(key, number, 0)?;
            return Ok(());
        }
        put(keys, key)
    }

    fn asked(keys: &mut C, number: i32) -> usize {
        let asked = Cell::new(0);
        nearest(keys, 0, number, false, &asked);
        asked.get()
    }

    fn serves(keys: &mut C) -> bool {
        let is_served = inserts(keys) == Ok(true) && answers(keys);
        keys.clear();
        is_served && keys.first_less(0, -1, timed(9, 0)) == -1
    }
}
