//! The events of a sweep over levels, one after another: over a tree, and over a list by one changed line.

ghost use Rattle.std.specs.Prelude.{◌≡◌};
ghost use Rattle.std.specs.Ordering.{int_cmp};

use i_tree::key::exp::KeyExpCollection;
use i_tree::key::list::KeyExpList;
use i_tree::key::tree::KeyExpTree;
use i_tree::{ExpiredKey, Refusal};
use std::alloc::Allocator;
use std::cmp::Ordering;

/// A level is compared by its height alone, so that two of one height are one place. It is live at each place up to its
/// end.
#[derive(Clone, Copy, Debug)]
#[derive_where(PartialEq, Eq, PartialOrd, Ord)]
pub struct Level {
    pub height: i32,
    #[derive_where(skip(EqHashOrd))]
    pub end: i32,
}

impl ExpiredKey<i32> for Level {
    ghost expiration = { λ level. level.end };

    fn expiration(&self) -> i32 {
        self.end
    }
}

/// What happens at a place.
#[derive(Clone, Copy, Debug)]
pub enum Event {
    /// A level of this name begins.
    Begin { level: Level, name: u32 },
    /// Which level is at this height, or next below it?
    Ask { height: i32 },
}

/// What came of an event.
#[derive(Clone, Copy, Debug, PartialEq, Eq)]
pub enum Outcome {
    /// The level is live from here on.
    Began,
    /// A level of its height is live here.
    Taken,
    /// There was no room for the level. All is as it was.
    NoRoom,
    /// The name of the level that was asked for; 0 where there is none.
    Below(u32),
}

/// What comes of an event at a place, over any collection.
pub fn serve<C: KeyExpCollection<Level, i32, u32>>(
    active: &mut C,
    place: i32,
    event: Event,
) -> Outcome {
    match event {
        Event::Begin { level, name } => match active.insert_new(level, name, place) {
            Ok(true) => Outcome::Began,
            Ok(false) => Outcome::Taken,
            Err(Refusal::OutOfMemory | Refusal::NoHandle) => Outcome::NoRoom,
        },
        Event::Ask { height } => {
            let stands = |level: Level| -> Ordering
                ensures { result ≡ int_cmp level.height height }
            { level.height.cmp(&height) };
            Outcome::Below(active.first_less_or_equal_by(place, 0, stands))
        }
    }
}

/// The outcomes of events, each at its place, over a tree.
pub fn outcomes_by_tree<A: Allocator + Copy>(
    alloc: A,
    events: &[(i32, Event)],
) -> Result<Vec<Outcome, A>, Refusal> {
    let mut outcomes = Vec::with_capacity(alloc, events.len())?;
    let mut active = KeyExpTree::new(alloc, 16)?;
    for (place, event) in events {
        outcomes.push(serve(&mut active, *place, *event))?;
    }
    Ok(outcomes)
}

/// The outcomes of events, each at its place, over a list.
pub fn outcomes_by_list<A: Allocator + Copy>(
    alloc: A,
    events: &[(i32, Event)],
) -> Result<Vec<Outcome, A>, Refusal> {
    let mut outcomes = Vec::with_capacity(alloc, events.len())?;
    let mut active = KeyExpList::new(alloc, 16)?;
    for (place, event) in events {
        outcomes.push(serve(&mut active, *place, *event))?;
    }
    Ok(outcomes)
}
