//! An error type of a caller's own, which `?` makes of a refusal and of what a `push` answers.

use i_tree::key::exp::KeyExpCollection;
use i_tree::key::list::KeyExpList;
use i_tree::{ExpiredKey, Refusal};
use std::alloc::{AllocError, Global};
use thiserror::Error;

/// A stop on a route, which closes at a time.
#[derive(Clone, Copy, PartialEq, Eq, PartialOrd, Ord)]
pub struct Stop {
    pub place: i32,
    pub closes: i32,
}

impl ExpiredKey<i32> for Stop {
    ghost expiration = { λ stop. stop.closes };

    fn expiration(&self) -> i32 {
        self.closes
    }
}

/// Why there are no places.
#[derive(Debug, Drop, Error)]
pub enum RouteError {
    /// The stop was named before.
    #[error("a stop at {0} stands twice")]
    Twice(i32),
    /// The list of stops was refused room.
    #[error("the list of stops: {0}")]
    Refused(#[from] Refusal),
    /// The answer was refused room.
    #[error("the answer: {0}")]
    Memory(#[from(alloc)] AllocError),
}

/// For each of the places, the last stop before it that is open at the time.
pub fn stops_before(
    alloc: Global,
    stops: &[Stop],
    places: &[Stop],
    time: i32,
) -> Result<Vec<Option<i32>>, RouteError> {
    let mut open = KeyExpList::new(alloc, stops.len())?;
    for stop in stops {
        if !open.insert_new(*stop, Some(stop.place), time)? {
            return Err(RouteError::Twice(stop.place));
        }
    }
    let mut found = Vec::new(alloc);
    for place in places {
        found.push(open.first_less(time, None, *place))?;
    }
    Ok(found)
}
