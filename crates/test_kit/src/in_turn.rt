//! A call with each of its requests for memory refused in turn.

use crate::Refusing;
use std::alloc::Allocator;

/// A call that asks for memory, with what it is to answer and to leave.
pub trait Trial {
    /// What the call is made on and may change, and what it last answered.
    type State: Drop;

    /// The state before the call, or `None` where it can't be made. Memory is there.
    fn begin(&self) -> Option<Self::State>;

    /// Makes the call, and keeps its answer in the state.
    fn call(&self, state: &mut Self::State);

    /// Whether the answer, and all that is left, is what it is to be where the `nth` request was refused. Memory is there.
    fn is_refused(&self, state: &mut Self::State, nth: u64) -> bool;

    /// Whether the answer, and all that is left, is what it is to be where no request was refused. Memory is there.
    fn is_done(&self, state: &mut Self::State) -> bool;
}

/// What is wrong with a call.
#[derive(Clone, Copy, Debug, PartialEq, Eq)]
pub enum Fault {
    /// The state before the call could not be made.
    NotBegun,
    /// Where this request was refused, it answered or left something else.
    AfterRefusal { nth: u64 },
    /// Where this request had been refused, and it was made again with memory, it answered or left something else.
    MadeAgain { nth: u64 },
    /// Where no request was refused, it answered or left something else.
    Unrefused,
    /// It made no request, so that none could be refused.
    NoRequest,
    /// After so many refusals it still made a request that had not been refused yet.
    Endless,
}

/// How many requests of a call are refused at most.
const MOST: u64 = 1000;

/// Makes the call again and again from the same state, with the first request refused, with the second, and so on, up to
/// the first time that none is. After each refusal it is made once more with memory.
///
/// The answer is how many requests the call makes where none is refused, or the first fault.
pub fn refuse_in_turn<A: Allocator, T: Trial>(
    memory: &Refusing<A>,
    trial: &T,
) -> Result<u64, Fault> {
    for nth in 1..=MOST {
        let mut state = trial.begin().ok_or(Fault::NotBegun)?;
        memory.refuse_nth(nth);
        trial.call(&mut state);
        let requests = memory.requests();
        memory.refuse_none();
        if requests < nth {
            return unrefused(trial, &mut state, requests);
        }
        if !trial.is_refused(&mut state, nth) {
            return Err(Fault::AfterRefusal { nth });
        }
        trial.call(&mut state);
        if !trial.is_done(&mut state) {
            return Err(Fault::MadeAgain { nth });
        }
    }
    Err(Fault::Endless)
}

// What is answered of a call that made so many requests, of which none was refused.
fn unrefused<T: Trial>(trial: &T, state: &mut T::State, requests: u64) -> Result<u64, Fault> {
    if !trial.is_done(state) {
        return Err(Fault::Unrefused);
    }
    if requests == 0 {
        return Err(Fault::NoRequest);
    }
    Ok(requests)
}
