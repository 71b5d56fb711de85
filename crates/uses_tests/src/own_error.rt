//! Answers and errors of a caller's own type.

use i_tree::Refusal;
use std::test::Fail;
use uses::own_error::{RouteError, Stop, stops_before};

const fn stop(place: i32, closes: i32) -> Stop {
    Stop { place, closes }
}

#[test]
fn answers_the_last_open_stop_or_why_not(rt: HostRuntime) -> Result<(), Fail> {
    let stops = [stop(4, 9), stop(8, 3), stop(1, 9)];
    let found = stops_before(rt.alloc(), &stops, &stops, 5)?;
    assert!(rt; found.as_slice() == [Some(1), Some(4), None].as_slice());
    let twice = [stop(4, 9), stop(4, 9)];
    let why = match stops_before(rt.alloc(), &twice, &[], 0) {
        Ok(_) => None,
        Err(error) => Some(error.to_string(rt.alloc())?),
    };
    assert!(rt; why.is_some_and(|why| why.as_str() == "a stop at 4 stands twice"));
    let refused = RouteError::from(Refusal::OutOfMemory).to_string(rt.alloc())?;
    assert!(rt; refused.as_str() == "the list of stops: memory was refused");
    Ok(())
}
