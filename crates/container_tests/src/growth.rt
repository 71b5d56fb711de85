//! How often collections that grow ask for memory, how much they hold, what asks for none, and how often a closure is asked.

use crate::roomy::{Calls, Roomy};
use i_tree::Refusal;
use std::alloc::Global;
use test_kit::Refusing;
use test_kit::growth::{COUNT, asks_seldom, most_held};

/// Whether each call answers what it is to answer, and asks for no memory, where there is room; nor does the insertion into a full
/// collection of what is there.
pub fn serves_without_memory<C: Roomy, W: Calls<C>>(
    counted: &Refusing<Global>,
    memory: C::Memory,
) -> bool {
    counted.refuse_none();
    let Ok(mut store) = C::make(memory, 8) else {
        return false;
    };
    counted.refuse_all();
    let is_served = W::serves(&mut store);
    for number in 1..100 {
        if store.room().1 == 0 {
            break;
        }
        if W::insert(&mut store, number, false).is_err() {
            return false;
        }
    }
    let is_full = store.room().1 == 0 && W::insert(&mut store, 1, true).is_ok();
    is_served && is_full && counted.requests() == 0
}

/// Whether numbers that come in falling order are inserted within the bounds on memory, where an entry has so many bytes, and a
/// closure is asked seldom about them.
pub fn doubles_its_room<C: Roomy, W: Calls<C>>(
    counted: &Refusing<Global>,
    memory: C::Memory,
    size: usize,
) -> bool {
    counted.refuse_none();
    let Ok(mut store) = C::make(memory, 0) else {
        return false;
    };
    for place in 0..COUNT {
        let number = i32::from(COUNT.saturating_sub(place));
        let is_in = W::insert(&mut store, number, true).is_ok();
        if !is_in || counted.bytes_held() > most_held(store.room().0, size) {
            return false;
        }
    }
    let is_full = store.room().0 == usize::from(COUNT) && asks_seldom(counted, size);
    is_full && W::asked(&mut store, 500) <= 18 && W::asked(&mut store, 2000) <= 18
}

/// Whether more slots than there are handles for are refused without a request.
pub fn has_no_handle<C: Roomy>(counted: &Refusing<Global>, memory: C::Memory) -> bool {
    counted.refuse_all();
    let made = C::make(memory, 4294967296);
    matches!(made, Err(Refusal::NoHandle)) && counted.requests() == 0
}
