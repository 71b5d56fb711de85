//! Tickets by their numbers.

use i_tree::set::tree::SetTree;
use std::test::Fail;
use uses::tickets::{Ticket, put_new, seats_before, seats_in_order};

const OFFERED: [(u32, u8); 4] = [(8, 2), (4, 1), (8, 5), (6, 3)];

// A number that is withdrawn, another one, and the seats of the ticket before that.
const BEFORE: [(u32, u32, u8); 5] = [(1, 9, 2), (8, 9, 3), (6, 7, 1), (4, 4, 0), (5, 5, 1)];

#[test]
fn the_first_ticket_of_a_number_stays(rt: HostRuntime) -> Result<(), Fail> {
    let offered = OFFERED.map(|(number, seats)| Ticket { number, seats });
    for (withdrawn, number, seats) in BEFORE {
        let found = seats_before(rt.alloc(), &offered, withdrawn, number)?;
        assert!(rt; found == seats, "{withdrawn} and {number}");
    }
    let mut tickets = SetTree::new(rt.alloc(), 0)?;
    let [eight, four, other_eight, _] = offered;
    assert!(rt; put_new(&mut tickets, eight)?);
    assert!(rt; put_new(&mut tickets, four)?);
    assert!(rt; !put_new(&mut tickets, other_eight)?);
    let seats = seats_in_order(rt.alloc(), &tickets)?;
    assert!(rt; seats.as_slice() == [1, 2].as_slice());
    Ok(())
}
