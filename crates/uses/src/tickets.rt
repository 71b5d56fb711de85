//! A set whose keys are numbers, filled in a loop. The loop's invariant stands in
//! `proofs/tickets/seats_before/Invariants.antt`, and the other functions ask for no proof file.

ghost use Rattle.std.specs.Ordering.{nat_cmp};
ghost use Rattle.i_tree.specs.Rb.Shape.{entries};
ghost use Rattle.i_tree.specs.Set.Pairs.{HasHandle, IsOrdered};

use i_tree::set::sort::{KeyValue, SetCollection};
use i_tree::set::tree::SetTree;
use i_tree::{EMPTY_REF, Refusal};
use std::alloc::{Allocator, Global};

/// A ticket with a number, by which tickets stand in order, and how many seats it is for.
#[derive(Clone, Copy, Debug)]
pub struct Ticket {
    pub number: u32,
    pub seats: u8,
}

impl KeyValue<u32> for Ticket {
    ghost key_of = { λ ticket. ticket.number };

    fn key(&self) -> &u32 {
        &self.number
    }
}

/// Puts the ticket among the others, unless one of its number is there. Says whether it did.
pub fn put_new<A: Allocator + Copy>(
    tickets: &mut SetTree<u32, Ticket, A>,
    ticket: Ticket,
) -> Result<bool, Refusal>
    requires { IsOrdered (λ ticket. ticket.number) nat_cmp (entries tickets.old.shape) }
    ensures { IsOrdered (λ ticket. ticket.number) nat_cmp (entries tickets.new.shape) }
{
    Ok(tickets.insert_new(ticket)?.is_none())
}

/// Takes the ticket of the number out, if it is there. Says whether it was.
pub fn withdraw<A: Allocator + Copy>(tickets: &mut SetTree<u32, Ticket, A>, number: u32) -> bool
    requires { IsOrdered (λ ticket. ticket.number) nat_cmp (entries tickets.old.shape) }
    ensures { IsOrdered (λ ticket. ticket.number) nat_cmp (entries tickets.new.shape) }
{
    let handle = tickets.first_index_less_by(|other| other.cmp(&number));
    if handle == EMPTY_REF || tickets.value_by_index(handle).number != number {
        return false;
    }
    delete(tickets, handle);
    true
}

// Deletes the ticket at the handle.
fn delete<A: Allocator + Copy>(tickets: &mut SetTree<u32, Ticket, A>, handle: u32)
    requires live { HasHandle (entries tickets.old.shape) handle }
    requires in_order { IsOrdered (λ ticket. ticket.number) nat_cmp (entries tickets.old.shape) }
    ensures { IsOrdered (λ ticket. ticket.number) nat_cmp (entries tickets.new.shape) }
{
    tickets.delete_by_index(handle);
}

/// The seats of all tickets, by rising number.
pub fn seats_in_order<A: Allocator + Copy>(
    alloc: Global,
    tickets: &SetTree<u32, Ticket, A>,
) -> Result<Vec<u8>, Refusal> {
    let mut seats = Vec::new(alloc);
    for ticket in tickets.iter() {
        seats.push(ticket.seats)?;
    }
    Ok(seats)
}

/// For how many seats the ticket is that stands before this number, once all are put and `withdrawn` is taken out; 0 where
/// there is none.
pub fn seats_before(
    alloc: Global,
    offered: &[Ticket],
    withdrawn: u32,
    number: u32,
) -> Result<u8, Refusal> {
    let mut tickets = SetTree::new(alloc, 16)?;
    for ticket in offered {
        put_new(&mut tickets, *ticket)?;
    }
    withdraw(&mut tickets, withdrawn);
    let handle = tickets.first_index_less_by(|other| other.cmp(&number));
    if handle == EMPTY_REF {
        return Ok(0);
    }
    Ok(tickets.value_by_index(handle).seats)
}
