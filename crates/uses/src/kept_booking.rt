//! A booking that is noted in a tree of segments, and listed on a later day by what may collide with it.

ghost use Rattle.std.specs.Prelude.{◌≡◌, ◌≤◌, ◌≤ℤ◌, true, Contains, IfOk};

use i_tree::seg::exp::{SegExpCollection, SegRange};
use i_tree::seg::tree::SegExpTree;
use i_tree::{ExpiredVal, Refusal};
use std::alloc::Global;

/// A booking of some hours, which stands up to a day.
#[derive(Clone, Copy)]
pub struct Booking {
    pub name: u32,
    pub hours: SegRange<i32>,
    pub until: u32,
}

impl ExpiredVal<u32> for Booking {
    ghost expiration = { λ booking. booking.until };

    fn expiration(&self) -> u32 {
        self.until
    }
}

/// Notes the booking, and lists today, and anew on a later day, what may collide with the hours. The answer is false where
/// some hours lie outside or a day is late. A booking that overlaps the hours and stands on the later day is never missed.
pub fn listed_later(
    tree: &mut SegExpTree<i32, u32, Booking, Global>,
    booking: Booking,
    hours: SegRange<i32>,
    today: u32,
    later: u32,
    listed: &mut Vec<Booking>,
) -> Result<bool, Refusal>
    ensures found { IfOk result (λ done. done ≡ true → booking.hours.min ≤ℤ hours.max → hours.min ≤ℤ booking.hours.max → later ≤ booking.until → Contains listed.new.items booking) }
{
    if !tree.accepts(booking.hours) || !tree.accepts(hours) || !tree.is_in_time(today) {
        return Ok(false);
    }
    tree.insert_by_range(booking.hours, booking)?;
    tree.collect_by_range(hours, today, listed)?;
    if !tree.is_in_time(later) {
        return Ok(false);
    }
    listed.clear();
    tree.collect_by_range(hours, later, listed)?;
    Ok(true)
}
