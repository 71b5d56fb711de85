//! `itree_meetings` and `itree_first_meeting`: which edges of the plane meet.

ghost use Rattle.std.specs.Prelude.{◌≡◌, ◌≢◌, ◌⊎◌, ℕ, List, length};
ghost use Rattle.plane.specs.Meet.Meetings.{AreMeetings, MeetAt};
ghost use Rattle.itree_c.specs.Meetings.{WritesFirst};
ghost use Rattle.itree_c.specs.declared.status.TheConstants.{ANSWERED, REFUSED, MEETING};

use crate::status::{ANSWERED, MEETING, REFUSED};
use plane::edge::Edge;
use plane::meet::{first_meeting, meetings};
use std::alloc::Global;

/// The places of two edges that meet, `first` below `second`.
#[repr(C)]
#[derive(Clone, Copy)]
pub struct Pair {
    pub first: usize,
    pub second: usize,
}

/// Writes the pairs of edges that meet, each once and in no particular order: as many as fit, and `count` is how many
/// there are. Where it is more than there are `pairs`, a call with as many has room for all.
///
/// The status is `ANSWERED` (0), or `REFUSED` (1) where memory was refused, and then nothing is written. Which edges
/// meet, and what it costs, is said at `meetings` of `plane::meet`.
#[unsafe(no_mangle)]
pub extern "C" fn itree_meetings(
    alloc: Global,
    edges: &[Edge],
    pairs: &mut [Pair],
    count: &mut usize,
) -> i32
    ensures answered { result ≡ ANSWERED → (all : List (ℕ × ℕ)) × AreMeetings edges.now all
        × (count.new ≡ length all) × WritesFirst all pairs.old pairs.new }
    ensures kept { result ≢ ANSWERED → pairs.new ≡ pairs.old }
    ensures count { result ≢ ANSWERED → count.new ≡ count.old }
    ensures status { (result ≡ ANSWERED) ⊎ (result ≡ REFUSED) }
{
    let mut found = Vec::new(alloc);
    match meetings(edges, &mut found) {
        Ok(()) => {
            write_first(&found, pairs);
            *count = found.len();
            ANSWERED
        }
        Err(_) => REFUSED,
    }
}

/// Writes the places of some two edges that meet, the lesser first, where two do.
///
/// The status is `ANSWERED` (0), and no two edges meet; `MEETING` (7) where two do, and then `first` and `second` are the
/// places of two that do; or `REFUSED` (1) where memory was refused. Only at `MEETING` is anything written. Which edges
/// meet, and that it stops at the first edge that meets others before it, is said at `first_meeting` of `plane::meet`.
#[unsafe(no_mangle)]
pub extern "C" fn itree_first_meeting(
    alloc: Global,
    edges: &[Edge],
    first: &mut usize,
    second: &mut usize,
) -> i32
    ensures answered { result ≡ ANSWERED → (i j : ℕ) → ¬ (MeetAt edges.now i j) }
    ensures meeting { result ≡ MEETING → MeetAt edges.now first.new second.new }
    ensures kept { result ≢ MEETING → (first.new ≡ first.old) × (second.new ≡ second.old) }
    ensures status { (result ≡ ANSWERED) ⊎ (result ≡ REFUSED) ⊎ (result ≡ MEETING) }
{
    match first_meeting(alloc, edges) {
        Ok(None) => ANSWERED,
        Ok(Some((one, other))) => {
            *first = one;
            *second = other;
            MEETING
        }
        Err(_refusal) => REFUSED,
    }
}

// Writes as many of the pairs as fit.
fn write_first(found: &[(usize, usize)], pairs: &mut [Pair])
    ensures { WritesFirst found.now pairs.old pairs.new }
{
    let most = found.len().min(pairs.len());
    // The pairs before this place are those of what was found.
    for place in 0..most {
        let (first, second) = found[place];
        pairs[place] = Pair { first, second };
    }
}
