//! `itree_meetings_all` and `itree_meetings_between`: which edges of the plane meet, of one list or of two, in one call,
//! and the handle by which C holds what it answers.

ghost use Rattle.std.specs.Prelude.{◌≡◌, Option, Some, IfOk, length};
ghost use Rattle.std.specs.Borrow.{sem};
ghost use Rattle.std.specs.Vec.{vec_ptr};
ghost use Rattle.itree_c.specs.Handle.{owns_pairs, AnswersAll, AnswersBetween, AreAllBetween, AreAllMeetings};
ghost use Rattle.itree_c.specs.declared.pairs.Pairs.{Pairs as Held};

use crate::meetings::Pair;
use crate::pairs::{Pairs, boxed_pairs, drop_pairs};
use crate::raw::Raw;
use crate::status::{ANSWERED, REFUSED};
use i_tree::Refusal;
use plane::edge::Edge;
use plane::meet::{meetings, meetings_between};
use std::alloc::Global;

/// What a handle points to: C has no name for its fields.
#[repr(C)]
#[derive(Drop)]
pub struct Handle {
    _hidden: u8,
}

/// Writes a handle of the pairs of edges that meet, each once and in no particular order, or null.
///
/// The status is `ANSWERED` (0), and then the caller owns the handle and gives it to `itree_pairs_free` once; or
/// `REFUSED` (1) where memory was refused, and then null is written, and all memory has been given back. Which edges
/// meet, and what it costs, is said at `meetings` of `plane::meet`.
#[unsafe(no_mangle)]
pub unsafe extern "C" fn itree_meetings_all(
    alloc: Global,
    edges: &[Edge],
    pairs: &mut *mut Handle,
) -> i32
    ensures* made { ∃ₛ (λ (made : Option Held).
        ⌜ AnswersAll edges.now result made ⌝ ∗ sem 𝓛 (owns_pairs pairs.new made)) }
{
    let (status, Raw { at, alloc: _ }) = all_meetings(alloc, edges);
    *pairs = at as *mut Handle;
    status
}

/// Writes a handle of the pairs of an edge of the first list and one of the second that meet, each once and in no
/// particular order, or null. The first place of a pair is of the first list, and the second of the second.
///
/// The status and what is written are those of `itree_meetings_all`. Which edges meet is said at `meetings_between` of
/// `plane::meet`.
#[unsafe(no_mangle)]
pub unsafe extern "C" fn itree_meetings_between(
    alloc: Global,
    edges: &[Edge],
    others: &[Edge],
    pairs: &mut *mut Handle,
) -> i32
    ensures* made { ∃ₛ (λ (made : Option Held).
        ⌜ AnswersBetween edges.now others.now result made ⌝ ∗ sem 𝓛 (owns_pairs pairs.new made)) }
{
    let (status, Raw { at, alloc: _ }) = all_between(alloc, edges, others);
    *pairs = at as *mut Handle;
    status
}

/// Writes where the first pair lies, and answers how many there are.
///
/// They lie side by side, and stay until the handle is freed.
#[unsafe(no_mangle)]
pub unsafe extern "C" fn itree_pairs_first(pairs: *const Handle, first: &mut *const Pair) -> usize
    ghost held: { Held }
    requires* owned { sem 𝓛 (owns_pairs pairs (Some held)) }
    ensures* read { sem 𝓛 (owns_pairs pairs (Some held))
        ∗ ⌜ (result ≡ length held.held.items) × (first.new ≡ vec_ptr held.held) ⌝ }
{
    let pairs = pairs as *const Pairs;
    *first = (*pairs).first;
    (*pairs).count
}

/// Gives back all memory of the pairs. The handle is used up.
#[unsafe(no_mangle)]
pub unsafe extern "C" fn itree_pairs_free(alloc: Global, pairs: *mut Handle)
    ghost held: { Held }
    requires* owned { sem 𝓛 (owns_pairs pairs (Some held)) }
{
    drop_pairs(Raw {
        at: pairs as *mut Pairs,
        alloc,
    });
}

// The status of the call, and the pairs or null.
fn all_meetings(alloc: Global, edges: &[Edge]) -> (i32, Raw<Pairs, Global>)
    ensures { AnswersAll edges.now result.0 result.1.value }
{
    match boxed_meetings(alloc, edges) {
        Ok(pairs) => (ANSWERED, Raw::of(pairs)),
        Err(_) => (REFUSED, Raw::null(alloc)),
    }
}

// The pairs of edges that meet, on the heap.
fn boxed_meetings(alloc: Global, edges: &[Edge]) -> Result<Box<Pairs, Global>, Refusal>
    ensures { IfOk result (λ pairs. AreAllMeetings edges.now pairs.value) }
{
    let mut places = Vec::new(alloc);
    meetings(edges, &mut places)?;
    Ok(boxed_pairs(alloc, places)?)
}

// The status of the call over two lists, and the pairs or null.
fn all_between(alloc: Global, edges: &[Edge], others: &[Edge]) -> (i32, Raw<Pairs, Global>)
    ensures { AnswersBetween edges.now others.now result.0 result.1.value }
{
    match boxed_between(alloc, edges, others) {
        Ok(pairs) => (ANSWERED, Raw::of(pairs)),
        Err(_) => (REFUSED, Raw::null(alloc)),
    }
}

// The pairs of an edge of the one list and one of the other that meet, on the heap.
fn boxed_between(
    alloc: Global,
    edges: &[Edge],
    others: &[Edge],
) -> Result<Box<Pairs, Global>, Refusal>
    ensures { IfOk result (λ pairs. AreAllBetween edges.now others.now pairs.value) }
{
    let mut places = Vec::new(alloc);
    meetings_between(edges, others, &mut places)?;
    Ok(boxed_pairs(alloc, places)?)
}
