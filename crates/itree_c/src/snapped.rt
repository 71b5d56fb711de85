//! `itree_snap`: the chains that edges of the plane become on the grid of whole points, in one call, and the handle by which
//! C holds them.

ghost use Rattle.std.specs.Prelude.{◌≡◌, Option, Some, IfOk, length};
ghost use Rattle.std.specs.Borrow.{sem};
ghost use Rattle.std.specs.Vec.{vec_ptr};
ghost use Rattle.itree_c.specs.Chains.{owns_chains, AnswersChains, AreAllChains};
ghost use Rattle.itree_c.specs.declared.chains.Chains.{Chains as Held};

use crate::chains::{Chains, boxed_chains, drop_chains};
use crate::handle::Handle;
use crate::raw::Raw;
use crate::status::{ANSWERED, REFUSED};
use i_tree::Refusal;
use noding::snap;
use plane::edge::Edge;
use plane::point::Point;
use std::alloc::Global;

/// Writes a handle of the chains that the edges become, in the order of the edges, or null.
///
/// The status is `ANSWERED` (0), and then the caller owns the handle and gives it to `itree_chains_free` once; or
/// `REFUSED` (1) where memory was refused, and then null is written, and all memory has been given back. Which points are of
/// a chain is said at `snap` of `noding`.
#[unsafe(no_mangle)]
pub unsafe extern "C" fn itree_snap(alloc: Global, edges: &[Edge], chains: &mut *mut Handle) -> i32
    ensures* made { ∃ₛ (λ (made : Option Held).
        ⌜ AnswersChains edges.now result made ⌝ ∗ sem 𝓛 (owns_chains chains.new made)) }
{
    let (status, Raw { at, alloc: _ }) = all_chains(alloc, edges);
    *chains = at as *mut Handle;
    status
}

/// Writes where the first point of the chains lies, and answers how many there are.
///
/// They lie side by side, one chain behind the other, and stay until the handle is freed.
#[unsafe(no_mangle)]
pub unsafe extern "C" fn itree_chains_points(
    chains: *const Handle,
    first: &mut *const Point,
) -> usize
    ghost held: { Held }
    requires* owned { sem 𝓛 (owns_chains chains (Some held)) }
    ensures* read { sem 𝓛 (owns_chains chains (Some held))
        ∗ ⌜ (result ≡ length held.held_points.items) × (first.new ≡ vec_ptr held.held_points) ⌝ }
{
    let chains = chains as *const Chains;
    *first = (*chains).points;
    (*chains).point_count
}

/// Writes where the first offset lies, and answers how many there are: one more than there are chains.
///
/// The offsets are 0, and then where each chain stops among the points. They lie side by side, and stay until the handle is
/// freed.
#[unsafe(no_mangle)]
pub unsafe extern "C" fn itree_chains_offsets(
    chains: *const Handle,
    first: &mut *const usize,
) -> usize
    ghost held: { Held }
    requires* owned { sem 𝓛 (owns_chains chains (Some held)) }
    ensures* read { sem 𝓛 (owns_chains chains (Some held))
        ∗ ⌜ (result ≡ length held.held_offsets.items) × (first.new ≡ vec_ptr held.held_offsets) ⌝ }
{
    let chains = chains as *const Chains;
    *first = (*chains).offsets;
    (*chains).offset_count
}

/// Gives back all memory of the chains. The handle is used up.
#[unsafe(no_mangle)]
pub unsafe extern "C" fn itree_chains_free(alloc: Global, chains: *mut Handle)
    ghost held: { Held }
    requires* owned { sem 𝓛 (owns_chains chains (Some held)) }
{
    drop_chains(Raw {
        at: chains as *mut Chains,
        alloc,
    });
}

// The status of the call, and the chains or null.
fn all_chains(alloc: Global, edges: &[Edge]) -> (i32, Raw<Chains, Global>)
    ensures { AnswersChains edges.now result.0 result.1.value }
{
    match boxed_snap(alloc, edges) {
        Ok(chains) => (ANSWERED, Raw::of(chains)),
        Err(_) => (REFUSED, Raw::null(alloc)),
    }
}

// The chains of these edges, on the heap.
fn boxed_snap(alloc: Global, edges: &[Edge]) -> Result<Box<Chains, Global>, Refusal>
    ensures { IfOk result (λ chains. AreAllChains edges.now chains.value) }
{
    let mut points = Vec::new(alloc);
    let mut offsets = Vec::new(alloc);
    offsets.push(0)?;
    snap(edges, &mut points, &mut offsets)?;
    Ok(boxed_chains(alloc, points, offsets)?)
}
