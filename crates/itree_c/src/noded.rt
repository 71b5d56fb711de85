//! `itree_node`: as `itree_snap`, but edges are moved only where they must be.

ghost use Rattle.std.specs.Prelude.{Option, IfOk};
ghost use Rattle.std.specs.Borrow.{sem};
ghost use Rattle.itree_c.specs.Chains.{owns_chains, AnswersNode, AreAllNodeChains};
ghost use Rattle.itree_c.specs.declared.chains.Chains.{Chains as Held};

use crate::chains::{Chains, boxed_chains};
use crate::handle::Handle;
use crate::raw::Raw;
use crate::status::{ANSWERED, REFUSED};
use i_tree::Refusal;
use noding::node;
use plane::edge::Edge;
use std::alloc::Global;

/// Writes a handle of the chains that the edges become where they are moved only where they must be, in the order of the
/// edges, or null.
///
/// The status, and what is written and read of the handle, are as at `itree_snap`. Which points are of a chain is said at
/// `node` of `noding`.
#[unsafe(no_mangle)]
pub unsafe extern "C" fn itree_node(alloc: Global, edges: &[Edge], chains: &mut *mut Handle) -> i32
    ensures* made { ∃ₛ (λ (made : Option Held).
        ⌜ AnswersNode edges.now result made ⌝ ∗ sem 𝓛 (owns_chains chains.new made)) }
{
    let (status, Raw { at, alloc: _ }) = all_node_chains(alloc, edges);
    *chains = at as *mut Handle;
    status
}

// The status of the call, and the chains or null.
fn all_node_chains(alloc: Global, edges: &[Edge]) -> (i32, Raw<Chains, Global>)
    ensures { AnswersNode edges.now result.0 result.1.value }
{
    match boxed_node(alloc, edges) {
        Ok(chains) => (ANSWERED, Raw::of(chains)),
        Err(_) => (REFUSED, Raw::null(alloc)),
    }
}

// The chains of these edges, on the heap.
fn boxed_node(alloc: Global, edges: &[Edge]) -> Result<Box<Chains, Global>, Refusal>
    ensures { IfOk result (λ chains. AreAllNodeChains edges.now chains.value) }
{
    let mut points = Vec::new(alloc);
    let mut offsets = Vec::new(alloc);
    offsets.push(0)?;
    node(edges, &mut points, &mut offsets)?;
    Ok(boxed_chains(alloc, points, offsets)?)
}
