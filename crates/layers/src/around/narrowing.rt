//! Chains that matter to a group of points.

ghost use Rattle.std.specs.Prelude.{◌≡◌, ◌↔◌, ◌++◌, ◌∷◌, [], true, IfOk, IsTrue, MatchOption, OnOk};
ghost use Rattle.layers.specs.Chains.{AreInOrder, AreSameIn, AreUpto, IsBounded, IsLow, Leads, is_above};

use super::chains::Chain;
use super::extents::Extent;
use std::alloc::{AllocError, Allocator};

/// Chains that wind around each point of the box, shape by shape, as often as these, and go through it where these do.
///
/// A chain that lies apart goes, and chains below that lead from one to the next become one edge. So what is left lies near the
/// box, or leads to what does.
pub fn narrowed<'a, A: Allocator>(
    alloc: A,
    chains: &[Chain<'a>],
    extent: Extent,
) -> Result<Vec<Chain<'a>, A>, AllocError>
    requires { AreInOrder chains.now }
    ensures same { IfOk result (λ kept. AreSameIn extent kept.items chains.now) }
    ensures order { IfOk result (λ kept. AreInOrder kept.items) }
{
    let mut kept = Vec::new(alloc);
    // Shape by shape those that are kept wind around each point of the box as often as the chains so far.
    for chain in chains {
        append_near(*chain, extent, &mut kept)?;
    }
    Ok(kept)
}

// Appends the chain, or less that does for the box.
fn append_near<'a, A: Allocator>(
    chain: Chain<'a>,
    extent: Extent,
    kept: &mut Vec<Chain<'a>, A>,
) -> Result<(), AllocError>
    requires bounded { IsBounded chain }
    requires order { AreUpto chain.shape kept.old.items }
    ensures same { OnOk result (AreSameIn extent kept.new.items (kept.old.items ++ chain.entry ∷ [])) }
    ensures order { OnOk result (AreUpto chain.entry.shape kept.new.items) }
{
    if extent.is_apart_from(chain.bounds) {
        return Ok(());
    }
    if extent.is_above(chain.bounds) {
        return append_below(chain, extent, kept);
    }
    kept.push(chain)?;
    Ok(())
}

// Appends the edge from the start of a chain below the box to its end, or puts both in the place of the last chain, where that
// leads to it.
fn append_below<'a, A: Allocator>(
    chain: Chain<'a>,
    extent: Extent,
    kept: &mut Vec<Chain<'a>, A>,
) -> Result<(), AllocError>
    requires bounded { IsBounded chain }
    requires below { is_above extent chain.bounds ≡ true }
    requires order { AreUpto chain.shape kept.old.items }
    ensures same { OnOk result (AreSameIn extent kept.new.items (kept.old.items ++ chain.entry ∷ [])) }
    ensures order { OnOk result (AreUpto chain.entry.shape kept.new.items) }
{
    match pop_leading(chain, extent, kept) {
        Some(last) => append_edge(last.straight_to(chain.end), extent, kept),
        None => append_edge(chain.straight_to(chain.end), extent, kept),
    }
}

// Appends an edge below the box, unless it begins and ends on one side of it.
fn append_edge<'a, A: Allocator>(
    edge: Chain<'a>,
    extent: Extent,
    kept: &mut Vec<Chain<'a>, A>,
) -> Result<(), AllocError>
    requires bounded { IsBounded edge }
    requires low { IsLow extent edge }
    requires order { AreUpto edge.shape kept.old.items }
    ensures same { OnOk result (AreSameIn extent kept.new.items (kept.old.items ++ edge.entry ∷ [])) }
    ensures order { OnOk result (AreUpto edge.entry.shape kept.new.items) }
{
    if !extent.is_beside(edge.point_at(0), edge.end) {
        kept.push(edge)?;
    }
    Ok(())
}

// Takes the last chain out where it lies below the box too, and leads to this one.
fn pop_leading<'a, A: Allocator>(
    chain: Chain<'a>,
    extent: Extent,
    kept: &mut Vec<Chain<'a>, A>,
) -> Option<Chain<'a>>
    ensures { MatchOption result (kept.new.items ≡ kept.old.items)
        (λ last. (kept.old.items ≡ kept.new.items ++ last ∷ []) × Leads extent last chain.entry) }
{
    let last = *kept.last()?;
    if leads_to(last, chain, extent) {
        kept.pop()
    } else {
        None
    }
}

// Whether the one chain lies below the box, and leads to the other one.
fn leads_to(last: Chain, chain: Chain, extent: Extent) -> bool
    ensures { IsTrue result ↔ Leads extent last.entry chain.entry }
{
    if last.shape != chain.shape || !extent.is_above(last.bounds) {
        return false;
    }
    extent.is_beside(last.end, chain.point_at(0))
}
