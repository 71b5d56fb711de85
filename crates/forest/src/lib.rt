//! Forests: whether edges between nodes make a circle.
#![tactic(auto)]

ghost use Rattle.std.specs.Prelude.{◌≡◌, ◌≢◌, ◌<◌, ◌≤◌, ◌+◌, ◌-◌, ◌^◌, ℕ, All, IfOk, MatchBool, MatchOption, get_or, length, set};
ghost use Rattle.forest.specs.Circles.{HasNoCircle, Parts, ends_at};
ghost use Rattle.forest.specs.Trees.{AreTrees, HasJoined, IsAlong, parent_of, rank_of};

use std::alloc::{AllocError, Allocator};

/// The place of an edge that is on a circle, if there is any: the others lead from its one end to the other, too.
///
/// Nodes are numbers below `count`. An edge from a node to itself is a circle, and so are two edges between two nodes.
pub fn first_on_circle<A: Allocator + Copy>(
    alloc: A,
    count: usize,
    edges: &[(usize, usize)],
) -> Result<Option<usize>, AllocError>
    requires { All (λ edge. (edge.0 < count) × (edge.1 < count)) edges.now }
    ensures { IfOk result (λ found. MatchOption found (HasNoCircle edges.now)
        (λ place. (place < length edges.now) × (¬ (Parts edges.now place)))) }
{
    let mut parents = roots(alloc, count)?;
    let mut ranks = zeros(alloc, count)?;
    Ok(first_joined(edges, &mut parents, &mut ranks))
}

// The same, from trees of one node each.
fn first_joined(
    edges: &[(usize, usize)],
    parents: &mut [usize],
    ranks: &mut [usize],
) -> Option<usize>
    requires ends { All (λ edge. (edge.0 < length parents.old) × (edge.1 < length parents.old)) edges.now }
    requires trees { AreTrees parents.old ranks.old 0 }
    requires alone { (k : ℕ) → k < length parents.old → parent_of parents.old k ≡ k }
    ensures { MatchOption result (HasNoCircle edges.now) (λ place. (place < length edges.now) × (¬ (Parts edges.now place))) }
{
    // The edges before this one are on no circle, and the trees join what they join.
    for place in 0..edges.len() {
        if !join(edges, place, parents, ranks) {
            return Some(place);
        }
    }
    None
}

// Each node as its own parent.
fn roots<A: Allocator>(alloc: A, count: usize) -> Result<Vec<usize, A>, AllocError>
    ensures { IfOk result (λ parents. (length parents.items ≡ count) × ((k : ℕ) → k < count → parent_of parents.items k ≡ k)) }
{
    let mut parents = Vec::with_capacity(alloc, count)?;
    for node in 0..count {
        parents.push(node)?;
    }
    Ok(parents)
}

// A rank of 0 for each node.
fn zeros<A: Allocator>(alloc: A, count: usize) -> Result<Vec<usize, A>, AllocError>
    ensures { IfOk result (λ ranks. (length ranks.items ≡ count) × ((k : ℕ) → k < count → rank_of ranks.items k ≡ 0)) }
{
    let mut ranks = Vec::with_capacity(alloc, count)?;
    for _node in 0..count {
        ranks.push(0)?;
    }
    Ok(ranks)
}

// Joins the trees of the ends of the edge at this place, if they are two.
fn join(edges: &[(usize, usize)], place: usize, parents: &mut [usize], ranks: &mut [usize]) -> bool
    requires place { place < length edges.now }
    requires ends { ((ends_at edges.now place).0 < length parents.old) × ((ends_at edges.now place).1 < length parents.old) }
    requires trees { AreTrees parents.old ranks.old place }
    requires joined { HasJoined edges.now place parents.old }
    ensures { MatchBool result (AreTrees parents.new ranks.new (place + 1) × HasJoined edges.now (place + 1) parents.new)
        (¬ (Parts edges.now place)) }
{
    let one = root_of(parents, ranks, edges[place].0, place);
    let other = root_of(parents, ranks, edges[place].1, place);
    if one == other {
        return false;
    }
    if ranks[one] <= ranks[other] {
        link(parents, ranks, one, other, place);
    } else {
        link(parents, ranks, other, one, place);
    }
    true
}

// The root of the tree that the node is of.
fn root_of(parents: &[usize], ranks: &[usize], node: usize, most: usize) -> usize
    requires node { node < length parents.now }
    requires trees { AreTrees parents.now ranks.now most }
    ensures inside { result < length parents.now }
    ensures root { parent_of parents.now result ≡ result }
    ensures same { (label : ℕ → ℕ) → IsAlong parents.now label → label result ≡ label node }
{
    let mut at = node;
    while parents[at] != at {
        at = parents[at];
    }
    at
}

// Makes the other root the parent of the one, whose rank isn't above.
fn link(parents: &mut [usize], ranks: &mut [usize], one: usize, other: usize, most: usize)
    requires one { one < length parents.old }
    requires other { other < length parents.old }
    requires apart { one ≢ other }
    requires root { parent_of parents.old other ≡ other }
    requires order { rank_of ranks.old one ≤ rank_of ranks.old other }
    requires trees { AreTrees parents.old ranks.old most }
    requires room { most + 1 < 2 ^ 64 }
    ensures parents { parents.new ≡ set parents.old one other }
    ensures trees { AreTrees parents.new ranks.new (most + 1) }
{
    parents[one] = other;
    if ranks[one] == ranks[other] {
        ranks[other] += 1;
    }
}
