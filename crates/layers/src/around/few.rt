//! Which points of a small group lie in which shapes: each point and each chain is looked at.

ghost use Rattle.std.specs.Prelude.{◌≡◌, ◌≢◌, ◌≤◌, ◌↔◌, ⊤, All, IsTrue, MatchOption, OnOk, length, slice_get, take};
ghost use Rattle.plane.specs.Pairs.Points.{Gains};
ghost use Rattle.layers.specs.Around.{LiesIn, halved};
ghost use Rattle.layers.specs.Chains.{AreApart, AreInOrder, IsBounded, LiesAmong, LiesInChains, edges_of_chains, is_in};

use super::chains::Chain;
use super::half_point::HalfPoint;
use super::placed::Placed;
use super::turns::{Around, around_chain, both};
use crate::points::Border;
use overlay::fill::FillRule;
use std::alloc::{AllocError, Allocator};

/// Appends the pairs of places of a point of the group and of a shape in which it lies.
pub fn append_of_few<A: Allocator>(
    group: &[Placed],
    chains: &[Chain],
    rule: FillRule,
    border: Border,
    pairs: &mut Vec<(usize, usize), A>,
) -> Result<(), AllocError>
    requires order { AreInOrder chains.now }
    requires apart { AreApart group.now }
    ensures { OnOk result (Gains (LiesInChains rule border group.now chains.now) pairs.old.items pairs.new.items) }
{
    let mut start = 0;
    // The pairs of the shapes whose chains stand before `start` are told, and there the next shape begins.
    while start < chains.len() {
        let shape = chains[start].shape;
        let end = start + count_of_shape(&chains[start..], shape);
        append_of_shape(group, &chains[start..end], shape, rule, border, pairs)?;
        start = end;
    }
    Ok(())
}

// How many chains, from the first on, are of the shape.
fn count_of_shape(chains: &[Chain], shape: usize) -> usize
    ensures within { result ≤ length chains.now }
    ensures of { All (λ chain. chain.shape ≡ shape) (take result chains.now) }
    ensures next { MatchOption (slice_get chains.now result) ⊤ (λ chain. chain.shape ≢ shape) }
{
    for (index, chain) in chains.iter().enumerate() {
        if chain.shape != shape {
            return index;
        }
    }
    chains.len()
}

// Appends the pairs of the shape, of which these are all chains.
fn append_of_shape<A: Allocator>(
    group: &[Placed],
    chains: &[Chain],
    shape: usize,
    rule: FillRule,
    border: Border,
    pairs: &mut Vec<(usize, usize), A>,
) -> Result<(), AllocError>
    requires bounded { All IsBounded chains.now }
    requires apart { AreApart group.now }
    ensures { OnOk result (Gains
        (λ i j. (j ≡ shape) × LiesAmong rule border group.now (edges_of_chains chains.now) i)
        pairs.old.items pairs.new.items) }
{
    // The pairs of the points so far are told.
    for placed in group {
        append_if_in(*placed, chains, shape, rule, border, pairs)?;
    }
    Ok(())
}

// Appends the pair of the point and the shape, if it lies in the shape.
fn append_if_in<A: Allocator>(
    placed: Placed,
    chains: &[Chain],
    shape: usize,
    rule: FillRule,
    border: Border,
    pairs: &mut Vec<(usize, usize), A>,
) -> Result<(), AllocError>
    requires { All IsBounded chains.now }
    ensures { OnOk result (Gains
        (λ i j. (i ≡ placed.place) × (j ≡ shape) × LiesIn rule border (halved placed.point) (edges_of_chains chains.now))
        pairs.old.items pairs.new.items) }
{
    if lies_in(placed.point, chains, rule, border) {
        pairs.push((placed.place, shape))?;
    }
    Ok(())
}

// Whether the point lies in the shape with these chains.
fn lies_in(point: HalfPoint, chains: &[Chain], rule: FillRule, border: Border) -> bool
    requires { All IsBounded chains.now }
    ensures { IsTrue result ↔ LiesIn rule border (halved point) (edges_of_chains chains.now) }
{
    let mut around = Around {
        turns: 0,
        touches: false,
    };
    // What the edges of the chains so far do.
    for chain in chains {
        around = both(around, around_chain(*chain, point));
    }
    is_in(rule.is_inside(around.turns), around.touches, border)
}

// Whether a point is in a shape, by whether it is inside and whether it is on an edge.
fn is_in(is_inside: bool, touches: bool, border: Border) -> bool
    ensures { result ≡ is_in border is_inside touches }
{
    match border {
        Border::Closed => is_inside || touches,
        Border::Open => is_inside && !touches,
        Border::HalfOpen => is_inside,
    }
}
