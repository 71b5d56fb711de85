//! `ExchangeStatus`: the active edges in their order along the sweep line, two neighbours of which can be exchanged.

ghost use Rattle.std.specs.Prelude.{◌≡◌, ◌≢◌, ◌<◌, ◌<ℤ◌, ℕ, [], ◌∷◌, ◌++◌, List, All, IfErr, IfOk, OnErr, OnOk, MatchOption, length};
ghost use Rattle.i_tree.specs.Rb.Balance.{IsCore};
ghost use Rattle.i_tree.specs.Rb.Items.{items_of};
ghost use Rattle.i_tree.specs.Rb.Place.{IsPlaceBetween, place_below};
ghost use Rattle.i_tree.specs.Rb.Shape.{IsHandle, entries, first_handle, last_handle};
ghost use Rattle.i_tree.specs.declared.Refusal.TheVariants.{OutOfMemory};
ghost use Rattle.plane.specs.declared.sweep_line.active.ActiveEdge.{ActiveEdge};
ghost use Rattle.plane.specs.Columns.Steps.{AppendsComparing, Compares};
ghost use Rattle.plane.specs.Columns.Status.{AreNext, BeginsWith, EndsWith, ExchangesNext, GainsMet, IsAmong, IsExchange, IsFirstWithin, IsOfLine, IsSplitAt, IsSplitByAsked, JoinsLine, LeavesLine};
ghost use Rattle.plane.specs.Lists.{Extends};

use super::Asked;
use super::descent::{DescentEnd, Sought, descend, is_upto_asked};
use crate::sweep_line::ActiveEdge;
use i_tree::rb::RbTree;
use i_tree::steps::{Counter, Uncounted};
use i_tree::{EMPTY_REF, Refusal};
use std::alloc::{AllocError, Allocator};
use std::marker::Model;

/// Two neighbours that have been exchanged, the one that was lower first, and those next to them, if any.
#[derive(Clone, Copy)]
pub struct Exchanged {
    pub under: Option<ActiveEdge>,
    pub lower: ActiveEdge,
    pub upper: ActiveEdge,
    pub over: Option<ActiveEdge>,
}

/// The active edges in their order along the sweep line, from the lowest on. Each is found by its place among all edges, and two
/// neighbours can be exchanged.
///
/// Contracts see the list of edges, and how many places there are.
#[derive(Drop)]
pub struct ExchangeStatus<A: Allocator + Copy> {
    tree: RbTree<ActiveEdge, A>,
    // The handle of the edge at each place, or `EMPTY_REF` where that isn't active.
    handles: Vec<u32, A>,
}

impl<A: Allocator + Copy> Model for ExchangeStatus<A> {
    ghost use Rattle.std.specs.Prelude.{length};
    ghost use Rattle.i_tree.specs.Rb.Items.{items_of};
    ghost use Rattle.i_tree.specs.Rb.Shape.{entries};
    ghost use Rattle.plane.specs.Columns.Status.{Line, AreHandlesOf};

    ghost Value = { Line };

    ghost view = { λ status. record {
      edges = items_of (entries status.tree.shape);
      places = length status.handles.items;
    } };

    ghost invariant = { λ status. AreHandlesOf (entries status.tree.shape) status.handles.items };
}

impl<A: Allocator + Copy> ExchangeStatus<A> {
    /// A status without edges, for edges at so many places.
    pub fn new(alloc: A, places: usize) -> Result<Self, Refusal>
        ensures empty { IfOk result (λ status. status.edges ≡ []) }
        ensures places { IfOk result (λ status. status.places ≡ places) }
        ensures refused { IfErr result (λ cause. cause ≡ OutOfMemory) }
    {
        Ok(ExchangeStatus {
            tree: RbTree::new(alloc, 0)?,
            handles: vec![in alloc; EMPTY_REF; places]?,
        })
    }

    /// Puts an edge that begins where it stands, and tells the two between which that is. It is refused for want of memory alone,
    /// among which is that of a handle, and changes nothing then.
    pub fn insert<C: Counter>(
        &mut self,
        steps: &mut C,
        beginning: ActiveEdge,
    ) -> Result<(Option<ActiveEdge>, Option<ActiveEdge>), Refusal>
        requires right { All (λ other. other.edge.x0 <ℤ other.edge.x1) self.old.edges }
        requires beginning_right { beginning.edge.x0 <ℤ beginning.edge.x1 }
        requires split { (front : List ActiveEdge) × (back : List ActiveEdge) × IsSplitAt beginning self.old.edges front back }
        requires place { beginning.place < self.old.places }
        requires absent { ¬ (IsOfLine self.old.edges beginning.place) }
        ensures joins { IfOk result (JoinsLine beginning self.old.edges self.new.edges) }
        ensures err { OnErr result (self.new ≡ self.old) }
        ensures refused { IfErr result (λ cause. cause ≡ OutOfMemory) }
        ensures steps { Compares C.made steps.old steps.new (length self.old.edges) 1 0 }
        ensures places { self.new.places ≡ self.old.places }
    {
        let end = descend(&self.tree, steps, Sought::Beginning(beginning));
        let handle = put(&mut self.tree, end, beginning)?;
        self.handles[beginning.place] = handle;
        Ok(edges_beside(&self.tree, handle))
    }

    /// Takes out the edge at the place, and tells the two that were next to it.
    pub fn remove(&mut self, place: usize) -> (Option<ActiveEdge>, Option<ActiveEdge>)
        requires { IsOfLine self.old.edges place }
        ensures leaves { LeavesLine place self.old.edges self.new.edges result }
        ensures places { self.new.places ≡ self.old.places }
    {
        let handle = self.handles[place];
        let told = edges_beside(&self.tree, handle);
        self.tree.remove(&mut Uncounted, handle);
        self.handles[place] = EMPTY_REF;
        if self.tree.has(handle) {
            // The next edge has come to this handle.
            let moved = self.tree.item(handle).place;
            self.handles[moved] = handle;
        }
        told
    }

    /// Exchanges the edges at the two places, where the first is of the line and the second directly above it.
    pub fn exchange(&mut self, below: usize, above: usize) -> Option<Exchanged>
        requires { (below < self.old.places) × (above < self.old.places) }
        ensures exchanged { MatchOption result
            ((self.new ≡ self.old) × ¬ (AreNext below above self.old.edges))
            (ExchangesNext below above self.old.edges self.new.edges) }
        ensures places { self.new.places ≡ self.old.places }
    {
        let low = self.handles[below];
        let high = self.handles[above];
        if !self.tree.has(low) || !self.tree.has(high) || self.tree.after(low) != high {
            return None;
        }
        let exchanged = exchange_items(&mut self.tree, low, high);
        self.handles[below] = high;
        self.handles[above] = low;
        Some(exchanged)
    }

    /// Appends the pair of each edge that is within what is asked and of this place, from the lowest on.
    pub fn append_within<C: Counter>(
        &self,
        steps: &mut C,
        asked: Asked,
        place: usize,
        met: &mut Vec<(usize, usize), A>,
    ) -> Result<(), AllocError>
        requires right { All (λ other. other.edge.x0 <ℤ other.edge.x1) self.now.edges }
        requires split { (front : List ActiveEdge) × (within : List ActiveEdge) × (back : List ActiveEdge)
            × IsSplitByAsked asked self.now.edges front within back }
        ensures ok { OnOk result ((front : List ActiveEdge) × (within : List ActiveEdge) × (back : List ActiveEdge)
            × IsSplitByAsked asked self.now.edges front within back × GainsMet within place met.old.items met.new.items) }
        ensures steps { OnOk result (AppendsComparing C.made steps.old steps.new (length self.now.edges) 1 met.old.items met.new.items) }
        ensures err { OnErr result (Extends met.old.items met.new.items) }
    {
        let end = descend(&self.tree, steps, Sought::Within(asked));
        let first = handle_behind(&self.tree, end.last);
        append_from(&self.tree, steps, first, asked, place, met)
    }
}

/// Puts the edge where a descent has ended, and answers its handle. It is refused for want of memory, or of a handle, which
/// counts as that.
fn put<A: Allocator + Copy>(
    tree: &mut RbTree<ActiveEdge, A>,
    end: DescentEnd,
    edge: ActiveEdge,
) -> Result<u32, Refusal>
    requires { (front : List (ℕ × ActiveEdge)) × (back : List (ℕ × ActiveEdge))
        × IsPlaceBetween tree.old.shape front back (place_below end.above end.on_right) }
    ensures joins { IfOk result (λ handle. (front : List (ℕ × ActiveEdge)) (back : List (ℕ × ActiveEdge)) →
        IsPlaceBetween tree.old.shape front back (place_below end.above end.on_right) →
        entries tree.new.shape ≡ front ++ (handle, edge) ∷ back) }
    ensures err { OnErr result (tree.new ≡ tree.old) }
    ensures refused { IfErr result (λ cause. cause ≡ OutOfMemory) }
    ensures core { IsCore tree.new.shape }
{
    let answer = if end.above == EMPTY_REF {
        tree.insert_root(&mut Uncounted, edge)
    } else if end.on_right {
        tree.insert_right(&mut Uncounted, end.above, edge)
    } else {
        tree.insert_left(&mut Uncounted, end.above, edge)
    };
    match answer {
        Ok(handle) => Ok(handle),
        Err(_) => Err(Refusal::OutOfMemory),
    }
}

/// Exchanges the edges at two handles, the first of which is directly below the second.
fn exchange_items<A: Allocator + Copy>(
    tree: &mut RbTree<ActiveEdge, A>,
    low: u32,
    high: u32,
) -> Exchanged
    requires { (front : List (ℕ × ActiveEdge)) × (lower : ActiveEdge) × (upper : ActiveEdge) × (back : List (ℕ × ActiveEdge))
        × (entries tree.old.shape ≡ front ++ (low, lower) ∷ (high, upper) ∷ back) }
    ensures exchanges { (front : List (ℕ × ActiveEdge)) (lower : ActiveEdge) (upper : ActiveEdge) (back : List (ℕ × ActiveEdge)) →
        entries tree.old.shape ≡ front ++ (low, lower) ∷ (high, upper) ∷ back →
        IsExchange front low lower high upper back (entries tree.new.shape) result }
    ensures core { IsCore tree.new.shape }
{
    let exchanged = Exchanged {
        under: edge_at(tree, tree.before(low)),
        lower: *tree.item(low),
        upper: *tree.item(high),
        over: edge_at(tree, tree.after(high)),
    };
    *tree.item_mut(low) = exchanged.upper;
    *tree.item_mut(high) = exchanged.lower;
    exchanged
}

/// The edges next to the one at the handle, that below first.
fn edges_beside<A: Allocator + Copy>(
    tree: &RbTree<ActiveEdge, A>,
    handle: u32,
) -> (Option<ActiveEdge>, Option<ActiveEdge>)
    requires { IsHandle tree.now.shape handle }
    ensures beside { (front : List (ℕ × ActiveEdge)) (item : ActiveEdge) (back : List (ℕ × ActiveEdge)) →
        entries tree.now.shape ≡ front ++ (handle, item) ∷ back →
        EndsWith (items_of front) result.0 × BeginsWith (items_of back) result.1 }
    ensures core { IsCore tree.now.shape }
{
    let below = edge_at(tree, tree.before(handle));
    let above = edge_at(tree, tree.after(handle));
    (below, above)
}

/// The edge at the handle, if that is one.
fn edge_at<A: Allocator + Copy>(tree: &RbTree<ActiveEdge, A>, handle: u32) -> Option<ActiveEdge>
    requires { handle ≢ EMPTY_REF → IsHandle tree.now.shape handle }
    ensures { MatchOption result (handle ≡ EMPTY_REF) (λ active. IsAmong (entries tree.now.shape) (handle, active)) }
{
    if handle == EMPTY_REF {
        return None;
    }
    Some(*tree.item(handle))
}

/// The handle of the edge behind the one at this handle, or of the first where this is `EMPTY_REF`. It is `EMPTY_REF` where there
/// is none.
fn handle_behind<A: Allocator + Copy>(tree: &RbTree<ActiveEdge, A>, last: u32) -> u32
    requires { (front : List (ℕ × ActiveEdge)) × (back : List (ℕ × ActiveEdge)) × (entries tree.now.shape ≡ front ++ back) × (last ≡ last_handle front) }
    ensures { (front : List (ℕ × ActiveEdge)) (back : List (ℕ × ActiveEdge)) →
        entries tree.now.shape ≡ front ++ back → last ≡ last_handle front → result ≡ first_handle back }
{
    if last == EMPTY_REF {
        return tree.first();
    }
    tree.after(last)
}

/// Appends the pair of each edge from the handle on that is within what is asked, and of this place.
fn append_from<A: Allocator + Copy, C: Counter>(
    tree: &RbTree<ActiveEdge, A>,
    steps: &mut C,
    first: u32,
    asked: Asked,
    place: usize,
    met: &mut Vec<(usize, usize), A>,
) -> Result<(), AllocError>
    requires first { IsFirstWithin asked (entries tree.now.shape) first }
    requires core { IsCore tree.now.shape }
    ensures ok { OnOk result ((front : List ActiveEdge) × (within : List ActiveEdge) × (back : List ActiveEdge)
        × IsSplitByAsked asked (items_of (entries tree.now.shape)) front within back
        × GainsMet within place met.old.items met.new.items) }
    ensures steps { OnOk result (AppendsComparing C.made steps.old steps.new 0 0 met.old.items met.new.items) }
    ensures err { OnErr result (Extends met.old.items met.new.items) }
{
    let mut here = first;
    // The edges in front of `here` that are within have been appended.
    while here != EMPTY_REF {
        let active = *tree.item(here);
        steps.add_comparison();
        if !is_upto_asked(active.edge, asked) {
            return Ok(());
        }
        met.push((active.place, place))?;
        here = tree.after(here);
    }
    Ok(())
}
