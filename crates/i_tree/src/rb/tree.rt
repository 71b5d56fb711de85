//! `RbTree`, the public core: a red-black tree whose nodes have handles that stay.

ghost use Rattle.std.specs.Prelude.{◌≡◌, ◌≢◌, ◌<◌, ◌+◌, ◌++◌, ◌∷◌, ℕ, List, length, OnErr, IfOk, MatchBool, max};
ghost use Rattle.std.specs.Borrow.{sem};
ghost use Rattle.i_tree.specs.Rb.Capacity.{MakesEmpty, Reserves, TakesSlot};
ghost use Rattle.i_tree.specs.Rb.Context.{beside, subtree_on};
ghost use Rattle.i_tree.specs.Rb.Place.{IsPlaceBetween};
ghost use Rattle.i_tree.specs.Rb.RbTree.{slots};
ghost use Rattle.i_tree.specs.Rb.RbTreeLends.{lends_item};
ghost use Rattle.i_tree.specs.Rb.Balance.{IsCore};
ghost use Rattle.i_tree.specs.Rb.Shape.{leaf, fork, top, entries, occurs, IsHandle, subtree_at, left_at, right_at, last_handle, rank};
ghost use Rattle.i_tree.specs.Root.Steps.{OnlyRotates};

use super::arena::Arena;
use super::links::{Colour, Side};
use super::place::Place;
use super::rebalancing::rebalance_insertion;
use crate::steps::Counter;
use crate::{EMPTY_REF, Refusal, Refused};
use std::alloc::Allocator;
use std::marker::Model;

/// A red-black tree whose nodes have handles that stay: the core of both trees.
///
/// Contracts see the tree's shape: the entries in order, each a handle and an item, the subtree below each handle, and
/// ranks. It compares nothing: its user decides where an item goes, by handles. It is our own, made of what the trees of
/// the Rust crate `i_tree` share.
#[derive(Drop)]
pub struct RbTree<T, A: Allocator + Copy> {
    pub(super) arena: Arena<T, A>,
}

impl<T, A: Allocator + Copy> Model for RbTree<T, A> {
    ghost use Rattle.i_tree.specs.Rb.RbTree.{Contents, contents_code};

    ghost Value = { Contents T };

    ghost coded = { contents_code T.code };

    ghost use Rattle.i_tree.specs.Rb.Balance.{IsRedBlack};
    ghost use Rattle.i_tree.specs.Rb.Shape.{AreHandles};

    ghost view = { λ tree. tree.arena };

    ghost invariant = { λ tree. IsRedBlack tree.arena.shape × AreHandles tree.arena.shape };
}

impl<T, A: Allocator + Copy> RbTree<T, A> {
    ghost use Rattle.i_tree.specs.Rb.RbTreeLends.{lends_item};

    /// An empty tree of exactly `max(capacity, 8)` slots, one of them reserved.
    ///
    /// It is refused with `NoHandle` exactly where `capacity` is above `EMPTY_REF`, before memory is asked for, and else
    /// only where the allocator refuses the slots.
    pub fn new(alloc: A, capacity: usize) -> Result<Self, Refusal>
        ensures makes { MakesEmpty capacity result }
    {
        Ok(RbTree {
            arena: Arena::new(alloc, capacity)?,
        })
    }

    /// Makes so many slots in all, where there are fewer. A refusal changes nothing.
    ///
    /// It is refused with `NoHandle` exactly where `capacity` is above `EMPTY_REF`, before memory is asked for, and else
    /// only where the allocator refuses the growth.
    pub fn reserve(&mut self, capacity: usize) -> Result<(), Refusal>
        ensures reserves { Reserves capacity self.old self.new result }
        ensures core { IsCore self.new.shape }
    {
        self.arena.reserve(capacity)
    }

    /// How many entries there are.
    pub fn len(&self) -> usize
        ensures value { result ≡ length (entries self.now.shape) }
        ensures empty { result ≡ 0 → self.now.shape ≡ leaf }
        ensures core { IsCore self.now.shape }
    {
        self.arena.len()
    }

    /// How many slots are free: for so many insertions there is room.
    pub fn spare(&self) -> usize
        ensures value { result ≡ self.now.spare }
        ensures core { IsCore self.now.shape }
    {
        self.arena.spare()
    }

    /// Whether an entry has the handle.
    pub fn has(&self, handle: u32) -> bool
        ensures value { MatchBool result (IsHandle self.now.shape handle) (occurs handle self.now.shape ≡ 0) }
        ensures core { IsCore self.now.shape }
    {
        self.arena.has(handle)
    }

    /// The handle of the root, or `EMPTY_REF` where there is none.
    pub fn root(&self) -> u32
        ensures value { result ≡ top self.now.shape }
        ensures part { subtree_at result self.now.shape ≡ self.now.shape }
        ensures live { result ≢ EMPTY_REF → IsHandle self.now.shape result }
        ensures empty { result ≡ EMPTY_REF → self.now.shape ≡ leaf }
        ensures core { IsCore self.now.shape }
    {
        self.arena.root()
    }

    /// The root of the subtree on the left below the handle, or `EMPTY_REF` where that subtree is empty. The rank of the subtree falls,
    /// which bounds a descent.
    pub fn left(&self, handle: u32) -> u32
        requires { IsHandle self.now.shape handle }
        ensures value { result ≡ top (left_at handle self.now.shape) }
        ensures part { subtree_at result self.now.shape ≡ left_at handle self.now.shape }
        ensures lower { rank (subtree_at result self.now.shape) < rank (subtree_at handle self.now.shape) }
        ensures live { result ≢ EMPTY_REF → IsHandle self.now.shape result }
        ensures empty { result ≡ EMPTY_REF → left_at handle self.now.shape ≡ leaf }
        ensures core { IsCore self.now.shape }
    {
        self.child(handle, Side::Left)
    }

    /// The root of the subtree on the right below the handle, or `EMPTY_REF` where that subtree is empty. The rank of the subtree falls,
    /// as on the left.
    pub fn right(&self, handle: u32) -> u32
        requires { IsHandle self.now.shape handle }
        ensures value { result ≡ top (right_at handle self.now.shape) }
        ensures part { subtree_at result self.now.shape ≡ right_at handle self.now.shape }
        ensures lower { rank (subtree_at result self.now.shape) < rank (subtree_at handle self.now.shape) }
        ensures live { result ≢ EMPTY_REF → IsHandle self.now.shape result }
        ensures empty { result ≡ EMPTY_REF → right_at handle self.now.shape ≡ leaf }
        ensures core { IsCore self.now.shape }
    {
        self.child(handle, Side::Right)
    }

    /// The item at the handle.
    pub fn item(&self, handle: u32) -> &T
        requires { IsHandle self.now.shape handle }
        ensures value { entries (subtree_at handle self.now.shape) ≡
            entries (left_at handle self.now.shape) ++ (handle, result.now) ∷ entries
            (right_at handle self.now.shape) }
        ensures core { IsCore self.now.shape }
    {
        self.arena.item(handle)
    }

    /// The item at the handle, to be written. Nothing else changes.
    pub fn item_mut(&mut self, handle: u32) -> &mut T
        requires { IsHandle self.old.shape handle }
        ensures* writes_back { sem 𝓛 (lends_item T.row A.row A.Allocator self.entry handle result) }
        ensures value { entries (subtree_at handle self.old.shape) ≡
            entries (left_at handle self.old.shape) ++ (handle, result.now) ∷ entries
            (right_at handle self.old.shape) }
        ensures core { IsCore self.old.shape }
    {
        self.arena.item_mut(handle)
    }

    /// Puts the first item into the empty tree, and answers its handle.
    ///
    /// Where a slot is free it succeeds. Else the slots double, up to `EMPTY_REF` of them: it is refused with `NoHandle`
    /// exactly where all of these are in use, and with `OutOfMemory` only where the growth was refused. A refusal changes
    /// nothing and hands the item back.
    pub fn insert_root<C: Counter>(&mut self, _steps: &mut C, item: T) -> Result<u32, Refused<T>>
        requires { self.old.shape ≡ leaf }
        ensures shape { IfOk result (λ handle. self.new.shape ≡ fork Colour.Black leaf handle item leaf) }
        ensures takes { TakesSlot item self.old self.new result }
        ensures steps { _steps.new ≡ _steps.old }
        ensures core { IsCore self.new.shape }
    {
        if let Err(cause) = self.arena.make_room() {
            return Err(Refused { value: item, cause });
        }
        Ok(self.arena.attach_root(item))
    }

    /// Puts an item directly before that of the parent, whose left subtree is empty, and answers its handle.
    ///
    /// All other handles stay. At most two rotations are made. It is refused as `insert_root` is.
    pub fn insert_left<C: Counter>(
        &mut self,
        steps: &mut C,
        parent: u32,
        item: T,
    ) -> Result<u32, Refused<T>>
        requires live { IsHandle self.old.shape parent }
        requires room { left_at parent self.old.shape ≡ leaf }
        ensures entries { IfOk result (λ handle. (front : List (ℕ × T)) (at : T) (back : List (ℕ × T)) →
            entries self.old.shape ≡ front ++ (parent, at) ∷ back →
            entries self.new.shape ≡ front ++ (handle, item) ∷ (parent, at) ∷ back) }
        ensures fresh { IfOk result (λ handle. occurs handle self.old.shape ≡ 0) }
        ensures takes { TakesSlot item self.old self.new result }
        ensures err_steps { OnErr result (steps.new ≡ steps.old) }
        ensures steps { OnlyRotates C.made steps.old steps.new 2 }
        ensures core { IsCore self.new.shape }
    {
        self.insert_on(steps, parent, Side::Left, item)
    }

    /// Puts an item directly after that of the parent, whose right subtree is empty, and answers its handle.
    ///
    /// All other handles stay. At most two rotations are made. It is refused as `insert_root` is.
    pub fn insert_right<C: Counter>(
        &mut self,
        steps: &mut C,
        parent: u32,
        item: T,
    ) -> Result<u32, Refused<T>>
        requires live { IsHandle self.old.shape parent }
        requires room { right_at parent self.old.shape ≡ leaf }
        ensures entries { IfOk result (λ handle. (front : List (ℕ × T)) (at : T) (back : List (ℕ × T)) →
            entries self.old.shape ≡ front ++ (parent, at) ∷ back →
            entries self.new.shape ≡ front ++ (parent, at) ∷ (handle, item) ∷ back) }
        ensures fresh { IfOk result (λ handle. occurs handle self.old.shape ≡ 0) }
        ensures takes { TakesSlot item self.old self.new result }
        ensures err_steps { OnErr result (steps.new ≡ steps.old) }
        ensures steps { OnlyRotates C.made steps.old steps.new 2 }
        ensures core { IsCore self.new.shape }
    {
        self.insert_on(steps, parent, Side::Right, item)
    }

    /// Puts the item at the place, where no subtree is, and answers its handle. It is refused as `insert_root` is.
    #[inline(always)]
    pub(crate) fn insert_at<C: Counter>(
        &mut self,
        steps: &mut C,
        place: Place,
        item: T,
    ) -> Result<u32, Refused<T>>
        requires { (front : List (ℕ × T)) × (back : List (ℕ × T)) × IsPlaceBetween self.old.shape front back place }
        ensures joins { IfOk result (λ handle. (front : List (ℕ × T)) (back : List (ℕ × T)) →
            IsPlaceBetween self.old.shape front back place →
            entries self.new.shape ≡ front ++ (handle, item) ∷ back) }
        ensures fresh { IfOk result (λ handle. occurs handle self.old.shape ≡ 0) }
        ensures takes { TakesSlot item self.old self.new result }
        ensures err_steps { OnErr result (steps.new ≡ steps.old) }
        ensures steps { OnlyRotates C.made steps.old steps.new 2 }
        ensures core { IsCore self.new.shape }
    {
        match place {
            Place::Root => self.insert_root(steps, item),
            Place::Below(parent, side) => self.insert_on(steps, parent, side, item),
        }
    }

    // Puts an item on the side of the parent, where it has no subtree, and answers its handle.
    #[inline(always)]
    fn insert_on<C: Counter>(
        &mut self,
        steps: &mut C,
        parent: u32,
        side: Side,
        item: T,
    ) -> Result<u32, Refused<T>>
        requires live { IsHandle self.old.shape parent }
        requires room { subtree_on side parent self.old.shape ≡ leaf }
        ensures entries { IfOk result (λ handle. (front : List (ℕ × T)) (at : T) (back : List (ℕ × T)) →
            entries self.old.shape ≡ front ++ (parent, at) ∷ back →
            entries self.new.shape ≡ front ++ beside side (handle, item) (parent, at) back) }
        ensures fresh { IfOk result (λ handle. occurs handle self.old.shape ≡ 0) }
        ensures takes { TakesSlot item self.old self.new result }
        ensures err_steps { OnErr result (steps.new ≡ steps.old) }
        ensures steps { OnlyRotates C.made steps.old steps.new 2 }
        ensures core { IsCore self.new.shape }
    {
        if let Err(cause) = self.arena.make_room() {
            return Err(Refused { value: item, cause });
        }
        let handle = self.arena.attach(parent, side, item);
        rebalance_insertion(&mut self.arena, steps, handle);
        Ok(handle)
    }
}
