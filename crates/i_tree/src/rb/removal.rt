//! `remove` of the core: an entry is taken out.

ghost use Rattle.std.specs.Prelude.{◌≡◌, ◌≤◌, ◌+◌, ◌++◌, ◌∷◌, ℕ, List};
ghost use Rattle.i_tree.specs.Rb.Context.{Frame, plug, HasOneSubtree};
ghost use Rattle.i_tree.specs.Rb.Removal.{LosesAt, ChangesSide, RemovesOne};
ghost use Rattle.i_tree.specs.Rb.Balance.{IsCore};
ghost use Rattle.i_tree.specs.Rb.Shape.{Shape, fork, top, entries, rank, IsHandle, subtree_at, left_at, right_at};
ghost use Rattle.i_tree.specs.Root.Steps.{OnlyRotates};
ghost use Rattle.i_tree.specs.Rb.Detaching.{IsFirst, TakesOut};

use super::links::{Colour, Side};
use super::rebalancing::{rebalance_removal, side_of};
use super::tree::RbTree;
use crate::EMPTY_REF;
use crate::steps::Counter;
use std::alloc::Allocator;
use std::mem;

impl<T, A: Allocator + Copy> RbTree<T, A> {
    /// Takes the entry out, and answers its item.
    ///
    /// As in the Rust crate `i_tree`, a node with two subtrees stays: the next entry's item comes to its handle, and the next
    /// entry's node goes. So every other entry keeps its handle, or the next one alone has this handle now. The clauses are
    /// our own. Where the handle was the top of a side of the node `above`, that node stays live, the list changes on that
    /// side alone, and the rank of that side doesn't rise: who walks down can go on from there. At most three rotations are
    /// made.
    pub fn remove<C: Counter>(&mut self, steps: &mut C, handle: u32) -> T
        requires { IsHandle self.old.shape handle }
        ensures list { (front : List (ℕ × T)) (item : T) (back : List (ℕ × T)) →
            entries self.old.shape ≡ front ++ (handle, item) ∷ back → (result ≡ item)
            × LosesAt handle front back (entries self.new.shape) }
        ensures left { (above : ℕ) → IsHandle self.old.shape above → top (left_at above self.old.shape) ≡ handle →
            ChangesSide self.old.shape self.new.shape above (left_at above self.old.shape)
            (left_at above self.new.shape) }
        ensures right { (above : ℕ) → IsHandle self.old.shape above → top (right_at above self.old.shape) ≡ handle →
            ChangesSide self.old.shape self.new.shape above (right_at above self.old.shape)
            (right_at above self.new.shape) }
        ensures rank { rank self.new.shape ≤ rank self.old.shape }
        ensures spare { self.new.spare ≡ self.old.spare + 1 }
        ensures steps { RemovesOne C.made steps.old steps.new 3 }
        ensures core { IsCore self.new.shape }
    {
        steps.add_removal();
        let left = self.left(handle);
        let right = self.right(handle);
        if left == EMPTY_REF || right == EMPTY_REF {
            return self.remove_at(steps, handle);
        }
        let next = self.first_below(right);
        let item = self.remove_at(steps, next);
        mem::replace(self.item_mut(handle), item)
    }

    // The first handle of the subtree at this one.
    fn first_below(&self, subtree: u32) -> u32
        requires { IsHandle self.now.shape subtree }
        ensures { IsFirst (subtree_at subtree self.now.shape) result }
    {
        let mut first = subtree;
        // The first entry is that of the subtree at `first`.
        loop {
            let left = self.left(first);
            if left == EMPTY_REF {
                return first;
            }
            first = left;
        }
    }

    // Takes out a node with an empty subtree on some side, and rebalances the tree: where the node is black, its place is a level
    // short.
    fn remove_at<C: Counter>(&mut self, steps: &mut C, gone: u32) -> T
        requires { HasOneSubtree self.old.shape gone }
        ensures item { (around : List (Frame T)) (colour : Colour) (before : Shape T) (item : T) (after : Shape T) →
            self.old.shape ≡ plug around (fork colour before gone item after) → result ≡ item }
        ensures shape { TakesOut self.old.shape gone self.new.shape }
        ensures spare { self.new.spare ≡ self.old.spare + 1 }
        ensures steps { OnlyRotates C.made steps.old steps.new 3 }
        ensures core { IsCore self.new.shape }
    {
        let parent = self.arena.parent(gone);
        let was_black = self.arena.is_black(gone);
        if parent == EMPTY_REF || !was_black {
            return self.arena.detach(gone);
        }
        let side = side_of(&self.arena, parent, gone);
        let item = self.arena.detach(gone);
        rebalance_removal(&mut self.arena, steps, parent, side);
        item
    }
}
