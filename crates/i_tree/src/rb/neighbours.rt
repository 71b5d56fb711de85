//! The first entry of the core, and the ones before and after an entry.

ghost use Rattle.std.specs.Prelude.{◌≡◌, ◌≢◌, ◌<◌, ◌++◌, ◌∷◌, ℕ, List};
ghost use Rattle.i_tree.specs.Rb.Balance.{IsCore};
ghost use Rattle.i_tree.specs.Rb.Context.{other_side, subtree_on};
ghost use Rattle.i_tree.specs.Rb.Neighbours.{end_handle, next_handle};
ghost use Rattle.i_tree.specs.Rb.Shape.{leaf, top, entries, first_handle, last_handle, rank, subtree_at, IsHandle};

use super::links::Side;
use super::tree::RbTree;
use crate::EMPTY_REF;
use std::alloc::Allocator;

impl<T, A: Allocator + Copy> RbTree<T, A> {
    /// The handle of the first entry in order, or `EMPTY_REF` where there is none. From there `after` walks all entries.
    pub fn first(&self) -> u32
        ensures value { result ≡ first_handle (entries self.now.shape) }
        ensures core { IsCore self.now.shape }
    {
        let root = self.root();
        if root == EMPTY_REF {
            EMPTY_REF
        } else {
            self.end_below(root, Side::Left)
        }
    }

    /// The handle of the entry before this one in order, or `EMPTY_REF` where it is the first.
    pub fn before(&self, handle: u32) -> u32
        requires { IsHandle self.now.shape handle }
        ensures value { (front : List (ℕ × T)) (item : T) (back : List (ℕ × T)) →
            entries self.now.shape ≡ front ++ (handle, item) ∷ back → result ≡ last_handle front }
        ensures core { IsCore self.now.shape }
    {
        self.next_on(handle, Side::Left)
    }

    /// The handle of the entry after this one in order, or `EMPTY_REF` where it is the last.
    pub fn after(&self, handle: u32) -> u32
        requires { IsHandle self.now.shape handle }
        ensures value { (front : List (ℕ × T)) (item : T) (back : List (ℕ × T)) →
            entries self.now.shape ≡ front ++ (handle, item) ∷ back → result ≡ first_handle back }
        ensures core { IsCore self.now.shape }
    {
        self.next_on(handle, Side::Right)
    }

    // The handle of the entry next to this one on the side, or `EMPTY_REF` where there is none. Each caller gives the side as
    // a constant.
    #[inline(always)]
    fn next_on(&self, handle: u32, side: Side) -> u32
        requires { IsHandle self.now.shape handle }
        ensures value { (front : List (ℕ × T)) (item : T) (back : List (ℕ × T)) →
            entries self.now.shape ≡ front ++ (handle, item) ∷ back → result ≡ next_handle side front back }
        ensures core { IsCore self.now.shape }
    {
        let child = self.child(handle, side);
        if child == EMPTY_REF {
            self.parent_from(handle, side)
        } else {
            self.end_below(child, side.other())
        }
    }

    // The top of the subtree on the side below the handle, or `EMPTY_REF` where that subtree is empty. The rank of the subtree
    // falls.
    #[inline(always)]
    pub(super) fn child(&self, handle: u32, side: Side) -> u32
        requires { IsHandle self.now.shape handle }
        ensures value { result ≡ top (subtree_on side handle self.now.shape) }
        ensures part { subtree_at result self.now.shape ≡ subtree_on side handle self.now.shape }
        ensures lower { rank (subtree_at result self.now.shape) < rank (subtree_at handle self.now.shape) }
        ensures live { result ≢ EMPTY_REF → IsHandle self.now.shape result }
        ensures empty { result ≡ EMPTY_REF → subtree_on side handle self.now.shape ≡ leaf }
        ensures core { IsCore self.now.shape }
    {
        self.arena.child(handle, side)
    }

    // The handle of the entry at the end of the subtree at this one, on the side.
    #[inline(always)]
    fn end_below(&self, subtree: u32, side: Side) -> u32
        requires { IsHandle self.now.shape subtree }
        ensures { result ≡ end_handle side (entries (subtree_at subtree self.now.shape)) }
    {
        let mut end = subtree;
        loop {
            let child = self.child(end, side);
            if child == EMPTY_REF {
                return end;
            }
            end = child;
        }
    }

    // The nearest handle above this one from whose subtree on the other side it comes, or `EMPTY_REF` where there is none. It
    // is that of the entry next to this one on the side, where this one has no subtree.
    #[inline(always)]
    fn parent_from(&self, handle: u32, side: Side) -> u32
        requires live { IsHandle self.now.shape handle }
        requires free { subtree_on side handle self.now.shape ≡ leaf }
        ensures { (front : List (ℕ × T)) (item : T) (back : List (ℕ × T)) →
            entries self.now.shape ≡ front ++ (handle, item) ∷ back → result ≡ next_handle side front back }
    {
        let mut child = handle;
        // The handle ends the subtree at `child` on the side.
        loop {
            let parent = self.arena.parent(child);
            if parent == EMPTY_REF {
                return EMPTY_REF;
            }
            if self.arena.child(parent, side.other()) == child {
                return parent;
            }
            child = parent;
        }
    }
}
