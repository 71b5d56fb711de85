//! `clear` of the core: every item is dropped, and the slots stay.

ghost use Rattle.std.specs.Prelude.{◌≡◌, ◌≢◌, ◌<◌, length};
ghost use Rattle.i_tree.specs.Rb.Clear.{IsChildless};
ghost use Rattle.i_tree.specs.Rb.RbTree.{slots};
ghost use Rattle.i_tree.specs.Rb.Balance.{IsCore};
ghost use Rattle.i_tree.specs.Rb.Shape.{leaf, entries, IsHandle, AreHandles, subtree_at};

use super::arena::Arena;
use super::links::Side;
use super::tree::RbTree;
use crate::EMPTY_REF;
use std::alloc::Allocator;

impl<T: Drop, A: Allocator + Copy> RbTree<T, A> {
    /// Drops every item, and leaves the tree empty. Its slots stay: all but the reserved one are free then.
    ///
    /// Each item is dropped once, as is each value of this language that isn't handed on. It takes no memory and is never
    /// refused: where the Rust crate `i_tree` queues the nodes of a tree among its free numbers, this goes down and back by
    /// the links, each once. The clauses are our own.
    pub fn clear(&mut self)
        ensures empty { self.new.shape ≡ leaf }
        ensures slots { slots self.new ≡ slots self.old }
        ensures core { IsCore self.new.shape }
    {
        self.arena.clear();
    }
}

impl<T: Drop, A: Allocator + Copy> Arena<T, A> {
    // Takes out one node without subtrees after another, each on the descent from the parent of the last one. So each link
    // is walked down once and up once.
    pub(super) fn clear(&mut self)
        ensures empty { self.new.shape ≡ leaf }
        ensures slots { slots self.new ≡ slots self.old }
    {
        let mut here = self.root();
        // `here` is one of the nodes that are left, while there are any.
        while here != EMPTY_REF {
            let last = self.childless_below(here);
            here = self.parent(last);
            drop(self.detach(last));
        }
    }

    // The node without subtrees at which the descent from this one ends.
    fn childless_below(&self, subtree: u32) -> u32
        requires live { IsHandle self.now.shape subtree }
        requires handles { AreHandles self.now.shape }
        ensures { IsChildless self.now.shape result }
    {
        let mut node = subtree;
        loop {
            let child = self.some_child(node);
            if child == EMPTY_REF {
                return node;
            }
            node = child;
        }
    }

    // The top of the node's left subtree, or where that is empty, of its right subtree.
    fn some_child(&self, node: u32) -> u32
        requires live { IsHandle self.now.shape node }
        requires handles { AreHandles self.now.shape }
        ensures none { result ≡ EMPTY_REF → IsChildless self.now.shape node }
        ensures live { result ≢ EMPTY_REF → IsHandle self.now.shape result }
        ensures fewer { result ≢ EMPTY_REF → length (entries (subtree_at result self.now.shape)) < length
            (entries (subtree_at node self.now.shape)) }
    {
        let left = self.child(node, Side::Left);
        if left != EMPTY_REF {
            return left;
        }
        self.child(node, Side::Right)
    }
}
