//! The rebalancing after an insertion.

ghost use Rattle.std.specs.Prelude.{◌≡◌, ◌≢◌, true, List};
ghost use Rattle.i_tree.specs.Rb.Balance.{is_black, IsRedBlack, IsRaised};
ghost use Rattle.i_tree.specs.Rb.Context.{Frame, fork_on, plug};
ghost use Rattle.i_tree.specs.Rb.Rebalancing.{IsUnderRed};
ghost use Rattle.i_tree.specs.Rb.Shape.{Shape, top, entries, AreHandles};
ghost use Rattle.i_tree.specs.Root.Steps.{OnlyRotates};

use super::side_of;
use crate::EMPTY_REF;
use crate::rb::arena::Arena;
use crate::rb::links::{Colour, Side};
use crate::steps::Counter;
use std::alloc::Allocator;

/// Rebalances a tree that is red-black but for this red node, which may stand under a red one.
///
/// The order and the handles stay. At most two rotations are made, each in the loop's last iteration.
pub fn rebalance_insertion<T, A: Allocator + Copy, C: Counter>(
    arena: &mut Arena<T, A>,
    steps: &mut C,
    added: u32,
)
    requires { IsRaised arena.old.shape added }
    ensures balanced { IsRedBlack arena.new.shape }
    ensures entries { entries arena.new.shape ≡ entries arena.old.shape }
    ensures spare { arena.new.spare ≡ arena.old.spare }
    ensures handles { AreHandles arena.new.shape }
    ensures steps { OnlyRotates C.made steps.old steps.new 2 }
{
    let mut node = added;
    // The tree is red-black, but that `node`, which is red, may stand under a red parent. Nothing was rotated yet.
    loop {
        let parent = arena.parent(node);
        if arena.is_black(parent) {
            return;
        }
        let grandparent = arena.parent(parent);
        if grandparent == EMPTY_REF {
            arena.paint(parent, Colour::Black);
            return;
        }
        let side = side_of(arena, grandparent, parent);
        let uncle = arena.child(grandparent, side.other());
        if arena.is_black(uncle) {
            lift(arena, steps, node, parent, grandparent, side);
            return;
        }
        arena.paint(parent, Colour::Black);
        arena.paint(uncle, Colour::Black);
        arena.paint(grandparent, Colour::Red);
        node = grandparent;
    }
}

// Ends the rebalancing where the uncle is black: the parent, or the node from between parent and grandparent, goes up to
// the grandparent's place.
fn lift<T, A: Allocator + Copy, C: Counter>(
    arena: &mut Arena<T, A>,
    steps: &mut C,
    node: u32,
    parent: u32,
    grandparent: u32,
    side: Side,
)
    requires handles { AreHandles arena.old.shape }
    requires uncle { (under : IsUnderRed arena.old.shape node parent grandparent side) × (is_black under.uncle ≡ true) }
    ensures balanced { IsRedBlack arena.new.shape }
    ensures entries { entries arena.new.shape ≡ entries arena.old.shape }
    ensures spare { arena.new.spare ≡ arena.old.spare }
    ensures handles { AreHandles arena.new.shape }
    ensures steps { OnlyRotates C.made steps.old steps.new 2 }
{
    if arena.child(parent, side.other()) == node {
        arena.rotate(steps, parent, side);
    }
    arena.rotate(steps, grandparent, side.other());
}
