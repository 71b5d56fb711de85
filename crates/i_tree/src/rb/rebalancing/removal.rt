//! The rebalancing after a removal.

ghost use Rattle.std.specs.Prelude.{◌≡◌, MatchBool, true};
ghost use Rattle.i_tree.specs.Rb.Balance.{is_black, IsRedBlack, IsShort};
ghost use Rattle.i_tree.specs.Rb.Removal.{IsRebalanced};
ghost use Rattle.i_tree.specs.Rb.ShortSides.{IsEnded, IsRisen, HasBlackSibling};
ghost use Rattle.i_tree.specs.Rb.Shape.{AreHandles};
ghost use Rattle.i_tree.specs.Root.Steps.{OnlyRotates};

use super::side_of;
use crate::EMPTY_REF;
use crate::rb::arena::Arena;
use crate::rb::links::{Colour, Side};
use crate::steps::Counter;
use std::alloc::Allocator;

/// Rebalances a tree one side of which, below this node, is a black level short.
///
/// The order and the handles stay. At most three rotations are made, all in the loop's last iteration.
pub fn rebalance_removal<T, A: Allocator + Copy, C: Counter>(
    arena: &mut Arena<T, A>,
    steps: &mut C,
    parent: u32,
    short: Side,
)
    requires { IsShort arena.old.shape parent short }
    ensures balanced { IsRedBlack arena.new.shape }
    ensures rebalanced { IsRebalanced arena.old.shape parent short arena.new.shape }
    ensures spare { arena.new.spare ≡ arena.old.spare }
    ensures handles { AreHandles arena.new.shape }
    ensures steps { OnlyRotates C.made steps.old steps.new 3 }
{
    let mut node = parent;
    let mut side = short;
    // The tree is red-black, but that this side of `node` is a black level short. Nothing was rotated yet.
    loop {
        if rebalance_short_side(arena, steps, node, side) {
            return;
        }
        let above = arena.parent(node);
        if above == EMPTY_REF {
            return;
        }
        side = side_of(arena, above, node);
        node = above;
    }
}

// One step: the side of the node is a black level short. Answers whether the tree is rebalanced; else the whole subtree of the
// node, whose top is black, is a level short now.
fn rebalance_short_side<T, A: Allocator + Copy, C: Counter>(
    arena: &mut Arena<T, A>,
    steps: &mut C,
    node: u32,
    short: Side,
) -> bool
    requires { IsShort arena.old.shape node short }
    ensures rebalanced { (cut : IsShort arena.old.shape node short) →
        MatchBool result (IsEnded arena.old.shape node short cut arena.new.shape)
        (IsRisen arena.old.shape node short cut arena.new.shape) }
    ensures spare { arena.new.spare ≡ arena.old.spare }
    ensures handles { AreHandles arena.new.shape }
    ensures steps { MatchBool result (OnlyRotates C.made steps.old steps.new 3)
        (OnlyRotates C.made steps.old steps.new 0) }
{
    let sibling = arena.child(node, short.other());
    if arena.is_black(sibling) {
        return rebalance_beside_black(arena, steps, node, short);
    }
    arena.rotate(steps, node, short);
    rebalance_beside_black(arena, steps, node, short);
    true
}

// The same where the sibling is black.
fn rebalance_beside_black<T, A: Allocator + Copy, C: Counter>(
    arena: &mut Arena<T, A>,
    steps: &mut C,
    node: u32,
    side: Side,
) -> bool
    requires { HasBlackSibling arena.old.shape node side }
    ensures rebalanced { (cut : IsShort arena.old.shape node side) → is_black cut.far ≡ true →
        MatchBool result (IsEnded arena.old.shape node side cut arena.new.shape)
        (IsRisen arena.old.shape node side cut arena.new.shape) }
    ensures spare { arena.new.spare ≡ arena.old.spare }
    ensures handles { AreHandles arena.new.shape }
    ensures steps { MatchBool result (OnlyRotates C.made steps.old steps.new 2)
        (OnlyRotates C.made steps.old steps.new 0) }
{
    let away = side.other();
    let sibling = arena.child(node, away);
    let outer = arena.child(sibling, away);
    if !arena.is_black(outer) {
        arena.rotate(steps, node, side);
        arena.paint(outer, Colour::Black);
        return true;
    }
    let inner = arena.child(sibling, side);
    if !arena.is_black(inner) {
        arena.rotate(steps, sibling, away);
        arena.rotate(steps, node, side);
        arena.paint(sibling, Colour::Black);
        return true;
    }
    arena.paint(sibling, Colour::Red);
    if arena.is_black(node) {
        return false;
    }
    arena.paint(node, Colour::Black);
    true
}
