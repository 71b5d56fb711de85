//! How the core is red-black again, after an insertion and after a removal.

ghost use Rattle.std.specs.Prelude.{◌≡◌, ◌≢◌, List};
ghost use Rattle.i_tree.specs.declared.rb.links.Colour.{Colour};
ghost use Rattle.i_tree.specs.Rb.Context.{Frame, fork_on, plug};
ghost use Rattle.i_tree.specs.Rb.Shape.{Shape, top, IsHandle};

mod insertion;
mod removal;

use super::arena::Arena;
use super::links::Side;
pub use insertion::rebalance_insertion;
pub use removal::rebalance_removal;
use std::alloc::Allocator;

// The side of the parent that the child is on.
pub(super) fn side_of<T, A: Allocator + Copy>(arena: &Arena<T, A>, parent: u32, child: u32) -> Side
    requires { IsHandle arena.now.shape parent }
    ensures { (around : List (Frame T)) (side : Side) (colour : Colour) (near : Shape T) (item : T)
        (far : Shape T) → arena.now.shape ≡ plug around (fork_on side colour near parent item far) →
        top near ≡ child → top far ≢ child → result ≡ side }
{
    if arena.child(parent, Side::Left) == child {
        Side::Left
    } else {
        Side::Right
    }
}
