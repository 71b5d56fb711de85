//! Places of a core where a subtree hangs. Both trees go down from place to place.

ghost use Rattle.std.specs.Prelude.{◌≡◌, ◌≢◌};
ghost use Rattle.i_tree.specs.Rb.Balance.{IsCore};
ghost use Rattle.i_tree.specs.Rb.Place.{IsPlace, subtree_of, place_below};
ghost use Rattle.i_tree.specs.Rb.Shape.{subtree_at, IsHandle};

use super::links::Side;
use super::tree::RbTree;
use crate::EMPTY_REF;
use std::alloc::Allocator;

/// The place of the root, or that of the subtree on a side of a handle.
#[derive(Clone, Copy)]
pub enum Place {
    Root,
    Below(u32, Side),
}

/// The place on a side of the handle, or that of the root where the handle is `EMPTY_REF`.
#[inline]
pub fn place_below(above: u32, on_right: bool) -> Place
    ensures { result ≡ place_below above on_right }
{
    if above == EMPTY_REF {
        Place::Root
    } else if on_right {
        Place::Below(above, Side::Right)
    } else {
        Place::Below(above, Side::Left)
    }
}

/// The top of the subtree on a side of the handle, or the root where the handle is `EMPTY_REF`; `EMPTY_REF` where that subtree is
/// empty. Descents read a place again by it, off their straight path.
#[cold]
#[inline(never)]
pub fn top_below<T, A: Allocator + Copy>(core: &RbTree<T, A>, above: u32, on_right: bool) -> u32
    requires { IsPlace core.now.shape (place_below above on_right) }
    ensures part { subtree_at result core.now.shape ≡ subtree_of (place_below above on_right) core.now.shape }
    ensures live { result ≢ EMPTY_REF → IsHandle core.now.shape result }
    ensures core { IsCore core.now.shape }
{
    top_at(core, place_below(above, on_right))
}

// The top of the subtree at the place.
fn top_at<T, A: Allocator + Copy>(core: &RbTree<T, A>, place: Place) -> u32
    requires { IsPlace core.now.shape place }
    ensures part { subtree_at result core.now.shape ≡ subtree_of place core.now.shape }
    ensures live { result ≢ EMPTY_REF → IsHandle core.now.shape result }
    ensures core { IsCore core.now.shape }
{
    match place {
        Place::Root => core.root(),
        Place::Below(handle, Side::Left) => core.left(handle),
        Place::Below(handle, Side::Right) => core.right(handle),
    }
}
