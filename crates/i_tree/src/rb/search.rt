//! Searches of a core that remove nothing. Both trees find their entries and places by them.

ghost use Rattle.std.specs.Prelude.{length};
ghost use Rattle.std.specs.Fn.{FnReturnsAt};
ghost use Rattle.std.specs.declared.cmp.Ordering.{Ordering};
ghost use Rattle.i_tree.specs.Rb.Balance.{IsCore};
ghost use Rattle.i_tree.specs.Rb.Place.{place_below};
ghost use Rattle.i_tree.specs.Rb.Shape.{entries};
ghost use Rattle.i_tree.specs.Rb.SearchPath.{AsksAlong, SearchesBetween};
ghost use Rattle.i_tree.specs.Root.Descent.{Searches};
ghost use Rattle.i_tree.specs.Root.BinarySearch.{TakesItems};
ghost use Rattle.i_tree.specs.Rb.Items.{items_of};

use super::tree::RbTree;
use crate::EMPTY_REF;
use crate::select::select;
use crate::steps::Counter;
use std::alloc::Allocator;
use std::cmp::Ordering;

/// Where a search has ended: on a side of the handle `above` without a subtree, or at the root where that is `EMPTY_REF`. It is
/// right behind the last entry that was not called Greater: `found` is its handle, or `EMPTY_REF` where there is none, and
/// `said` what it was called.
#[derive(Clone, Copy)]
pub struct SearchEnd {
    pub found: u32,
    pub said: Ordering,
    pub above: u32,
    pub on_right: bool,
}

/// Goes down to the place behind all entries that `f` doesn't call Greater. It asks once about each entry on its search path, and
/// counts that.
pub fn search_down<T, A: Allocator + Copy, C: Counter, F: Fn(&T) -> Ordering>(
    core: &RbTree<T, A>,
    steps: &mut C,
    f: &F,
) -> SearchEnd
    requires { TakesItems (λ item. F.pre f.now item) (items_of (entries core.now.shape)) }
    ensures end { SearchesBetween (λ item answer. FnReturnsAt F.Fn f.now item answer) core.now.shape
        (place_below result.above result.on_right) result.found result.said }
    ensures steps { Searches C.made steps.old steps.new (length (entries core.now.shape)) 0 0 }
    ensures asks { AsksAlong C.made (λ item answer. FnReturnsAt F.Fn f.now item answer)
        steps.old steps.new core.now.shape }
    ensures core { IsCore core.now.shape }
{
    let mut found = EMPTY_REF;
    let mut said = Ordering::Greater;
    let mut above = EMPTY_REF;
    let mut on_right = false;
    let mut here = core.root();
    // `found` is the last entry in front of the subtree at `here`, and the first behind it was called Greater.
    while here != EMPTY_REF {
        steps.add_comparison();
        let answer = f(core.item(here));
        let left = core.left(here);
        let right = core.right(here);
        above = here;
        on_right = answer.is_le();
        found = select(on_right, here, found);
        said = select(on_right, answer, said);
        here = select(on_right, right, left);
        // A leaf ends the way. That both children are used here keeps their reads apart from the choice.
        if left == EMPTY_REF && right == EMPTY_REF {
            break;
        }
    }
    SearchEnd {
        found,
        said,
        above,
        on_right,
    }
}
