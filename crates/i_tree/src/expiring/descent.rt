//! The descent of a tree whose entries expire, which removes the expired ones that it meets.

ghost use Rattle.std.specs.Prelude.{◌≡◌, ◌≢◌, ◌++◌, ◌∷◌, ℕ, false, List, All, filter, length, if◌then◌else◌};
ghost use Rattle.std.specs.Ordering.{is_lt};
ghost use Rattle.std.specs.declared.cmp.Ordering.TheVariants.{Less, Greater};
ghost use Rattle.i_tree.specs.Root.Change.{Without};
ghost use Rattle.i_tree.specs.Expiring.Descent.{DescendsBetween, FollowsPath, MayCall};
ghost use Rattle.i_tree.specs.Expiring.Tree.{items, TreeDescends};
ghost use Rattle.i_tree.specs.Rb.RbTree.{slots};
ghost use Rattle.i_tree.specs.Rb.Balance.{IsCore};
ghost use Rattle.i_tree.specs.Rb.Place.{place_below};
ghost use Rattle.i_tree.specs.Rb.SearchPath.{AsksAlong};
ghost use Rattle.i_tree.specs.Rb.Shape.{entries, IsHandle};

use super::live::Liveness;
use crate::EMPTY_REF;
use crate::rb::RbTree;
use crate::rb::place::top_below;
use crate::select::select;
use crate::steps::Counter;
use std::alloc::Allocator;
use std::cmp::Ordering;

/// Where a descent has ended: on a side of the handle `above` without a subtree, or at the root where that is `EMPTY_REF`. It is
/// right behind a live key that passed and right before one that didn't. Their handles are `last` and `next`, or `EMPTY_REF`
/// where there is none; `said` is what the one that passed was called, or Greater where none did.
#[derive(Clone, Copy)]
pub struct Ending {
    pub last: u32,
    pub said: Ordering,
    pub next: u32,
    pub above: u32,
    pub on_right: bool,
}

/// Goes down to the place behind all live keys that pass, which are those that `stands` doesn't call Greater. Each expired entry on
/// the search path is removed, and its place is read again; each live one is compared. The last key on the search path that passed
/// stands in front of the place, and the last one that didn't behind it.
pub fn descend<K, V, A, C, L, F>(
    core: &mut RbTree<(K, V), A>,
    steps: &mut C,
    lives: &L,
    stands: &F,
) -> Ending
where
    K: Copy,
    V: Copy,
    A: Allocator + Copy,
    C: Counter,
    L: Liveness<K>,
    F: Fn(K) -> Ordering,
    requires { All (λ pair. F.pre stands.now pair.0) (filter (λ pair. L.live lives.now pair.0) (items core.old.shape)) }
    ensures end { DescendsBetween (L.live lives.now) (F.post stands.now) core.new.shape
        (place_below result.above result.on_right) result.last result.said result.next }
    ensures last { result.last ≢ EMPTY_REF → IsHandle core.new.shape result.last }
    ensures next { result.next ≢ EMPTY_REF → IsHandle core.new.shape result.next }
    ensures kept { Without (λ pair. L.live lives.now pair.0 ≡ false) (items core.old.shape) (items core.new.shape) }
    ensures slots { slots core.new ≡ slots core.old }
    ensures same { length (entries core.new.shape) ≡ length (entries core.old.shape) → core.new ≡ core.old }
    ensures follows { FollowsPath (L.live lives.now) (F.post stands.now) core.old core.new }
    ensures steps { TreeDescends C.made steps.old steps.new core.old core.new false }
    ensures asks { length (entries core.new.shape) ≡ length (entries core.old.shape)
        → AsksAlong C.made (MayCall (L.live lives.now) (F.post stands.now)) steps.old steps.new core.old.shape }
    ensures core { IsCore core.new.shape }
{
    let mut last = EMPTY_REF;
    let mut said = Ordering::Greater;
    let mut next = EMPTY_REF;
    let mut above = EMPTY_REF;
    let mut on_right = false;
    let mut here = core.root();
    // `last` is the entry in front of the subtree at `here`, and `next` the one behind it, where there are such. Both are live.
    // What is gone had expired.
    while here != EMPTY_REF {
        let key = core.item(here).0;
        // Both children are read before one is chosen, so that no read waits for the key's answer.
        let left = core.left(here);
        let right = core.right(here);
        steps.add_test();
        if !lives.is_live(&key) {
            core.remove(steps, here);
            here = top_below(core, above, on_right);
            continue;
        }
        steps.add_comparison();
        above = here;
        let answer = stands(key);
        on_right = answer.is_le();
        last = select(on_right, here, last);
        said = select(on_right, answer, said);
        next = select(on_right, next, here);
        here = select(on_right, right, left);
    }
    Ending {
        last,
        said,
        next,
        above,
        on_right,
    }
}

/// Less where the key is below the other one, else Greater: a descent by it makes one test a key.
#[inline]
pub fn below_or_not<K: Ord>(key: &K, other: &K) -> Ordering
    ensures { result ≡ (if is_lt (K.cmp key.now other.now) then Less else Greater) }
{
    if key < other {
        Ordering::Less
    } else {
        Ordering::Greater
    }
}

/// The value at the handle, or `default` where that is `EMPTY_REF`.
pub fn value_at<K, V: Copy, A: Allocator + Copy>(
    core: &RbTree<(K, V), A>,
    handle: u32,
    default: V,
) -> V
    requires { handle ≢ EMPTY_REF → IsHandle core.now.shape handle }
    ensures none { handle ≡ EMPTY_REF → result ≡ default }
    ensures some { handle ≢ EMPTY_REF → (front : List (ℕ × (K × V))) (pair : K × V) (back : List (ℕ × (K × V))) →
        entries core.now.shape ≡ front ++ (handle, pair) ∷ back → result ≡ pair.1 }
{
    if handle == EMPTY_REF {
        return default;
    }
    core.item(handle).1
}

/// The pair at the handle, if that isn't `EMPTY_REF`.
pub fn pair_at<K: Copy, V: Copy, A: Allocator + Copy>(
    core: &RbTree<(K, V), A>,
    handle: u32,
) -> Option<(K, V)>
    requires { handle ≢ EMPTY_REF → IsHandle core.now.shape handle }
    ensures none { handle ≡ EMPTY_REF → result ≡ None }
    ensures some { handle ≢ EMPTY_REF → (front : List (ℕ × (K × V))) (pair : K × V) (back : List (ℕ × (K × V))) →
        entries core.now.shape ≡ front ++ (handle, pair) ∷ back → result ≡ Some pair }
{
    if handle == EMPTY_REF {
        return None;
    }
    Some(*core.item(handle))
}
