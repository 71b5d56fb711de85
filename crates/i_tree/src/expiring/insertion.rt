//! The insertion of a pair into a tree whose entries expire, by one descent.

ghost use Rattle.std.specs.Prelude.{◌≡◌, false, All, filter, is_some, IfSome, IfOk, OnErr};
ghost use Rattle.i_tree.specs.Expiring.Insertion.{AreFoundAt, HoldNeighbours, InsertsByPath, IsHandleOrNone, JoinsUnlessEqual, has_joined};
ghost use Rattle.i_tree.specs.Expiring.Tree.{items, TreeDescends};

use super::descent::{descend, pair_at};
use super::live::Liveness;
use crate::rb::RbTree;
use crate::rb::place::place_below;
use crate::steps::Counter;
use crate::{EMPTY_REF, Refusal};
use std::alloc::Allocator;
use std::cmp::Ordering;

/// The handles of the live pairs between which a pair has joined, or `EMPTY_REF` where there is none.
#[derive(Clone, Copy)]
pub struct Beside {
    pub last: u32,
    pub next: u32,
}

/// Goes down to the place behind all live keys that `stands` doesn't call Greater, and stores the pair there, unless the last
/// of them is called Equal. Where it did, tells between which it stands then, by handles, so that a caller who asks for no
/// neighbours reads none. Each expired entry on the search path is removed before memory is asked for.
pub fn insert_between<K, V, A, C, L, F>(
    core: &mut RbTree<(K, V), A>,
    steps: &mut C,
    lives: &L,
    stands: &F,
    pair: (K, V),
) -> Result<Option<Beside>, Refusal>
where
    K: Copy,
    V: Copy,
    A: Allocator + Copy,
    C: Counter,
    L: Liveness<K>,
    F: Fn(K) -> Ordering,
    requires { All (λ other. F.pre stands.now other.0)
        (filter (λ other. L.live lives.now other.0) (items core.old.shape)) }
    ensures pairs { JoinsUnlessEqual (L.live lives.now) (F.post stands.now) pair
        (items core.old.shape) (has_joined result) (items core.new.shape) }
    ensures inserts { InsertsByPath (L.live lives.now) (F.post stands.now) core.old (has_joined result) core.new }
    ensures last { IfOk result (λ told. IfSome told (λ beside. IsHandleOrNone core.new.shape beside.last)) }
    ensures next { IfOk result (λ told. IfSome told (λ beside. IsHandleOrNone core.new.shape beside.next)) }
    ensures neighbours { IfOk result (λ told. IfSome told (λ beside. HoldNeighbours (F.post stands.now)
        (filter (λ other. L.live lives.now other.0) (items core.old.shape)) core.new.shape beside.last beside.next)) }
    ensures steps { IfOk result (λ told. TreeDescends C.made steps.old steps.new core.old core.new (is_some told)) }
    ensures err_steps { OnErr result (TreeDescends C.made steps.old steps.new core.old core.new false) }
{
    let end = descend(core, steps, lives, stands);
    if end.said.is_eq() {
        return Ok(None);
    }
    let place = place_below(end.above, end.on_right);
    if let Err(refused) = core.insert_at(steps, place, pair) {
        return Err(refused.cause);
    }
    Ok(Some(Beside {
        last: end.last,
        next: end.next,
    }))
}

/// The pairs at the handles that an insertion has told, where it has.
pub fn pairs_beside<K: Copy, V: Copy, A: Allocator + Copy>(
    core: &RbTree<(K, V), A>,
    told: Option<Beside>,
) -> Option<(Option<(K, V)>, Option<(K, V)>)>
    requires last { IfSome told (λ beside. IsHandleOrNone core.now.shape beside.last) }
    requires next { IfSome told (λ beside. IsHandleOrNone core.now.shape beside.next) }
    ensures same { is_some result ≡ is_some told }
    ensures found { IfSome told (λ beside. IfSome result (AreFoundAt core.now.shape beside.last beside.next)) }
{
    match told {
        Some(beside) => Some((pair_at(core, beside.last), pair_at(core, beside.next))),
        None => None,
    }
}

/// Whether the pair has joined, of an insertion that tells something just where it has.
#[inline]
pub fn has_joined<N: Copy>(told: Result<Option<N>, Refusal>) -> Result<bool, Refusal>
    ensures { result ≡ has_joined told }
{
    match told {
        Ok(told) => Ok(told.is_some()),
        Err(cause) => Err(cause),
    }
}
