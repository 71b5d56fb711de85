//! Counted runs of commands over a tree of keys that expire.

ghost use Rattle.std.specs.Prelude.{◌≡◌, ◌≤◌, ◌+◌, ◌++◌, List, length, vec_len, vec_capacity, IsOk, OnOk, OnErr, IfErr};
ghost use Rattle.std.specs.declared.cmp.Ordering.{Ordering};
ghost use Rattle.i_tree.specs.Expiring.Tree.{items};
ghost use Rattle.runs.specs.Counted.{CountsOne, CountsRun};
ghost use Rattle.runs.specs.KeyMachine.{RunsOver};
ghost use Rattle.runs.specs.KeyReplies.{RepliesTo};
ghost use Rattle.runs.specs.KeyRoom.{RefusedOnlyWhereFull};
ghost use Rattle.runs.specs.Probes.{CanProbeAll, ProbesAllBy};

use crate::keys::{KeyCalls, KeyCommand, KeyReply, run_by};
use i_tree::key::exp::KeyExpCollection;
use i_tree::key::tree::KeyExpTree;
use i_tree::steps::Steps;
use i_tree::{Expiration, ExpiredKey, Refusal};
use std::alloc::Allocator;
use std::cmp::Ordering;
use std::sync::ledger::Ledger;

// The counted calls of a tree, which count here.
impl<K: ExpiredKey<E>, E: Expiration, V: Copy, A: Allocator + Copy, L: Ledger> KeyCalls<
    K,
    E,
    V,
    KeyExpTree<K, E, V, A>,
> for Steps<L> {
    ghost use Rattle.runs.specs.Late.{counts_late};

    ghost does = { λ reply steps tree steps' tree'. CountsOne reply steps tree steps' tree' };

    ghost does_late = { λ steps tree. counts_late steps tree };

    fn insert(&mut self, c: &mut KeyExpTree<K, E, V, A>, key: K, val: V, time: E) -> KeyReply<V> {
        match c.insert_new_counted(self, key, val, time) {
            Ok(true) => KeyReply::Inserted,
            Ok(false) => KeyReply::Present,
            Err(cause) => KeyReply::Refused(cause),
        }
    }

    fn first_less(&mut self, c: &mut KeyExpTree<K, E, V, A>, time: E, default: V, key: K) -> V {
        c.first_less_counted(self, time, default, key)
    }

    fn first_less_or_equal_by<F: Fn(K) -> Ordering>(
        &mut self,
        c: &mut KeyExpTree<K, E, V, A>,
        time: E,
        default: V,
        f: F,
    ) -> V {
        c.first_less_or_equal_by_counted(self, time, default, f)
    }

    fn clear(&mut self, c: &mut KeyExpTree<K, E, V, A>) {
        c.clear();
    }
}

/// `run_keys` over a tree, with its steps counted.
///
/// From an empty tree and new steps, over m commands of which `accepted` pairs came to be stored: `rotations` and three times
/// what is stored at the end are at most five times `accepted`; `removals` and what is stored are at most `accepted`, and
/// as many where no command is `Clear`; `comparisons` are at most 2k times m, k the greatest with `2^k <= accepted + 1`: each
/// command goes down once. No insertion is refused before as many were accepted as slots were free at first.
/// Where room for the replies is refused, the answer is `OutOfMemory`, and `steps`, `tree` and `out` are as they were. The
/// runner is our own, and not of the Rust crate.
pub fn run_key_tree_counted<K, E, V, P, A, L, G, B>(
    steps: &mut Steps<L>,
    tree: &mut KeyExpTree<K, E, V, A>,
    commands: &[KeyCommand<K, E, V, P>],
    probe: G,
    out: &mut Vec<KeyReply<V>, B>,
) -> Result<(), Refusal>
where
    K: ExpiredKey<E>,
    E: Expiration,
    V: Copy,
    P: Copy,
    A: Allocator + Copy,
    L: Ledger,
    G: Fn(P, K) -> Ordering,
    B: Allocator,
    // Each probe may be called on those keys, stored at the start or inserted before, that are live at its time.
    requires { CanProbeAll K.expiration E.cmp (G.pre probe) (items tree.old.shape) commands.now }

    // One reply for each command, of its kind; what was counted; and the replies are a run, as those of `run_keys`.
    ensures run { OnOk result (
        (replies : List (KeyReply V)) × (out.new.items ≡ out.old.items ++ replies)
        × RepliesTo commands.now replies
        × CountsRun commands.now replies
        steps.old steps.new (length (items tree.old.shape)) (length (items tree.new.shape))
        × RefusedOnlyWhereFull tree.old.spare replies
        × ((order : P → K → Ordering)
        → ProbesAllBy K.expiration E.cmp K.cmp (G.post probe) order (items tree.old.shape) commands.now
        → RunsOver K.expiration E.cmp K.cmp order
        (items tree.old.shape) commands.now replies (items tree.new.shape))) }
    ensures refused { IfErr result (λ cause. cause ≡ Refusal.OutOfMemory) }
    ensures err { OnErr result ((steps.new ≡ steps.old) × (tree.new ≡ tree.old) × (out.new.items ≡ out.old.items)) }
    ensures with_room { vec_len out.old + length commands.now ≤ vec_capacity out.old → IsOk result }
{
    run_by(steps, tree, commands, probe, out)
}
