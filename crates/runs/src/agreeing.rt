//! Whether two runs of the same commands reply alike.

ghost use Rattle.std.specs.Prelude.{◌≡◌, ◌↔◌, [], IsTrue, length};
ghost use Rattle.std.specs.Cmp.Lexicographic.{pointwise};
ghost use Rattle.std.specs.declared.cmp.Ordering.{Ordering};
ghost use Rattle.runs.specs.Agreement.{NoneRefused, OneEqualEach};
ghost use Rattle.runs.specs.KeyMachine.{State, beginning, Run};

use crate::keys::{KeyCommand, KeyReply};
use i_tree::{Expiration, ExpiredKey};

/// Whether both lists have one reply for each command, and the same replies.
///
/// Two runs of the commands from empty collections, of whatever kinds, always reply so where no insertion is refused
/// and each probe calls at most one live key Equal. Where memory is refused, or a probe calls several live keys Equal,
/// they may differ. The function is our own, and not of the Rust crate.
pub fn same_replies<K, E, V, P>(
    commands: &[KeyCommand<K, E, V, P>],
    first: &[KeyReply<V>],
    second: &[KeyReply<V>],
) -> bool
where
    K: ExpiredKey<E>,
    E: Expiration,
    V: Eq,
    ensures same { IsTrue result ↔ ((length first.now ≡ length commands.now)
        × IsTrue (pointwise ⟦<KeyReply<V> as PartialEq>⟧.eq first.now second.now)) }
    ensures agree { (order : P → K → Ordering)
        → OneEqualEach K.expiration E.cmp K.cmp order (beginning []) commands.now
        → (end end' : State K E V)
        → Run K.expiration E.cmp K.cmp order (beginning []) commands.now first.now end
        → Run K.expiration E.cmp K.cmp order (beginning []) commands.now second.now end'
        → NoneRefused first.now → NoneRefused second.now
        → (first.now ≡ second.now) × IsTrue result }
{
    first.len() == commands.len() && first == second
}
