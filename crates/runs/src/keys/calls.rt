//! How a run calls a collection of keys that expire: plainly, or by calls that count.

ghost use Rattle.std.specs.Prelude.{◌≡◌, List, [], All, length};
ghost use Rattle.std.specs.declared.cmp.Ordering.{Ordering};
ghost use Rattle.i_tree.specs.Root.Answer.{Below, AtMostBy};
ghost use Rattle.i_tree.specs.Root.Change.{Without};
ghost use Rattle.i_tree.specs.Expiring.Live.{live_pairs, IsExpired};
ghost use Rattle.runs.specs.KeyMachine.{Inserts};
ghost use Rattle.runs.specs.KeyRoom.{KeepsRoom};
ghost use Rattle.runs.specs.declared.keys.KeyReply.{KeyReply};
ghost use Rattle.runs.specs.declared.keys.KeyReply.TheVariants.{Late, Value, Cleared};

use super::KeyReply;
use i_tree::key::exp::KeyExpCollection;
use i_tree::{Expiration, ExpiredKey};
use std::cmp::Ordering;

/// How a run calls the collection `C`.
pub trait KeyCalls<K: ExpiredKey<E>, E: Expiration, V: Copy, C: KeyExpCollection<K, E, V>> {
    /// What serving a command has done to the caller and to the collection, by the reply.
    ghost does: { KeyReply V → Self → C → Self → C → Type 0 };

    /// A late command does nothing.
    ghost does_late: { (calls : Self) (c : C) → does Late calls c calls c };

    /// Inserts the pair, unless a live key compares Equal.
    fn insert(&mut self, c: &mut C, key: K, val: V, time: E) -> KeyReply<V>
        ensures inserts { Inserts K.expiration E.cmp K.cmp time key val (C.stored c.old) result (C.stored c.new) }
        ensures does { does result self.old c.old self.new c.new };

    /// The value of the greatest live key below `key`, or `default`.
    fn first_less(&mut self, c: &mut C, time: E, default: V, key: K) -> V
        ensures value { Below K.cmp (live_pairs K.expiration E.cmp time (C.stored c.old)) key default result }
        ensures kept { Without (IsExpired K.expiration E.cmp time) (C.stored c.old) (C.stored c.new) }
        ensures does { does (Value result) self.old c.old self.new c.new };

    /// The value of the greatest live key that is at most by `f`, or `default`.
    fn first_less_or_equal_by<F: Fn(K) -> Ordering>(
        &mut self,
        c: &mut C,
        time: E,
        default: V,
        f: F,
    ) -> V
        requires { All (λ pair. F.pre f pair.0) (live_pairs K.expiration E.cmp time (C.stored c.old)) }
        ensures value { AtMostBy K.cmp (F.post f) (live_pairs K.expiration E.cmp time (C.stored c.old)) default result }
        ensures kept { Without (IsExpired K.expiration E.cmp time) (C.stored c.old) (C.stored c.new) }
        ensures does { does (Value result) self.old c.old self.new c.new };

    /// Removes every pair.
    fn clear(&mut self, c: &mut C)
        ensures empty { C.stored c.new ≡ [] }
        ensures does { does Cleared self.old c.old self.new c.new };
}

/// The collection's own calls, of which nothing is counted: a run sees of them how they keep the room.
#[derive(Drop)]
pub struct Plainly;

impl<K: ExpiredKey<E>, E: Expiration, V: Copy, C: KeyExpCollection<K, E, V>> KeyCalls<K, E, V, C>
    for Plainly {
    ghost use Rattle.runs.specs.Late.{keeps_late};

    ghost does = { λ reply _ c _ c'.
        KeepsRoom reply (C.room c) (length (C.stored c)) (C.room c') (length (C.stored c')) };

    ghost does_late = { λ _ c. keeps_late (C.room c) (length (C.stored c)) };

    fn insert(&mut self, c: &mut C, key: K, val: V, time: E) -> KeyReply<V> {
        match c.insert_new(key, val, time) {
            Ok(true) => KeyReply::Inserted,
            Ok(false) => KeyReply::Present,
            Err(cause) => KeyReply::Refused(cause),
        }
    }

    fn first_less(&mut self, c: &mut C, time: E, default: V, key: K) -> V {
        c.first_less(time, default, key)
    }

    fn first_less_or_equal_by<F: Fn(K) -> Ordering>(
        &mut self,
        c: &mut C,
        time: E,
        default: V,
        f: F,
    ) -> V {
        c.first_less_or_equal_by(time, default, f)
    }

    fn clear(&mut self, c: &mut C) {
        c.clear();
    }
}
