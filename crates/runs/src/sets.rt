//! Runs of commands over an ordered set.

ghost use Rattle.std.specs.Prelude.{◌≡◌, ◌≢◌, ◌≤◌, ◌+◌, ◌-◌, ◌++◌, ◌∷◌, ℕ, List, Contains, length, vec_len, vec_capacity, IsOk, IfErr, OnErr, OnOk, MatchOption};
ghost use Rattle.std.specs.declared.cmp.Ordering.{Ordering};
ghost use Rattle.i_tree.specs.Root.Answer.{GreatestOr};
ghost use Rattle.i_tree.specs.Set.Pairs.{values, AreApart, HasHandle, by_key, IsOrdered, LacksKey};
ghost use Rattle.runs.specs.SetMachine.{Step, Run};
ghost use Rattle.runs.specs.SetRoom.{RefusedOnlyWhereFull, KeepsRoom};

use i_tree::set::sort::{KeyValue, SetCollection};
use i_tree::{EMPTY_REF, Refusal, Refused};
use std::alloc::Allocator;
use std::cmp::Ordering;

/// A command to an ordered set, which names values by their keys.
#[derive(Debug, PartialEq, Eq, Drop)]
pub enum SetCommand<K, V> {
    /// Puts the value at the place of its key.
    Insert(V),
    /// Removes the value of this key.
    Delete(K),
    /// Asks for the greatest key that is at most this one.
    Find(K),
    /// Asks for the key before this one.
    Before(K),
}

/// The reply to a command.
#[derive(Debug, PartialEq, Eq, Drop)]
pub enum SetReply<K, V> {
    /// The value was put.
    Inserted,
    /// A value is there whose key compares Equal; this one is handed back.
    Present(V),
    /// The set had no room; the value is handed back, and the set stays as it was.
    Refused(V, Refusal),
    /// The value was removed.
    Deleted,
    /// No value has the key.
    Absent,
    /// The key that was asked for.
    Key(K),
    /// No value has the key that was asked for.
    None,
}

/// Runs the commands in order, and appends one reply for each to `out`.
///
/// The keys of `c` are to be in order, whose test is `is_ordered`; they are in order at the end. Room for all replies is
/// taken first: where it is refused, the commands are handed back with `OutOfMemory`, and `c` and `out` are as they
/// were. A value that the set refuses is handed back in its reply, and the run goes on; none is refused before as many were
/// put as there was room for at first beside those in `c`. A removed value is dropped. The runner is our own, and not of
/// the Rust crate.
pub fn run_sets<K, V, C, D, B>(
    c: &mut C,
    commands: Vec<SetCommand<K, V>, D>,
    out: &mut Vec<SetReply<K, V>, B>,
) -> Result<(), Refused<Vec<SetCommand<K, V>, D>>>
where
    K: Ord + Copy,
    V: KeyValue<K> + Drop,
    C: SetCollection<K, V>,
    D: Allocator,
    B: Allocator,
    requires { IsOrdered V.key_of K.cmp (C.pairs c.old) }
    ensures run { OnOk result (
        (replies : List (SetReply K V)) × (out.new.items ≡ out.old.items ++ replies)
        × RefusedOnlyWhereFull (C.room c.old - length (C.pairs c.old)) replies
        × Run V.key_of K.cmp (values (C.pairs c.old)) commands.items replies (values (C.pairs c.new))) }
    ensures in_order { IsOrdered V.key_of K.cmp (C.pairs c.new) }
    ensures handed { IfErr result (λ refused. (refused.value ≡ commands) × (refused.cause ≡ Refusal.OutOfMemory)) }
    ensures err { OnErr result ((c.new ≡ c.old) × (out.new.items ≡ out.old.items)) }
    ensures with_room { vec_len out.old + length commands.items ≤ vec_capacity out.old → IsOk result }
{
    if out.reserve(commands.len()).is_err() {
        return Err(Refused {
            value: commands,
            cause: Refusal::OutOfMemory,
        });
    }
    for command in commands {
        let reply = serve(c, command);
        out.push_reserved(reply);
    }
    Ok(())
}

// Serves one command.
fn serve<K, V, C>(c: &mut C, command: SetCommand<K, V>) -> SetReply<K, V>
where
    K: Ord + Copy,
    V: KeyValue<K> + Drop,
    C: SetCollection<K, V>,
    requires { IsOrdered V.key_of K.cmp (C.pairs c.old) }
    ensures step { Step V.key_of K.cmp (values (C.pairs c.old)) command result (values (C.pairs c.new)) }
    ensures in_order { IsOrdered V.key_of K.cmp (C.pairs c.new) }
    ensures room { KeepsRoom result (C.room c.old) (length (C.pairs c.old)) (C.room c.new) (length (C.pairs c.new)) }
{
    match command {
        SetCommand::Insert(val) => insert(c, val),
        SetCommand::Delete(key) => delete(c, key),
        SetCommand::Find(key) => find(c, key),
        SetCommand::Before(key) => before(c, key),
    }
}

// Inserts the value, unless its key is there.
fn insert<K, V, C>(c: &mut C, val: V) -> SetReply<K, V>
where
    K: Ord + Copy,
    V: KeyValue<K> + Drop,
    C: SetCollection<K, V>,
    requires { IsOrdered V.key_of K.cmp (C.pairs c.old) }
    ensures step { Step V.key_of K.cmp (values (C.pairs c.old)) (SetCommand.Insert val) result
        (values (C.pairs c.new)) }
    ensures in_order { IsOrdered V.key_of K.cmp (C.pairs c.new) }
    ensures room { KeepsRoom result (C.room c.old) (length (C.pairs c.old)) (C.room c.new) (length (C.pairs c.new)) }
{
    match c.insert_new(val) {
        Ok(None) => SetReply::Inserted,
        Ok(Some(given)) => SetReply::Present(given),
        Err(refused) => {
            let Refused { value, cause } = refused;
            SetReply::Refused(value, cause)
        }
    }
}

// Removes the value of the key, if it is there.
fn delete<K, V, C>(c: &mut C, key: K) -> SetReply<K, V>
where
    K: Ord + Copy,
    V: KeyValue<K> + Drop,
    C: SetCollection<K, V>,
    requires { IsOrdered V.key_of K.cmp (C.pairs c.old) }
    ensures step { Step V.key_of K.cmp (values (C.pairs c.old)) (SetCommand.Delete key) result
        (values (C.pairs c.new)) }
    ensures in_order { IsOrdered V.key_of K.cmp (C.pairs c.new) }
    ensures room { KeepsRoom result (C.room c.old) (length (C.pairs c.old)) (C.room c.new) (length (C.pairs c.new)) }
{
    match handle_of(c, key) {
        Some(handle) => {
            c.delete_by_index(handle);
            SetReply::Deleted
        }
        None => SetReply::Absent,
    }
}

// Answers the greatest key at most this one.
fn find<K, V, C>(c: &C, key: K) -> SetReply<K, V>
where
    K: Ord + Copy,
    V: KeyValue<K> + Drop,
    C: SetCollection<K, V>,
    requires { IsOrdered V.key_of K.cmp (C.pairs c.now) }
    ensures step { Step V.key_of K.cmp (values (C.pairs c.now)) (SetCommand.Find key) result (values (C.pairs c.now)) }
    ensures room { (room : ℕ) → KeepsRoom result room (length (C.pairs c.now)) room (length (C.pairs c.now)) }
{
    match key_at(c, handle_at_most(c, key)) {
        Some(found) => SetReply::Key(found),
        None => SetReply::None,
    }
}

// Answers the key before this one, if this one is there.
fn before<K, V, C>(c: &C, key: K) -> SetReply<K, V>
where
    K: Ord + Copy,
    V: KeyValue<K> + Drop,
    C: SetCollection<K, V>,
    requires { IsOrdered V.key_of K.cmp (C.pairs c.now) }
    ensures step { Step V.key_of K.cmp (values (C.pairs c.now)) (SetCommand.Before key) result
        (values (C.pairs c.now)) }
    ensures room { (room : ℕ) → KeepsRoom result room (length (C.pairs c.now)) room (length (C.pairs c.now)) }
{
    let Some(handle) = handle_of(c, key) else {
        return SetReply::Absent;
    };
    match key_at(c, c.index_before(handle)) {
        Some(found) => SetReply::Key(found),
        None => SetReply::None,
    }
}

// The handle of the value whose key compares Equal, where there is one.
fn handle_of<K, V, C>(c: &C, key: K) -> Option<u32>
where
    K: Ord + Copy,
    V: KeyValue<K> + Drop,
    C: SetCollection<K, V>,
    requires { IsOrdered V.key_of K.cmp (C.pairs c.now) }
    ensures { MatchOption result (LacksKey V.key_of K.cmp (C.pairs c.now) key) (λ handle.
        (value : V) × Contains (C.pairs c.now) (handle, value) × (K.cmp (V.key_of value) key ≡ Ordering.Equal)) }
{
    let found = handle_at_most(c, key);
    match key_at(c, found)?.cmp(&key) {
        Ordering::Equal => Some(found),
        _ => None,
    }
}

// The handle of the greatest key at most this one; `EMPTY_REF` where there is none.
fn handle_at_most<K, V, C>(c: &C, key: K) -> u32
where
    K: Ord + Copy,
    V: KeyValue<K> + Drop,
    C: SetCollection<K, V>,
    requires { IsOrdered V.key_of K.cmp (C.pairs c.now) }
    ensures value { GreatestOr K.cmp (λ other. K.cmp other key ≢ Ordering.Greater)
        (by_key V.key_of (C.pairs c.now)) EMPTY_REF result }
    ensures live { result ≢ EMPTY_REF → HasHandle (C.pairs c.now) result }
    ensures handles { AreApart (C.pairs c.now) }
{
    let stands = |other: &K| -> Ordering
        ensures { result ≡ K.cmp other.entry.now key }
    { other.cmp(&key) };
    c.first_index_less_by(stands)
}

// The key of the value at the handle; none at `EMPTY_REF`.
fn key_at<K, V, C>(c: &C, handle: u32) -> Option<K>
where
    K: Ord + Copy,
    V: KeyValue<K> + Drop,
    C: SetCollection<K, V>,
    requires { handle ≢ EMPTY_REF → HasHandle (C.pairs c.now) handle }
    ensures { MatchOption result (handle ≡ EMPTY_REF) (λ key.
        (handle ≢ EMPTY_REF) × ((value : V) → Contains (C.pairs c.now) (handle, value) → key ≡ V.key_of value)) }
{
    if handle == EMPTY_REF {
        return None;
    }
    Some(*c.value_by_index(handle).key())
}
