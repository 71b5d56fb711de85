//! Runs of commands over a collection of keys that expire.

ghost use Rattle.std.specs.Prelude.{◌≡◌, ◌≤◌, ◌+◌, ◌-◌, ◌++◌, true, false, Option, List, All, Contains, length, vec_len, vec_capacity, IsOk, OnOk, OnErr, IfErr, MatchBool};
ghost use Rattle.std.specs.declared.cmp.Ordering.{Ordering};
ghost use Rattle.i_tree.specs.Root.Late.{is_late};
ghost use Rattle.runs.specs.KeyMachine.{RunsOver, Serves};
ghost use Rattle.runs.specs.KeyReplies.{IsReplyTo, RepliesTo};
ghost use Rattle.runs.specs.KeyRoom.{RefusedOnlyWhereFull};
ghost use Rattle.runs.specs.Effects.{DoesAll};
ghost use Rattle.runs.specs.Probes.{CanProbe, CanProbeAll, ProbesBy, ProbesAllBy, known_after};

pub use calls::KeyCalls;
use calls::Plainly;
use i_tree::key::exp::KeyExpCollection;
use i_tree::{Expiration, ExpiredKey, Refusal, is_late};
use std::alloc::Allocator;
use std::cmp::Ordering;

mod calls;
/// A command to a collection of keys that expire.
#[derive(Clone, Copy, Debug, PartialEq, Eq)]
pub enum KeyCommand<K, E, V, P> {
    /// Stores the pair of `key` and `val` at `time`.
    Insert { key: K, val: V, time: E },
    /// Asks for the value of the greatest key below `key` that is live at `time`.
    Less { time: E, default: V, key: K },
    /// Asks for the value of a live key that the probe calls Equal, else of the greatest that it calls Less.
    LessOrEqualBy { time: E, default: V, probe: P },
    /// Removes every pair, and forgets the last time.
    Clear,
}

/// The reply to a command.
#[derive(Clone, Copy, Debug, PartialEq, Eq)]
pub enum KeyReply<V> {
    /// The pair was accepted.
    Inserted,
    /// A key that is live at the command's time compares Equal; the pair was not accepted.
    Present,
    /// The command's time is before the last time; nothing was done.
    Late,
    /// The pair was refused; what is stored stays as it was.
    Refused(Refusal),
    /// The answer to a query.
    Value(V),
    /// No pair is stored any more, and there is no last time.
    Cleared,
}

/// Runs the commands in order, and appends one reply for each to `out`.
///
/// The run begins with the pairs that `c` stores and with no last time. A command whose time is before the last
/// time is answered `Late` and changes nothing; every other command with a time makes it the last one, whatever its
/// reply. `probe` says how a key stands to what a `LessOrEqualBy` looks for: it is asked about live keys alone, and
/// is to be monotone on these. No insertion is refused before as many were accepted as `c` had room for at first beside what
/// it stored. Room for all replies is taken first: where it is refused, the answer is `OutOfMemory`, and `c` and `out` are
/// as they were. The runner is our own, and not of the Rust crate.
pub fn run_keys<K, E, V, P, C, G, B>(
    c: &mut C,
    commands: &[KeyCommand<K, E, V, P>],
    probe: G,
    out: &mut Vec<KeyReply<V>, B>,
) -> Result<(), Refusal>
where
    K: ExpiredKey<E>,
    E: Expiration,
    V: Copy,
    P: Copy,
    C: KeyExpCollection<K, E, V>,
    G: Fn(P, K) -> Ordering,
    B: Allocator,
    // Each probe may be called on those keys, stored at the start or inserted before, that are live at its time.
    requires { CanProbeAll K.expiration E.cmp (G.pre probe) (C.stored c.old) commands.now }

    // There is one reply for each command, of its kind, and none is a refusal before the room is full. By whatever
    // order the probes answer at these keys, where it is monotone there, the replies are a run.
    ensures run { OnOk result (
        (replies : List (KeyReply V)) × (out.new.items ≡ out.old.items ++ replies)
        × RepliesTo commands.now replies
        × RefusedOnlyWhereFull (C.room c.old - length (C.stored c.old)) replies
        × ((order : P → K → Ordering)
        → ProbesAllBy K.expiration E.cmp K.cmp (G.post probe) order (C.stored c.old) commands.now
        → RunsOver K.expiration E.cmp K.cmp order (C.stored c.old) commands.now replies (C.stored c.new))) }
    ensures refused { IfErr result (λ cause. cause ≡ Refusal.OutOfMemory) }
    ensures err { OnErr result ((c.new ≡ c.old) × (out.new.items ≡ out.old.items)) }
    ensures with_room { vec_len out.old + length commands.now ≤ vec_capacity out.old → IsOk result }
{
    run_by(&mut Plainly, c, commands, probe, out)
}

// Runs the commands by these calls, and appends one reply for each to `out`.
pub fn run_by<K, E, V, P, C, S, G, B>(
    calls: &mut S,
    c: &mut C,
    commands: &[KeyCommand<K, E, V, P>],
    probe: G,
    out: &mut Vec<KeyReply<V>, B>,
) -> Result<(), Refusal>
where
    K: ExpiredKey<E>,
    E: Expiration,
    V: Copy,
    P: Copy,
    C: KeyExpCollection<K, E, V>,
    S: KeyCalls<K, E, V, C>,
    G: Fn(P, K) -> Ordering,
    B: Allocator,
    requires { CanProbeAll K.expiration E.cmp (G.pre probe) (C.stored c.old) commands.now }
    ensures run { OnOk result (
        (replies : List (KeyReply V)) × (out.new.items ≡ out.old.items ++ replies)
        × RepliesTo commands.now replies
        × DoesAll S.does replies calls.old c.old calls.new c.new
        × ((order : P → K → Ordering)
        → ProbesAllBy K.expiration E.cmp K.cmp (G.post probe) order (C.stored c.old) commands.now
        → RunsOver K.expiration E.cmp K.cmp order (C.stored c.old) commands.now replies (C.stored c.new))) }
    ensures refused { IfErr result (λ cause. cause ≡ Refusal.OutOfMemory) }
    ensures err { OnErr result ((calls.new ≡ calls.old) × (c.new ≡ c.old) × (out.new.items ≡ out.old.items)) }
    ensures with_room { vec_len out.old + length commands.now ≤ vec_capacity out.old → IsOk result }
{
    out.reserve(commands.len())?;
    let mut last = None;
    for command in commands {
        let reply = serve(calls, c, *command, &probe, &mut last);
        out.push_reserved(reply);
    }
    Ok(())
}

// Serves one command, and moves the last time on.
fn serve<K, E, V, P, C, S, G>(
    calls: &mut S,
    c: &mut C,
    command: KeyCommand<K, E, V, P>,
    probe: &G,
    last: &mut Option<E>,
) -> KeyReply<V>
where
    K: ExpiredKey<E>,
    E: Expiration,
    V: Copy,
    P: Copy,
    C: KeyExpCollection<K, E, V>,
    S: KeyCalls<K, E, V, C>,
    G: Fn(P, K) -> Ordering,
    requires { CanProbe K.expiration E.cmp (G.pre probe.now) command (C.stored c.old) }
    ensures steps { (order : P → K → Ordering)
        → ProbesBy K.expiration E.cmp K.cmp (G.post probe.now) order command (C.stored c.old)
        → Serves K.expiration E.cmp K.cmp order (C.stored c.old) last.old command result (C.stored c.new) last.new }
    ensures known { All (Contains (known_after command (C.stored c.old))) (C.stored c.new) }
    ensures does { S.does result calls.old c.old calls.new c.new }
    ensures replies { IsReplyTo command result }
{
    match command {
        KeyCommand::Insert { key, val, time } => {
            if !advance(last, time) {
                return KeyReply::Late;
            }
            calls.insert(c, key, val, time)
        }
        KeyCommand::Less { time, default, key } => {
            if !advance(last, time) {
                return KeyReply::Late;
            }
            KeyReply::Value(calls.first_less(c, time, default, key))
        }
        KeyCommand::LessOrEqualBy {
            time,
            default,
            probe: sought,
        } => {
            if !advance(last, time) {
                return KeyReply::Late;
            }
            let asked = |key: K| -> Ordering
                requires { G.pre probe.now sought key }
                ensures { G.post probe.entry.now sought key result }
            { probe(sought, key) };
            KeyReply::Value(calls.first_less_or_equal_by(c, time, default, asked))
        }
        KeyCommand::Clear => {
            calls.clear(c);
            *last = None;
            KeyReply::Cleared
        }
    }
}

// Makes `time` the last time, unless it is before it.
pub fn advance<E: Expiration>(last: &mut Option<E>, time: E) -> bool
    ensures { MatchBool result
        ((is_late E.cmp last.old time ≡ false) × (last.new ≡ Some time))
        ((is_late E.cmp last.old time ≡ true) × (last.new ≡ last.old)) }
{
    if is_late(*last, time) {
        return false;
    }
    *last = Some(time);
    true
}
