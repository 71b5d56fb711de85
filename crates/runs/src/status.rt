//! Runs of commands over a status of a sweep line.

ghost use Rattle.std.specs.Prelude.{◌≡◌, ◌≢◌, ◌≤◌, ◌+◌, ◌++◌, List, length, vec_len, vec_capacity, IsOk, OnOk, OnErr, IfErr};
ghost use Rattle.runs.specs.StatusMachine.{Answers, Step, RunsOver, insertion_reply};
ghost use Rattle.runs.specs.StatusProbes.{CanProbe, CanProbeAll, asks};

use crate::keys::advance;
use i_tree::status::exp::StatusCollection;
use i_tree::{Expiration, ExpiredVal, Refusal};
use std::alloc::Allocator;
use std::cmp::Ordering;

/// A command to a status. Its probe says what is sought.
#[derive(Clone, Copy, Debug, PartialEq, Eq)]
pub enum StatusCommand<K, E, V, P> {
    /// Stores the pair of `key` and `val` at `time`, where the probe says that it stands.
    InsertBy { key: K, val: V, time: E, probe: P },
    /// Asks for the value of a live key that the probe calls Equal, else of the last that it calls Less.
    LessOrEqualBy { time: E, default: V, probe: P },
    /// Asks for the value of the first live key that the probe calls Greater.
    GreaterBy { time: E, default: V, probe: P },
    /// Asks for the last live pair that the probe doesn't call Greater, and the first that it does.
    NeighboursBy { time: E, probe: P },
    /// Removes every pair, and forgets the last time.
    Clear,
}

/// The reply to a command.
#[derive(Clone, Copy, Debug, PartialEq, Eq)]
pub enum StatusReply<K, V> {
    /// The pair was accepted.
    Inserted,
    /// The probe calls a key Equal that is live at the command's time; the pair was not accepted.
    Present,
    /// The command's time is before the last time; nothing was done.
    Late,
    /// The pair was refused; what is stored stays as it was.
    Refused(Refusal),
    /// The answer to a query for a value.
    Value(V),
    /// The answer to a query for both neighbours: the one before, and the one after.
    Neighbours(Option<(K, V)>, Option<(K, V)>),
    /// No pair is stored any more, and there is no last time.
    Cleared,
}

/// Runs the commands in order, and appends one reply for each to `out`.
///
/// The run begins with the pairs that `c` stores and with no last time. A command whose time is before the last time is
/// answered `Late` and changes nothing; every other command with a time makes it the last one, whatever its reply.
/// `probe` says how a key stands to what a command seeks: it is asked about live keys alone. What a reply says of the
/// pairs holds by each order that the probe's answers follow and that is monotone along the live pairs. No insertion is
/// refused while fewer pairs are stored than `c` had room for at first. Room for all replies is taken first: where it is
/// refused, the answer is `OutOfMemory`, and `c` and `out` are as they were. The runner is our own, and not of the Rust
/// crate.
pub fn run_status<K, E, V, P, C, G, B>(
    c: &mut C,
    commands: &[StatusCommand<K, E, V, P>],
    probe: G,
    out: &mut Vec<StatusReply<K, V>, B>,
) -> Result<(), Refusal>
where
    K: ExpiredVal<E>,
    E: Expiration,
    V: Copy,
    P: Copy,
    C: StatusCollection<K, E, V>,
    G: Fn(P, K) -> Ordering,
    B: Allocator,
    // Each probe may be called on those keys, stored at the start or inserted before, that are live at its time.
    requires { CanProbeAll K.expiration E.cmp (G.pre probe) (C.stored c.old) commands.now }

    // There is one reply for each command, and they are a run over the pairs along the line.
    ensures run { OnOk result (
        (replies : List (StatusReply K V)) × (out.new.items ≡ out.old.items ++ replies)
        × (length replies ≡ length commands.now)
        × RunsOver K.expiration E.cmp (G.post probe) (C.room c.old)
        (C.stored c.old) commands.now replies (C.stored c.new)) }
    ensures refused { IfErr result (λ cause. cause ≡ Refusal.OutOfMemory) }
    ensures err { OnErr result ((c.new ≡ c.old) × (out.new.items ≡ out.old.items)) }
    ensures with_room { vec_len out.old + length commands.now ≤ vec_capacity out.old → IsOk result }
{
    out.reserve(commands.len())?;
    let mut last = None;
    for command in commands {
        let reply = serve(c, *command, &probe, &mut last);
        out.push_reserved(reply);
    }
    Ok(())
}

// Serves one command, and moves the last time on. `ask` calls its probe.
fn serve<K, E, V, P, C, G>(
    c: &mut C,
    command: StatusCommand<K, E, V, P>,
    ask: &G,
    last: &mut Option<E>,
) -> StatusReply<K, V>
where
    K: ExpiredVal<E>,
    E: Expiration,
    V: Copy,
    P: Copy,
    C: StatusCollection<K, E, V>,
    G: Fn(P, K) -> Ordering,
    requires { CanProbe K.expiration E.cmp (G.pre ask.now) command (C.stored c.old) }
    ensures step { Step K.expiration E.cmp (G.post ask.now) (C.room c.old)
        (record { pairs = C.stored c.old; last = last.old })
        command result (record { pairs = C.stored c.new; last = last.new }) }
    ensures room { C.room c.old ≤ C.room c.new }
{
    let Some((time, probe)) = asks(&command) else {
        c.clear();
        *last = None;
        return StatusReply::Cleared;
    };
    if !advance(last, time) {
        return StatusReply::Late;
    }
    let stands = |other: K| -> Ordering
        requires { G.pre ask.now probe other }
        ensures { G.post ask.entry.now probe other result }
    { ask(probe, other) };
    answer(c, command, stands)
}

// The command's time and its probe.
fn asks<K, E: Copy, V, P: Copy>(command: &StatusCommand<K, E, V, P>) -> Option<(E, P)>
    ensures { result ≡ asks command.now }
{
    match command {
        StatusCommand::InsertBy { time, probe, .. } => Some((*time, *probe)),
        StatusCommand::LessOrEqualBy { time, probe, .. } => Some((*time, *probe)),
        StatusCommand::GreaterBy { time, probe, .. } => Some((*time, *probe)),
        StatusCommand::NeighboursBy { time, probe } => Some((*time, *probe)),
        StatusCommand::Clear => None,
    }
}

// Does what a command with a probe says, in its time. `stands` says how a key stands to what it seeks.
fn answer<K, E, V, P, C, F>(
    c: &mut C,
    command: StatusCommand<K, E, V, P>,
    stands: F,
) -> StatusReply<K, V>
where
    K: ExpiredVal<E>,
    E: Expiration,
    V: Copy,
    P: Copy,
    C: StatusCollection<K, E, V>,
    F: Fn(K) -> Ordering,
    requires asks { command ≢ StatusCommand.Clear }
    requires callable { CanProbe K.expiration E.cmp (λ (_ : P). F.pre stands) command (C.stored c.old) }
    ensures answers { Answers K.expiration E.cmp (λ (_ : P). F.post stands) (C.room c.old)
        (C.stored c.old) command result (C.stored c.new) }
    ensures room { C.room c.old ≤ C.room c.new }
{
    match command {
        StatusCommand::InsertBy { key, val, time, .. } => {
            let outcome = c.insert_by(time, stands, key, val);
            insertion_reply(outcome)
        }
        StatusCommand::LessOrEqualBy { time, default, .. } => {
            StatusReply::Value(c.first_less_or_equal_by(time, default, stands))
        }
        StatusCommand::GreaterBy { time, default, .. } => {
            StatusReply::Value(c.first_greater_by(time, default, stands))
        }
        StatusCommand::NeighboursBy { time, .. } => {
            let (before, after) = c.neighbours_by(time, stands);
            StatusReply::Neighbours(before, after)
        }
        StatusCommand::Clear => unreachable!(),
    }
}

// The reply to an insertion by its outcome: whether the pair joined, or why it was refused.
fn insertion_reply<K, V>(outcome: Result<bool, Refusal>) -> StatusReply<K, V>
    ensures { result ≡ insertion_reply outcome }
{
    match outcome {
        Ok(true) => StatusReply::Inserted,
        Ok(false) => StatusReply::Present,
        Err(cause) => StatusReply::Refused(cause),
    }
}
