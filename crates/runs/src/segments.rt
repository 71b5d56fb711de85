//! Runs of commands over a tree of segments.

ghost use Rattle.std.specs.Prelude.{◌≡◌, ◌≤◌, ◌+◌, ◌++◌, List, length, map, vec_len, vec_capacity, IsOk, OnOk, OnErr, IfErr};
ghost use Rattle.runs.specs.SegMachine.{reply_of, Serves, RunsOver};

use i_tree::seg::exp::{SegExpCollection, SegRange};
use i_tree::seg::tree::SegExpTree;
use i_tree::{Expiration, ExpiredVal, LayoutNumber, Refusal, is_late};
use std::alloc::{Allocator, Global};

/// A command to a tree of segments.
#[derive(Clone, Copy, Debug)]
pub enum SegCommand<R, E, V> {
    /// Stores the value over the range.
    Insert { range: SegRange<R>, val: V },
    /// Asks for the values that are live at `time` and whose buckets meet those of the range.
    Query { range: SegRange<R>, time: E },
    /// Removes every value, and forgets the latest time.
    Clear,
}

/// The reply to a command. A list of values is in the memory of `B`.
#[derive(Drop)]
#[derive_where(Debug, PartialEq, Eq; V)]
pub enum SegReply<V, B: Allocator = Global> {
    /// The value was stored.
    Inserted,
    /// The range isn't accepted: it goes downwards, or doesn't lie in the tree's own. Nothing was done.
    Outside,
    /// The query's time is before the latest time; nothing was done.
    Late,
    /// Memory was refused. A value was not stored; a query found something, and its time is the latest time all the same.
    Refused,
    /// The values that a query found, in any order.
    Values(Vec<V, B>),
    /// No value is stored any more, and there is no latest time.
    Cleared,
}

/// Runs the commands in order, and appends one reply for each to `out`. Lists of values take the memory of `out`.
///
/// The run begins with what the tree holds and with its latest time. A range that isn't accepted is answered `Outside`,
/// and else a query whose time is before the latest one `Late`; both change nothing. Every other query makes its time the
/// latest one, also where it is refused, which is only where it finds something. Room for all replies is taken first: where
/// it is refused, the answer is `OutOfMemory`, and `tree` and `out` are as they were. The runner is our own, and not of the
/// Rust crate.
pub fn run_segments<R, E, V, A, B>(
    tree: &mut SegExpTree<R, E, V, A>,
    commands: &[SegCommand<R, E, V>],
    out: &mut Vec<SegReply<V, B>, B>,
) -> Result<(), Refusal>
where
    R: LayoutNumber,
    E: Expiration,
    V: ExpiredVal<E>,
    A: Allocator + Copy,
    B: Allocator + Copy,

    // From whichever bag the tree stands for at the start, the replies are a run to one that it stands for at the end.
    ensures run { OnOk result (
        (replies : List (SegReply V B)) × (out.new.items ≡ out.old.items ++ replies)
        × (length replies ≡ length commands.now)
        × RunsOver V.expiration E.cmp R.whole tree.old.buckets tree.old.members tree.old.latest
        commands.now (map reply_of replies) tree.new.members tree.new.latest) }
    ensures buckets { tree.new.buckets ≡ tree.old.buckets }
    ensures refused { IfErr result (λ cause. cause ≡ Refusal.OutOfMemory) }
    ensures err { OnErr result ((tree.new ≡ tree.old) × (out.new.items ≡ out.old.items)) }
    ensures with_room { vec_len out.old + length commands.now ≤ vec_capacity out.old → IsOk result }
{
    out.reserve(commands.len())?;
    let alloc = *out.allocator();
    for command in commands {
        let reply = serve(alloc, tree, *command);
        out.push_reserved(reply);
    }
    Ok(())
}

// Serves one command.
fn serve<R, E, V, A, B>(
    alloc: B,
    tree: &mut SegExpTree<R, E, V, A>,
    command: SegCommand<R, E, V>,
) -> SegReply<V, B>
where
    R: LayoutNumber,
    E: Expiration,
    V: ExpiredVal<E>,
    A: Allocator + Copy,
    B: Allocator,
    ensures serves { Serves V.expiration E.cmp R.whole tree.old.buckets tree.old.members tree.old.latest
        command (reply_of result) tree.new.members tree.new.latest }
    ensures buckets { tree.new.buckets ≡ tree.old.buckets }
{
    match command {
        SegCommand::Insert { range, val } => insert(tree, range, val),
        SegCommand::Query { range, time } => query(alloc, tree, range, time),
        SegCommand::Clear => {
            tree.clear();
            SegReply::Cleared
        }
    }
}

// Stores the value, if its range is accepted.
fn insert<R, E, V, A, B>(
    tree: &mut SegExpTree<R, E, V, A>,
    range: SegRange<R>,
    val: V,
) -> SegReply<V, B>
where
    R: LayoutNumber,
    E: Expiration,
    V: ExpiredVal<E>,
    A: Allocator + Copy,
    B: Allocator,
    ensures serves { Serves V.expiration E.cmp R.whole tree.old.buckets tree.old.members tree.old.latest
        (SegCommand.Insert range val) (reply_of result) tree.new.members tree.new.latest }
    ensures buckets { tree.new.buckets ≡ tree.old.buckets }
{
    if !tree.accepts(range) {
        return SegReply::Outside;
    }
    match tree.insert_by_range(range, val) {
        Ok(()) => SegReply::Inserted,
        Err(_) => SegReply::Refused,
    }
}

// Lists what the query finds, if its range is accepted and its time isn't late.
fn query<R, E, V, A, B>(
    alloc: B,
    tree: &mut SegExpTree<R, E, V, A>,
    range: SegRange<R>,
    time: E,
) -> SegReply<V, B>
where
    R: LayoutNumber,
    E: Expiration,
    V: ExpiredVal<E>,
    A: Allocator + Copy,
    B: Allocator,
    ensures serves { Serves V.expiration E.cmp R.whole tree.old.buckets tree.old.members tree.old.latest
        (SegCommand.Query range time) (reply_of result) tree.new.members tree.new.latest }
    ensures buckets { tree.new.buckets ≡ tree.old.buckets }
{
    if !tree.accepts(range) {
        return SegReply::Outside;
    }
    if is_late(tree.latest_time(), time) {
        return SegReply::Late;
    }
    let mut values = Vec::new(alloc);
    match tree.collect_by_range(range, time, &mut values) {
        Ok(()) => SegReply::Values(values),
        Err(_) => SegReply::Refused,
    }
}
