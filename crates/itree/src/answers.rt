//! What the program answers to a text, in each of its modes.

ghost use Rattle.std.specs.Prelude.{◌≡◌, ◌≢◌, ℕ, [], map, IfErr, IfOk, string_bytes};
ghost use Rattle.std.specs.Ordering.{int_cmp};
ghost use Rattle.i_tree.specs.Set.Pairs.{values, IsOrdered};
ghost use Rattle.itree.specs.Answers.{AnswersKeys, AnswersSet, AnswersSegments};
ghost use Rattle.itree.specs.Modes.{FitsItsNumbers};
ghost use Rattle.itree.specs.declared.fault.Unfit.{Unfit};
ghost use Rattle.itree.specs.Sorting.{Sorts, SortsAll};
ghost use Rattle.itree.specs.Texts.{Answers, HasFirstFaulty, HasOverlapLine, HasCrossingLines, HasUnfit};
ghost use Rattle.runs.specs.SegMachine.{reply_of};

use crate::fault::Fault;
use crate::lines::{KeyLine, RingKind, SegLine, SetLine, parse_commands, parse_rings, reply_text};
use crate::mode::Mode;
use crate::set_key::SetKey;
use crate::timed_key::TimedKey;
use crate::timed_val::TimedVal;
use crossings::answer_crossings;
use growth::{answer_grown, answer_paths, answer_shrunk};
use i_tree::key::exp::KeyExpCollection;
use i_tree::key::list::KeyExpList;
use i_tree::key::tree::KeyExpTree;
use i_tree::seg::exp::SegRange;
use i_tree::seg::tree::SegExpTree;
use i_tree::set::list::SetList;
use i_tree::set::sort::SetCollection;
use i_tree::set::tree::SetTree;
use i_tree::status::tree::StatusTree;
use locate::answer_locate;
use meetings::answer_meetings;
use node::answer_node;
use rings::{answer_rings, answer_tile};
use runs::{SegReply, run_keys, run_segments, run_sets};
use snap::answer_snap;
use std::alloc::Allocator;
use std::cmp::Ordering;
use sweep::answer_sweep;

mod crossings;
mod growth;
mod locate;
mod meetings;
mod node;
mod rings;
mod snap;
mod sweep;

/// The text of the replies to the commands of a text, from an empty collection of the mode on.
///
/// The range of a mode of segments is to have a layout. The answer is `Fault::Line` with the number of the first faulty
/// line, before any command is run, `Fault::Overlap` with the number of the line whose segment is the first of a sweep that
/// overlaps, `Fault::Cross` with the numbers of two lines whose edges cross, where they are not to, `Fault::Unfit` where the shape
/// that something grows or shrinks by is none, or a corner of what is made has no 32 bits, or `Fault::Memory` where memory was
/// refused.
pub fn answer_text<A: Allocator + Copy>(
    alloc: A,
    mode: Mode,
    text: &[u8],
) -> Result<String<A>, Fault>
    requires { FitsItsNumbers mode }
    ensures answered { IfOk result (λ output. Answers mode text.now (string_bytes output)) }
    ensures faulty { (number : ℕ) → result ≡ Err (Fault.Line number) → HasFirstFaulty mode text.now number }
    ensures overlap { (number : ℕ) → result ≡ Err (Fault.Overlap number) → HasOverlapLine mode text.now number }
    ensures crossing { (first second : ℕ) → result ≡ Err (Fault.Cross first second) →
        HasCrossingLines mode text.now first second }
    ensures unfit { (why : Unfit) → result ≡ Err (Fault.Unfit why) → HasUnfit mode text.now why }
    ensures err { IfErr result (λ fault. fault ≢ Fault.Arguments) }
{
    match mode {
        Mode::KeyTree => {
            let commands = parse_commands(alloc, text)?;
            let mut tree = KeyExpTree::new(alloc, 0)?;
            answer_keys(alloc, &mut tree, &commands)
        }
        Mode::KeyList => {
            let commands = parse_commands(alloc, text)?;
            let mut list = KeyExpList::new(alloc, 0)?;
            answer_keys(alloc, &mut list, &commands)
        }
        Mode::SetTree => {
            let commands = parse_commands(alloc, text)?;
            let mut tree = SetTree::new(alloc, 0)?;
            answer_set(alloc, &mut tree, commands)
        }
        Mode::SetList => {
            let commands = parse_commands(alloc, text)?;
            let mut list = SetList::new(alloc, 0)?;
            answer_set(alloc, &mut list, commands)
        }
        Mode::Segments { min, max } => {
            let commands = parse_commands(alloc, text)?;
            match SegExpTree::new(alloc, SegRange { min, max })? {
                Some(mut tree) => answer_segments(alloc, &mut tree, &commands),
                None => unreachable!(),
            }
        }
        Mode::Sweep => {
            let said = parse_commands(alloc, text)?;
            let mut tree = KeyExpTree::new(alloc, 0)?;
            answer_sweep(alloc, &mut tree, text, &said)
        }
        Mode::Meetings => {
            let edges = parse_commands(alloc, text)?;
            answer_meetings(alloc, text, &edges)
        }
        Mode::Locate => {
            let said = parse_commands(alloc, text)?;
            let mut status = StatusTree::new(alloc, 0)?;
            answer_locate(alloc, &mut status, text, &said)
        }
        Mode::Crossings => {
            let said = parse_commands(alloc, text)?;
            answer_crossings(alloc, text, &said)
        }
        Mode::Snap => {
            let edges = parse_commands(alloc, text)?;
            answer_snap(alloc, &edges)
        }
        Mode::Node => {
            let edges = parse_commands(alloc, text)?;
            answer_node(alloc, &edges)
        }
        Mode::Overlay { operation, rule } => {
            let said = parse_rings(alloc, RingKind::Overlay, text)?;
            answer_rings(alloc, operation, rule, &said)
        }
        Mode::Tile {
            window,
            operation,
            rule,
        } => {
            let said = parse_rings(alloc, RingKind::Overlay, text)?;
            answer_tile(alloc, window, operation, rule, &said)
        }
        Mode::Grow { rule } => {
            let said = parse_rings(alloc, RingKind::Growth, text)?;
            answer_grown(alloc, rule, &said)
        }
        Mode::Shrink { rule } => {
            let said = parse_rings(alloc, RingKind::Growth, text)?;
            answer_shrunk(alloc, rule, &said)
        }
        Mode::Paths => {
            let said = parse_rings(alloc, RingKind::Paths, text)?;
            answer_paths(alloc, &said)
        }
    }
}

// How a key stands to the one that is sought.
fn compare_key(sought: i32, timed: TimedKey) -> Ordering
    ensures { result ≡ int_cmp timed.key sought }
{
    timed.key.cmp(&sought)
}

// The text of the replies to the commands, from what is stored on.
fn answer_keys<A: Allocator + Copy, C: KeyExpCollection<TimedKey, i32, i32>>(
    alloc: A,
    collection: &mut C,
    commands: &[KeyLine],
) -> Result<String<A>, Fault>
    ensures answered { IfOk result (λ output. AnswersKeys (C.stored collection.old) commands.now
        (string_bytes output)) }
    ensures err { IfErr result (λ fault. fault ≡ Fault.Memory) }
{
    let mut replies = Vec::new(alloc);
    run_keys(collection, commands, compare_key, &mut replies)?;
    Ok(reply_text(alloc, &replies)?)
}

// The text of the replies to the commands, from the values of the set on.
fn answer_set<A: Allocator + Copy, C: SetCollection<i32, SetKey>>(
    alloc: A,
    set: &mut C,
    commands: Vec<SetLine, A>,
) -> Result<String<A>, Fault>
    requires { IsOrdered (λ value. value.key) int_cmp (C.pairs set.old) }
    ensures answered { IfOk result (λ output. AnswersSet (values (C.pairs set.old)) commands.items
        (string_bytes output)) }
    ensures err { IfErr result (λ fault. fault ≡ Fault.Memory) }
{
    let mut replies = Vec::new(alloc);
    run_sets(set, commands, &mut replies)?;
    Ok(reply_text(alloc, &replies)?)
}

// The text of the replies to the commands, from a tree without segments on.
fn answer_segments<A: Allocator + Copy>(
    alloc: A,
    tree: &mut SegExpTree<i32, i32, TimedVal, A>,
    commands: &[SegLine],
) -> Result<String<A>, Fault>
    requires empty { tree.old.members ≡ [] }
    requires new { tree.old.latest ≡ None }
    ensures answered { IfOk result (λ output. AnswersSegments tree.old.buckets commands.now (string_bytes output)) }
    ensures err { IfErr result (λ fault. fault ≡ Fault.Memory) }
{
    let mut replies = Vec::new(alloc);
    run_segments(tree, commands, &mut replies)?;
    sort_all(&mut replies);
    Ok(reply_text(alloc, &replies)?)
}

// Puts the values of each reply in rising order.
fn sort_all<A: Allocator>(replies: &mut [SegReply<TimedVal, A>])
    ensures { SortsAll (map reply_of replies.old) (map reply_of replies.new) }
{
    for reply in replies {
        sort_values(reply);
    }
}

// Puts the values of the reply in rising order, if it has any.
fn sort_values<A: Allocator>(reply: &mut SegReply<TimedVal, A>)
    ensures { Sorts (reply_of reply.old) (reply_of reply.new) }
{
    if let SegReply::Values(values) = reply {
        values.sort_unstable();
    }
}
