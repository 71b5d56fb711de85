//! Runs over keys: counted ones, the cause of a refused insertion, and whether two runs reply alike.

ghost use Rattle.std.specs.Prelude.{◌≡◌};

use crate::keys::{Command, compare, run_commands};
use crate::timed_key::{TimedKey, timed};
use i_tree::Refusal;
use i_tree::key::exp::KeyExpCollection;
use i_tree::key::tree::KeyExpTree;
use i_tree::steps::Steps;
use runs::{KeyCommand, KeyReply, run_key_tree_counted, same_replies};
use std::alloc::Allocator;
use std::marker::Brand;
use std::sync::ledger::{Blank, Ledger};
use std::test::Fail;
use test_kit::Refusing;
use test_kit::watched::Watched;

// An insertion at 0.
fn insertion(number: i32) -> Command {
    KeyCommand::Insert {
        key: timed(number, 10),
        val: number,
        time: 0,
    }
}

// Nothing is done with what is counted.
fn run_over<L: Ledger, A: Allocator + Copy>(
    blank: Blank,
    tree: &mut KeyExpTree<TimedKey, i32, i32, A>,
    commands: &[Command],
    out: &mut Vec<KeyReply<i32>, A>,
) -> Result<(), Refusal>
    requires name { blank.name ≡ L.name }
    requires parts { blank.parts ≡ L.parts }
    requires four { blank.parts ≡ 4 }
{
    let mut steps = Steps::<L>::new(blank);
    run_key_tree_counted(&mut steps, tree, commands, compare, out)
}

// Runs the commands by the counted calls, which a tree has.
fn run_counted<A: Allocator + Copy>(
    tree: &mut KeyExpTree<TimedKey, i32, i32, A>,
    commands: &[Command],
    out: &mut Vec<KeyReply<i32>, A>,
) -> Result<(), Refusal> {
    run_over::<Brand, A>(Blank::new(4), tree, commands, out)
}

// Whether a counted run replies as it is wanted, and as no shorter one.
fn replies_counted<A: Allocator + Copy>(memory: A) -> Option<bool> {
    let commands = [insertion(5), insertion(5), KeyCommand::Clear];
    let wanted = [KeyReply::Inserted, KeyReply::Present, KeyReply::Cleared];
    let mut tree = KeyExpTree::new(memory, 0).ok()?;
    let mut replies = Vec::new(memory);
    run_counted(&mut tree, &commands, &mut replies).ok()?;
    let are_same = same_replies(&commands, &replies, &wanted);
    Some(are_same && !same_replies(&commands, &replies, &wanted[..1]))
}

#[test]
fn a_counted_run_replies_as_a_plain_one(rt: HostRuntime) {
    assert!(rt; replies_counted(rt.alloc()) == Some(true));
}

// Whether a run over a collection with handles for two keys takes room for its replies at once, and tells why an insertion was
// refused.
fn tells_why<C: KeyExpCollection<TimedKey, i32, i32>, B: Allocator + Copy>(
    keys: &mut C,
    memory: B,
) -> bool {
    let commands = [insertion(1), insertion(2), insertion(3), insertion(2)];
    let mut replies = Vec::new(memory);
    let wanted = [
        KeyReply::Inserted,
        KeyReply::Inserted,
        KeyReply::Refused(Refusal::NoHandle),
        KeyReply::Present,
    ];
    run_commands(keys, &commands, &mut replies) == Ok(()) && replies.as_slice() == wanted.as_slice()
}

#[test]
fn a_run_tells_why_an_insertion_was_refused(rt: HostRuntime) -> Result<(), Fail> {
    let memory = Refusing::new(rt.alloc());
    let mut keys: Watched<TimedKey, i32, i32> = Watched::new(rt.alloc(), 2)?;
    assert!(rt; tells_why(&mut keys, &memory) && memory.requests() == 1);
    Ok(())
}
