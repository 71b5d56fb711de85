//! The commands of segments, as lines.

ghost use Rattle.std.specs.Prelude.{◌≡◌, ◌++◌, ◌∷◌, codes, map, IfSome, IsNone, OnOk, string_bytes};
ghost use Rattle.itree.specs.Replies.{seg_reply_words, value_words};
ghost use Rattle.itree.specs.SegLines.{SaysSegCommand, SaysNoSegCommand};
ghost use Rattle.runs.specs.SegMachine.{reply_of};

use super::{LineCommand, LineReply, number, three_numbers};
use crate::timed_val::TimedVal;
use i_tree::seg::exp::SegRange;
use runs::{SegCommand, SegReply};
use std::alloc::{AllocError, Allocator};

/// A command of a line: the ends of ranges, expirations, values and times are whole numbers.
pub type SegLine = SegCommand<i32, i32, TimedVal>;

impl LineCommand for SegCommand<i32, i32, TimedVal> {
    ghost says = { SaysSegCommand };

    fn from_words(words: &[&str]) -> Option<Self> {
        let (name, rest) = words.split_first()?;
        match *name {
            "insert" => parse_insert(rest),
            "query" => parse_query(rest),
            "clear" => parse_clear(rest),
            _ => None,
        }
    }
}

// The insertion whose words follow its name.
fn parse_insert(words: &[&str]) -> Option<SegLine>
    ensures said { IfSome result (SaysSegCommand (codes "insert" ∷ map (λ word. word.now) words.now)) }
    ensures unsaid { IsNone result → SaysNoSegCommand (codes "insert" ∷ map (λ word. word.now) words.now) }
{
    let (first, rest) = words.split_first()?;
    let min = number(first)?;
    let (max, expiration, val) = three_numbers(rest)?;
    let range = SegRange { min, max };
    let val = TimedVal { val, expiration };
    Some(SegCommand::Insert { range, val })
}

// The query whose words follow its name.
fn parse_query(words: &[&str]) -> Option<SegLine>
    ensures said { IfSome result (SaysSegCommand (codes "query" ∷ map (λ word. word.now) words.now)) }
    ensures unsaid { IsNone result → SaysNoSegCommand (codes "query" ∷ map (λ word. word.now) words.now) }
{
    let (min, max, time) = three_numbers(words)?;
    let range = SegRange { min, max };
    Some(SegCommand::Query { range, time })
}

// The command to clear, whose name no word follows.
fn parse_clear(words: &[&str]) -> Option<SegLine>
    ensures said { IfSome result (SaysSegCommand (codes "clear" ∷ map (λ word. word.now) words.now)) }
    ensures unsaid { IsNone result → SaysNoSegCommand (codes "clear" ∷ map (λ word. word.now) words.now) }
{
    if !words.is_empty() {
        return None;
    }
    Some(SegCommand::Clear)
}

/// The words of the reply's line. Values are listed in the order of the reply.
impl<B: Allocator> LineReply for SegReply<TimedVal, B> {
    ghost words = { λ reply. seg_reply_words (reply_of reply) };

    fn push_words<A: Allocator>(&self, text: &mut String<A>) -> Result<(), AllocError> {
        match self {
            SegReply::Inserted => text.push_str("inserted"),
            SegReply::Outside => text.push_str("outside"),
            SegReply::Late => text.push_str("late"),
            SegReply::Refused => text.push_str("refused"),
            SegReply::Cleared => text.push_str("cleared"),
            SegReply::Values(values) => push_values(text, values),
        }
    }
}

// Appends the word `values`, and each value after one space.
fn push_values<A: Allocator>(text: &mut String<A>, values: &[TimedVal]) -> Result<(), AllocError>
    ensures { OnOk result (string_bytes text.new ≡ string_bytes text.old ++ value_words values.now) }
{
    text.push_str("values")?;
    for value in values {
        let val = value.val;
        write!(text, " {val}")?;
    }
    Ok(())
}
