//! The commands of keys that expire, as lines.

ghost use Rattle.std.specs.Prelude.{◌∷◌, codes, map, IfSome, IsNone};
ghost use Rattle.itree.specs.KeyLines.{SaysKeyCommand, SaysNoKeyCommand};
ghost use Rattle.itree.specs.Replies.{key_reply_words};

use super::{LineCommand, LineReply, number, three_numbers};
use crate::timed_key::TimedKey;
use runs::{KeyCommand, KeyReply};
use std::alloc::{AllocError, Allocator};

/// A command of a line: keys, expirations, values and times are whole numbers, and a probe is the key that is sought.
pub type KeyLine = KeyCommand<TimedKey, i32, i32, i32>;

impl LineCommand for KeyCommand<TimedKey, i32, i32, i32> {
    ghost says = { SaysKeyCommand };

    fn from_words(words: &[&str]) -> Option<Self> {
        let (name, rest) = words.split_first()?;
        match *name {
            "insert" => parse_insert(rest),
            "less" => parse_less(rest),
            "leq" => parse_at_most(rest),
            "clear" => parse_clear(rest),
            _ => None,
        }
    }
}

// The insertion whose words follow its name.
fn parse_insert(words: &[&str]) -> Option<KeyLine>
    ensures said { IfSome result (SaysKeyCommand (codes "insert" ∷ map (λ word. word.now) words.now)) }
    ensures unsaid { IsNone result → SaysNoKeyCommand (codes "insert" ∷ map (λ word. word.now) words.now) }
{
    let (first, rest) = words.split_first()?;
    let key = number(first)?;
    let (expiration, val, time) = three_numbers(rest)?;
    let key = TimedKey { key, expiration };
    Some(KeyCommand::Insert { key, val, time })
}

// The query below a key whose words follow its name.
fn parse_less(words: &[&str]) -> Option<KeyLine>
    ensures said { IfSome result (SaysKeyCommand (codes "less" ∷ map (λ word. word.now) words.now)) }
    ensures unsaid { IsNone result → SaysNoKeyCommand (codes "less" ∷ map (λ word. word.now) words.now) }
{
    let (time, default, key) = three_numbers(words)?;
    let expiration = i32::MAX;
    let key = TimedKey { key, expiration };
    Some(KeyCommand::Less { time, default, key })
}

// The query up to a key whose words follow its name.
fn parse_at_most(words: &[&str]) -> Option<KeyLine>
    ensures said { IfSome result (SaysKeyCommand (codes "leq" ∷ map (λ word. word.now) words.now)) }
    ensures unsaid { IsNone result → SaysNoKeyCommand (codes "leq" ∷ map (λ word. word.now) words.now) }
{
    let (time, default, probe) = three_numbers(words)?;
    Some(KeyCommand::LessOrEqualBy {
        time,
        default,
        probe,
    })
}

// The command to clear, whose name no word follows.
fn parse_clear(words: &[&str]) -> Option<KeyLine>
    ensures said { IfSome result (SaysKeyCommand (codes "clear" ∷ map (λ word. word.now) words.now)) }
    ensures unsaid { IsNone result → SaysNoKeyCommand (codes "clear" ∷ map (λ word. word.now) words.now) }
{
    if !words.is_empty() {
        return None;
    }
    Some(KeyCommand::Clear)
}

/// The words of the reply's line. A refusal is `refused`, whatever its cause.
impl LineReply for KeyReply<i32> {
    ghost words = { key_reply_words };

    fn push_words<A: Allocator>(&self, text: &mut String<A>) -> Result<(), AllocError> {
        match self {
            KeyReply::Inserted => text.push_str("inserted"),
            KeyReply::Present => text.push_str("present"),
            KeyReply::Late => text.push_str("late"),
            KeyReply::Refused(_) => text.push_str("refused"),
            KeyReply::Cleared => text.push_str("cleared"),
            KeyReply::Value(val) => write!(text, "value {val}"),
        }
    }
}
