//! The commands of an ordered set, as lines.

ghost use Rattle.std.specs.Prelude.{◌∷◌, [], ℤ, map, IfSome, IsNone};
ghost use Rattle.itree.specs.Grammar.{ReadsAll};
ghost use Rattle.itree.specs.Replies.{set_reply_words};
ghost use Rattle.itree.specs.SetLines.{SaysSetCommand};

use super::{LineCommand, LineReply, number};
use crate::set_key::SetKey;
use runs::{SetCommand, SetReply};
use std::alloc::{AllocError, Allocator};

/// A command of a line: a key is a whole number, and a value is its key.
pub type SetLine = SetCommand<i32, SetKey>;

impl LineCommand for SetCommand<i32, SetKey> {
    ghost says = { SaysSetCommand };

    fn from_words(words: &[&str]) -> Option<Self> {
        let (name, rest) = words.split_first()?;
        let key = one_number(rest)?;
        match *name {
            "insert" => Some(SetCommand::Insert(SetKey { key })),
            "delete" => Some(SetCommand::Delete(key)),
            "find" => Some(SetCommand::Find(key)),
            "before" => Some(SetCommand::Before(key)),
            _ => None,
        }
    }
}

// The number that one word is read as.
fn one_number(words: &[&str]) -> Option<i32>
    ensures read { IfSome result (λ number. ReadsAll (map (λ word. word.now) words.now) (number ∷ [])) }
    ensures unread { IsNone result → (number : ℤ) → ¬ (ReadsAll (map (λ word. word.now) words.now) (number ∷ [])) }
{
    let [word] = words else {
        return None;
    };
    number(word)
}

/// The words of the reply's line. A refusal is `refused`, whatever its cause; a value that comes back isn't shown.
impl LineReply for SetReply<i32, SetKey> {
    ghost words = { set_reply_words };

    fn push_words<A: Allocator>(&self, text: &mut String<A>) -> Result<(), AllocError> {
        match self {
            SetReply::Inserted => text.push_str("inserted"),
            SetReply::Present(_) => text.push_str("present"),
            SetReply::Refused(..) => text.push_str("refused"),
            SetReply::Deleted => text.push_str("deleted"),
            SetReply::Absent => text.push_str("absent"),
            SetReply::Key(key) => write!(text, "key {key}"),
            SetReply::None => text.push_str("none"),
        }
    }
}
