//! Lines of text, as commands and as replies.

ghost use Rattle.std.specs.Prelude.{◌≡◌, ◌==◌, ◌∷◌, [], ◌++◌, ◌<◌, ◌⊎◌, ℕ, ℤ, List, length, map, IfErr, IfOk, IfSome, IsNone, OnOk, position, string_bytes};
ghost use Rattle.std.specs.Str.{IsAscii};
ghost use Rattle.std.specs.Char.{is_ascii_whitespace};
ghost use Rattle.std.specs.List.{list_all};
ghost use Rattle.itree.specs.Grammar.{command_lines as numbers_of};
ghost use Rattle.itree.specs.Grammar.{words_of, ReadsAll, LineSays, IsFaulty, lines_of, lines_left, LinesSay, IsFirstFaulty};
ghost use Rattle.itree.specs.Replies.{reply_lines};
ghost use Rattle.itree.specs.Words.{Reads};

use crate::fault::Fault;
use std::alloc::{AllocError, Allocator};
use std::str;

mod crossings;
mod keys;
mod locate;
mod meetings;
mod points;
mod rings;
mod segments;
mod sets;
mod snap;
mod sweep;

pub use crossings::{CrossingsLine, crossings_text};
pub use keys::KeyLine;
pub use locate::LocateLine;
pub use meetings::MetLines;
pub use rings::{RingKind, RingList, SaidRings, parse_rings, polygon_text};
pub use segments::SegLine;
pub use sets::SetLine;
pub use snap::chain_text;
pub use sweep::{SweepLine, segment_line};

/// A command that the words of a line may say.
pub trait LineCommand: Sized + Drop {
    /// Whether the words say the command.
    ghost says: { List (List ℕ) → Self → Type 0 };

    /// The command that the words say, or `None` where they say none.
    fn from_words(words: &[&str]) -> Option<Self>
        ensures said { IfSome result (says (map (λ word. word.now) words.now)) }
        ensures unsaid { IsNone result → (command : Self) → ¬ (says (map (λ word. word.now) words.now) command) };
}

/// A reply that has a line.
pub trait LineReply {
    /// The words of the reply's line.
    ghost words: { Self → List ℕ };

    /// Appends the words of the reply's line.
    fn push_words<A: Allocator>(&self, text: &mut String<A>) -> Result<(), AllocError>
        ensures { OnOk result (string_bytes text.new ≡ string_bytes text.old ++ words self.now) };
}

/// The commands of a text, in order. A line feed ends a line, and the last line may lack it.
///
/// A line without words has no command, and counts in the numbers of the lines. The answer is `Fault::Line` with the
/// number of the first faulty line, or `Fault::Memory` where memory was refused before that line.
pub fn parse_commands<A: Allocator + Copy, C: LineCommand>(
    alloc: A,
    text: &[u8],
) -> Result<Vec<C, A>, Fault>
    ensures said { IfOk result (λ commands. LinesSay C.says (lines_of text.now) commands.items) }
    ensures faulty { (number : ℕ) → result ≡ Err (Fault.Line number) →
        IsFirstFaulty C.says (lines_of text.now) number }
    ensures err { IfErr result (λ fault. (fault ≡ Fault.Memory) ⊎ ((number : ℕ) × (fault ≡ Fault.Line number))) }
{
    let mut commands = Vec::new(alloc);
    let mut number = 0;
    let mut rest = Some(text);
    // The commands are those of the first `number` lines, and `rest` has the others.
    'lines: while let Some(left) = rest {
        let (line, after) = cut_line(left);
        number += 1;
        if let Some(command) = parse_line(alloc, number, line)? {
            commands.push(command)?;
        }
        rest = after;
    }
    Ok(commands)
}

/// The numbers of the lines that have words, counted from 1.
pub fn command_lines<A: Allocator>(alloc: A, text: &[u8]) -> Result<Vec<usize, A>, AllocError>
    ensures { IfOk result (λ numbers. numbers.items ≡ numbers_of (lines_of text.now)) }
{
    let mut numbers = Vec::new(alloc);
    let mut number = 0;
    let mut rest = Some(text);
    // The numbers are those of the lines with words among the first `number`, and `rest` has the others.
    'lines: while let Some(left) = rest {
        let (line, after) = cut_line(left);
        number += 1;
        if !is_blank(line) {
            numbers.push(number)?;
        }
        rest = after;
    }
    Ok(numbers)
}

// Whether a line has nothing but white space.
fn is_blank(line: &[u8]) -> bool
    ensures { result ≡ list_all is_ascii_whitespace line.now }
{
    line.iter().all(|byte| byte.is_ascii_whitespace())
}

/// The first line of a text, and what follows its line feed, where it has one.
pub fn cut_line(text: &[u8]) -> (&[u8], Option<&[u8]>)
    ensures first { lines_of text.now ≡ result.0.now ∷ lines_left result.1 }
    ensures shorter { IfSome result.1 (λ after. length after.now < length text.now) }
{
    match line_end(text) {
        Some(end) => (&text[..end], Some(&text[end + 1..])),
        None => (text, None),
    }
}

// Where the first line feed of a text stands.
fn line_end(text: &[u8]) -> Option<usize>
    ensures { result ≡ position (λ byte. byte == 10) text.now }
{
    text.iter().position(|byte| *byte == b'\n')
}

// The command of the line of this number, or `None` where the line has no words.
fn parse_line<A: Allocator, C: LineCommand>(
    alloc: A,
    number: usize,
    line: &[u8],
) -> Result<Option<C>, Fault>
    ensures said { IfOk result (LineSays C.says line.now) }
    ensures faulty { result ≡ Err (Fault.Line number) → IsFaulty C.says line.now }
    ensures err { IfErr result (λ fault. (fault ≡ Fault.Line number) ⊎ (fault ≡ Fault.Memory)) }
{
    let text = ascii_text(line).ok_or(Fault::Line(number))?;
    let words = line_words(alloc, text)?;
    if words.is_empty() {
        return Ok(None);
    }
    let command = C::from_words(&words).ok_or(Fault::Line(number))?;
    Ok(Some(command))
}

/// The line as text, unless a byte lies outside ASCII.
pub fn ascii_text(line: &[u8]) -> Option<&str>
    ensures text { IfSome result (λ text. (text.now ≡ line.now) × IsAscii line.now) }
    ensures other { IsNone result → ¬ (IsAscii line.now) }
{
    if !line.is_ascii() {
        return None;
    }
    str::from_utf8(line).ok()
}

// The words of a line.
fn line_words<A: Allocator>(alloc: A, text: &str) -> Result<Vec<&str, A>, AllocError>
    ensures { IfOk result (λ words. map (λ word. word.now) words.items ≡ words_of text.now) }
{
    text.split_ascii_whitespace().collect(alloc)
}

/// The number that a word is read as.
pub fn number(word: &str) -> Option<i32>
    ensures read { IfSome result (Reads word.now) }
    ensures unread { IsNone result → (number : ℤ) → ¬ (Reads word.now number) }
{
    word.parse().ok()
}

// The numbers that two words are read as.
fn two_numbers(words: &[&str]) -> Option<(i32, i32)>
    ensures read { IfSome result (λ numbers. ReadsAll (map (λ word. word.now) words.now) (numbers.0 ∷ numbers.1 ∷ [])) }
    ensures unread { IsNone result → (first second : ℤ) →
        ¬ (ReadsAll (map (λ word. word.now) words.now) (first ∷ second ∷ [])) }
{
    let [first, second] = words else {
        return None;
    };
    let first = number(first)?;
    let second = number(second)?;
    Some((first, second))
}

// The numbers that three words are read as.
fn three_numbers(words: &[&str]) -> Option<(i32, i32, i32)>
    ensures read { IfSome result (λ numbers.
        ReadsAll (map (λ word. word.now) words.now) (numbers.0 ∷ numbers.1 ∷ numbers.2 ∷ [])) }
    ensures unread { IsNone result → (first second third : ℤ) →
        ¬ (ReadsAll (map (λ word. word.now) words.now) (first ∷ second ∷ third ∷ [])) }
{
    let [first, second, third] = words else {
        return None;
    };
    let first = number(first)?;
    let second = number(second)?;
    let third = number(third)?;
    Some((first, second, third))
}

/// One line for each reply, in order: its words, and a line feed.
pub fn reply_text<A: Allocator, R: LineReply>(
    alloc: A,
    replies: &[R],
) -> Result<String<A>, AllocError>
    ensures { IfOk result (λ text. string_bytes text ≡ reply_lines R.words replies.now) }
{
    let mut text = String::new(alloc);
    for reply in replies {
        reply.push_words(&mut text)?;
        text.push_str("\n")?;
    }
    Ok(text)
}
