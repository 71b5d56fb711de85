//! The lines that tell faults.

ghost use Rattle.std.specs.Prelude.{◌≡◌, ◌<◌, ◌++◌, ◌∷◌, [], codes, IfSome, IsNone, List, OnOk, Some, length, slice_get, ℕ};
ghost use Rattle.std.specs.Fmt.InlineText.{inline_text};
ghost use Rattle.std.specs.Io.KnownBytes.{Appends};
ghost use Rattle.std.specs.Str.{IsAscii};
ghost use Rattle.std.specs.List.{list_all};
ghost use Rattle.itree.specs.Faults.{TellsArguments, TellsLine, TellsReading, TellsUnfit, TellsWriting, TellsFault, is_plain as plain_byte, IsPlain, Shows};

use super::arguments::faulty_argument;
use super::words::{faulty_word, line_at};
use super::{Fault, Unfit};
use crate::lines::ascii_text;
use crate::mode::Mode;
use std::fmt::InlineText;
use std::io::{self, ErrorKind, Write};
use std::str;

// So many bytes of a word are told at most.
const SHOWN: usize = 40;

// So many bytes of what the system says of an error.
const REASON: usize = 120;

/// Writes the line that tells the fault, which came of these words and this text. Of faulty arguments it tells which, and of a
/// faulty line which word, its column, and what is wanted there.
pub fn tell_fault<X: Write>(
    fault: Fault,
    words: &[&str],
    text: &[u8],
    faults: &mut X,
) -> io::Result<()>
    ensures { OnOk result ((line : List ℕ) × TellsFault words.now text.now fault line
        × Appends (X.contents faults.old) (X.contents faults.new) line) }
{
    match fault {
        Fault::Arguments => tell_arguments(words, faults),
        Fault::Line(number) => tell_line(number, words, text, faults),
        Fault::Overlap(number) => writeln!(faults, "itree: overlap {number}"),
        Fault::Cross(first, second) => writeln!(faults, "itree: cross {first} {second}"),
        Fault::Unfit(why) => tell_unfit(why, faults),
        Fault::Memory => faults.write_all(b"itree: memory was refused\n"),
        Fault::Reading(error) => tell_reading(error, faults),
        Fault::Writing(error) => tell_writing(error, faults),
    }
}

// Why sound lines of what grows or shrinks have no answer.
fn tell_unfit<X: Write>(why: Unfit, faults: &mut X) -> io::Result<()>
    ensures { OnOk result ((line : List ℕ) × TellsUnfit why line × Appends (X.contents faults.old) (X.contents faults.new) line) }
{
    match why {
        Unfit::Shape => faults.write_all(
            b"itree: shape: its corners go round no convex polygon, counterclockwise, with the origin inside\n",
        ),
        Unfit::Range => faults.write_all(
            b"itree: range: a corner goes beyond the whole numbers from -2147483648 to 2147483647\n",
        ),
    }
}

// That reading failed, and why: because memory was refused, or as the system says.
fn tell_reading<X: Write>(error: io::Error, faults: &mut X) -> io::Result<()>
    ensures { OnOk result ((line : List ℕ) × TellsReading error line × Appends (X.contents faults.old) (X.contents faults.new) line) }
{
    match error.kind() {
        ErrorKind::OutOfMemory => faults.write_all(b"itree: memory was refused\n"),
        _ => tell_reason(error, faults),
    }
}

// That reading failed, and what the system says of it.
fn tell_reason<X: Write>(error: io::Error, faults: &mut X) -> io::Result<()>
    ensures { OnOk result ((reason : List ℕ) × Appends (X.contents faults.old) (X.contents faults.new)
        (codes "itree: reading failed: " ++ (reason ++ 10 ∷ []))) }
{
    let reason = InlineText::<REASON>::of(error);
    let reason = reason.as_str();
    writeln!(faults, "itree: reading failed: {reason}")
}

// That writing failed.
fn tell_writing<X: Write>(error: io::Error, faults: &mut X) -> io::Result<()>
    ensures { OnOk result ((line : List ℕ) × TellsWriting line × Appends (X.contents faults.old) (X.contents faults.new) line) }
{
    let reason = InlineText::<REASON>::of(error);
    let reason = reason.as_str();
    writeln!(faults, "itree: writing failed: {reason}")
}

// Of faulty arguments.
fn tell_arguments<X: Write>(words: &[&str], faults: &mut X) -> io::Result<()>
    ensures { OnOk result ((line : List ℕ) × TellsArguments words.now line
        × Appends (X.contents faults.old) (X.contents faults.new) line) }
{
    let Some(found) = faulty_argument(words) else {
        return faults.write_all(b"itree: arguments: a mode is wanted; itree help lists them\n");
    };
    let word = shown(argument_at(words, found.place).as_bytes());
    let word = word.as_str();
    let wanted = found.wanted.text();
    writeln!(faults, "itree: arguments: '{word}': {wanted}")
}

// The argument at this place.
fn argument_at<'a>(words: &[&'a str], place: usize) -> &'a str
    requires { place < length words.now }
    ensures { slice_get words.now place ≡ Some result }
{
    words[place]
}

// Of the line of this number, which is faulty in the mode that the words name.
fn tell_line<X: Write>(number: usize, words: &[&str], text: &[u8], faults: &mut X) -> io::Result<()>
    ensures { OnOk result ((line : List ℕ) × TellsLine text.now number line
        × Appends (X.contents faults.old) (X.contents faults.new) line) }
{
    let Some(mode) = Mode::from_words(words) else {
        return writeln!(faults, "itree: line {number}");
    };
    let Some(line) = line_at(text, number) else {
        return writeln!(faults, "itree: line {number}");
    };
    let Some(found) = faulty_word(mode, line) else {
        return writeln!(faults, "itree: line {number}");
    };
    let column = found.start + 1;
    let word = shown(&line[found.start..found.end]);
    let word = word.as_str();
    let wanted = found.wanted.text();
    writeln!(
        faults,
        "itree: line {number}: column {column}: '{word}': {wanted}"
    )
}

// A word as it is told: as it stands, or by escapes where a byte of it isn't printed; and cut where it is long, so that it ends in
// three dots.
fn shown(word: &[u8]) -> InlineText<SHOWN>
    ensures { Shows word.now (inline_text result) }
{
    if let Some(text) = plain_text(word) {
        return InlineText::of(text);
    }
    match str::from_utf8(word) {
        Ok(text) => InlineText::of(text.escape_debug()),
        Err(_) => InlineText::of(word.escape_ascii()),
    }
}

// The word as text, where all of it stands as it is.
fn plain_text(word: &[u8]) -> Option<&str>
    ensures plain { IfSome result (λ text. text.now ≡ word.now) }
    ensures other { IsNone result → ¬ (IsPlain word.now) }
{
    if !is_plain(word) {
        return None;
    }
    ascii_text(word)
}

// Whether each byte is printed as it is.
fn is_plain(word: &[u8]) -> bool
    ensures { result ≡ list_all plain_byte word.now }
{
    word.iter()
        .all(|byte| byte.is_ascii_graphic() || *byte == b' ')
}
