//! The whole program, over any reader, any writers and any allocator.

ghost use Rattle.std.specs.Prelude.{◌≡◌, ◌≢◌, ◌≤◌, ◌↔◌, ◌⊎◌, ℕ, List, [], Option, IfErr, IfOk, IfSome, OnOk, string_bytes};
ghost use Rattle.std.specs.Borrow.{Bor};
ghost use Rattle.std.specs.Io.KnownBytes.{Appends};
ghost use Rattle.itree.specs.Faults.{status_of};
ghost use Rattle.itree.specs.Modes.{Names, NamesMode, AsksForHelp, AsksForVersion, AsksForText};
ghost use Rattle.itree.specs.Texts.{Answers, HasFirstFaulty, HasOverlapLine, HasCrossingLines, HasUnfit, HasFault, IsFaultOf};
ghost use Rattle.itree.specs.declared.fault.Unfit.{Unfit};
ghost use Rattle.itree.specs.declared.mode.Mode.{Mode};

use crate::answers::answer_text;
use crate::fault::Fault;
use crate::fault::tell::tell_fault;
use crate::help::{HELP, asks_for_help};
use crate::mode::Mode;
use crate::version::{VERSION, asks_for_version};
use std::alloc::Allocator;
use std::io::{Read, Write};

/// Runs the program: reads all of `input`, and writes one reply line for each command, edge or range to `output`. In a sweep,
/// and among edges and points, each point has one, and a segment or an edge has none; and of rings, each ring of the polygons
/// has one that they make. Where the words ask for help it reads nothing, and writes `HELP`; where they ask for the version,
/// `VERSION`.
///
/// `words` are the arguments without the program's name, which are to be the one word of a mode: `keytree`, `keylist`,
/// `settree`, `setlist`, `sweep`, `meetings`, `locate`, `crossings`, `snap` or `node`; `seg`, `MIN` and `MAX`, the ends of a range
/// that has a layout; `overlay`, an operation and a fill rule, and behind these maybe `--window` and the sides of a window;
/// `offset`, `grow` or `shrink`, and a fill rule, or `offset` and `lines`; or one word that asks for help, `help`, `--help` or
/// `-h`, or for the version, `--version` or `-V`. `faults` stands for standard error, and the answer is the process's status:
///
/// - 0 where all replies, or the text asked for, were written and flushed. An insertion that was refused has a reply too.
/// - 1 where reading, writing, flushing or memory outside the commands failed, or memory for a sweep, for edges or for
///   rings; `faults` is told which, and a failed write may have taken a part of the text.
/// - 2 where the words neither name a mode nor ask for a text, before any input is read; where a line is faulty in the mode,
///   before any command is run; where two segments of a sweep overlap; where two edges cross that points are located among; and
///   where the shape is none that something grows or shrinks by, or what is made doesn't fit into 32 bits. `faults` is told which.
///
/// What `faults` is told is a line that `tell_fault` writes. Whether it takes the line changes nothing.
pub fn run_itree<A: Allocator + Copy, I: Read, O: Write, X: Write>(
    alloc: A,
    words: &[&str],
    input: &mut I,
    output: &mut O,
    faults: &mut X,
) -> u8
    ensures status { result ≤ 2 }
    ensures answered { result ≡ 0 → ¬ (AsksForText words.now) → (mode : Mode) × Names words.now mode
        × IfSome (I.remaining input.old) (λ text. (replies : List ℕ) × Answers mode text replies
        × Appends (O.contents output.old) (O.contents output.new) replies) }
    ensures helped { AsksForHelp words.now → (result ≢ 2)
        × (result ≡ 0 → Appends (O.contents output.old) (O.contents output.new) HELP.now) }
    ensures version { AsksForVersion words.now → (result ≢ 2)
        × (result ≡ 0 → Appends (O.contents output.old) (O.contents output.new) VERSION.now) }
    ensures no_replies { result ≡ 2 → output.new ≡ output.old }
    ensures no_fault { result ≡ 0 → faults.new ≡ faults.old }
    ensures faulty_words { ¬ (AsksForText words.now) → ¬ (NamesMode words.now) → result ≡ 2 }
    ensures faulty_line { result ≡ 2 → (mode : Mode) → Names words.now mode →
        IfSome (I.remaining input.old) (HasFault mode) }
    ensures unread { AsksForText words.now ⊎ ¬ (NamesMode words.now) → input.new ≡ input.old }
{
    let mut text = Vec::new(alloc);
    match serve(alloc, words, input, output, &mut text) {
        Ok(()) => 0,
        Err(fault) => {
            // Where standard error takes no more, the status tells the fault alone.
            let _ = tell_fault(fault, words, &text, faults);
            fault.status()
        }
    }
}

// Writes the text that the words ask for, and else the replies to `input`, all at once. What is read goes to `text`.
fn serve<A: Allocator + Copy, I: Read, O: Write>(
    alloc: A,
    words: &[&str],
    input: &mut I,
    output: &mut O,
    text: &mut Vec<u8, A>,
) -> Result<(), Fault>
    requires { text.old.items ≡ [] }
    ensures answered { OnOk result (¬ (AsksForText words.now) → (mode : Mode) × Names words.now mode
        × IfSome (I.remaining input.old) (λ text. (replies : List ℕ) × Answers mode text replies
        × Appends (O.contents output.old) (O.contents output.new) replies)) }
    ensures helped { OnOk result (AsksForHelp words.now
        → Appends (O.contents output.old) (O.contents output.new) HELP.now) }
    ensures version { OnOk result (AsksForVersion words.now
        → Appends (O.contents output.old) (O.contents output.new) VERSION.now) }
    ensures text_err { AsksForText words.now → IfErr result (λ fault. status_of fault ≡ 1) }
    ensures unwritten { IfErr result (λ fault. status_of fault ≡ 2 → output.new ≡ output.old) }
    ensures faulty_words { ¬ (AsksForText words.now) → ((result ≡ Err Fault.Arguments) ↔ ¬ (NamesMode words.now)) }
    ensures told { IfErr result (IsFaultOf words.now (I.remaining input.old)) }
    ensures read { (number : ℕ) → result ≡ Err (Fault.Line number) →
        IfSome (I.remaining input.old) (λ given. text.new.items ≡ given) }
    ensures unread { AsksForText words.now ⊎ ¬ (NamesMode words.now) → input.new ≡ input.old }
{
    if asks_for_help(words) {
        return write_whole(output, HELP);
    }
    if asks_for_version(words) {
        return write_whole(output, VERSION);
    }
    let replies = answer(alloc, words, input, text)?;
    write_whole(output, replies.as_str())
}

// Writes all of the text, and flushes it.
fn write_whole<O: Write>(output: &mut O, text: &str) -> Result<(), Fault>
    ensures written { OnOk result (Appends (O.contents output.old) (O.contents output.new) text.now) }
    ensures err { IfErr result (λ fault. status_of fault ≡ 1) }
    ensures untold { (words : List (Bor (List ℕ))) (input : Option (List ℕ)) → IfErr result (IsFaultOf words input) }
{
    if let Err(error) = output.write_all(text.as_bytes()) {
        return Err(Fault::Writing(error));
    }
    match output.flush() {
        Ok(()) => Ok(()),
        Err(error) => Err(Fault::Writing(error)),
    }
}

// The text of the replies to all of `input`, which goes to `text`.
fn answer<A: Allocator + Copy, I: Read>(
    alloc: A,
    words: &[&str],
    input: &mut I,
    text: &mut Vec<u8, A>,
) -> Result<String<A>, Fault>
    requires { text.old.items ≡ [] }
    ensures answered { IfOk result (λ replies. (mode : Mode) × Names words.now mode
        × IfSome (I.remaining input.old) (λ text. Answers mode text (string_bytes replies))) }
    ensures faulty_words { (result ≡ Err Fault.Arguments) ↔ ¬ (NamesMode words.now) }
    ensures faulty_line { (number : ℕ) → result ≡ Err (Fault.Line number) → (mode : Mode) → Names words.now mode →
        IfSome (I.remaining input.old) (λ text. HasFirstFaulty mode text number) }
    ensures overlap { (number : ℕ) → result ≡ Err (Fault.Overlap number) → (mode : Mode) → Names words.now mode →
        IfSome (I.remaining input.old) (λ text. HasOverlapLine mode text number) }
    ensures crossing { (first second : ℕ) → result ≡ Err (Fault.Cross first second) → (mode : Mode) →
        Names words.now mode → IfSome (I.remaining input.old) (λ text. HasCrossingLines mode text first second) }
    ensures unfit { (why : Unfit) → result ≡ Err (Fault.Unfit why) → (mode : Mode) → Names words.now mode →
        IfSome (I.remaining input.old) (λ text. HasUnfit mode text why) }
    ensures read { (number : ℕ) → result ≡ Err (Fault.Line number) →
        IfSome (I.remaining input.old) (λ given. text.new.items ≡ given) }
    ensures unread { ¬ (NamesMode words.now) → input.new ≡ input.old }
{
    let mode = Mode::from_words(words).ok_or(Fault::Arguments)?;
    input.read_to_end(text)?;
    answer_text(alloc, mode, text)
}
