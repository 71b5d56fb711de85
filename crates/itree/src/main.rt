//! The program `itree`: reads commands as lines and prints one reply for each.
#![tactic(auto)]

ghost use Rattle.std.specs.Prelude.{◌≡◌, MatchResult};
ghost use Rattle.std.specs.Process.{exit_status};

mod answers;
mod fault;
mod help;
mod lines;
mod mode;
mod options;
mod program;
mod set_key;
mod timed_key;
mod timed_val;
mod version;

use fault::Fault;
use fault::tell::tell_fault;
use options::{Choice, Sides, chosen};
use program::run_itree;
use std::env;
use std::io::{self, ErrorKind, Write};
use std::process::ExitCode;

fn main(rt: HostRuntime) -> ExitCode {
    let outcome = run_process(&rt);
    if outcome.is_err() {
        // Where standard error takes no more, the status tells it alone.
        let _ = tell_fault(Fault::Memory, &[], &[], &mut rt.stderr());
    }
    exit_code(outcome)
}

// What the process ends with: the status, or 1 where there is none.
fn exit_code(outcome: io::Result<u8>) -> ExitCode
    ensures { MatchResult outcome (λ status. exit_status result ≡ status) (λ error. exit_status result ≡ 1) }
{
    match outcome {
        Ok(status) => ExitCode::from(status),
        Err(_) => ExitCode::FAILURE,
    }
}

// Runs the program over the process's arguments and streams. An error says that memory was refused.
fn run_process(rt: &HostRuntime) -> io::Result<u8> {
    let arguments: Vec<String> = match env::args(rt) {
        Ok(arguments) => arguments.skip(1).collect(rt.alloc())?,
        // An argument that is not text is faulty.
        Err(error) if error.kind() == ErrorKind::InvalidData => return Ok(told_no_text(rt)),
        Err(error) => return Err(error),
    };
    let words: Vec<&str> = arguments
        .iter()
        .map(|argument| argument.as_str())
        .collect(rt.alloc())?;
    // An overlay's options stand for its words.
    match chosen(&words) {
        Some(chosen) => Ok(run_chosen(rt, chosen)),
        None => Ok(run_words(rt, &words)),
    }
}

// Runs the program over the words of an overlay.
fn run_chosen(rt: &HostRuntime, chosen: Choice) -> u8 {
    let (operation, rule) = (chosen.operation, chosen.rule);
    let Some(
        Sides {
            left,
            low,
            right,
            high,
        },
    ) = chosen.window
    else {
        return run_words(rt, &["overlay", operation, rule]);
    };
    let window = "--window";
    run_words(
        rt,
        &["overlay", operation, rule, window, left, low, right, high],
    )
}

// Runs the program over these words and the process's streams.
fn run_words(rt: &HostRuntime, words: &[&str]) -> u8 {
    run_itree(
        rt.alloc(),
        words,
        &mut rt.stdin(),
        &mut rt.stdout(),
        &mut rt.stderr(),
    )
}

// Tells that an argument is not text, and gives the status of that.
fn told_no_text(rt: &HostRuntime) -> u8
    ensures { result ≡ 2 }
{
    // Where standard error takes no more, the status tells it alone.
    let _ = rt
        .stderr()
        .write_all(b"itree: arguments: one is no text in UTF-8\n");
    2
}
