//! Which argument is faulty, and what is wanted there.

ghost use Rattle.std.specs.Prelude.{◌≡◌, ◌<◌, length, IfSome};

use super::wanted::Wanted;
use crate::help::asks_for_help;
use crate::lines::number;
use crate::mode::{GREATEST_SIDE, LEAST_SIDE, Mode, operation_named, rule_named};
use crate::options::option_at;
use crate::version::asks_for_version;

/// The place of a faulty argument among the arguments, and what is wanted in its place, or behind it.
#[derive(Clone, Copy, Debug)]
pub struct FaultyArgument {
    pub place: usize,
    pub wanted: Wanted,
}

/// The first of the arguments at which none go on that name a mode, or the last one where such go on behind it; and what is
/// wanted there. Of no arguments there is none.
pub fn faulty_argument(words: &[&str]) -> Option<FaultyArgument>
    ensures { IfSome result (λ argument. argument.place < length words.now) }
{
    let word = words.first()?;
    match *word {
        "seg" => Some(faulty_range(words)),
        "overlay" => Some(faulty_choice(words)),
        "offset" => Some(faulty_growth(words)),
        _ => Some(faulty_mode(words)),
    }
}

// Of arguments that begin with the word of another mode, or with none.
fn faulty_mode(words: &[&str]) -> FaultyArgument
    requires { 0 < length words.now }
    ensures { result.place < length words.now }
{
    if words.len() > 1 && is_alone(&words[..1]) {
        return at(1, Wanted::NoMore);
    }
    at(0, Wanted::Mode)
}

// Whether the words are one, and it stands alone.
fn is_alone(words: &[&str]) -> bool {
    Mode::from_words(words).is_some() || asks_for_help(words) || asks_for_version(words)
}

// Of arguments that begin with `seg`, and go on with no range.
fn faulty_range(words: &[&str]) -> FaultyArgument
    requires { 0 < length words.now }
    ensures { result.place < length words.now }
{
    let Some(min) = words.get(1) else {
        return at(0, Wanted::OneMore);
    };
    if number(min).is_none() {
        return at(1, Wanted::Number);
    }
    let Some(max) = words.get(2) else {
        return at(1, Wanted::OneMore);
    };
    if number(max).is_none() {
        return at(2, Wanted::Number);
    }
    if words.len() > 3 {
        return at(3, Wanted::NoMore);
    }
    at(2, Wanted::Greater)
}

// Of arguments that begin with `overlay`, and go on neither with an operation and a rule, nor with options.
fn faulty_choice(words: &[&str]) -> FaultyArgument
    requires { 0 < length words.now }
    ensures { result.place < length words.now }
{
    let Some(operation) = words.get(1) else {
        return at(0, Wanted::OperationBehind);
    };
    if operation.starts_with('-') {
        return faulty_option(words);
    }
    if operation_named(operation).is_none() {
        return at(1, Wanted::Operation);
    }
    let Some(rule) = words.get(2) else {
        return at(1, Wanted::RuleBehind);
    };
    if rule_named(rule).is_none() {
        return at(2, Wanted::Rule);
    }
    match words.get(3) {
        Some(word) if *word == "--window" => faulty_window(words),
        Some(_) => at(3, Wanted::NoMore),
        None => at(2, Wanted::Rule),
    }
}

// Of arguments that begin with `offset`, and go on neither with `lines` alone nor with an operation and a rule.
fn faulty_growth(words: &[&str]) -> FaultyArgument
    requires { 0 < length words.now }
    ensures { result.place < length words.now }
{
    let Some(operation) = words.get(1) else {
        return at(0, Wanted::GrowthBehind);
    };
    match (*operation, words.get(2)) {
        ("lines", Some(_)) => at(2, Wanted::NoMore),
        ("grow" | "shrink", None) => at(1, Wanted::RuleBehind),
        ("grow" | "shrink", Some(rule)) if rule_named(rule).is_none() => at(2, Wanted::Rule),
        ("grow" | "shrink", Some(_)) if words.len() > 3 => at(3, Wanted::NoMore),
        _ => at(1, Wanted::Growth),
    }
}

// Of arguments that begin with `overlay`, an operation, a rule and `--window`, and go on with no window.
fn faulty_window(words: &[&str]) -> FaultyArgument
    requires { 3 < length words.now }
    ensures { result.place < length words.now }
{
    if words.len() < 8 {
        return at(3, Wanted::SidesBehind);
    }
    // The words behind `--window`, up to this one, are read as sides.
    for place in 4..8 {
        if side(words[place]).is_none() {
            return at(place, Wanted::Side);
        }
    }
    if words.len() > 8 {
        return at(8, Wanted::NoMore);
    }
    match (side(words[4]), side(words[6])) {
        (Some(left), Some(right)) if right <= left => at(6, Wanted::Above),
        _ => at(7, Wanted::Above),
    }
}

// The side of a window that the word is read as.
fn side(word: &str) -> Option<i32> {
    let side = number(word)?;
    if side < LEAST_SIDE || GREATEST_SIDE < side {
        return None;
    }
    Some(side)
}

// Of arguments that begin with `overlay` and go on with options: the first that is none, or the last where its value is missing.
fn faulty_option(words: &[&str]) -> FaultyArgument
    requires { 0 < length words.now }
    ensures { result.place < length words.now }
{
    let mut place = 1;
    // Before `place` each word is an option, or the value of one.
    'options: while place < words.len() {
        match option_at(words, place) {
            Some(option) => place = option.next,
            None => return at(place, wanted_of(words[place])),
        }
    }
    at(0, Wanted::Choice)
}

// What is wanted where this word is no whole option.
fn wanted_of(word: &str) -> Wanted {
    match word {
        "--operation" => Wanted::OperationBehind,
        "--rule" => Wanted::RuleBehind,
        "--window" => Wanted::SidesBehind,
        _ => Wanted::Choice,
    }
}

// What is wanted at a place.
fn at(place: usize, wanted: Wanted) -> FaultyArgument
    ensures { result.place ≡ place }
{
    FaultyArgument { place, wanted }
}
