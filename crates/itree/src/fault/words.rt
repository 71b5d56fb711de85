//! Which word makes a line faulty, and what is wanted there.

ghost use Rattle.std.specs.Prelude.{◌≡◌, ◌≢◌, ◌≤◌, ◌<◌, ◌+◌, ◌-◌, ◌++◌, ◌∷◌, [], ◌⊎◌, ℕ, ℤ, List, IfSome, IsNone, IsTrue, MatchOption, codes, drop, false, get_or, length, slice_get};
ghost use Rattle.std.specs.Char.{is_ascii_whitespace};
ghost use Rattle.std.specs.List.{between};
ghost use Rattle.std.specs.Str.{IsAscii};
ghost use Rattle.itree.specs.Faults.{IsWordAt, IsFaultyWord};
ghost use Rattle.itree.specs.Grammar.{lines_of, words_of};
ghost use Rattle.itree.specs.Words.{Reads};

use super::wanted::Wanted;
use crate::lines::{ascii_text, cut_line, number};
use crate::mode::Mode;

/// A word of a line that makes it faulty: where it begins and ends among the line's bytes, and what is wanted in its place, or
/// behind it.
#[derive(Clone, Copy, Debug)]
pub struct FaultyWord {
    pub start: usize,
    pub end: usize,
    pub wanted: Wanted,
}

/// Which numbers stand behind a name.
#[derive(Clone, Copy, Debug)]
pub enum Numbers {
    /// As many as this.
    Count(usize),
    /// Those of points, two each.
    Pairs,
}

impl Numbers {
    // Whether no number follows this many.
    fn is_full(self, count: usize) -> bool {
        match self {
            Numbers::Count(all) => count >= all,
            Numbers::Pairs => false,
        }
    }

    // Whether one more number is to follow this many.
    fn is_short(self, count: usize) -> bool {
        match self {
            Numbers::Count(all) => count < all,
            Numbers::Pairs => count % 2 == 1,
        }
    }
}

/// The line of a text of this number, counted from 1.
pub fn line_at(text: &[u8], number: usize) -> Option<&[u8]>
    ensures { IfSome result (λ line. slice_get (lines_of text.now) (number - 1) ≡ Some line.now) }
{
    let mut passed = 0;
    let mut rest = Some(text);
    // `rest` has the lines behind the first `passed` ones, and none of these is the line sought.
    'lines: while let Some(left) = rest {
        let (line, after) = cut_line(left);
        passed += 1;
        if passed == number {
            return Some(line);
        }
        rest = after;
    }
    None
}

/// The first word of a line, in the mode, at which no sound line goes on, or the last one where a sound line goes on behind it;
/// and what is wanted there.
pub fn faulty_word(mode: Mode, line: &[u8]) -> Option<FaultyWord>
    ensures { IfSome result (IsFaultyWord line.now) }
{
    let (start, end) = next_word(line, 0)?;
    match numbers_behind(mode, &line[start..end]) {
        Some(numbers) => faulty_number(line, start, end, numbers),
        None => {
            let wanted = beginning(mode);
            Some(FaultyWord { start, end, wanted })
        }
    }
}

// The first word behind the name that is no number, or one too many; or else the last word, where a number is missing behind it.
fn faulty_number(line: &[u8], start: usize, end: usize, numbers: Numbers) -> Option<FaultyWord>
    requires { IsWordAt line.now start end }
    ensures { IfSome result (IsFaultyWord line.now) }
{
    let mut last_start = start;
    let mut last_end = end;
    let mut count = 0;
    // The last word found goes from `last_start` to `last_end`; `count` numbers stand behind the name, up to it.
    'words: while let Some((start, end)) = next_word(line, last_end) {
        if numbers.is_full(count) {
            let wanted = Wanted::NoMore;
            return Some(FaultyWord { start, end, wanted });
        }
        if !is_number(&line[start..end]) {
            let wanted = Wanted::Number;
            return Some(FaultyWord { start, end, wanted });
        }
        count += 1;
        last_start = start;
        last_end = end;
    }
    if !numbers.is_short(count) {
        return None;
    }
    Some(FaultyWord {
        start: last_start,
        end: last_end,
        wanted: Wanted::OneMore,
    })
}

// Where the first word begins and ends that stands at this place of a line or behind it.
fn next_word(line: &[u8], from: usize) -> Option<(usize, usize)>
    requires { from ≤ length line.now }
    ensures word { IfSome result (λ place. (from ≤ place.0) × (place.0 < place.1) × (place.1 ≤ length line.now)
        × (words_of (drop from line.now) ≡ between place.0 place.1 line.now ∷ words_of (drop place.1 line.now))) }
{
    let start = word_start(line, from);
    if start >= line.len() {
        return None;
    }
    Some((start, word_end(line, start)))
}

// Where the white space ends that stands from this place of a line on.
fn word_start(line: &[u8], from: usize) -> usize
    requires { from ≤ length line.now }
    ensures within { (from ≤ result) × (result ≤ length line.now) }
    ensures blank { words_of (drop from line.now) ≡ words_of (drop result line.now) }
    ensures solid { result < length line.now → is_ascii_whitespace (get_or line.now result 0) ≡ false }
{
    let mut at = from;
    // From the place on and before `at` there is nothing but white space.
    'bytes: while at < line.len() {
        if !line[at].is_ascii_whitespace() {
            return at;
        }
        at += 1;
    }
    at
}

// Where the word ends that begins at this place of a line.
fn word_end(line: &[u8], start: usize) -> usize
    requires within { start < length line.now }
    requires solid { is_ascii_whitespace (get_or line.now start 0) ≡ false }
    ensures within { (start < result) × (result ≤ length line.now) }
    ensures word { words_of (drop start line.now) ≡ between start result line.now ∷ words_of (drop result line.now) }
{
    let mut at = start + 1;
    // From the start on and before `at` there is no white space.
    'bytes: while at < line.len() {
        if line[at].is_ascii_whitespace() {
            return at;
        }
        at += 1;
    }
    at
}

// Whether the word is read as a number.
fn is_number(word: &[u8]) -> bool
    ensures { result ≡ false → IsAscii word.now → (number : ℤ) → ¬ (Reads word.now number) }
{
    let Some(text) = ascii_text(word) else {
        return false;
    };
    match number(text) {
        Some(_) => true,
        None => false,
    }
}

// What begins a line of the mode.
fn beginning(mode: Mode) -> Wanted
    ensures { result ≢ Wanted.Number }
{
    match mode {
        Mode::KeyTree | Mode::KeyList => Wanted::OfKeys,
        Mode::SetTree | Mode::SetList => Wanted::OfSets,
        Mode::Segments { .. } => Wanted::OfSegments,
        Mode::Sweep => Wanted::OfSweep,
        Mode::Meetings | Mode::Snap | Mode::Node => Wanted::OfEdges,
        Mode::Locate => Wanted::OfLocate,
        Mode::Crossings => Wanted::OfCrossings,
        Mode::Overlay { .. } | Mode::Tile { .. } => Wanted::OfRings,
        Mode::Grow { .. } | Mode::Shrink { .. } => Wanted::OfGrowth,
        Mode::Paths => Wanted::OfPaths,
    }
}

// Which numbers stand behind the name in a line of the mode, if the mode has it.
fn numbers_behind(mode: Mode, name: &[u8]) -> Option<Numbers> {
    let name = ascii_text(name)?;
    match beginning(mode) {
        Wanted::OfKeys => of_keys(name),
        Wanted::OfSets => of_sets(name),
        Wanted::OfSegments => of_segments(name),
        Wanted::OfSweep => of_sweep(name),
        Wanted::OfEdges => of_edges(name),
        Wanted::OfLocate => of_locate(name),
        Wanted::OfCrossings => of_crossings(name),
        Wanted::OfGrowth => of_growth(name),
        Wanted::OfPaths => of_paths(name),
        _ => of_rings(name),
    }
}

// The numbers behind a name of keys that expire.
fn of_keys(name: &str) -> Option<Numbers> {
    match name {
        "insert" => Some(Numbers::Count(4)),
        "less" => Some(Numbers::Count(3)),
        "leq" => Some(Numbers::Count(3)),
        "clear" => Some(Numbers::Count(0)),
        _ => None,
    }
}

// Those of a set.
fn of_sets(name: &str) -> Option<Numbers> {
    match name {
        "insert" => Some(Numbers::Count(1)),
        "delete" => Some(Numbers::Count(1)),
        "find" => Some(Numbers::Count(1)),
        "before" => Some(Numbers::Count(1)),
        _ => None,
    }
}

// Those of segments over a range.
fn of_segments(name: &str) -> Option<Numbers> {
    match name {
        "insert" => Some(Numbers::Count(4)),
        "query" => Some(Numbers::Count(3)),
        "clear" => Some(Numbers::Count(0)),
        _ => None,
    }
}

// Those of a sweep.
fn of_sweep(name: &str) -> Option<Numbers> {
    match name {
        "segment" => Some(Numbers::Count(3)),
        "point" => Some(Numbers::Count(2)),
        _ => None,
    }
}

// Those of edges.
fn of_edges(name: &str) -> Option<Numbers> {
    match name {
        "edge" => Some(Numbers::Count(4)),
        _ => None,
    }
}

// Those of edges and points.
fn of_locate(name: &str) -> Option<Numbers> {
    match name {
        "edge" => Some(Numbers::Count(4)),
        "point" => Some(Numbers::Count(2)),
        _ => None,
    }
}

// Those of edges and ranges.
fn of_crossings(name: &str) -> Option<Numbers> {
    match name {
        "edge" => Some(Numbers::Count(4)),
        "range" => Some(Numbers::Count(3)),
        _ => None,
    }
}

// Those of rings.
fn of_rings(name: &str) -> Option<Numbers> {
    match name {
        "subject" => Some(Numbers::Pairs),
        "clip" => Some(Numbers::Pairs),
        _ => None,
    }
}

// Those of rings that grow or shrink.
fn of_growth(name: &str) -> Option<Numbers> {
    match name {
        "subject" => Some(Numbers::Pairs),
        "shape" => Some(Numbers::Pairs),
        _ => None,
    }
}

// Those of paths that grow.
fn of_paths(name: &str) -> Option<Numbers> {
    match name {
        "line" => Some(Numbers::Pairs),
        "shape" => Some(Numbers::Pairs),
        _ => None,
    }
}
