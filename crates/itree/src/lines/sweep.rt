//! The lines of a sweep over horizontal segments.

ghost use Rattle.std.specs.Prelude.{◌≡◌, ◌∷◌, ◌<◌, List, Option, codes, length, map, IfSome, IsNone};
ghost use Rattle.itree.specs.Grammar.{LineSays, LinesSay, lines_of};
ghost use Rattle.itree.specs.Replies.{height_words};
ghost use Rattle.itree.specs.SweepLines.{SaysSweepLine, SaysNoSweepLine, segment_in, point_in, segments_of, says_segment, IsSegmentLine};

use super::{LineCommand, LineReply, ascii_text, cut_line, three_numbers, two_numbers};
use horizontal::{Point, Segment};
use std::alloc::{AllocError, Allocator};

/// What a line of a sweep says.
#[derive(Clone, Copy, Debug, PartialEq, Eq)]
pub enum SweepLine {
    /// A segment.
    Segment(Segment),
    /// A point, for which the sweep answers.
    Point(Point),
}

impl SweepLine {
    /// The segment, where one is said.
    pub fn segment(&self) -> Option<Segment>
        ensures { result ≡ segment_in self.now }
    {
        match self {
            SweepLine::Segment(segment) => Some(*segment),
            SweepLine::Point(_) => None,
        }
    }

    /// The point, where one is said.
    pub fn point(&self) -> Option<Point>
        ensures { result ≡ point_in self.now }
    {
        match self {
            SweepLine::Segment(_) => None,
            SweepLine::Point(point) => Some(*point),
        }
    }
}

impl LineCommand for SweepLine {
    ghost says = { SaysSweepLine };

    fn from_words(words: &[&str]) -> Option<Self> {
        let (name, rest) = words.split_first()?;
        match *name {
            "segment" => parse_segment(rest),
            "point" => parse_point(rest),
            _ => None,
        }
    }
}

// The segment whose words follow its name.
fn parse_segment(words: &[&str]) -> Option<SweepLine>
    ensures said { IfSome result (SaysSweepLine (codes "segment" ∷ map (λ word. word.now) words.now)) }
    ensures unsaid { IsNone result → SaysNoSweepLine (codes "segment" ∷ map (λ word. word.now) words.now) }
{
    let (x0, x1, y) = three_numbers(words)?;
    Some(SweepLine::Segment(Segment { x0, x1, y }))
}

// The point whose words follow its name.
fn parse_point(words: &[&str]) -> Option<SweepLine>
    ensures said { IfSome result (SaysSweepLine (codes "point" ∷ map (λ word. word.now) words.now)) }
    ensures unsaid { IsNone result → SaysNoSweepLine (codes "point" ∷ map (λ word. word.now) words.now) }
{
    let (x, y) = two_numbers(words)?;
    Some(SweepLine::Point(Point { x, y }))
}

/// The number of the line, counted from 1, that says the segment at this place among those that are said.
pub fn segment_line(text: &[u8], place: usize) -> usize
    requires { (said : List SweepLine) × LinesSay SaysSweepLine (lines_of text.now) said
        × (place < length (segments_of said)) }
    ensures { (said : List SweepLine) → LinesSay SaysSweepLine (lines_of text.now) said →
        place < length (segments_of said)
        → IsSegmentLine (lines_of text.now) said place result }
{
    let mut number = 0;
    let mut passed = 0;
    let mut rest = Some(text);
    // Of the first `number` lines `passed` say a segment, at most `place` of them, and `rest` has the others.
    'lines: while let Some(left) = rest {
        let (line, after) = cut_line(left);
        number += 1;
        if names_segment(line) {
            if passed == place {
                return number;
            }
            passed += 1;
        }
        rest = after;
    }
    unreachable!()
}

// Whether the first word of a line is `segment`. Of lines that say something, those that say a segment do.
fn names_segment(line: &[u8]) -> bool
    ensures { (said : Option SweepLine) → LineSays SaysSweepLine line.now said → result ≡ says_segment said }
{
    match ascii_text(line) {
        Some(text) => text.split_ascii_whitespace().next() == Some("segment"),
        None => false,
    }
}

/// The words of the reply to a point.
impl LineReply for Option<i32> {
    ghost words = { height_words };

    fn push_words<A: Allocator>(&self, text: &mut String<A>) -> Result<(), AllocError> {
        match self {
            Some(y) => write!(text, "below {y}"),
            None => text.push_str("none"),
        }
    }
}
