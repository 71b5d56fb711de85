//! The help that the program prints.

ghost use Rattle.std.specs.Prelude.{◌↔◌, IsTrue};
ghost use Rattle.itree.specs.Modes.{MeansHelp, AsksForHelp};

/// Each mode with its lines and their replies, and the statuses. Behind each form of a line stand the forms of its reply.
pub const HELP: &str = "\
The program itree reads lines of text, and answers them by the containers of a sweep line.

usage: itree MODE < LINES    reads all lines first, then prints the replies, each on its own line

itree keytree, itree keylist: keys that expire, in a tree or in a sorted list. A key is live up to
its expiration. less gives the value of the greatest live key below KEY, and leq of the greatest at
most KEY; where there is none, it is DEFAULT. present: KEY is live already. late: TIME is before
that of an earlier line, and no clear came since.
  insert KEY EXPIRATION VALUE TIME     inserted | present | late | refused
  less TIME DEFAULT KEY                value VALUE | late
  leq TIME DEFAULT KEY                 value VALUE | late
  clear                                cleared

itree settree, itree setlist: a set of keys, in a tree or in a sorted list. find gives the greatest
key at most KEY, and before the greatest below KEY, which is absent where the set doesn't have it.
  insert KEY                           inserted | present | refused
  delete KEY                           deleted | absent
  find KEY                             key FOUND | none
  before KEY                           key FOUND | none | absent

itree seg MIN MAX: values over ranges from FIRST to LAST, within MIN to MAX, which are at least 31
apart. query gives the live values whose ranges meet its own, rising, and some that lie near.
outside: the range isn't within MIN to MAX, or goes down.
  insert FIRST LAST EXPIRATION VALUE   inserted | outside | refused
  query FIRST LAST TIME                values VALUE .. | outside | late | refused
  clear                                cleared

itree sweep: for each point the greatest height, at most its own, of the segments that cover its X.
  segment X0 X1 Y
  point X Y                            below HEIGHT | none

itree meetings: for each edge between two points of the plane the lines of the earlier edges that
share a point with it, rising. An edge has both its ends, and may be a point.
  edge X0 Y0 X1 Y1                     meets LINE ..

itree locate: for each point the line of the edge straight below it, at its own height at most. An
edge covers the X from its lesser end up to its greater, which it doesn't cover. No two may cross.
  edge X0 Y0 X1 Y1
  point X Y                            edge LINE | none

itree crossings: for each edge the lines of the earlier edges that cross it, going from below it to
above it or back; for each range the lines of the edges that at the column X are from LOW to HIGH
high, rising. An edge covers the X as above. An upright edge or a point crosses and reaches nothing.
  edge X0 Y0 X1 Y1                     crosses LINE ..
  range X LOW HIGH                     reached LINE ..

itree snap: for each edge between two points of the plane the points of the grid over which it goes
where edges are broken where they meet, from its beginning to its end. No two then cross.
  edge X0 Y0 X1 Y1                     chain X Y ..

itree node: as itree snap, but an edge is moved only where it comes near to where two edges cross at
a point with fractions, or near to what such an edge passes. Any other is broken at what lies on it.
  edge X0 Y0 X1 Y1                     chain X Y ..

itree overlay OPERATION RULE, itree overlay OPERATION RULE --window X0 Y0 X1 Y1: polygons of what
OPERATION, union, intersection, difference or xor, makes of the inside of the subject and that of
the clip, by RULE, evenodd, nonzero, positive or negative; or what of these lies in a window, from
X0 to X1 and from Y0 to Y1. Each line is a ring. A polygon has a line, polygon X Y .., its outer
ring, and behind it one for each of its holes, hole X Y .., which run clockwise. Options do as
well, in any order: --operation OPERATION, union where it isn't there, --rule RULE, nonzero where
it isn't there, and --window.
  subject X Y ..
  clip X Y ..

itree offset grow RULE, itree offset shrink RULE: polygons of what the inside of the subject, by RULE,
becomes where it grows by a shape: all points that one of it and one of the shape add up to; or of
what is left where it shrinks: the points from which all of the shape lies inside. The shape is a
convex polygon, counterclockwise, with the origin inside, whose corners the lines of its own have,
one line after another. The polygons have lines as those of overlay.
  subject X Y ..
  shape X Y ..

itree offset lines: the same of paths that grow by a shape. Each line is a path, from each point to
the next.
  line X Y ..
  shape X Y ..

itree help, itree --help, itree -h: this text
itree --version, itree -V: the version, as itree NUMBER.NUMBER.NUMBER

Numbers are whole, from -2147483648 to 2147483647. A line without words counts, and has no reply.
refused: there is no memory. The status is 0 where all is answered, 1 where memory, reading or
writing failed, and 2 where nothing is answered. At 1 and 2 standard error has one of these lines:
  itree: arguments: ..                 they are none of those above: which one, and what is wanted
  itree: line N: column C: ..          line N is the first that is no line of the mode: which word
  itree: overlap N                     the segment of line N overlaps another at one height
  itree: cross N M                     the edges of lines N and M cross
  itree: shape: ..                     its corners make no such polygon as is wanted
  itree: range: ..                     a corner of what is made is no point of such numbers
  itree: memory was refused
  itree: reading failed: ..            why, as the system says
  itree: writing failed: ..            why, as the system says
There are examples in docs/COMMANDS.md.
";

/// Whether the arguments ask for help.
pub fn asks_for_help(words: &[&str]) -> bool
    ensures { IsTrue result ↔ AsksForHelp words.now }
{
    match words {
        [word] => is_help(word),
        _ => false,
    }
}

// Whether the word asks for help.
fn is_help(word: &str) -> bool
    ensures { IsTrue result ↔ MeansHelp word.now }
{
    word == "help" || word == "--help" || word == "-h"
}
