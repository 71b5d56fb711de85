//! What is wanted where a word is faulty.

ghost use Rattle.std.specs.Prelude.{◌≡◌};
ghost use Rattle.itree.specs.Faults.{wanted_text};

/// What is wanted in the place of a word, or behind it.
#[derive(Clone, Copy, Debug)]
pub enum Wanted {
    /// A word that begins a line of keys that expire.
    OfKeys,
    /// A word that begins a line of a set.
    OfSets,
    /// A word that begins a line of segments over a range.
    OfSegments,
    /// A word that begins a line of a sweep.
    OfSweep,
    /// The word that begins a line of edges.
    OfEdges,
    /// A word that begins a line of edges and points.
    OfLocate,
    /// A word that begins a line of edges and ranges.
    OfCrossings,
    /// A word that begins a line of rings.
    OfRings,
    /// A word that begins a line of rings that grow or shrink.
    OfGrowth,
    /// A word that begins a line of paths that grow.
    OfPaths,
    /// A number.
    Number,
    /// One more number, behind the word.
    OneMore,
    /// The line's end.
    NoMore,
    /// A mode.
    Mode,
    /// A greater end of a range.
    Greater,
    /// A side of a window.
    Side,
    /// A right side of a window that is greater than its left one, or an upper than its lower.
    Above,
    /// The sides of a window, behind the word.
    SidesBehind,
    /// An operation of an overlay.
    Operation,
    /// An operation of an overlay, behind the word.
    OperationBehind,
    /// The rule of an overlay.
    Rule,
    /// The rule of an overlay, behind the word.
    RuleBehind,
    /// An option of an overlay.
    Choice,
    /// Whether polygons grow or shrink, or lines grow.
    Growth,
    /// The same, behind the word.
    GrowthBehind,
}

impl Wanted {
    /// What is wanted, in words.
    pub fn text(self) -> &'static str
        ensures { result.now ≡ wanted_text self }
    {
        match self {
            Wanted::OfKeys => "insert, less, leq or clear is wanted",
            Wanted::OfSets => "insert, delete, find or before is wanted",
            Wanted::OfSegments => "insert, query or clear is wanted",
            Wanted::OfSweep => "segment or point is wanted",
            Wanted::OfEdges => "edge is wanted",
            Wanted::OfLocate => "edge or point is wanted",
            Wanted::OfCrossings => "edge or range is wanted",
            Wanted::OfRings => "subject or clip is wanted",
            Wanted::OfGrowth => "subject or shape is wanted",
            Wanted::OfPaths => "line or shape is wanted",
            Wanted::Number => "a whole number from -2147483648 to 2147483647 is wanted",
            Wanted::OneMore => "one more number is wanted behind it",
            Wanted::NoMore => "no further word is wanted",
            Wanted::Mode => "a mode is wanted; itree help lists them",
            Wanted::Greater => "a number that is at least 31 more than the one before is wanted",
            Wanted::Side => "a whole number from -2147483646 to 2147483645 is wanted",
            Wanted::Above => "a number that is greater than the one two words before is wanted",
            Wanted::SidesBehind => "four numbers, X0 Y0 X1 Y1, are wanted behind it",
            Wanted::Operation => "union, intersection, difference or xor is wanted",
            Wanted::OperationBehind => {
                "union, intersection, difference or xor is wanted behind it"
            }
            Wanted::Rule => "evenodd, nonzero, positive or negative is wanted",
            Wanted::RuleBehind => "evenodd, nonzero, positive or negative is wanted behind it",
            Wanted::Choice => "--operation, --rule or --window is wanted",
            Wanted::Growth => "grow, shrink or lines is wanted",
            Wanted::GrowthBehind => "grow, shrink or lines is wanted behind it",
        }
    }
}
