//! Which points are inside, by their winding numbers: fill rules, and the operations on two sets of points.

ghost use Rattle.std.specs.Prelude.{◌≡◌};
ghost use Rattle.overlay.specs.Fill.Rules.{is_inside, operate};

/// Which winding numbers are those of points inside.
#[derive(Clone, Copy, Debug, PartialEq, Eq)]
pub enum FillRule {
    /// The odd ones.
    EvenOdd,
    /// All but 0.
    NonZero,
    /// Those above 0.
    Positive,
    /// Those below 0.
    Negative,
}

/// What becomes of two sets of points, the subject and the clip.
#[derive(Clone, Copy, Debug, PartialEq, Eq)]
pub enum Operation {
    /// The points of either.
    Union,
    /// The points of both.
    Intersection,
    /// The points of the subject that aren't of the clip.
    Difference,
    /// The points of just one of the two.
    Xor,
}

/// Which points are of a result: the rule says which are inside of the subject and of the clip, the operation what becomes of
/// the two.
#[derive(Clone, Copy, Debug, PartialEq, Eq)]
pub struct Choice {
    pub rule: FillRule,
    pub operation: Operation,
}

impl FillRule {
    /// Whether points with this winding number are inside.
    pub fn is_inside(self, winding: i64) -> bool
        ensures { result ≡ is_inside self winding }
    {
        match self {
            FillRule::EvenOdd => winding.rem_euclid(2) == 1,
            FillRule::NonZero => winding != 0,
            FillRule::Positive => 0 < winding,
            FillRule::Negative => winding < 0,
        }
    }
}

impl Operation {
    /// Whether a point is of the result that is of the subject or not, and of the clip or not.
    pub fn operate(self, subject: bool, clip: bool) -> bool
        ensures { result ≡ operate self subject clip }
    {
        match self {
            Operation::Union => subject || clip,
            Operation::Intersection => subject && clip,
            Operation::Difference => subject && !clip,
            Operation::Xor => subject != clip,
        }
    }
}
