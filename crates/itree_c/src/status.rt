//! What an exported call answers: whether it has written its answers, and else why not.

/// The answers are written.
pub const ANSWERED: i32 = 0;

/// Memory was refused.
pub const REFUSED: i32 = 1;

/// The input overlaps: the call tells where.
pub const OVERLAP: i32 = 2;

/// The lengths of two slices don't fit each other.
pub const LENGTHS: i32 = 3;

/// A rule or an operation isn't one of their numbers. `itree.h` has 4 for a faulty pointer, which no call here answers.
pub const CHOICE: i32 = 5;

/// Two edges cross: the call tells which.
pub const CROSSING: i32 = 6;

/// Two edges meet: the call tells which.
pub const MEETING: i32 = 7;

/// What was given can't be taken: the call tells where.
pub const FAULTY: i32 = 8;

/// No point lies in a window, it comes too near to the ends of 32 bits, or two windows overlap. `itree.h` has 9 for a call that was
/// stopped, which no call here answers.
pub const WINDOW: i32 = 10;

/// Tiles don't fit: a polygon leaves its window, or polygons at borders overlap.
pub const UNFIT: i32 = 11;

/// A shape by which polygons grow isn't convex around the origin.
pub const SHAPE: i32 = 12;

/// A corner of the curve around polygons that have grown is no point of 32 bits.
pub const RANGE: i32 = 13;

// `itree.h` has these numbers.
const _: () = prove!(
    ANSWERED == 0
        && REFUSED == 1
        && OVERLAP == 2
        && LENGTHS == 3
        && CHOICE == 5
        && CROSSING == 6
        && MEETING == 7
        && FAULTY == 8
        && WINDOW == 10
        && UNFIT == 11
        && SHAPE == 12
        && RANGE == 13
);
