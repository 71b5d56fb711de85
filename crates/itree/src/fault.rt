//! Why the program ends without replies.

ghost use Rattle.std.specs.Prelude.{◌≡◌};
ghost use Rattle.itree.specs.declared.fault.Fault.TheVariants.{Memory, Reading};

use i_tree::{Refusal, Refused};
use std::alloc::{AllocError, AllocFailed};
use std::io;

pub mod arguments;
pub mod tell;
pub mod wanted;
pub mod words;

/// Why sound lines of what grows or shrinks have no answer.
#[derive(Clone, Copy, Debug, PartialEq, Eq)]
pub enum Unfit {
    /// The shape isn't convex around the origin, counterclockwise.
    Shape,
    /// A corner of what is made isn't a point whose coordinates have 32 bits.
    Range,
}

/// Why the program ends without replies.
#[derive(Clone, Copy, Debug)]
pub enum Fault {
    /// The arguments name no mode.
    Arguments,
    /// This line is faulty, counted from 1. No line before it is.
    Line(usize),
    /// This line, counted from 1, says the segment of a sweep that is the first to overlap one before it, in the order of
    /// where they begin.
    Overlap(usize),
    /// These two lines, counted from 1 and the first above the second, say edges that cross.
    Cross(usize, usize),
    /// What grows or shrinks has no answer, and this is why.
    Unfit(Unfit),
    /// Memory was refused.
    Memory,
    /// Reading failed, and this is why. It may be that memory was refused.
    Reading(io::Error),
    /// Writing failed, and this is why.
    Writing(io::Error),
}

impl Fault {
    ghost use Rattle.itree.specs.Faults.{status_of};

    /// What the process ends with.
    pub fn status(self) -> u8
        ensures { result ≡ status_of self }
    {
        match self {
            Fault::Arguments | Fault::Line(_) | Fault::Overlap(_) | Fault::Cross(_, _) => 2,
            Fault::Unfit(_) => 2,
            Fault::Memory | Fault::Reading(_) | Fault::Writing(_) => 1,
        }
    }
}

impl From<AllocError> for Fault {
    ghost from_gives = { λ _ fault. fault ≡ Memory };

    fn from(_refused: AllocError) -> Fault {
        Fault::Memory
    }
}

impl<T: Drop> From<AllocFailed<T>> for Fault {
    ghost from_gives = { λ _ fault. fault ≡ Memory };

    fn from(_refused: AllocFailed<T>) -> Fault {
        Fault::Memory
    }
}

impl From<Refusal> for Fault {
    ghost from_gives = { λ _ fault. fault ≡ Memory };

    fn from(_refused: Refusal) -> Fault {
        Fault::Memory
    }
}

impl<T: Drop> From<Refused<T>> for Fault {
    ghost from_gives = { λ _ fault. fault ≡ Memory };

    fn from(_refused: Refused<T>) -> Fault {
        Fault::Memory
    }
}

impl From<io::Error> for Fault {
    ghost from_gives = { λ error fault. fault ≡ Reading error };

    fn from(error: io::Error) -> Fault {
        Fault::Reading(error)
    }
}
