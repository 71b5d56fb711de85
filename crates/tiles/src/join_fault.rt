//! `JoinFault`: why tiles weren't joined.

ghost use Rattle.std.specs.Prelude.{◌≡◌};
ghost use Rattle.tiles.specs.declared.join_fault.JoinFault.TheVariants.{OutOfMemory};

use std::alloc::{AllocError, AllocFailed};
use std::error::Error;
use std::fmt::{self, Display, Formatter};

/// Why the polygons of windows weren't joined, or why it wasn't told which window they make up.
#[derive(Clone, Copy, Debug, PartialEq, Eq)]
pub enum JoinFault {
    /// A ring, a polygon or the polygons of a window stop before they begin, or there are more or fewer than stop somewhere.
    Lengths,
    /// A window has no points: its right side isn't to the right of its left one, or its upper side isn't above its lower one.
    Empty,
    /// Two windows have a common point.
    Overlap,
    /// A point of a polygon lies neither in its window nor on its sides.
    Outside,
    /// The polygons that come to a border wind around some point other than once or not at all.
    Covered,
    /// Memory was refused.
    OutOfMemory,
}

impl From<AllocError> for JoinFault {
    ghost from_gives = { λ _ fault. fault ≡ OutOfMemory };

    fn from(_refused: AllocError) -> JoinFault {
        JoinFault::OutOfMemory
    }
}

impl<T: Drop> From<AllocFailed<T>> for JoinFault {
    ghost from_gives = { λ _ fault. fault ≡ OutOfMemory };

    fn from(_refused: AllocFailed<T>) -> JoinFault {
        JoinFault::OutOfMemory
    }
}

/// Says why, in a program's own error.
impl Display for JoinFault {
    ghost use Rattle.std.specs.Prelude.{Some};
    ghost use Rattle.tiles.specs.Join.{fault_text};

    ghost output = { λ fault. Some (fault_text fault) };

    fn fmt<W: fmt::Write>(&self, f: &mut Formatter<W>) -> fmt::Result {
        match self {
            JoinFault::Lengths => write!(f, "rings, polygons or windows don't stop where they can"),
            JoinFault::Empty => write!(f, "no point lies in a window"),
            JoinFault::Overlap => write!(f, "two windows have a common point"),
            JoinFault::Outside => write!(f, "a polygon leaves its window"),
            JoinFault::Covered => write!(
                f,
                "polygons at a border don't cover each point once or not at all"
            ),
            JoinFault::OutOfMemory => write!(f, "memory was refused"),
        }
    }
}

impl Error for JoinFault {}
