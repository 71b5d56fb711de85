//! `LocateFault`: why `locate` has no answers.

ghost use Rattle.std.specs.Prelude.{◌≡◌};
ghost use Rattle.plane.specs.declared.locate.fault.LocateFault.TheVariants.{Refused};
ghost use Rattle.i_tree.specs.declared.Refusal.TheVariants.{OutOfMemory};

use i_tree::Refusal;
use std::alloc::{AllocError, AllocFailed};
use std::error::Error;
use std::fmt::{self, Display, Formatter};

/// Why there are no answers.
#[derive(Clone, Copy, Debug, PartialEq, Eq)]
pub enum LocateFault {
    /// Memory was refused, or the status refused an edge.
    Refused(Refusal),
    /// The edges at these two places cross, of which the first is the lesser.
    Cross(usize, usize),
}

impl From<Refusal> for LocateFault {
    ghost from_gives = { λ refusal fault. fault ≡ Refused refusal };

    fn from(refusal: Refusal) -> LocateFault {
        LocateFault::Refused(refusal)
    }
}

impl From<AllocError> for LocateFault {
    ghost from_gives = { λ _ fault. fault ≡ Refused OutOfMemory };

    fn from(_refused: AllocError) -> LocateFault {
        LocateFault::Refused(Refusal::OutOfMemory)
    }
}

impl<T: Drop> From<AllocFailed<T>> for LocateFault {
    ghost from_gives = { λ _ fault. fault ≡ Refused OutOfMemory };

    fn from(_refused: AllocFailed<T>) -> LocateFault {
        LocateFault::Refused(Refusal::OutOfMemory)
    }
}

/// Says why, in a program's own error: the refusal's own text, or the two places among the edges, counted from 0.
impl Display for LocateFault {
    fn fmt<W: fmt::Write>(&self, f: &mut Formatter<W>) -> fmt::Result {
        match self {
            LocateFault::Refused(cause) => write!(f, "{}", cause),
            LocateFault::Cross(place, later) => {
                write!(f, "the edges at places {} and {} cross", place, later)
            }
        }
    }
}

impl Error for LocateFault {}
