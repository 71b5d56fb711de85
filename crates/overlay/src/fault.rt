//! `OverlayFault`: why an overlay has no answer.

ghost use Rattle.std.specs.Prelude.{◌≡◌};
ghost use Rattle.overlay.specs.declared.fault.OverlayFault.TheVariants.{Refused};
ghost use Rattle.i_tree.specs.declared.Refusal.TheVariants.{OutOfMemory};

use i_tree::Refusal;
use std::alloc::{AllocError, AllocFailed};
use std::error::Error;
use std::fmt::{self, Display, Formatter};

/// Why there are no polygons.
#[derive(Clone, Copy, Debug, PartialEq, Eq)]
pub enum OverlayFault {
    /// Memory was refused, or the status refused an edge.
    Refused(Refusal),
    /// A ring stops before it begins, or behind the points.
    Lengths,
}

impl From<Refusal> for OverlayFault {
    ghost from_gives = { λ refusal fault. fault ≡ Refused refusal };

    fn from(refusal: Refusal) -> OverlayFault {
        OverlayFault::Refused(refusal)
    }
}

impl From<AllocError> for OverlayFault {
    ghost from_gives = { λ _ fault. fault ≡ Refused OutOfMemory };

    fn from(_refused: AllocError) -> OverlayFault {
        OverlayFault::Refused(Refusal::OutOfMemory)
    }
}

impl<T: Drop> From<AllocFailed<T>> for OverlayFault {
    ghost from_gives = { λ _ fault. fault ≡ Refused OutOfMemory };

    fn from(_refused: AllocFailed<T>) -> OverlayFault {
        OverlayFault::Refused(Refusal::OutOfMemory)
    }
}

/// Says why, in a program's own error.
impl Display for OverlayFault {
    ghost use Rattle.std.specs.Prelude.{Some};
    ghost use Rattle.overlay.specs.Faults.{fault_text};

    ghost output = { λ fault. Some (fault_text fault) };

    fn fmt<W: fmt::Write>(&self, f: &mut Formatter<W>) -> fmt::Result {
        match self {
            OverlayFault::Refused(cause) => write!(f, "{}", cause),
            OverlayFault::Lengths => write!(
                f,
                "a ring stops before it begins, or behind the points"
            ),
        }
    }
}

impl Error for OverlayFault {}
