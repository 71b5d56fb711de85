//! `LayerFault`: why a call over layers has no answer.

ghost use Rattle.std.specs.Prelude.{◌≡◌};
ghost use Rattle.layers.specs.declared.fault.LayerFault.TheVariants.{Refused};
ghost use Rattle.i_tree.specs.declared.Refusal.TheVariants.{OutOfMemory};

use i_tree::Refusal;
use std::alloc::{AllocError, AllocFailed};
use std::error::Error;
use std::fmt::{self, Display, Formatter};

/// Why there is no answer.
#[derive(Clone, Copy, Debug, PartialEq, Eq)]
pub enum LayerFault {
    /// Memory was refused, or the status refused an edge.
    Refused(Refusal),
    /// A ring, a shape, a line or a group stops before it begins, or behind the last of what it is made of; or there are not as
    /// many groups on both sides.
    Lengths,
    /// A group names the place of a shape that there isn't.
    NoShape,
}

impl From<Refusal> for LayerFault {
    ghost from_gives = { λ refusal fault. fault ≡ Refused refusal };

    fn from(refusal: Refusal) -> LayerFault {
        LayerFault::Refused(refusal)
    }
}

impl From<AllocError> for LayerFault {
    ghost from_gives = { λ _ fault. fault ≡ Refused OutOfMemory };

    fn from(_refused: AllocError) -> LayerFault {
        LayerFault::Refused(Refusal::OutOfMemory)
    }
}

impl<T: Drop> From<AllocFailed<T>> for LayerFault {
    ghost from_gives = { λ _ fault. fault ≡ Refused OutOfMemory };

    fn from(_refused: AllocFailed<T>) -> LayerFault {
        LayerFault::Refused(Refusal::OutOfMemory)
    }
}

/// Says why, in a program's own error.
impl Display for LayerFault {
    ghost use Rattle.std.specs.Prelude.{Some};
    ghost use Rattle.layers.specs.Faults.{fault_text};

    ghost output = { λ fault. Some (fault_text fault) };

    fn fmt<W: fmt::Write>(&self, f: &mut Formatter<W>) -> fmt::Result {
        match self {
            LayerFault::Refused(cause) => write!(f, "{}", cause),
            LayerFault::Lengths => write!(
                f,
                "a ring, a shape, a line or a group stops where it can't"
            ),
            LayerFault::NoShape => write!(f, "a group names a shape that there isn't"),
        }
    }
}

impl Error for LayerFault {}
