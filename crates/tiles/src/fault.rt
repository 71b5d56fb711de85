//! `CropFault`: why a ring wasn't cropped.

ghost use Rattle.std.specs.Prelude.{◌≡◌};
ghost use Rattle.tiles.specs.declared.fault.CropFault.TheVariants.{OutOfMemory};

use i_tree::Refusal;
use std::alloc::{AllocError, AllocFailed};
use std::error::Error;
use std::fmt::{self, Display, Formatter};

/// Why a ring wasn't cropped.
#[derive(Clone, Copy, Debug, PartialEq, Eq)]
pub enum CropFault {
    /// Memory was refused.
    OutOfMemory,
    /// No point lies in the window: its right side isn't to the right of its left one, or its upper side isn't above its lower one.
    Empty,
    /// A side of the window is less than 2 away from what 32 bits hold.
    Margin,
}

impl From<AllocError> for CropFault {
    ghost from_gives = { λ _ fault. fault ≡ OutOfMemory };

    fn from(_refused: AllocError) -> CropFault {
        CropFault::OutOfMemory
    }
}

impl<T: Drop> From<AllocFailed<T>> for CropFault {
    ghost from_gives = { λ _ fault. fault ≡ OutOfMemory };

    fn from(_refused: AllocFailed<T>) -> CropFault {
        CropFault::OutOfMemory
    }
}

/// A status that grows is refused nothing but memory.
impl From<Refusal> for CropFault {
    ghost from_gives = { λ _ fault. fault ≡ OutOfMemory };

    fn from(_refused: Refusal) -> CropFault {
        CropFault::OutOfMemory
    }
}

/// Says why, in a program's own error.
impl Display for CropFault {
    fn fmt<W: fmt::Write>(&self, f: &mut Formatter<W>) -> fmt::Result {
        match self {
            CropFault::OutOfMemory => write!(f, "memory was refused"),
            CropFault::Empty => write!(f, "no point lies in the window"),
            CropFault::Margin => write!(
                f,
                "a side of the window is less than 2 away from what 32 bits hold"
            ),
        }
    }
}

impl Error for CropFault {}
