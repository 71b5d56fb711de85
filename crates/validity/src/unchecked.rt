//! `Unchecked`: why it isn't told whether polygons are valid.

ghost use Rattle.std.specs.Prelude.{◌≡◌};
ghost use Rattle.validity.specs.declared.unchecked.Unchecked.TheVariants.{OutOfMemory};

use i_tree::Refusal;
use std::alloc::{AllocError, AllocFailed};
use std::error::Error;
use std::fmt::{self, Display, Formatter};

/// Why it isn't told whether polygons are valid.
#[derive(Clone, Copy, Debug, PartialEq, Eq)]
pub enum Unchecked {
    /// A ring or a polygon stops before it begins, or a ring is of no polygon, or rings stop behind the points.
    Lengths,
    /// Memory was refused.
    OutOfMemory,
}

impl From<Refusal> for Unchecked {
    ghost from_gives = { λ _ cause. cause ≡ OutOfMemory };

    fn from(_refused: Refusal) -> Unchecked {
        Unchecked::OutOfMemory
    }
}

impl From<AllocError> for Unchecked {
    ghost from_gives = { λ _ cause. cause ≡ OutOfMemory };

    fn from(_refused: AllocError) -> Unchecked {
        Unchecked::OutOfMemory
    }
}

impl<T: Drop> From<AllocFailed<T>> for Unchecked {
    ghost from_gives = { λ _ cause. cause ≡ OutOfMemory };

    fn from(_refused: AllocFailed<T>) -> Unchecked {
        Unchecked::OutOfMemory
    }
}

/// Says why, in a program's own error.
impl Display for Unchecked {
    ghost use Rattle.std.specs.Prelude.{Some};
    ghost use Rattle.validity.specs.Validity.{error_text};

    ghost output = { λ cause. Some (error_text cause) };

    fn fmt<W: fmt::Write>(&self, f: &mut Formatter<W>) -> fmt::Result {
        match self {
            Unchecked::Lengths => write!(f, "rings or polygons don't stop where they can"),
            Unchecked::OutOfMemory => write!(f, "memory was refused"),
        }
    }
}

impl Error for Unchecked {}
