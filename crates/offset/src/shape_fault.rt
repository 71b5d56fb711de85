//! `ShapeFault`: why there is no such shape.

ghost use Rattle.std.specs.Prelude.{◌≡◌};
ghost use Rattle.offset.specs.declared.shape_fault.ShapeFault.TheVariants.{OutOfMemory};

use std::alloc::{AllocError, AllocFailed};
use std::error::Error;
use std::fmt::{self, Display, Formatter};

/// Why there is no such shape.
#[derive(Clone, Copy, Debug, PartialEq, Eq)]
pub enum ShapeFault {
    /// The radius is below 1, or too small for so many corners.
    Radius,
    /// It may have fewer corners than 4.
    Corners,
    /// The tolerance is below 1.
    Tolerance,
    /// Memory was refused.
    OutOfMemory,
}

impl From<AllocError> for ShapeFault {
    ghost from_gives = { λ _ fault. fault ≡ OutOfMemory };

    fn from(_refused: AllocError) -> ShapeFault {
        ShapeFault::OutOfMemory
    }
}

impl<T: Drop> From<AllocFailed<T>> for ShapeFault {
    ghost from_gives = { λ _ fault. fault ≡ OutOfMemory };

    fn from(_refused: AllocFailed<T>) -> ShapeFault {
        ShapeFault::OutOfMemory
    }
}

/// Says why, in a program's own error.
impl Display for ShapeFault {
    ghost use Rattle.std.specs.Prelude.{Some};
    ghost use Rattle.offset.specs.CircleFaults.{shape_fault_text};

    ghost output = { λ fault. Some (shape_fault_text fault) };

    fn fmt<W: fmt::Write>(&self, f: &mut Formatter<W>) -> fmt::Result {
        match self {
            ShapeFault::Radius => write!(f, "the radius is too small"),
            ShapeFault::Corners => write!(f, "the shape may have fewer corners than 4"),
            ShapeFault::Tolerance => write!(f, "the tolerance is below 1"),
            ShapeFault::OutOfMemory => write!(f, "memory was refused"),
        }
    }
}

impl Error for ShapeFault {}
