//! `MinkowskiFault`: why there is no Minkowski sum.

ghost use Rattle.std.specs.Prelude.{◌≡◌};
ghost use Rattle.offset.specs.declared.fault.MinkowskiFault.TheVariants.{OutOfMemory};

use i_tree::Refusal;
use std::alloc::{AllocError, AllocFailed};
use std::error::Error;
use std::fmt::{self, Display, Formatter};

/// Why there is no Minkowski sum.
#[derive(Clone, Copy, Debug, PartialEq, Eq)]
pub enum MinkowskiFault {
    /// A ring stops before it begins, or behind the points.
    Lengths,
    /// The shape isn't convex, doesn't run counterclockwise, or hasn't the origin inside.
    Shape,
    /// A corner of the curve around the sum is no point of 32 bits.
    Range,
    /// Memory was refused.
    OutOfMemory,
}

impl From<AllocError> for MinkowskiFault {
    ghost from_gives = { λ _ fault. fault ≡ OutOfMemory };

    fn from(_refused: AllocError) -> MinkowskiFault {
        MinkowskiFault::OutOfMemory
    }
}

impl<T: Drop> From<AllocFailed<T>> for MinkowskiFault {
    ghost from_gives = { λ _ fault. fault ≡ OutOfMemory };

    fn from(_refused: AllocFailed<T>) -> MinkowskiFault {
        MinkowskiFault::OutOfMemory
    }
}

/// A status that grows is refused nothing but memory.
impl From<Refusal> for MinkowskiFault {
    ghost from_gives = { λ _ fault. fault ≡ OutOfMemory };

    fn from(_refused: Refusal) -> MinkowskiFault {
        MinkowskiFault::OutOfMemory
    }
}

/// Says why, in a program's own error.
impl Display for MinkowskiFault {
    ghost use Rattle.std.specs.Prelude.{Some};
    ghost use Rattle.offset.specs.Faults.{fault_text};

    ghost output = { λ fault. Some (fault_text fault) };

    fn fmt<W: fmt::Write>(&self, f: &mut Formatter<W>) -> fmt::Result {
        match self {
            MinkowskiFault::Lengths => {
                write!(f, "a ring stops before it begins, or behind the points")
            }
            MinkowskiFault::Shape => write!(f, "the shape isn't convex around the origin"),
            MinkowskiFault::Range => write!(
                f,
                "a corner of the curve around the sum is no point of 32 bits"
            ),
            MinkowskiFault::OutOfMemory => write!(f, "memory was refused"),
        }
    }
}

impl Error for MinkowskiFault {}
