//! `TileFault`: why there is no tile.

ghost use Rattle.std.specs.Prelude.{◌≡◌};
ghost use Rattle.tiles.specs.Tile.{tile_fault};

use crate::fault::CropFault;
use std::error::Error;
use std::fmt::{self, Display, Formatter};

/// Why there is no overlay within a window.
#[derive(Clone, Copy, Debug, PartialEq, Eq)]
pub enum TileFault {
    /// A ring stops before it begins, or behind the points.
    Lengths,
    /// No point lies in the window: its right side isn't to the right of its left one, or its upper side isn't above its lower one.
    Empty,
    /// A side of the window is less than 2 away from what 32 bits hold.
    Margin,
    /// Memory was refused.
    OutOfMemory,
}

impl From<CropFault> for TileFault {
    ghost from_gives = { λ cause fault. fault ≡ tile_fault cause };

    fn from(cause: CropFault) -> TileFault {
        match cause {
            CropFault::Empty => TileFault::Empty,
            CropFault::Margin => TileFault::Margin,
            CropFault::OutOfMemory => TileFault::OutOfMemory,
        }
    }
}

/// Says why, in a program's own error.
impl Display for TileFault {
    ghost use Rattle.std.specs.Prelude.{Some};
    ghost use Rattle.tiles.specs.Tile.{fault_text};

    ghost output = { λ fault. Some (fault_text fault) };

    fn fmt<W: fmt::Write>(&self, f: &mut Formatter<W>) -> fmt::Result {
        match self {
            TileFault::Lengths => write!(f, "a ring stops before it begins, or behind the points"),
            TileFault::Empty => write!(f, "no point lies in the window"),
            TileFault::Margin => write!(
                f,
                "a side of the window is less than 2 away from what 32 bits hold"
            ),
            TileFault::OutOfMemory => write!(f, "memory was refused"),
        }
    }
}

impl Error for TileFault {}
