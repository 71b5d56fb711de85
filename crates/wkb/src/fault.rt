//! Why bytes are no polygons.

ghost use Rattle.std.specs.Prelude.{◌≡◌, alloc_error};
ghost use Rattle.wkb.specs.declared.fault.LayoutFault.TheVariants as layout_faults;
ghost use Rattle.wkb.specs.declared.fault.ReadFault.TheVariants as read_faults;

use std::alloc::{AllocError, AllocFailed};

/// What is wrong with the bytes.
#[derive(Clone, Copy, Debug, PartialEq, Eq)]
pub enum FaultKind {
    /// A number, or the positions of a ring, go past the end.
    Short,
    /// The byte order is neither 0 nor 1.
    ByteOrder,
    /// The type is none of those that may stand here.
    Kind,
    /// A collection is nested too deep.
    Nested,
    /// A coordinate is infinite, or not a number.
    NotFinite,
    /// A coordinate is too far from the origin of the grid.
    OffGrid,
    /// Bytes follow the geometry.
    LeftOver,
    /// An offset is below the one before it, or behind the end of the bytes.
    Offsets,
}

/// What is wrong with the bytes of one shape, and the place among them at which what is faulty begins.
#[derive(Clone, Copy, Debug, PartialEq, Eq)]
pub struct Flaw {
    pub kind: FaultKind,
    pub byte: usize,
}

/// What is wrong with the bytes of many shapes: with which shape, and the place among all bytes at which what is faulty begins.
#[derive(Clone, Copy, Debug, PartialEq, Eq)]
pub struct Fault {
    pub kind: FaultKind,
    pub shape: usize,
    pub byte: usize,
}

/// Why one shape has no rings.
#[derive(Clone, Copy, Debug, PartialEq, Eq)]
pub enum LayoutFault {
    /// Memory was refused.
    Refused(AllocError),
    /// The bytes are no shape.
    Flawed(Flaw),
}

/// Why there are no shapes.
#[derive(Clone, Copy, Debug, PartialEq, Eq)]
pub enum ReadFault {
    /// Memory was refused.
    Refused(AllocError),
    /// The bytes are no shapes.
    Faulty(Fault),
}

impl From<AllocError> for ReadFault {
    ghost from_gives = { λ _ fault. fault ≡ read_faults.Refused alloc_error };

    fn from(_refused: AllocError) -> ReadFault {
        ReadFault::Refused(AllocError)
    }
}

impl<T: Drop> From<AllocFailed<T>> for ReadFault {
    ghost from_gives = { λ _ fault. fault ≡ read_faults.Refused alloc_error };

    fn from(_refused: AllocFailed<T>) -> ReadFault {
        ReadFault::Refused(AllocError)
    }
}

impl From<AllocError> for LayoutFault {
    ghost from_gives = { λ _ fault. fault ≡ layout_faults.Refused alloc_error };

    fn from(_refused: AllocError) -> LayoutFault {
        LayoutFault::Refused(AllocError)
    }
}

impl<T: Drop> From<AllocFailed<T>> for LayoutFault {
    ghost from_gives = { λ _ fault. fault ≡ layout_faults.Refused alloc_error };

    fn from(_refused: AllocFailed<T>) -> LayoutFault {
        LayoutFault::Refused(AllocError)
    }
}
