//! `Position`: a point of the plane whose coordinates are doubles.

/// A position, by the bits of its coordinates, each a double (IEEE 754, binary64).
#[repr(C)]
#[derive(Clone, Copy, Debug, PartialEq, Eq)]
pub struct Position {
    pub x: u64,
    pub y: u64,
}
