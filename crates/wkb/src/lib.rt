//! Polygons in well-known binary, read and written.
//!
//! The format is ISO's and PostGIS's (EWKB), each geometry in either byte order. Numbers beyond x and y are skipped.
#![tactic(auto)]

pub mod again;
mod coordinates;
pub mod corners;
pub mod fault;
pub mod header;
mod number;
pub mod points_written;
pub mod reading;
pub mod ring_points;
pub mod shape;
pub mod srid;
pub mod structure;
pub mod writing;

pub use coordinates::append_positions;
pub use corners::corners_of;
pub use fault::{Fault, FaultKind, Flaw, LayoutFault, ReadFault};
pub use points_written::{PolygonPoints, write};
pub use reading::{Shapes, read};
pub use srid::srid_of;
pub use structure::{RingAt, layout};
pub use writing::{Form, are_ends};
