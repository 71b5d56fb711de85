//! Overlay of polygons: the union, intersection, difference or xor of two sets of rings, as polygons with holes.
//!
//! Rings are points on a grid of whole numbers, and may cross, touch and overlap as they like. The result is told for every
//! point of the plane. All is told in whole numbers, and what is rounded is rounded exactly: where no two edges cross at a point
//! with fractions, nothing is.
#![tactic(auto)]

pub mod areas;
pub mod boundary;
pub mod call;
pub mod contours;
pub mod fault;
pub mod fill;
pub mod grouping;
pub mod rings;

pub use call::{overlay, overlay_by, overlay_over, simplify};
pub use fault::OverlayFault;
pub use fill::{FillRule, Operation};
pub use plane::point::Point;
pub use rings::{Polygons, Rings};
