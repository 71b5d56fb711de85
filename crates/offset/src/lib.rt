//! Polygons that grow and shrink: the Minkowski sum of polygons and a convex polygon around the origin, and what is left of them
//! where this is taken along outside. Corners may be mitred or bevelled. Lines that grow, too.
#![tactic(auto)]

mod angular;
mod chained;
mod circles;
mod cuts;
mod erosion;
mod fault;
mod joined;
mod joins;
mod lines;
mod mitres;
mod raw;
mod shape;
mod shape_fault;
mod sum;

pub use angular::{octagon, square};
pub use circles::{RoundShape, circle, circle_within};
pub use erosion::erode;
pub use fault::MinkowskiFault;
pub use joined::minkowski_joined;
pub use joins::Join;
pub use lines::grow_lines;
pub use shape::is_convex_around_origin;
pub use shape_fault::ShapeFault;
pub use sum::minkowski;
