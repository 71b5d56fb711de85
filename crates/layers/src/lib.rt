//! Layers: many shapes in one call. Overlays of pairs and of groups, points in shapes, lines that are clipped, and which polygon
//! lies in a hole of which.
#![tactic(auto)]

mod append;
mod around;
pub mod boxes;
pub mod each;
pub mod fault;
mod gathered;
pub mod lines;
pub mod parents;
pub mod points;
mod shape_box;
pub mod shapes;

pub use boxes::box_pairs;
pub use each::overlay_each;
pub use fault::LayerFault;
pub use lines::{Keep, Lines, Pieces, clip_lines};
pub use overlay::fill::{FillRule, Operation};
pub use overlay::{Polygons, Rings};
pub use plane::point::Point;
pub use points::{Border, points_in};
pub use shapes::{GroupedShapes, Groups, Shapes};
