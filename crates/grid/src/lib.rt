//! Doubles as whole points of a grid, and back: by their bits, exactly.
//!
//! A double is its 64 bits here. Each finite one is a whole multiple of the least double, so that all is told in whole numbers.
#![tactic(auto)]

mod axis;
pub mod corners;
pub mod direction;
pub mod double;
pub mod fit;
mod order;
pub mod points;
pub mod position;
mod powers;
mod rounding;
mod straight;
pub mod units;

pub use direction::runs_counterclockwise;
pub use fit::FitFault;
pub use position::Position;
pub use units::{CoordinateFault, Grid};
