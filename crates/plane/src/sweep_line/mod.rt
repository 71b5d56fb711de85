//! What a sweep over sloped edges stands on, whatever it asks: edges that are turned rightwards, their heights compared at an
//! x, the order along the line of the sweep, how an edge joins it, and whether two edges cross.
//!
//! All is told in whole numbers, and nothing is rounded.

pub use active::ActiveEdge;
pub use crossing::cross;
pub use growing::GrowingStatus;
pub use insertion::insert_beginning;

pub mod active;
pub mod crossing;
pub mod growing;
pub mod heights;
pub mod insertion;
