//! What sweeps by whole columns find of edges, in n log n whatever their shape: which cross, which points they pass, and their
//! stops.

pub mod crossings;
pub mod ends;
pub mod hot_points;
pub mod passing;
pub mod rounds;
pub mod stops;
