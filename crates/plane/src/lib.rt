//! Edges of the plane, which are straight lines between two whole points: which of them meet, which cross, and which lies
//! straight below a point, exactly.
//!
//! The candidates come from the containers of `i_tree`, and each is tested in whole numbers. Nothing is rounded.
#![tactic(auto)]

pub mod columns;
pub mod edge;
pub mod locate;
pub mod meet;
pub mod pairs;
pub mod point;
pub mod sample;
pub mod sweep_line;
pub mod vectors;
