//! Validity: whether polygons are valid already, or what is wrong with them, and where. Nothing is rounded.
#![tactic(auto)]

mod directed;
mod fault;
mod given;
mod meeting;
mod once;
mod one_piece;
mod unchecked;
mod validity;

pub use fault::Fault;
pub use given::PolygonSet;
pub use unchecked::Unchecked;
pub use validity::first_fault;
