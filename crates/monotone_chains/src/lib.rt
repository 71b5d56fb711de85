//! The overlay of polygons by monotone chains: the same answers as `overlay`, by the same clauses, sooner where rings are long.
//!
//! Along a monotone chain x rises, or it falls. Where no other edges come to one, its chord, from its first point to its last,
//! stands for all of its edges, and in the rings that come out its points stand in place of the chord. The crate `overlay` can do
//! without this one.
#![tactic(auto)]

mod boundary;
pub mod call;
mod stretched;
mod stretches;

pub use call::{overlay, overlay_over, simplify};
