//! Calls from C, and so from each language that calls C: a static library over `horizontal`, `plane`, `noding`, `overlay`,
//! `monotone_chains`, `grid`, `wkb`, `layers`, `tiles`, `validity` and `offset`.
//!
//! Each function takes slices, which are a pointer and a length in C, writes its answers into slices of its caller's,
//! and answers a status. An answer whose size isn't known before goes out as a handle, which the caller gives back.
//! Memory comes from the process's `malloc`, and all of it but what a handle owns has been given back when a call
//! returns.
#![tactic(auto)]

pub mod chains;
pub mod choices;
pub mod circles;
pub mod cropped;
pub mod faults;
pub mod grids;
pub mod grown;
pub mod grown_joined;
pub mod grown_lines;
pub mod handle;
pub mod heights;
pub mod joined;
pub mod kinds;
pub mod layers_each;
pub mod layers_lines;
pub mod layers_pairs;
pub mod layers_parents;
pub mod meetings;
pub mod noded;
pub mod offsets;
pub mod overlaid;
pub mod pairs;
pub mod places;
pub mod polygon_lists;
pub mod raw;
pub mod shapes;
pub mod shapes_read;
pub mod shapes_written;
pub mod shrunk;
pub mod snapped;
pub mod status;
pub mod tiled;
pub mod whole;
