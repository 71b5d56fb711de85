//! Complete small programs over `i_tree`, as its users write them: each is proved; tests stand in `uses_tests`. A loop in
//! `tickets` and one in `own_descent` have an invariant in a proof file. `kept_booking`, `sessions` and `broken_roads` have a
//! file for what they promise, and `free_of_masks` and `clipped_roads` have both, and lemmas. `points_in_rectangles` has two
//! files, for its test and for the condition of a call, and `parcels` has some for a loop and for such a condition. The others
//! need none.
#![tactic(auto)]

pub mod broken_roads;
pub mod clipped_roads;
pub mod coverage;
pub mod crossing_candidates;
pub mod dry_land;
pub mod free_of_masks;
pub mod inside_polygon;
pub mod kept_booking;
pub mod kept_handles;
pub mod leases;
pub mod level_below;
pub mod own_descent;
pub mod own_error;
pub mod parcels;
pub mod points_in_rectangles;
pub mod polygon_crossings;
pub mod ring_crossings;
pub mod seen_below;
pub mod sessions;
pub mod sloped_status;
pub mod sweep_events;
pub mod tickets;
