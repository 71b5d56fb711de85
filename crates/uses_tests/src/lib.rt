//! For tests alone: the small programs of `uses`, each on inputs whose answers are known.
#![tactic(auto)]

#[cfg(test)]
mod broken_roads;
#[cfg(test)]
mod clipped_roads;
#[cfg(test)]
mod coverage;
#[cfg(test)]
mod crossing_candidates;
#[cfg(test)]
mod free_of_masks;
#[cfg(test)]
mod inside_polygon;
#[cfg(test)]
mod kept_booking;
#[cfg(test)]
mod kept_handles;
#[cfg(test)]
mod leases;
#[cfg(test)]
mod level_below;
#[cfg(test)]
mod own_descent;
#[cfg(test)]
mod own_error;
#[cfg(test)]
mod parcels;
#[cfg(test)]
mod points_in_rectangles;
#[cfg(test)]
mod polygon_crossings;
#[cfg(test)]
mod ring_crossings;
#[cfg(test)]
mod seen_below;
#[cfg(test)]
mod sloped_status;
#[cfg(test)]
mod sweep_events;
#[cfg(test)]
mod tickets;
