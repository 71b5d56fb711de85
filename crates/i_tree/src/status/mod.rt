//! Statuses of a sweep line: what stands along it, in an order that holds only among what is live.

pub mod exp;
pub mod list;
pub mod tree;
