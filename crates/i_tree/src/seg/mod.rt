//! Segments: values over ranges of numbers, found by the buckets that a range is cut into.

mod chunk;
mod collect;
pub mod exp;
mod iterator;
mod layout;
mod masks;
mod nodes;
mod query;
pub mod tree;
mod walk;
