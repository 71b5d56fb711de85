//! Values in the order of their keys.

pub mod iterator;
pub mod list;
pub mod sort;
pub mod tree;
