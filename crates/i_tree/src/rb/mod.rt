//! The core of both trees: a red-black tree whose nodes have handles that stay.

mod arena;
mod clear;
mod links;
mod neighbours;
pub(crate) mod place;
mod rebalancing;
mod removal;
pub(crate) mod search;
mod tree;

pub use tree::RbTree;
