//! Keys with an expiration.

pub mod exp;
pub mod list;
mod sorted;
pub mod tree;
