//! Runs of commands over a container of `i_tree`: each command is a value, and has one reply.
//!
//! It is a library of its own, so that others can call it; the program `itree` is one caller. None of this is of the Rust crate
//! `i_tree`.
#![tactic(auto)]

mod agreeing;
mod key_tree;
mod keys;
mod segments;
mod sets;
mod status;

pub use agreeing::same_replies;
pub use key_tree::run_key_tree_counted;
pub use keys::{KeyCommand, KeyReply, run_keys};
pub use segments::{SegCommand, SegReply, run_segments};
pub use sets::{SetCommand, SetReply, run_sets};
pub use status::{StatusCommand, StatusReply, run_status};
