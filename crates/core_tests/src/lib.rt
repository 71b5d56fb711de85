//! For tests alone: the core, a red-black tree. Each call once, refused memory, and drops.
//! And what the other crates of tests stand on: the allocator that refuses, and trials over it.
//!
//! Long runs by chance are over the program (`process_tests`), whose sets stand on the core.
#![tactic(auto)]

#[cfg(test)]
mod calls;
#[cfg(test)]
mod drops;
#[cfg(test)]
mod in_turn;
#[cfg(test)]
mod refusals;
#[cfg(test)]
mod refusing;
#[cfg(test)]
mod rows;
