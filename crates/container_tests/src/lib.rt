//! For tests alone: collections of keys that expire, sets and statuses of a sweep line, and runs of commands over them.
//!
//! What their clauses say isn't tried again. Each call is made once, of each kind; and what no clause says is: how often memory
//! is asked for and how much is held, and how often keys are compared. Worked runs, runs by chance and runs with memory refused
//! are over the program (`process_tests`), whose modes have keys and sets.
#![tactic(auto)]

#[cfg(test)]
mod comparisons;
#[cfg(test)]
mod counted;
#[cfg(test)]
mod drops;
#[cfg(test)]
mod growth;
#[cfg(test)]
mod key_runs;
#[cfg(test)]
mod keys;
#[cfg(test)]
mod kinds;
#[cfg(test)]
mod refusals;
#[cfg(test)]
mod roomy;
#[cfg(test)]
mod sets;
#[cfg(test)]
mod sloped;
#[cfg(test)]
mod status_runs;
#[cfg(test)]
mod statuses;
#[cfg(test)]
mod timed_key;
