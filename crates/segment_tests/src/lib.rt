//! For tests alone: trees of segments, and their memory. What their clauses say isn't tried again: a query, a walk and a run
//! once each. Worked runs, runs by chance and runs with memory refused are over the program (`process_tests`).
#![tactic(auto)]

#[cfg(test)]
mod calls;
#[cfg(test)]
mod layouts;
#[cfg(test)]
mod memory;
#[cfg(test)]
mod refused;
#[cfg(test)]
mod walks;
