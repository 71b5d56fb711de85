//! For tests alone: worked examples of the public calls of `plane`. Sets by chance are over the program (`process_tests`).
#![tactic(auto)]

#[cfg(test)]
mod budgets;
#[cfg(test)]
mod columns;
#[cfg(test)]
mod edges;
#[cfg(test)]
mod located;
#[cfg(test)]
mod located_refused;
#[cfg(test)]
mod meetings;
#[cfg(test)]
mod pairs;
#[cfg(test)]
mod pairs_refused;
#[cfg(test)]
mod points;
