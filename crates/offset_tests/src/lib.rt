//! For tests alone: worked examples of the public calls of `offset`.
#![tactic(auto)]

#[cfg(test)]
mod rounded;
#[cfg(test)]
mod worked;
