//! For tests alone: worked examples of the public calls of `validity`.
#![tactic(auto)]

#[cfg(test)]
mod refused;
#[cfg(test)]
mod worked;
