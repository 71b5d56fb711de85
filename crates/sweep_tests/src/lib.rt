//! For tests alone: worked examples of the public calls of `horizontal`.
#![tactic(auto)]

#[cfg(test)]
mod refusals;
#[cfg(test)]
mod store_use;
#[cfg(test)]
mod worked;
