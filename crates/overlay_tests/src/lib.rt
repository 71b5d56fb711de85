//! For tests alone: worked examples of the public calls of `noding`, `overlay` and `monotone_chains`.
#![tactic(auto)]

#[cfg(test)]
mod bounded;
#[cfg(test)]
mod contoured;
#[cfg(test)]
mod filled;
#[cfg(test)]
mod overlaid;
#[cfg(test)]
mod snapped;
#[cfg(test)]
mod walks;
