//! For tests alone: worked examples of the public calls of `tiles`.
#![tactic(auto)]

#[cfg(test)]
mod joined;
#[cfg(test)]
mod joined_refused;
#[cfg(test)]
mod refused;
#[cfg(test)]
mod tiled;
#[cfg(test)]
mod tiled_refused;
#[cfg(test)]
mod whole;
#[cfg(test)]
mod worked;
