//! Tests of the crates from outside, for what no contract says: worked examples, sizes, devices that fail,
//! threads. Memory that is refused is a case of the program (`tests/allocations`).
//!
//! This crate has no function of its own. What its tests share stands in `support`.
#![tactic(auto)]

#[cfg(test)]
mod judges;
#[cfg(test)]
mod merge;
#[cfg(test)]
mod recording;
#[cfg(test)]
mod rings;
#[cfg(test)]
mod rows;
#[cfg(test)]
mod selection;
#[cfg(test)]
mod several;
#[cfg(test)]
mod support;
#[cfg(test)]
mod watch;
#[cfg(test)]
mod workers;
