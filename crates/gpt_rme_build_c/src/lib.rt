//! The table builder for C: a static library that turns regions into the L0 and L1 words of granule
//! protection tables, in the caller's own memory. Its header is `include/gpt_rme.h`.
//!
//! It keeps no pointer and has no state of its own. While it runs it takes memory of the C library,
//! and gives all of it back. Every number from C is tested.
#![tactic(auto)]

mod building;
mod numbers;
#[cfg(test)]
mod tests;

pub use building::{Told, gpt_rme_build};
pub use numbers::{RegionNumbers, SetupNumbers};
