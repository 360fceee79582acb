//! Invalidation: generations of the regions around an address, raised after a change in place of
//! the TLB invalidation by physical address of TF-A's `gpt_rme` (DDI 0487, `TLBI PAALLOS` and
//! `RPALOS`), and the duty words of processors, by which an access says that it is under way and a
//! barrier waits until it has ended. No call takes memory.
#![tactic(auto)]

mod barrier;
mod duty;
mod generation;
#[cfg(test)]
mod tests;

pub use barrier::Barrier;
pub use duty::{off, on};
pub use generation::{gen_load, gen_raise};
pub use gpt_descriptors::{GEN_LAST, Geometry, Size};
pub use shared_words::Act;
