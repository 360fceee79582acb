//! Granule protection information: the values that a descriptor field may have, the physical
//! address spaces that each of them permits, and their names.
//!
//! Source: Arm Architecture Reference Manual (DDI 0487), granule protection checks, encodings of
//! the GPI field; TF-A's `gpt_rme` has them as `GPT_GPI_NO_ACCESS`, `GPT_GPI_SECURE`, `GPT_GPI_NS`,
//! `GPT_GPI_ROOT`, `GPT_GPI_REALM` and `GPT_GPI_ANY`. The profile takes these six of the encodings
//! and refuses every other value. No call takes memory.
#![tactic(auto)]

mod gpi;
mod listed;
mod names;
mod security;
#[cfg(test)]
mod tests;

pub use gpi::{Gpi, Space, gpi_of, nibble, permits};
pub use listed::Listed;
pub use names::{
    gpi_name, gpi_named, source_name, source_named, space_name, space_named, world_name,
    world_named,
};
pub use security::{Source, World, own};
