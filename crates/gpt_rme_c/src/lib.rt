//! Descriptors of granule protection tables, permission, and the places of shared words, for C: a
//! static library that keeps no pointer, takes no memory and has no state of its own. Its header is
//! `include/gpt_rme.h`.
//!
//! Each export answers a code: `DONE`, or a negative one that says why it was refused, and then
//! nothing is written. Every number from C is tested, and no export requires anything of them.
#![tactic(auto)]

mod codes;
mod descriptors;
mod numbers;
mod space;
#[cfg(test)]
mod tests;

pub use codes::{BAD_ADDRESS, BAD_DATA, BAD_WORD, DONE};
pub use descriptors::{
    L0Parts, L1Parts, gpt_rme_l0_decode, gpt_rme_l0_encode, gpt_rme_l1_decode, gpt_rme_l1_encode,
    gpt_rme_l1_gpi_at, gpt_rme_l1_with_field, gpt_rme_permits,
};
pub use space::{PlaceNumbers, Space, gpt_rme_places, gpt_rme_word_count};
