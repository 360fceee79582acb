//! The descriptors of granule protection tables, the setup of a protected space with its sizes, and
//! the places of the words that agents and processors share.
//!
//! Source: Arm Architecture Reference Manual (DDI 0487), granule protection tables, GPT level 0 and
//! level 1 descriptors; names of TF-A's `gpt_rme` are given beside what they mirror. The places are
//! this project's own. No call takes memory.
#![tactic(auto)]

mod canonical;
mod entry;
mod field;
mod geometry;
mod level0;
mod places;
mod setting;
mod size;

pub use canonical::canonical_words_mean_their_map;
pub use entry::{L0Entry, L1Entry, decode_l0, decode_l1, encode_l0, encode_l1, gpi_at, reach_of};
pub use field::{equal_gpi, granules_of, is_granules, l1_field, with_field, word_reach};
pub use geometry::Geometry;
pub use gpi_values::{Gpi, Space};
pub use level0::{count_tables, is_table_word, l0_good};
pub use places::places_are_distinct;
pub use setting::{
    MOST_TABLES, MOST_WALKS, REGION_BYTES, Setup, is_lock_blocks, is_space_size, small_granule,
};
pub use size::{GEN_LAST, Generations, MaxBlock, Reach, Size, is_worn, tag_size};
