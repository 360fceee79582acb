//! Splitting of contiguous blocks (TF-A `gpt_rme`, shattering of contiguous descriptors): the
//! stores that rewrite one block before a granule in it is changed. Each of them leaves what every
//! granule's word means. No call takes memory.
#![tactic(auto)]

mod block;
mod law;
mod splitting;

pub use block::Shatter;
pub use law::{splitting_keeps_the_map, stores_are_in_order};
pub use splitting::Splitting;
