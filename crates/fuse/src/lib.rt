//! Merging of contiguous blocks (TF-A `gpt_rme`, fusing of contiguous descriptors): the loads that
//! test what is around a word after one of its granules was changed, and the stores that make the
//! largest block of one GPI one contiguous entry. No call takes memory.
#![tactic(auto)]

mod law;
mod merging;
mod outcome;
mod step;

pub use law::steps_walk_the_script;
pub use merging::{Fuse, has_acts};
pub use outcome::Fused;
pub use step::is_counted;
pub use table_meaning::Fusing;
