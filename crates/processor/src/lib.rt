//! Accesses as acts: a processor goes through a list of accesses, one act on the shared words at a
//! time. Each is decided by the tables (DDI 0487, granule protection checks), which agents may change
//! meanwhile: by a walk of them, or by one that the processor has kept in its ring and whose
//! generation is still its tag. An allowed access makes the line of its granule in its space resident.
#![tactic(auto)]

mod cpu;
mod law;
mod progress;
#[cfg(test)]
mod tests;

pub use cpu::Cpu;
pub use history::{Access, Answer, OldWalk, Task, Via};
pub use law::{
    accesses_make_nine_acts, processors_answer_by_their_rings, processors_follow_their_script,
    processors_keep_to_their_words, processors_make_their_entries,
};
pub use progress::{Phase, Progress};
pub use walk_cache::Walk;
