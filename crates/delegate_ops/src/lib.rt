//! Transitions as acts: an agent goes through a list of delegates and undelegates, one act on the
//! shared words at a time (TF-A, `gpt_delegate_pas` and `gpt_undelegate_pas`). A transition takes its
//! lock, looks at the L1 word of its granule and loads the generations around it. Where it may go on,
//! it splits the contiguous block of the granule and changes it: a delegate once, from Non-secure to
//! its source's GPI, an undelegate twice, through no access. Each change is followed by three raises of
//! generations and a barrier over all processors. A delegate cleans the line of its target's space
//! before its change and the Non-secure one after the barrier; an undelegate cleans both after its
//! first barrier. Last it merges, and releases its lock.
#![tactic(auto)]

mod agent;
mod blocks;
mod changing;
mod deciding;
mod parts;
mod places;
mod progress;
mod refused;
mod script;
mod stage;
#[cfg(test)]
mod tests;
mod transition;

pub use agent::Agent;
pub use deciding::idle_answer;
pub use history::{Answer, Task};
pub use parts::{Parts, is_sound};
pub use places::Places;
pub use progress::{Progress, Turned};
pub use refused::refused_calls_change_nothing;
pub use script::agents_follow_their_script;
pub use stage::{Change, Ending, Kept, Line, Phase};
pub use transition::Transition;
