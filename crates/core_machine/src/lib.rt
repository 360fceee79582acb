//! The core: callers that act on the shared words one act at a time, the facts that stand between
//! any two acts, and that every act keeps them.
#![tactic(auto)]

mod caller;
mod calling;
mod law;
mod machine;
mod played;
mod playing;

pub use caller::Caller;
pub use calling::{callers, task_of};
pub use law::{
    callers_keep_to_their_words, nothing_is_left_at_done, one_act_keeps, scenes_fit_their_history,
    waits_have_causes,
};
pub use machine::Machine;
pub use played::{answers_of, count_cpus, geometry_of, play};
