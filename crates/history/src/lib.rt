//! Histories of a plain map from granule to GPI: what callers ask and are answered, the entries
//! that are of it, which entries are legal in which state, a replay that tests them one by one, and
//! what accesses see between two generations.
#![tactic(auto)]

mod call;
mod entry;
mod judging;
mod law;
mod outcome;
mod replay;
mod rings;
mod values;

pub use call::{Access, Answer, OldWalk, Task, Via};
pub use entry::Entry;
pub use gpi_values::{Gpi, Source, Space};
pub use gpt_descriptors::{Generations, Geometry, Reach, Size};
pub use judging::needed;
pub use law::settled_means_final;
pub use outcome::Outcome;
pub use region_plan::RunMap;
pub use replay::Replay;
pub use rings::{Named, ring_says};
pub use values::{saw, values_after, values_mean_their_history};
