//! The ring of a processor's last walks of the granule protection tables, in the place of the walks
//! that a TLB has cached (DDI 0487, granule protection checks). Each walk has as its tag the
//! generation that it was made under, which shows whether it is from before a change. Only
//! `WalkCache::new` takes memory.
#![tactic(auto)]

mod cache;
mod law;
#[cfg(test)]
mod tests;
mod walk;

pub use cache::WalkCache;
pub use gpt_descriptors::Reach;
pub use law::rings_keep_the_last_walks;
pub use walk::{Walk, covers_from};
