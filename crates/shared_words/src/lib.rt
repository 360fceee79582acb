//! The words that agents and processors share, and the acts on them. One act is one operation on
//! one 64-bit word, and no other act comes between its load and its store.
#![tactic(auto)]

mod act;
mod law;
mod plain;
#[cfg(test)]
mod tests;

pub use act::{Act, StoreRun, Words};
pub use gpt_descriptors::Geometry;
pub use law::start_words_are_named;
pub use plain::PlainWords;
