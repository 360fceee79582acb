//! Tests of `fuse`, in a crate of their own, and the plain slow program that finds a size by its
//! definition.
#![tactic(auto)]

mod finding;
#[cfg(test)]
mod merging;

pub use finding::find_size;
