//! Tests of `history`, in a crate of their own: a crate with tests is proved twice.
#![tactic(auto)]

#[cfg(test)]
mod entries;
#[cfg(test)]
mod rings;
#[cfg(test)]
mod stamps;
