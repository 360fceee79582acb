//! Tests of `gpt_descriptors`, in a crate of their own: a crate with tests is proved twice.
#![tactic(auto)]

#[cfg(test)]
mod entries;
#[cfg(test)]
mod fields;
#[cfg(test)]
mod spaces;
