//! Plain slow programs, whose contracts are the definitions, and tests that hold the runs of a map
//! and the built tables against them.
#![tactic(auto)]

#[cfg(test)]
mod alike;
pub mod plain;
