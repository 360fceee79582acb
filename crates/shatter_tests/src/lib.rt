//! Tests of `shatter`, in a crate of their own, and the plain slow program that lists the stores of
//! a splitting.
#![tactic(auto)]

mod slow;
#[cfg(test)]
mod stores;

pub use slow::slow_stores;
