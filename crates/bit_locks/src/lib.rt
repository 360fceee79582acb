//! The bit locks of TF-A's `gpt_rme`: each covers a whole number of 512 MB blocks of the protected
//! space, and is one bit in one of two shared words. No call takes memory.
#![tactic(auto)]

mod law;
mod lock;
#[cfg(test)]
mod tests;

pub use law::a_lock_is_one_bit;
pub use lock::{Bit, drop_act, lock_of, take, was_free};
