//! Reading an input whole and delivering a text, over any source and any sink.
#![tactic(auto)]

mod input;
mod output;
#[cfg(test)]
mod tests;

pub use input::{INPUT_LIMIT, InputError, PIECE, read_input};
pub use output::deliver;
