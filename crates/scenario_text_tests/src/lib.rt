//! Tests of `scenario_text`, in a crate of their own: a crate with tests is proved twice.
#![tactic(auto)]

#[cfg(test)]
mod formed;
#[cfg(test)]
mod lines;
#[cfg(test)]
mod texts;
