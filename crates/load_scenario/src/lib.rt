//! The scenario of a number: many delegations and accesses by six callers, to load the machine
//! with. The addresses, the kinds of call and the spaces are drawn from the number, and all else is
//! the same in each, so that one number always gives one scenario.
#![tactic(auto)]

mod calls;
mod draws;
mod loading;
#[cfg(test)]
mod tests;

pub use loading::load_scenario;
pub use scenario_text::Scenario;
