//! Tests of `report_text`, in a crate of their own: a crate with tests is proved twice.
#![tactic(auto)]

#[cfg(test)]
mod loads;
#[cfg(test)]
mod reports;
