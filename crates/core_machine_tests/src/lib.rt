//! Tests of `core_machine`, in a crate of their own: a crate with tests is proved twice.
#![tactic(auto)]

#[cfg(test)]
mod looked;
#[cfg(test)]
mod played;
#[cfg(test)]
mod waited;
