//! Callers that share atomic words: a field of them, and a pass for each caller, with which it makes its
//! acts one at a time through a shared reference, waiting for nobody.
#![tactic(auto)]

mod closing;
mod field;
mod gate;
mod law;
mod opened;
mod racing;
mod rule;
mod running;
mod step;
#[cfg(test)]
mod tests;
mod view;

pub use field::{Field, Pass};
pub use gate::{Gate, OpenGate};
pub use law::nothing_is_left_at_done;
pub use opened::Opened;
pub use racing::race;
pub use rule::{FieldKey, Running};
pub use view::{Opening, View};
