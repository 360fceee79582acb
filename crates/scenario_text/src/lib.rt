//! Scenarios and their texts: the setup of a protected space, its regions, the agents and
//! processors with their calls, and a schedule of their turns. Each scenario has one text.
#![tactic(auto)]

mod context;
mod draft;
mod forming;
mod kinds;
mod laws;
mod line;
mod parsing;
mod printing;
mod reading;
mod scenario;
mod word;

pub use forming::well_formed;
pub use gpi_values::{Listed, Source, Space, World};
pub use gpt_descriptors::{MaxBlock, Setup};
pub use laws::texts_are_exact;
pub use parsing::parse;
pub use printing::print;
pub use region_plan::{Kind, Region};
pub use scenario::{Ask, Fault, Look, Scenario, Script, Slot, TextError};
pub use word::Word;
