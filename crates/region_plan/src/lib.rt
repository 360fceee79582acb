//! Region lists: which are accepted, the map from granule to GPI that they give, and a map that
//! can change.
#![tactic(auto)]

mod laying;
mod planning;
mod refusing;
mod region;
mod run_map;

pub use gpt_descriptors::{Gpi, MaxBlock, Setup};
pub use planning::Plan;
pub use refusing::PlanError;
pub use region::{Kind, Region};
pub use run_map::{Run, RunMap};
