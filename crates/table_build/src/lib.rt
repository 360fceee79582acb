//! The canonical granule protection tables of a plan.
#![tactic(auto)]

mod blocks;
mod building;
mod cursor;
mod law;
mod tables;

pub use building::{BuildError, build};
pub use law::built_tables_mean_the_map;
pub use region_plan::{Plan, Setup};
pub use tables::Tables;
