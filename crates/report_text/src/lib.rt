//! Reports: the text of tables, runs and loads.
#![tactic(auto)]

mod answers;
mod callers;
mod level;
mod load;
mod run;
mod state;
mod tables;

pub use callers::call_count;
pub use level::Level;
pub use load::load_report;
pub use run::{Mode, caller_lines, run_report, state_lines};
pub use tables::tables_report;
