//! Resident lines: by granule and space, whether an access has left a line in a cache that a
//! transition has yet to clean to the point of physical aliasing (DDI 0487, `DC CIPAPA`). An access
//! touches the line of its granule in its space, and a transition cleans the lines of its granule.
//! No call takes memory.
#![tactic(auto)]

mod law;
mod line;
#[cfg(test)]
mod tests;

pub use gpi_values::Space;
pub use gpt_descriptors::Geometry;
pub use law::acts_mark_one_line;
pub use line::{clean, is_resident, line_mask, lines, touch};
pub use shared_words::Act;
