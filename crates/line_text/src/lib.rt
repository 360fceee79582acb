//! Lines of text: fields between single spaces, each line ended by a line feed. A field is a count,
//! an address or a name, and a row says what each field of a line has to be. No call takes memory.
#![tactic(auto)]

mod cutting;
mod kind;
mod numeral;
mod rows;

pub use cutting::{cut, next_line};
pub use kind::{FieldKind, Range, RowFault};
pub use numeral::{address_of, count_of};
pub use rows::row;
