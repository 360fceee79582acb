use crate::status::Status;
use gpi_values::Listed;

/// What the program replies: a status, and the text that it writes.
#[derive(Debug, Drop)]
pub struct Reply {
    pub status: Status,
    pub text: Listed<u8>,
}
