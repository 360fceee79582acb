use crate::call::Answer;
use gpi_values::Listed;
use gpt_descriptors::Geometry;

/// What a run leaves: the answers of each caller in the order of its calls, and the shared words,
/// whose places the geometry gives.
#[derive(Debug, Drop)]
pub struct Outcome {
    pub geometry: Geometry,
    pub answers: Listed<Listed<Answer>>,
    pub words: Listed<u64>,
}
