use core_machine::Caller;
use gpt_descriptors::Geometry;
use history::Entry;
use std::collections::LinkedList;

/// What a field was opened with: the geometry, the shared words before the first act, and the callers,
/// which had made no act. No value of it is made.
pub struct Opening {
    pub geometry: Geometry,
    pub words: LinkedList<u64>,
    pub callers: LinkedList<Caller>,
}

/// What a pass knows: what its field was opened with, the history that it has seen, what other passes had
/// seen that were joined into it, and the callers that act by it, with their numbers. A pass that was
/// joined into another knows nothing. No value of it is made.
pub struct View {
    pub opening: Option<Opening>,
    pub seen: LinkedList<Entry>,
    pub others_seen: LinkedList<LinkedList<Entry>>,
    pub held: LinkedList<(u64, Caller)>,
}
