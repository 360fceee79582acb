/// What is called between the acts of callers that run beside each other. It may hold a caller up, and no
/// promise rests on it.
pub trait Gate {
    /// Before the first act of each call that has acts: the caller, and which of its calls it is, both
    /// counted from 0.
    fn before(&self, caller: u32, call: u32);

    /// After each act, one that waited too: the caller, and the number of acts of this call so far, which stays
    /// at 4294967295 once it has come to it.
    fn between(&self, caller: u32, act: u32);
}

/// The gate that holds nobody up.
#[derive(Clone, Copy, Debug)]
pub struct OpenGate;

impl Gate for OpenGate {
    fn before(&self, _caller: u32, _call: u32) {}

    fn between(&self, _caller: u32, _act: u32) {}
}
