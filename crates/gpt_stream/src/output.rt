ghost use Rattle.std.specs.Prelude.{◌≡◌, ℕ, ◌<◌, length, take};
ghost use Rattle.std.specs.Bool.{OnTrue, OnFalse};
ghost use Rattle.std.specs.Io.KnownBytes.{Appends};
ghost use Rattle.gpt_io.specs.Counts.{Rose};

use gpt_io::{Failed, Sink};

/// Offers a text until all of it is taken; each write is offered all that isn't taken yet. Answers
/// whether the text was taken whole; where it wasn't, a write failed and what was taken is a proper
/// prefix of the text. It takes no memory.
#[tactic(auto, using(crate::proofs::Known::Appends_at))]
pub fn deliver<K: Sink>(sink: &mut K, text: &[u8]) -> bool
    ensures whole { OnTrue result (Appends (K.held sink.old) (K.held sink.new) text.now) }
    ensures cut { OnFalse result ((n : ℕ) × (n < length text.now)
        × Appends (K.held sink.old) (K.held sink.new) (take n text.now)) }

    // The faults.
    ensures ok { OnTrue result (K.faults sink.new ≡ K.faults sink.old) }
    ensures fault { OnFalse result (Rose (K.faults sink.old) (K.faults sink.new)) }
{
    let mut taken = 0;
    while taken < text.len() {
        match sink.write(&text[taken..]) {
            Ok(n) => taken += n,
            Err(Failed) => return false,
        }
    }
    true
}
