ghost use Rattle.std.specs.Prelude.{◌≡◌, ℕ, ◌≤◌, ◌<◌, List, Option, length, IfOk, OnOk, OnErr};
ghost use Rattle.std.specs.Io.KnownBytes.{WriteAppends};
ghost use Rattle.gpt_io.specs.Counts.{Rose};

use crate::source::Failed;

/// A writer of bytes that counts its faults.
///
/// `held` is what was taken so far, where the sink reports it. `faults` is how many writes have
/// failed; it never falls.
pub trait Sink {
    ghost held: { Self → Option (List ℕ) };

    ghost faults: { Self → ℕ };

    /// Takes one byte or more from the start of a piece that isn't empty, and answers how many.
    ///
    /// `Failed` comes only where the count of faults rose in this call. Nothing was taken then. A
    /// device that takes no byte has failed.
    fn write(&mut self, piece: &[u8]) -> Result<usize, Failed>
        requires { 0 < length piece.now }
        ensures bound { IfOk result (λ n. (0 < n) × (n ≤ length piece.now)) }
        ensures bytes { WriteAppends (held self.old) (held self.new) result piece.now }
        ensures kept { OnErr result (held self.new ≡ held self.old) }

        // The faults.
        ensures ok { OnOk result (faults self.new ≡ faults self.old) }
        ensures failed { OnErr result (Rose (faults self.old) (faults self.new)) }
        ensures grows { faults self.old ≤ faults self.new };
}
