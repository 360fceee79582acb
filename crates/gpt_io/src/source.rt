ghost use Rattle.std.specs.Prelude.{◌≡◌, ℕ, ◌≤◌, ◌<◌, List, Option, length, IfOk, OnOk, OnErr};
ghost use Rattle.std.specs.Io.KnownBytes.{ReadConsumes};
ghost use Rattle.gpt_io.specs.Counts.{Rose};

/// A read or a write failed. It is answered only where the count of faults rose in that call.
#[derive(Clone, Copy, Debug, PartialEq, Eq)]
pub struct Failed;

/// A reader of bytes that counts its faults.
///
/// `left` is what is still to come, where the source reports it. `faults` is how many reads have
/// failed; it never falls.
pub trait Source {
    ghost left: { Self → Option (List ℕ) };

    ghost faults: { Self → ℕ };

    /// Reads into the start of a piece that isn't empty, and answers how many bytes it read. They
    /// are the first that were left; 0 comes only at the end.
    ///
    /// `Failed` comes only where the count of faults rose in this call. Nothing was read then.
    fn read(&mut self, piece: &mut [u8]) -> Result<usize, Failed>
        requires { 0 < length piece.old }
        ensures bound { IfOk result (λ n. n ≤ length piece.new) }
        ensures bytes { ReadConsumes (left self.old) (left self.new) result piece.new }
        ensures kept { OnErr result (left self.new ≡ left self.old) }

        // The faults.
        ensures ok { OnOk result (faults self.new ≡ faults self.old) }
        ensures failed { OnErr result (Rose (faults self.old) (faults self.new)) }
        ensures grows { faults self.old ≤ faults self.new };
}
