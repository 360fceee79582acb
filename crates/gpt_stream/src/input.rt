ghost use Rattle.std.specs.Prelude.{◌≡◌, ℕ, ◌+◌, ◌≤◌, ◌⊎◌, List, length, IfOk, OnOk, IsErrOf};
ghost use Rattle.std.specs.Io.KnownBytes.{Consumes, IsAtEnd};
ghost use Rattle.gpt_io.specs.Counts.{Rose};

use gpt_io::{Failed, Source};
use std::alloc::{AllocError, Global};

/// The most bytes that an input has; one more is read, to recognize a longer input.
pub const INPUT_LIMIT: usize = 1_048_576;

/// The most bytes that one read asks for.
pub const PIECE: usize = 4096;

/// Why an input was not read.
#[derive(Clone, Copy, Debug, PartialEq, Eq)]
pub enum InputError {
    /// A read failed.
    Fault,
    /// No memory was left for the bytes.
    Memory,
}

/// Reads to the end, which a read of 0 bytes means, or to `INPUT_LIMIT + 1` bytes. Each read asks
/// for at most `PIECE` bytes, and for none past that limit.
///
/// `Fault` comes at the first read that fails, and `Memory` where the bytes of a read that did not
/// fail can't be kept.
pub fn read_input<S: Source>(alloc: Global, source: &mut S) -> Result<Vec<u8>, InputError>
    ensures taken { IfOk result
        (λ bytes. Consumes (S.left source.old) (S.left source.new) bytes.items) }
    ensures bound { IfOk result (λ bytes. length bytes.items ≤ INPUT_LIMIT + 1) }
    ensures ended { IfOk result
        (λ bytes. (length bytes.items ≡ INPUT_LIMIT + 1) ⊎ IsAtEnd (S.left source.new)) }

    // On every way out.
    ensures limit { (bytes : List ℕ) × (length bytes ≤ INPUT_LIMIT + 1)
        × Consumes (S.left source.old) (S.left source.new) bytes }

    // The faults.
    ensures ok { OnOk result (S.faults source.new ≡ S.faults source.old) }
    ensures fault { IsErrOf result InputError.Fault
        → Rose (S.faults source.old) (S.faults source.new) }
    ensures memory { IsErrOf result InputError.Memory → S.faults source.new ≡ S.faults source.old }
{
    let mut bytes = Vec::new(alloc);
    let mut piece = [0u8; PIECE];
    while bytes.len() <= INPUT_LIMIT {
        let room = (INPUT_LIMIT + 1 - bytes.len()).min(PIECE);
        match source.read(&mut piece[..room]) {
            Ok(0) => return Ok(bytes),
            Ok(n) => match bytes.extend_from_slice(&piece[..n]) {
                Ok(()) => {}
                Err(AllocError) => return Err(InputError::Memory),
            },
            Err(Failed) => return Err(InputError::Fault),
        }
    }
    Ok(bytes)
}
