ghost use Rattle.std.specs.Prelude.{◌≡◌, ℕ, ◌≤◌, ◌<◌, List, Some, None, length, take, drop, min, IsOk, IfOk, OnOk, OnErr};
ghost use Rattle.std.specs.Io.KnownBytes.{ReadConsumes, WriteAppends};
ghost use Rattle.gpt_io.specs.Counts.{Rose, counted};

use crate::sink::Sink;
use crate::source::{Failed, Source};
use std::marker::Model;

/// A source over memory that never fails. Contracts see the bytes that are left.
#[derive(Debug, Drop)]
pub struct PlainSource {
    bytes: Vec<u8>,
    taken: usize,
}

impl Model for PlainSource {
    ghost Value = { List ℕ };

    ghost view = { λ s. drop s.taken s.bytes.items };

    ghost invariant = { λ s. s.taken ≤ length s.bytes.items };
}

impl PlainSource {
    /// A source of these bytes.
    pub fn new(bytes: Vec<u8>) -> PlainSource
        ensures { result ≡ bytes.items }
    {
        PlainSource { bytes, taken: 0 }
    }
}

impl Source for PlainSource {
    ghost left = { λ s. Some s };

    ghost faults = { λ _. 0 };

    /// Gives as many bytes as the piece takes and are left.
    fn read(&mut self, piece: &mut [u8]) -> Result<usize, Failed>
        ensures given { IfOk result (λ n. n ≡ min (length piece.new) (length self.old)) }
        ensures fills { IfOk result (λ n. take n piece.new ≡ take n self.old) }
        ensures after { IfOk result (λ n. self.new ≡ drop n self.old) }
        ensures never_fails { IsOk result }
    {
        let n = fill(piece, &self.bytes[self.taken..]);
        self.taken += n;
        Ok(n)
    }
}

/// Copies to the start of the piece as many bytes as it takes and are left, and answers how many.
pub(crate) fn fill(piece: &mut [u8], left: &[u8]) -> usize
    ensures count { result ≡ min (length piece.new) (length left.now) }
    ensures bytes { take result piece.new ≡ take result left.now }
{
    let n = piece.len().min(left.len());
    piece[..n].copy_from_slice(&left[..n]);
    n
}

/// A sink that counts the bytes it is given and keeps none. Contracts see the count, which stays
/// at the last value of a `u64`.
#[derive(Debug, Drop)]
pub struct PlainSink {
    count: u64,
}

impl Model for PlainSink {
    ghost Value = { ℕ };

    ghost view = { λ s. s.count };
}

impl PlainSink {
    /// A sink that was given nothing.
    pub fn new() -> PlainSink
        ensures { result ≡ 0 }
    {
        PlainSink { count: 0 }
    }

    /// How many bytes it was given, at most the last value of a `u64`.
    pub fn count(&self) -> u64
        ensures { result ≡ self.now }
    {
        self.count
    }
}

impl Sink for PlainSink {
    ghost held = { λ _. None };

    ghost faults = { λ _. 0 };

    /// Takes the whole piece.
    fn write(&mut self, piece: &[u8]) -> Result<usize, Failed>
        requires { 0 < length piece.now }
        ensures bound { IfOk result (λ n. (0 < n) × (n ≤ length piece.now)) }
        ensures whole { IfOk result (λ n. n ≡ length piece.now) }
        ensures after { self.new ≡ counted self.old (length piece.now) }
        ensures never_fails { IsOk result }
    {
        self.count = self.count.saturating_add(piece.len() as u64);
        Ok(piece.len())
    }
}
