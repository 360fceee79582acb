ghost use Rattle.std.specs.Prelude.{◌≡◌, ℕ, ◌+◌, ◌≤◌, ◌<◌, ◌↔◌, ◌⊎◌, List, [], Some, length, take, min, Contains, IsTrue, IsErr, IfOk, OnErr, vec_len, vec_capacity};
ghost use Rattle.gpt_io.specs.Counts.{Rose};
ghost use Rattle.gpt_io.specs.Memory.{SourceState, SinkState, after_read, after_read_fault, after_write, after_write_fault};

use crate::plain::fill;
use crate::sink::Sink;
use crate::source::{Failed, Source};
use std::alloc::{AllocError, Global};
use std::marker::Model;

/// A source over memory whose reads fail at chosen numbers.
#[derive(Debug, Drop)]
pub struct MemorySource {
    bytes: Vec<u8>,
    taken: usize,
    failing: Vec<u64>,
    reads: u64,
    faults: u64,
}

impl Model for MemorySource {
    ghost use Rattle.std.specs.Prelude.{◌≤◌, drop, length};
    ghost use Rattle.gpt_io.specs.Memory.{SourceState};

    ghost Value = { SourceState };

    ghost view = { λ s. record {
      left = drop s.taken s.bytes.items;
      failing = s.failing.items;
      reads = s.reads;
      faults = s.faults;
    } };

    ghost invariant = { λ s. s.taken ≤ length s.bytes.items };
}

impl MemorySource {
    /// A source of these bytes. `failing` has the numbers of the reads that fail, counted from 1.
    pub fn new(bytes: Vec<u8>, failing: Vec<u64>) -> MemorySource
        ensures { result ≡ record {
          left = bytes.items;
          failing = failing.items;
          reads = 0;
          faults = 0;
        } }
    {
        MemorySource {
            bytes,
            taken: 0,
            failing,
            reads: 0,
            faults: 0,
        }
    }

    /// How many reads were made, failed ones too, at most the last value of a `u64`.
    pub fn reads(&self) -> u64
        ensures { result ≡ self.now.reads }
    {
        self.reads
    }

    /// How many reads have failed, at most the last value of a `u64`.
    pub fn faults(&self) -> u64
        ensures { result ≡ self.now.faults }
    {
        self.faults
    }
}

impl Source for MemorySource {
    ghost left = { λ s. Some s.left };

    ghost faults = { λ s. s.faults };

    /// Gives as many bytes as the piece takes and are left. `Failed` comes exactly where the number
    /// of this read is one of those that fail.
    fn read(&mut self, piece: &mut [u8]) -> Result<usize, Failed>
        ensures fails { IsErr result ↔ Contains self.old.failing (self.old.reads + 1) }
        ensures given { IfOk result (λ n. n ≡ min (length piece.new) (length self.old.left)) }
        ensures fills { IfOk result (λ n. take n piece.new ≡ take n self.old.left) }
        ensures after { IfOk result (λ n. self.new ≡ after_read self.old n) }
        ensures fault { OnErr result (self.new ≡ after_read_fault self.old) }
        ensures grows { self.old.faults ≤ self.new.faults }
    {
        let fails = fails_next(self.failing.as_slice(), self.reads);
        self.reads = self.reads.saturating_add(1);
        if fails {
            self.faults = self.faults.saturating_add(1);
            return Err(Failed);
        }
        let n = fill(piece, &self.bytes[self.taken..]);
        self.taken += n;
        Ok(n)
    }
}

/// Whether the call after this number of calls is one of those that fail.
fn fails_next(failing: &[u64], calls: u64) -> bool
    ensures { IsTrue result ↔ Contains failing.now (calls + 1) }
{
    failing
        .iter()
        .any(|number| *number > calls && *number - calls == 1)
}

/// A sink over memory that takes a limited number of bytes in a write and in all, and whose writes
/// fail at chosen numbers.
#[derive(Debug, Drop)]
pub struct MemorySink {
    bytes: Vec<u8>,
    most: usize,
    room: usize,
    failing: Vec<u64>,
    writes: u64,
    faults: u64,
}

impl Model for MemorySink {
    ghost use Rattle.std.specs.Prelude.{◌+◌, ◌≤◌, length, vec_capacity};
    ghost use Rattle.gpt_io.specs.Memory.{SinkState};

    ghost Value = { SinkState };

    ghost view = { λ s. record {
      held = s.bytes.items;
      most = s.most;
      room = s.room;
      failing = s.failing.items;
      writes = s.writes;
      faults = s.faults;
    } };

    ghost invariant = { λ s. (1 ≤ s.most)
        × (length s.bytes.items + s.room ≤ vec_capacity s.bytes) };
}

impl MemorySink {
    /// A sink that takes at most `most` bytes, at least 1, in a write, and `room` bytes in all.
    /// `failing` has the numbers of the writes that fail, counted from 1.
    ///
    /// The memory for `room` bytes is taken here; `AllocError` comes only where there is none.
    pub fn new(
        alloc: Global,
        most: usize,
        room: usize,
        failing: Vec<u64>,
    ) -> Result<MemorySink, AllocError>
        requires { 1 ≤ most }
        ensures { IfOk result (λ sink. sink ≡ record {
          held = [];
          most = most;
          room = room;
          failing = failing.items;
          writes = 0;
          faults = 0;
        }) }
    {
        Ok(MemorySink {
            bytes: Vec::with_capacity(alloc, room)?,
            most,
            room,
            failing,
            writes: 0,
            faults: 0,
        })
    }

    /// Lends the bytes that were taken so far.
    pub fn taken(&self) -> &[u8]
        ensures { result.now ≡ self.now.held }
    {
        self.bytes.as_slice()
    }

    /// How many writes were made, failed ones too, at most the last value of a `u64`.
    pub fn writes(&self) -> u64
        ensures { result ≡ self.now.writes }
    {
        self.writes
    }

    /// How many writes have failed, at most the last value of a `u64`.
    pub fn faults(&self) -> u64
        ensures { result ≡ self.now.faults }
    {
        self.faults
    }
}

impl Sink for MemorySink {
    ghost held = { λ s. Some s.held };

    ghost faults = { λ s. s.faults };

    /// Takes the least of the piece, the most of a write and the room that is left. `Failed` comes
    /// exactly where the number of this write is one of those that fail or no room is left.
    fn write(&mut self, piece: &[u8]) -> Result<usize, Failed>
        requires { 0 < length piece.now }
        ensures bound { IfOk result (λ n. (0 < n) × (n ≤ length piece.now)) }
        ensures fails { IsErr result
            ↔ (Contains self.old.failing (self.old.writes + 1) ⊎ (self.old.room ≡ 0)) }
        ensures least { IfOk result
            (λ n. n ≡ min (length piece.now) (min self.old.most self.old.room)) }
        ensures after { IfOk result (λ n. self.new ≡ after_write self.old (take n piece.now)) }
        ensures fault { OnErr result (self.new ≡ after_write_fault self.old) }
        ensures grows { self.old.faults ≤ self.new.faults }
    {
        let fails = fails_next(self.failing.as_slice(), self.writes);
        self.writes = self.writes.saturating_add(1);
        if fails || self.room == 0 {
            self.faults = self.faults.saturating_add(1);
            return Err(Failed);
        }
        let n = piece.len().min(self.most).min(self.room);
        match self.bytes.extend_from_slice(&piece[..n]) {
            Ok(()) => {
                self.room -= n;
                Ok(n)
            }
            Err(AllocError) => unreachable!(),
        }
    }
}
