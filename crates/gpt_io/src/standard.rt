ghost use Rattle.std.specs.Prelude.{◌≡◌, ◌≤◌, ◌<◌, None, length, take, IfOk, OnOk, OnErr};
ghost use Rattle.std.specs.Io.KnownBytes.{ReadConsumes, Appends};
ghost use Rattle.gpt_io.specs.Counts.{counted};
ghost use Rattle.gpt_io.specs.Devices.{DeviceState, AppendsPrefixOf};

use crate::sink::Sink;
use crate::source::{Failed, Source};
use std::io::{Read, Write};
use std::marker::Model;

/// A source over any reader, as standard input. As a source it reports nothing of its bytes. Its
/// own contracts see the count of its faults, and the bytes that the reader reports.
///
/// What the reader answers is trusted. Each of its errors counts, one by an interrupt too.
#[derive(Debug, Drop)]
pub struct StdSource<R: Read> {
    reader: R,
    faults: u64,
}

impl<R: Read> Model for StdSource<R> {
    ghost Value = { DeviceState };

    ghost view = { λ s. record { known = R.remaining s.reader; faults = s.faults } };
}

impl<R: Read> StdSource<R> {
    /// A source over this reader, with no fault so far.
    pub fn new(reader: R) -> StdSource<R>
        ensures { result ≡ record { known = R.remaining reader; faults = 0 } }
    {
        StdSource { reader, faults: 0 }
    }

    /// How many reads have failed, at most the last value of a `u64`.
    pub fn faults(&self) -> u64
        ensures { result ≡ self.now.faults }
    {
        self.faults
    }
}

impl<R: Read> Source for StdSource<R> {
    ghost left = { λ _. None };

    ghost faults = { λ s. s.faults };

    /// Reads once. `Failed` comes where the reader answers an error.
    fn read(&mut self, piece: &mut [u8]) -> Result<usize, Failed>
        ensures bound { IfOk result (λ n. n ≤ length piece.new) }
        ensures bytes { ReadConsumes self.old.known self.new.known result piece.new }

        // The faults.
        ensures ok { OnOk result (self.new.faults ≡ self.old.faults) }
        ensures fault { OnErr result (self.new.faults ≡ counted self.old.faults 1) }
        ensures grows { self.old.faults ≤ self.new.faults }
    {
        match self.reader.read(piece) {
            Ok(n) => Ok(n),
            Err(_) => {
                self.faults = self.faults.saturating_add(1);
                Err(Failed)
            }
        }
    }
}

/// A sink over any writer, as standard output. As a sink it reports nothing of its bytes. Its own
/// contracts see the count of its faults, and the bytes that the writer reports.
///
/// What the writer answers is trusted. Each write is flushed. Each error of the writer counts, one
/// of a flush and one by an interrupt too, and so does a write that takes nothing.
#[derive(Debug, Drop)]
pub struct StdSink<W: Write> {
    writer: W,
    faults: u64,
}

impl<W: Write> Model for StdSink<W> {
    ghost Value = { DeviceState };

    ghost view = { λ s. record { known = W.contents s.writer; faults = s.faults } };
}

impl<W: Write> StdSink<W> {
    /// A sink over this writer, with no fault so far.
    pub fn new(writer: W) -> StdSink<W>
        ensures { result ≡ record { known = W.contents writer; faults = 0 } }
    {
        StdSink { writer, faults: 0 }
    }

    /// How many writes have failed, at most the last value of a `u64`.
    pub fn faults(&self) -> u64
        ensures { result ≡ self.now.faults }
    {
        self.faults
    }
}

impl<W: Write> Sink for StdSink<W> {
    ghost held = { λ _. None };

    ghost faults = { λ s. s.faults };

    /// Writes once and flushes. `Failed` comes where the writer answers an error to either, or
    /// takes nothing. The writer then holds what it held before, and a prefix of the piece at most
    /// after it: where the flush failed, the bytes that the write took.
    fn write(&mut self, piece: &[u8]) -> Result<usize, Failed>
        requires { 0 < length piece.now }
        ensures bound { IfOk result (λ n. (0 < n) × (n ≤ length piece.now)) }
        ensures bytes { IfOk result
            (λ n. Appends self.old.known self.new.known (take n piece.now)) }
        ensures prefix { OnErr result (AppendsPrefixOf piece.now self.old.known self.new.known) }

        // The faults.
        ensures ok { OnOk result (self.new.faults ≡ self.old.faults) }
        ensures fault { OnErr result (self.new.faults ≡ counted self.old.faults 1) }
        ensures grows { self.old.faults ≤ self.new.faults }
    {
        match self.writer.write(piece) {
            Ok(n) if n > 0 && self.writer.flush().is_ok() => Ok(n),
            _ => {
                self.faults = self.faults.saturating_add(1);
                Err(Failed)
            }
        }
    }
}
