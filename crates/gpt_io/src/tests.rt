ghost use Rattle.std.specs.Prelude.{◌<◌, length};

use super::*;
use std::alloc::AllocError;
use std::io;
use std::io::{ErrorKind, Read, Write};
use std::test::Fail;

const TEXT: &[u8] = b"0123456789";

/// Reads a piece of four bytes and keeps what came; `None` for a fault.
fn next_read<S: Source>(source: &mut S, text: &mut Vec<u8>) -> Result<Option<usize>, AllocError> {
    let mut piece = [0u8; 4];
    match source.read(&mut piece) {
        Ok(n) => {
            text.extend_from_slice(&piece[..n])?;
            Ok(Some(n))
        }
        Err(Failed) => Ok(None),
    }
}

/// Writes a piece; `None` for a fault.
fn next_write<K: Sink>(sink: &mut K, piece: &[u8]) -> Option<usize>
    requires { 0 < length piece.now }
{
    sink.write(piece).ok()
}

#[test]
fn a_source_fails_at_the_numbers_it_is_given(rt: HostRuntime) -> Result<(), Fail> {
    let table = [
        (0, [Some(4), Some(4), Some(2), Some(0), Some(0)], 0),
        (1, [None, Some(4), Some(4), Some(2), Some(0)], 1),
        (2, [Some(4), None, Some(4), Some(2), Some(0)], 1),
        (3, [Some(4), Some(4), None, Some(2), Some(0)], 1),
        (4, [Some(4), Some(4), Some(2), None, Some(0)], 1),
        (5, [Some(4), Some(4), Some(2), Some(0), None], 1),
        (6, [Some(4), Some(4), Some(2), Some(0), Some(0)], 0),
    ];
    for (number, answers, faults) in table {
        let failing = vec![in rt.alloc(); number, 9]?;
        let mut source = MemorySource::new(TEXT.to_vec(rt.alloc())?, failing);
        let mut text = Vec::new(rt.alloc());
        assert_eq!(rt; source.reads(), 0);
        for answer in answers {
            assert_eq!(rt; next_read(&mut source, &mut text)?, answer, "with {number}");
        }
        assert_eq!(rt; text.as_slice(), TEXT, "with {number}");
        assert_eq!(rt; source.reads(), 5);
        assert_eq!(rt; source.faults(), faults, "with {number}");
    }
    Ok(())
}

#[test]
fn a_sink_fails_at_the_numbers_it_is_given_and_when_full(rt: HostRuntime) -> Result<(), Fail> {
    let table = [
        (0, 8, [Some(3), Some(3), Some(2), None], 1, "01201201"),
        (1, 8, [None, Some(3), Some(3), Some(2)], 1, "01201201"),
        (2, 8, [Some(3), None, Some(3), Some(2)], 1, "01201201"),
        (3, 8, [Some(3), Some(3), None, Some(2)], 1, "01201201"),
        (4, 9, [Some(3), Some(3), Some(3), None], 1, "012012012"),
        (
            5,
            20,
            [Some(3), Some(3), Some(3), Some(3)],
            0,
            "012012012012",
        ),
        (1, 0, [None, None, None, None], 4, ""),
    ];
    for (number, room, answers, faults, text) in table {
        let failing = vec![in rt.alloc(); number, 9]?;
        let mut sink = MemorySink::new(rt.alloc(), 3, room, failing)?;
        for answer in answers {
            assert_eq!(rt; next_write(&mut sink, TEXT), answer, "with {number}");
        }
        assert_eq!(rt; sink.taken(), text.as_bytes(), "with {number}");
        assert_eq!(rt; sink.writes(), 4);
        assert_eq!(rt; sink.faults(), faults, "with {number}");
    }
    Ok(())
}

#[test]
fn a_plain_source_gives_its_bytes_and_a_plain_sink_counts(rt: HostRuntime) -> Result<(), Fail> {
    let mut source = PlainSource::new(TEXT.to_vec(rt.alloc())?);
    let mut text = Vec::new(rt.alloc());
    for answer in [4, 4, 2, 0] {
        assert_eq!(rt; next_read(&mut source, &mut text)?, Some(answer));
    }
    assert_eq!(rt; text.as_slice(), TEXT);

    let mut sink = PlainSink::new();
    assert_eq!(rt; next_write(&mut sink, TEXT), Some(10));
    assert_eq!(rt; next_write(&mut sink, b"!"), Some(1));
    assert_eq!(rt; sink.count(), 11);
    Ok(())
}

/// What a device does at each of its calls.
#[derive(Clone, Copy)]
enum Act {
    Moves,
    MovesNothing,
    IsInterrupted,
    Breaks,
}

/// A reader and a writer of single bytes. Each read, write and flush is the next of its acts.
#[derive(Drop)]
struct Device {
    acts: [Act; 8],
    at: usize,
}

impl Device {
    fn next(&mut self) -> io::Result<usize> {
        let at = self.at % 8;
        self.at = at + 1;
        match self.acts[at] {
            Act::Moves => Ok(1),
            Act::MovesNothing => Ok(0),
            Act::IsInterrupted => Err(io::Error::from(ErrorKind::Interrupted)),
            Act::Breaks => Err(io::Error::from(ErrorKind::Other)),
        }
    }
}

impl Read for Device {
    fn read(&mut self, piece: &mut [u8]) -> io::Result<usize> {
        let n = self.next()?.min(piece.len());
        if n > 0 {
            piece[0] = b'x';
        }
        Ok(n)
    }
}

impl Write for Device {
    fn write(&mut self, piece: &[u8]) -> io::Result<usize> {
        Ok(self.next()?.min(piece.len()))
    }

    fn flush(&mut self) -> io::Result<()> {
        self.next()?;
        Ok(())
    }
}

#[test]
fn a_reader_s_errors_are_faults(rt: HostRuntime) -> Result<(), Fail> {
    let mut device = Device {
        acts: [
            Act::Moves,
            Act::IsInterrupted,
            Act::Moves,
            Act::Breaks,
            Act::MovesNothing,
            Act::Breaks,
            Act::Moves,
            Act::MovesNothing,
        ],
        at: 0,
    };
    let mut source = StdSource::new(&mut device);
    let mut text = Vec::new(rt.alloc());
    let table = [
        (Some(1), 0),
        (None, 1),
        (Some(1), 1),
        (None, 2),
        (Some(0), 2),
        (None, 3),
        (Some(1), 3),
        (Some(0), 3),
    ];
    for (answer, faults) in table {
        assert_eq!(rt; next_read(&mut source, &mut text)?, answer);
        assert_eq!(rt; source.faults(), faults);
    }
    assert_eq!(rt; text.as_slice(), b"xxx".as_slice());
    assert_eq!(rt; device.at, 8);
    Ok(())
}

#[test]
fn a_writer_s_errors_and_those_of_its_flushes_are_faults(rt: HostRuntime) {
    // A write that moves is flushed; one that doesn't isn't.
    let mut device = Device {
        acts: [
            Act::Moves,
            Act::MovesNothing,
            Act::Moves,
            Act::IsInterrupted,
            Act::MovesNothing,
            Act::Breaks,
            Act::Moves,
            Act::Moves,
        ],
        at: 0,
    };
    let mut sink = StdSink::new(&mut device);
    let table = [(Some(1), 0), (None, 1), (None, 2), (None, 3), (Some(1), 3)];
    for (answer, faults) in table {
        assert_eq!(rt; next_write(&mut sink, TEXT), answer);
        assert_eq!(rt; sink.faults(), faults);
    }
    assert_eq!(rt; device.at, 8);
}

#[test]
fn bytes_pass_through_a_reader_and_a_writer(rt: HostRuntime) -> Result<(), Fail> {
    let mut source = StdSource::new(TEXT);
    let mut text = Vec::new(rt.alloc());
    for answer in [4, 4, 2, 0] {
        assert_eq!(rt; next_read(&mut source, &mut text)?, Some(answer));
    }
    assert_eq!(rt; text.as_slice(), TEXT);

    let mut written = Vec::new(rt.alloc());
    let mut sink = StdSink::new(&mut written);
    assert_eq!(rt; next_write(&mut sink, b"ab"), Some(2));
    assert_eq!(rt; next_write(&mut sink, b"cde"), Some(3));
    assert_eq!(rt; sink.faults(), 0);
    assert_eq!(rt; written.as_slice(), b"abcde".as_slice());
    Ok(())
}

/// A writer that takes four bytes at a time and passes none on before it is flushed. Its flushes
/// fail once it is broken.
#[derive(Drop)]
struct Buffering {
    waiting: usize,
    passed_on: usize,
    is_broken: bool,
}

impl Write for Buffering {
    fn write(&mut self, piece: &[u8]) -> io::Result<usize> {
        let n = piece.len().min(4);
        self.waiting = self.waiting.saturating_add(n);
        Ok(n)
    }

    fn flush(&mut self) -> io::Result<()> {
        if self.is_broken {
            return Err(io::Error::from(ErrorKind::Other));
        }
        self.passed_on = self.passed_on.saturating_add(self.waiting);
        self.waiting = 0;
        Ok(())
    }
}

#[test]
fn each_write_is_flushed_before_it_is_answered(rt: HostRuntime) {
    let mut device = Buffering {
        waiting: 0,
        passed_on: 0,
        is_broken: false,
    };
    for passed_on in [4usize, 8, 12] {
        let mut sink = StdSink::new(&mut device);
        assert_eq!(rt; next_write(&mut sink, TEXT), Some(4));
        assert_eq!(rt; sink.faults(), 0);
        assert_eq!(rt; (device.waiting, device.passed_on), (0, passed_on));
    }
    device.is_broken = true;
    let mut sink = StdSink::new(&mut device);
    assert_eq!(rt; next_write(&mut sink, TEXT), None);
    assert_eq!(rt; sink.faults(), 1);
    assert_eq!(rt; (device.waiting, device.passed_on), (4, 12));
}
