ghost use Rattle.std.specs.Prelude.{Some};

use super::*;
use gpt_io::{Failed, MemorySink, MemorySource, PlainSink, PlainSource, Source};
use std::test::Fail;

const TEXT: &[u8] = b"0123456789";

/// A source over memory that gives three bytes at a time.
#[derive(Drop)]
struct Trickle(MemorySource);

impl Source for Trickle {
    ghost left = { λ s. Some s.0.left };

    ghost faults = { λ s. s.0.faults };

    fn read(&mut self, piece: &mut [u8]) -> Result<usize, Failed> {
        let most = piece.len().min(3);
        self.0.read(&mut piece[..most])
    }
}

#[test]
fn a_failed_read_is_a_fault_wherever_it_comes(rt: HostRuntime) -> Result<(), Fail> {
    // Ten bytes, three at a time: four reads give bytes, and the fifth is the end.
    for failing in 1..=5u64 {
        let source = MemorySource::new(TEXT.to_vec(rt.alloc())?, vec![in rt.alloc(); failing]?);
        let mut source = Trickle(source);
        let answer = read_input(rt.alloc(), &mut source);
        assert_eq!(rt; answer.err(), Some(InputError::Fault), "with {failing}");
        assert_eq!(rt; source.0.reads(), failing);
        assert_eq!(rt; source.0.faults(), 1);
    }
    let source = MemorySource::new(TEXT.to_vec(rt.alloc())?, vec![in rt.alloc(); 0, 6]?);
    let mut source = Trickle(source);
    let bytes = read_input(rt.alloc(), &mut source)?;
    assert_eq!(rt; bytes.as_slice(), TEXT);
    assert_eq!(rt; source.0.reads(), 5);
    assert_eq!(rt; source.0.faults(), 0);
    Ok(())
}

#[test]
fn an_input_is_read_in_pieces_up_to_one_byte_past_its_limit(rt: HostRuntime) -> Result<(), Fail> {
    let table = [
        (0, 0, 1),
        (PIECE - 1, PIECE - 1, 2),
        (PIECE, PIECE, 2),
        (PIECE + 1, PIECE + 1, 3),
        (INPUT_LIMIT, INPUT_LIMIT, 257),
        (INPUT_LIMIT + 1, INPUT_LIMIT + 1, 257),
        (INPUT_LIMIT + 9000, INPUT_LIMIT + 1, 257),
    ];
    for (length, read, reads) in table {
        let bytes = vec![in rt.alloc(); b'.'; length]?;
        let mut source = MemorySource::new(bytes, Vec::new(rt.alloc()));
        let answer = read_input(rt.alloc(), &mut source)?;
        assert_eq!(rt; answer.len(), read, "of {length}");
        assert!(rt; answer.iter().all(|byte| *byte == b'.'));
        assert_eq!(rt; source.reads(), reads, "of {length}");
    }
    let mut source = PlainSource::new(TEXT.to_vec(rt.alloc())?);
    assert_eq!(rt; read_input(rt.alloc(), &mut source)?.as_slice(), TEXT);
    Ok(())
}

#[test]
fn a_failed_write_cuts_the_text_wherever_it_comes(rt: HostRuntime) -> Result<(), Fail> {
    // Ten bytes, at most three at a time: four writes.
    let table = [
        (0, 10, true, "0123456789", 4),
        (1, 10, false, "", 1),
        (2, 10, false, "012", 2),
        (3, 10, false, "012345", 3),
        (4, 10, false, "012345678", 4),
        (5, 10, true, "0123456789", 4),
        (0, 7, false, "0123456", 4),
        (0, 0, false, "", 1),
    ];
    for (failing, room, whole, taken, writes) in table {
        let failing = vec![in rt.alloc(); failing]?;
        let mut sink = MemorySink::new(rt.alloc(), 3, room, failing)?;
        assert_eq!(rt; deliver(&mut sink, TEXT), whole, "of {taken}");
        assert_eq!(rt; sink.taken(), taken.as_bytes());
        assert_eq!(rt; sink.writes(), writes, "of {taken}");
    }
    let mut sink = MemorySink::new(rt.alloc(), 3, 0, Vec::new(rt.alloc()))?;
    assert!(rt; deliver(&mut sink, b""));
    assert_eq!(rt; sink.writes(), 0);

    let mut sink = PlainSink::new();
    assert!(rt; deliver(&mut sink, TEXT));
    assert_eq!(rt; sink.count(), 10);
    Ok(())
}
