use crate::top::top;
use gpt_io::{MemorySink, MemorySource};
use race_run::OpenGate;
use std::alloc::{AllocError, Global};
use std::sync::Wait;
use std::test::Fail;
use std::thread::Threads;

/// One gigabyte of Non-secure granules.
const SCENARIO: &[u8] =
    b"gpt 1\nspace 4\nmax 512\nlocks 1\nfirst 0\nring 8\ntables 1\nbase 0x80000000\n\
region 0x0 0x40000000 granule nonsecure\nend\n";

const REPORT: &[u8] = b"report 1 tables\nl0 0 1 0x80000003\nl0 1 3 0xf1\nl1 0 0 16384 0x391\nend\n";

/// The same scenario with a base that no table can have.
const BAD_BASE: &[u8] =
    b"gpt 1\nspace 4\nmax 512\nlocks 1\nfirst 0\nring 8\ntables 1\nbase 0x80010000\n\
region 0x0 0x40000000 granule nonsecure\nend\n";

const BASE_LINE: &[u8] = b"base: 0x80010000\n";

/// The same with a region that begins in the middle of a granule, too.
const BAD_PLAN: &[u8] =
    b"gpt 1\nspace 4\nmax 512\nlocks 1\nfirst 0\nring 8\ntables 1\nbase 0x80010000\n\
region 0x800 0x40000000 granule nonsecure\nend\n";

/// The same with a ring of no entries, too.
const BAD_LINE: &[u8] =
    b"gpt 1\nspace 4\nmax 512\nlocks 1\nfirst 0\nring 0\ntables 1\nbase 0x80010000\n\
region 0x800 0x40000000 granule nonsecure\nend\n";

/// 4 GB, of which the first gigabyte is Secure, by granules, and an agent whose four calls are
/// refused.
const REFUSED: &[u8] =
    b"gpt 1\nspace 4\nmax 0\nlocks 1\nfirst 0\nring 8\ntables 1\nbase 0x80000000\n\
region 0x0 0x40000000 granule secure\nagent\ndelegate 0x200800 realm\ndelegate 0x40000000 realm\n\
delegate 0x0 realm\nundelegate 0x0 realm\nturn 0 6\nend\n";

const PLAYED: &[u8] = b"report 1 play\n0.0 inval\n0.1 inval\n0.2 perm secure\n0.3 perm secure\n\
l0 0 1 0x80000003\nl0 1 3 0xf1\nl1 0 0 16384 0x8888888888888888\nend\n";

/// The same with two turns fewer: its last call has taken its lock.
const CUT: &[u8] = b"gpt 1\nspace 4\nmax 0\nlocks 1\nfirst 0\nring 8\ntables 1\nbase 0x80000000\n\
region 0x0 0x40000000 granule secure\nagent\ndelegate 0x200800 realm\ndelegate 0x40000000 realm\n\
delegate 0x0 realm\nundelegate 0x0 realm\nturn 0 4\nend\n";

const LEFT: &[u8] = b"report 1 play\n0.0 inval\n0.1 inval\n0.2 perm secure\nleft 0 1\nheld 0\n\
l0 0 1 0x80000003\nl0 1 3 0xf1\nl1 0 0 16384 0x8888888888888888\nend\n";

/// An agent and a processor in turns, with a change between two accesses of one granule.
const TURNS: &[u8] = b"gpt 1\nspace 4\nmax 0\nlocks 1\nfirst 0\nring 8\ntables 1\nbase 0x80000000\n\
region 0x0 0x40000000 granule nonsecure\nagent\ndelegate 0x200000 realm\ncpu\n\
look 0x200000 nonsecure\nlook 0x200000 nonsecure\nlook 0x200000 nonsecure\nturn 1 8\n\
turn 0 7\nturn 1 4\nturn 0 6\nturn 1 8\nend\n";

const TURNS_REPORT: &[u8] = b"report 1 play\n0.0 done 1 1 1\n1.0 granted nonsecure 1 cold 64k 0 0\n\
1.1 granted nonsecure 1 hit 64k 0\n1.2 fault realm 1 missed 64k 0 1 64k 1 1\n\
l0 0 1 0x80000003\nl0 1 3 0xf1\nl1 0 0 32 0x9999999999999999\n\
l1 0 32 1 0x999999999999999b\nl1 0 33 16351 0x9999999999999999\ngen 2m 1 1\n\
gen 32m 0 1\ngen 512m 0 1\nend\n";

/// An agent and a processor in 512 MB each, so that all interleavings have one report.
const APART: &[u8] = b"gpt 1\nspace 4\nmax 0\nlocks 1\nfirst 0\nring 8\ntables 1\nbase 0x80000000\n\
region 0x0 0x40000000 granule nonsecure\nagent\ndelegate 0x200000 realm\ncpu\n\
look 0x20000000 nonsecure\nlook 0x20000000 nonsecure\nend\n";

const APART_REPORT: &[u8] = b"report 1 race\n0.0 done 1 1 1\n\
1.0 granted nonsecure 1 cold 64k 0 0\n1.1 granted nonsecure 1 hit 64k 0\nl0 0 1 0x80000003\n\
l0 1 3 0xf1\nl1 0 0 32 0x9999999999999999\nl1 0 32 1 0x999999999999999b\n\
l1 0 33 16351 0x9999999999999999\ngen 2m 1 1\ngen 32m 0 1\ngen 512m 0 1\n\
line 0x20000000 nonsecure\nend\n";

/// The head and the regions of a board of four spaces.
const BOARD: &str = "gpt 1\nspace 4\nmax 512\nlocks 1\nfirst 0\nring 8\ntables 3\nbase 0xc0000000\n\
region 0xc0000000 0x40000000 block root\nregion 0x0 0x40000000 granule secure\n\
region 0x40000000 0x60000000 granule nonsecure\nregion 0xa0000000 0x20000000 granule realm\n";

const BOARD_REPORT: &[u8] = b"report 1 tables\nl0 0 1 0xc0000003\nl0 1 1 0xc0020003\n\
l0 2 1 0xc0040003\nl0 3 1 0xa1\nl1 0 0 16384 0x381\nl1 1 0 16384 0x391\nl1 2 0 8192 0x391\n\
l1 2 8192 8192 0x3b1\nend\n";

const USAGE: &[u8] = b"usage: gpt_cli tables | play | race | load N\n";

/// A source of this text whose read of this number fails, counted from 1; for 0 none fails.
fn source(alloc: Global, text: &[u8], failing: u64) -> Result<MemorySource, AllocError> {
    Ok(MemorySource::new(text.to_vec(alloc)?, vec![in alloc; failing]?))
}

/// A sink that takes at most ten bytes in a write and `room` in all, and whose write of this number
/// fails, counted from 1; for 0 none fails.
fn sink(alloc: Global, room: usize, failing: u64) -> Result<MemorySink, AllocError> {
    MemorySink::new(alloc, 10, room, vec![in alloc; failing]?)
}

/// Each 250 granules from an address on, in lines that begin and end with these words.
fn push_calls(
    alloc: Global,
    text: &mut String,
    first: u64,
    calls: &[(&str, &str)],
) -> Result<(), AllocError> {
    for k in 0..250u64 {
        let address = first.saturating_add(k.saturating_mul(0x1000));
        for (call, of) in calls {
            text.push_str(&format!(in alloc; "{call} 0x{address:x} {of}\n")?)?;
        }
    }
    Ok(())
}

/// The text of the board, with two agents and four processors of 2,000 calls, and no schedule.
fn board(alloc: Global) -> Result<Vec<u8>, AllocError> {
    let mut text = String::from_str(alloc, BOARD)?;
    for (first, source) in [(0x4000_0000u64, "realm"), (0x6000_0000, "secure")] {
        text.push_str("agent\n")?;
        push_calls(
            alloc,
            &mut text,
            first,
            &[("delegate", source), ("undelegate", source)],
        )?;
    }
    for _ in 0..4 {
        text.push_str("cpu\n")?;
        push_calls(alloc, &mut text, 0x8000_0000, &[("look", "nonsecure")])?;
    }
    text.push_str("end\n")?;
    Ok(text.into_bytes())
}

/// The status of a run over memory with these words.
fn status<R: Threads + Wait + Sync>(
    rt: &R,
    alloc: Global,
    words: &[&str],
    source: &mut MemorySource,
    sink: &mut MemorySink,
) -> u8 {
    top(rt, alloc, words, source, sink, &OpenGate)
}

#[test]
fn a_report_is_written_whole(rt: HostRuntime) -> Result<(), Fail> {
    let alloc = rt.alloc();
    let mut source = source(alloc, SCENARIO, 0)?;
    let mut sink = sink(alloc, REPORT.len(), 0)?;
    assert_eq!(rt; status(&rt, alloc, &["tables"], &mut source, &mut sink), 0);
    assert_eq!(rt; sink.taken(), REPORT);
    assert_eq!(rt; source.reads(), 2);
    assert_eq!(rt; sink.writes(), 7);
    Ok(())
}

#[test]
fn a_played_schedule_is_reported(rt: HostRuntime) -> Result<(), Fail> {
    let alloc = rt.alloc();
    for (input, text, want) in [(REFUSED, PLAYED, 0u8), (CUT, LEFT, 6)] {
        let mut source = source(alloc, input, 0)?;
        let mut sink = sink(alloc, text.len(), 0)?;
        assert_eq!(rt; status(&rt, alloc, &["play"], &mut source, &mut sink), want);
        assert_eq!(rt; sink.taken(), text);
    }
    Ok(())
}

#[test]
fn a_failed_read_leaves_the_sink_empty(rt: HostRuntime) -> Result<(), Fail> {
    let alloc = rt.alloc();
    for failing in 1..=2u64 {
        let mut source = source(alloc, SCENARIO, failing)?;
        let mut sink = sink(alloc, REPORT.len(), 0)?;
        assert_eq!(rt;
            status(&rt, alloc, &["tables"], &mut source, &mut sink),
            3,
            "at {failing}"
        );
        assert_eq!(rt; source.reads(), failing);
        assert_eq!(rt; sink.writes(), 0, "at {failing}");
        assert!(rt; sink.taken().is_empty());
    }
    Ok(())
}

#[test]
fn a_failed_read_of_a_long_input_leaves_the_sink_empty(rt: HostRuntime) -> Result<(), Fail> {
    let alloc = rt.alloc();
    let input = board(alloc)?;
    assert_eq!(rt; input.len(), 53_769);
    // Fourteen pieces, and the end.
    for command in ["tables", "play", "race"] {
        for failing in 1..=15u64 {
            let mut source = source(alloc, &input, failing)?;
            let mut sink = sink(alloc, BOARD_REPORT.len(), 0)?;
            assert_eq!(rt;
                status(&rt, alloc, &[command], &mut source, &mut sink),
                3,
                "at {failing}"
            );
            assert_eq!(rt; (source.reads(), sink.writes()), (failing, 0));
        }
    }
    let mut source = source(alloc, &input, 16)?;
    let mut sink = sink(alloc, BOARD_REPORT.len(), 0)?;
    assert_eq!(rt; status(&rt, alloc, &["tables"], &mut source, &mut sink), 0);
    assert_eq!(rt; sink.taken(), BOARD_REPORT);
    assert_eq!(rt; source.reads(), 15);
    Ok(())
}

/// The board with a byte after its end is refused before a caller runs.
#[test]
fn a_race_reads_as_often_as_another_command(rt: HostRuntime) -> Result<(), Fail> {
    let alloc = rt.alloc();
    let mut input = board(alloc)?;
    input.push(b'x')?;
    for command in ["tables", "play", "race"] {
        let mut source = source(alloc, &input, 16)?;
        let mut sink = sink(alloc, 20, 0)?;
        assert_eq!(rt; status(&rt, alloc, &[command], &mut source, &mut sink), 1);
        assert_eq!(rt; sink.taken(), b"line 2020: after\n".as_slice());
        assert_eq!(rt; source.reads(), 15);
    }
    Ok(())
}

#[test]
fn a_failed_write_cuts_the_text_where_it_comes(rt: HostRuntime) -> Result<(), Fail> {
    let alloc = rt.alloc();
    // Ten bytes at a time.
    let table = [
        ("tables", SCENARIO, REPORT, 7u64),
        ("tables", BAD_BASE, BASE_LINE, 2),
        ("play", TURNS, TURNS_REPORT, 31),
        ("race", APART, APART_REPORT, 29),
        ("race", BAD_BASE, BASE_LINE, 2),
    ];
    for (command, input, text, writes) in table {
        for failing in 1..=writes {
            let mut source = source(alloc, input, 0)?;
            let mut sink = sink(alloc, text.len(), failing)?;
            assert_eq!(rt;
                status(&rt, alloc, &[command], &mut source, &mut sink),
                4,
                "at {failing}"
            );
            assert_eq!(rt; sink.taken().len() as u64 + 10, 10 * failing);
            assert!(rt; text.starts_with(sink.taken()), "at {failing}");
            assert_eq!(rt; sink.writes(), failing);
        }
    }
    Ok(())
}

#[test]
fn a_full_sink_cuts_the_text_at_its_room(rt: HostRuntime) -> Result<(), Fail> {
    let alloc = rt.alloc();
    let table = [
        ("tables", SCENARIO, REPORT, 0),
        ("tables", BAD_BASE, BASE_LINE, 1),
        ("play", TURNS, TURNS_REPORT, 0),
        ("race", APART, APART_REPORT, 0),
        ("race", BAD_BASE, BASE_LINE, 1),
    ];
    for (command, input, text, whole) in table {
        for room in 0..=text.len() {
            let mut source = source(alloc, input, 0)?;
            let mut sink = sink(alloc, room, 0)?;
            let want = if room < text.len() { 4 } else { whole };
            assert_eq!(rt;
                status(&rt, alloc, &[command], &mut source, &mut sink),
                want,
                "at {room}"
            );
            assert_eq!(rt; sink.taken().len(), room);
            assert!(rt; text.starts_with(sink.taken()), "at {room}");
        }
    }
    Ok(())
}

#[test]
fn words_that_are_no_command_read_nothing(rt: HostRuntime) -> Result<(), Fail> {
    let alloc = rt.alloc();
    let table: [&[&str]; 11] = [
        &[],
        &["table"],
        &["tables", "tables"],
        &["play", "0"],
        &["race", "0"],
        &["load"],
        &["load", "01"],
        &["load", ""],
        &["load", "-1"],
        &["load", "4294967296"],
        &["load", "0", "0"],
    ];
    for words in table {
        let mut source = source(alloc, SCENARIO, 1)?;
        let mut whole = sink(alloc, USAGE.len(), 0)?;
        let mut failing = sink(alloc, USAGE.len(), 1)?;
        assert_eq!(rt; status(&rt, alloc, words, &mut source, &mut whole), 2);
        assert_eq!(rt; whole.taken(), USAGE);
        assert_eq!(rt; status(&rt, alloc, words, &mut source, &mut failing), 4);
        assert!(rt; failing.taken().is_empty());
        assert_eq!(rt; source.reads(), 0);
    }
    Ok(())
}

#[test]
fn a_load_reads_nothing_and_replies_by_its_number(rt: HostRuntime) -> Result<(), Fail> {
    let alloc = rt.alloc();
    let table = [
        ("0", "report 1 load 0\ndone 51\nperm 49\nworn 0\n"),
        (
            "4294967295",
            "report 1 load 4294967295\ndone 42\nperm 58\nworn 0\n",
        ),
    ];
    for (number, first) in table {
        let words = ["load", number];
        let mut source = source(alloc, SCENARIO, 1)?;
        let mut once = sink(alloc, 300, 0)?;
        assert_eq!(rt; status(&rt, alloc, &words, &mut source, &mut once), 0);
        assert!(rt; once.taken().starts_with(first.as_bytes()), "of {number}");
        assert!(rt; once.taken().ends_with(b"\nend\n"), "of {number}");
        let mut again = sink(alloc, 300, 0)?;
        assert_eq!(rt; status(&rt, alloc, &words, &mut source, &mut again), 0);
        assert_eq!(rt; again.taken(), once.taken());
        let mut failing = sink(alloc, 300, 2)?;
        assert_eq!(rt; status(&rt, alloc, &words, &mut source, &mut failing), 4);
        assert_eq!(rt; failing.taken(), b"report 1 l".as_slice());
        assert_eq!(rt; source.reads(), 0);
    }
    Ok(())
}

#[test]
fn the_first_rule_that_refuses_is_named(rt: HostRuntime) -> Result<(), Fail> {
    let alloc = rt.alloc();
    let table = [
        (BAD_LINE, "line 6: value\n"),
        (BAD_PLAN, "plan: unaligned 0\n"),
        (BAD_BASE, "base: 0x80010000\n"),
    ];
    for (input, line) in table {
        let mut source = source(alloc, input, 0)?;
        let mut sink = sink(alloc, 20, 0)?;
        assert_eq!(rt; status(&rt, alloc, &["play"], &mut source, &mut sink), 1);
        assert_eq!(rt; sink.taken(), line.as_bytes());
    }
    Ok(())
}

#[test]
fn an_input_has_a_limit(rt: HostRuntime) -> Result<(), Fail> {
    let alloc = rt.alloc();
    let table = [
        (1_048_576, "line 1: word\n", 257),
        (1_048_577, "too long\n", 257),
        (1_050_000, "too long\n", 257),
    ];
    for (length, line, reads) in table {
        let mut source = MemorySource::new(vec![in alloc; b'\n'; length]?, Vec::new(alloc));
        let mut sink = sink(alloc, 20, 0)?;
        assert_eq!(rt;
            status(&rt, alloc, &["tables"], &mut source, &mut sink),
            1,
            "of {length}"
        );
        assert_eq!(rt; sink.taken(), line.as_bytes());
        assert_eq!(rt; source.reads(), reads, "of {length}");
    }
    Ok(())
}
