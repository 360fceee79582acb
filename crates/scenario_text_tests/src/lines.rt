use scenario_text::{Fault, TextError, parse, print};
use std::alloc::Global;
use std::test::Fail;

/// A scenario with each kind of line.
const LINES: [&str; 19] = [
    "gpt 1",
    "space 4",
    "max 512",
    "locks 1",
    "first 7",
    "ring 8",
    "tables 3",
    "base 0xc0000000",
    "region 0x0 0x40000000 granule secure",
    "agent",
    "delegate 0x40000000 realm",
    "undelegate 0x40001000 secure",
    "smc delegate 0x1000 nonsecure",
    "smc undelegate 0x2000 realm",
    "cpu",
    "look 0xffffffff root",
    "turn 0 5",
    "round 2 3",
    "end",
];

/// Lines at the ends of their ranges, each in its place.
const GOOD: [(usize, &str); 26] = [
    (2, "space 64"),
    (3, "max 0"),
    (3, "max 2"),
    (3, "max 32"),
    (4, "locks 0"),
    (4, "locks 2"),
    (4, "locks 4"),
    (4, "locks 8"),
    (5, "first 0"),
    (5, "first 9223372036854775807"),
    (6, "ring 1"),
    (6, "ring 64"),
    (7, "tables 0"),
    (7, "tables 16"),
    (8, "base 0x0"),
    (8, "base 0xffffffffffffffff"),
    (9, "region 0xffffffffffffffff 0x1 block any"),
    (9, "region 0x0 0xffffffffffffffff granule none"),
    (9, "agent"),
    (11, "delegate 0xffffffffffffffff secure"),
    (16, "cpu"),
    (16, "look 0x0 nonsecure"),
    (16, "look 0xffffffff secure"),
    (17, "turn 1 19999988"),
    (18, "round 1 9999997"),
    (18, "round 9999997 1"),
];

/// Lines with a fault, each in the place of another line.
const BAD: [(usize, &str, Fault); 96] = [
    // The first field isn't a word that may come here.
    (1, "", Fault::Word),
    (1, "gpu 1", Fault::Word),
    (1, "Gpt 1", Fault::Word),
    (1, " gpt 1", Fault::Word),
    (1, "gpt\t1", Fault::Word),
    (1, "gpt 1\r", Fault::Number),
    (1, "space 4", Fault::Word),
    (1, "agent", Fault::Word),
    (2, "gpt 1", Fault::Word),
    (8, "end", Fault::Word),
    (9, "base 0x0", Fault::Word),
    (9, "delegate 0x0 realm", Fault::Word),
    (9, "look 0x0 root", Fault::Word),
    (11, "region 0x0 0x40000000 granule secure", Fault::Word),
    (11, "look 0x0 root", Fault::Word),
    (16, "delegate 0x0 realm", Fault::Word),
    (16, "smc delegate 0x0 realm", Fault::Word),
    (18, "agent", Fault::Word),
    (18, "cpu", Fault::Word),
    (18, "look 0x0 root", Fault::Word),
    (19, "over", Fault::Word),
    // The number of fields is wrong, or a field is empty.
    (1, "gpt", Fault::Fields),
    (1, "gpt ", Fault::Fields),
    (1, "gpt  1", Fault::Fields),
    (1, "gpt 1 ", Fault::Fields),
    (1, "gpt 1 1", Fault::Fields),
    (8, "base", Fault::Fields),
    (9, "region 0x0 0x40000000 granule", Fault::Fields),
    (9, "region 0x0 0x40000000 granule secure x", Fault::Fields),
    (9, "region 0x0  granule secure", Fault::Fields),
    (9, "region 0 1 granules", Fault::Fields),
    (9, "region 0x0 0x1 granule ", Fault::Fields),
    (16, "look 1 any x", Fault::Fields),
    (17, "turn 2 0 x", Fault::Fields),
    (10, "agent x", Fault::Fields),
    (10, "agent ", Fault::Fields),
    (11, "delegate 0x40000000", Fault::Fields),
    (11, "delegate x y z", Fault::Fields),
    (13, "smc delegate 0x1000", Fault::Fields),
    (13, "smc delegate 0x1000 realm x x x x", Fault::Fields),
    (16, "look 0x0", Fault::Fields),
    (17, "turn 0", Fault::Fields),
    (18, "round 2 3 2", Fault::Fields),
    (19, "end ", Fault::Fields),
    // A field isn't spelled as a count or an address.
    (1, "gpt 01", Fault::Number),
    (2, "space 0x4", Fault::Number),
    (2, "space +4", Fault::Number),
    (2, "space four", Fault::Number),
    (5, "first 18446744073709551616", Fault::Number),
    (8, "base c0000000", Fault::Number),
    (8, "base 0x", Fault::Number),
    (8, "base 0x00", Fault::Number),
    (8, "base 0xC0000000", Fault::Number),
    (8, "base 0X0", Fault::Number),
    (8, "base 0x10000000000000000", Fault::Number),
    (9, "region 0 0x40000000 granule secure", Fault::Number),
    (9, "region 0x0 1 granules secures", Fault::Number),
    (11, "delegate 1 realm", Fault::Number),
    (11, "delegate x nonsecure", Fault::Number),
    (13, "smc delegate 1 root", Fault::Number),
    (16, "look 1 any", Fault::Number),
    (17, "turn x 0", Fault::Number),
    (17, "turn 0 -1", Fault::Number),
    (18, "round 1 x", Fault::Number),
    // A field isn't in its range, or isn't one of its names.
    (1, "gpt 0", Fault::Value),
    (1, "gpt 2", Fault::Value),
    (2, "space 0", Fault::Value),
    (2, "space 5", Fault::Value),
    (3, "max 1", Fault::Value),
    (4, "locks 3", Fault::Value),
    (4, "locks 16", Fault::Value),
    (5, "first 9223372036854775808", Fault::Value),
    (6, "ring 0", Fault::Value),
    (6, "ring 65", Fault::Value),
    (7, "tables 17", Fault::Value),
    (9, "region 0x0 0x1 blocks secure", Fault::Value),
    (9, "region 0x0 0x1 block Secure", Fault::Value),
    (11, "delegate 0x40000000 nonsecure", Fault::Value),
    (12, "undelegate 0x40000000 root", Fault::Value),
    (13, "smc ringing 0x1000 realm", Fault::Value),
    (13, "smc look 1 realm", Fault::Value),
    (13, "smc delegate 0x1000 root", Fault::Value),
    (16, "look 0x100000000 root", Fault::Value),
    (16, "look 0x100000000 any", Fault::Value),
    (16, "look 0x0 any", Fault::Value),
    (17, "turn 2 1", Fault::Value),
    (17, "turn 2 x", Fault::Value),
    (17, "turn 0 0", Fault::Value),
    (17, "turn 0 20000001", Fault::Value),
    (18, "round 0 1", Fault::Value),
    (18, "round 1 0", Fault::Value),
    (18, "round 20000001 1", Fault::Value),
    (18, "round 1 20000001", Fault::Value),
    // The turns pass 20,000,000.
    (18, "turn 0 19999996", Fault::Limit),
    (18, "round 1 9999998", Fault::Limit),
    (18, "round 20000000 20000000", Fault::Limit),
];

/// The text of these lines, with another text in place of line `number`, counted from 1.
fn text_with(alloc: Global, number: usize, other: &str) -> Result<Vec<u8>, Fail> {
    let mut text = Vec::new(alloc);
    for (k, line) in LINES.iter().enumerate() {
        let line = if k + 1 == number { other } else { *line };
        text.extend_from_slice(line.as_bytes())?;
        text.push(b'\n')?;
    }
    Ok(text)
}

/// The error of a text, if it has one.
fn error_of(alloc: Global, text: &[u8]) -> Option<TextError> {
    parse(alloc, text).err()
}

/// The error of the text with another line, if it has one.
fn error_with(alloc: Global, number: usize, other: &str) -> Result<Option<TextError>, Fail> {
    let text = text_with(alloc, number, other)?;
    Ok(error_of(alloc, &text))
}

/// The text that is printed of what a text is read as; none where it has an error.
fn printed(alloc: Global, text: &[u8]) -> Result<Vec<u8>, Fail> {
    match parse(alloc, text) {
        Ok(scenario) => Ok(print(alloc, &scenario)?),
        Err(_) => Ok(Vec::new(alloc)),
    }
}

#[test]
fn lines_at_the_ends_of_their_ranges_are_read_and_printed(rt: HostRuntime) -> Result<(), Fail> {
    for (number, line) in GOOD.iter() {
        let text = text_with(rt.alloc(), *number, line)?;
        assert_eq!(rt; error_of(rt.alloc(), &text), None, "{line}");
        assert_eq!(rt; printed(rt.alloc(), &text)?, text, "{line}");
    }
    Ok(())
}

#[test]
fn each_fault_is_reported(rt: HostRuntime) -> Result<(), Fail> {
    for (number, line, fault) in BAD.iter() {
        let found = error_with(rt.alloc(), *number, line)?;
        let want = Some(TextError::Line(*number as u64, *fault));
        assert_eq!(rt; found, want, "{number}: {line}");
    }
    Ok(())
}

#[test]
fn a_prefix_of_a_text_ends_too_early(rt: HostRuntime) -> Result<(), Fail> {
    let text = text_with(rt.alloc(), 0, "")?;
    let mut number = 1u64;
    for (len, byte) in text.iter().enumerate() {
        let want = Some(TextError::Line(number, Fault::End));
        assert_eq!(rt; error_of(rt.alloc(), &text[..len]), want, "of {len} bytes");
        if *byte == b'\n' {
            number = number.saturating_add(1);
        }
    }
    Ok(())
}

/// The first eight lines.
const HEAD: &str = "\
gpt 1
space 4
max 512
locks 1
first 7
ring 8
tables 3
base 0xc0000000
";

/// What comes after the first eight lines: a prefix, a line n times, and a rest; and the error.
const LONG: [(&str, &str, u64, &str, Option<TextError>); 19] = [
    // There are 32 callers at most.
    ("", "agent\n", 32, "end\n", None),
    ("", "cpu\n", 32, "turn 31 1\nend\n", None),
    (
        "",
        "cpu\n",
        32,
        "turn 32 1\n",
        Some(TextError::Line(41, Fault::Value)),
    ),
    (
        "",
        "agent\n",
        32,
        "agent\n",
        Some(TextError::Line(41, Fault::Limit)),
    ),
    (
        "",
        "agent\n",
        32,
        "cpu\n",
        Some(TextError::Line(41, Fault::Limit)),
    ),
    (
        "",
        "agent\n",
        32,
        "agent x\n",
        Some(TextError::Line(41, Fault::Limit)),
    ),
    (
        "",
        "agent\n",
        32,
        "cpu \n",
        Some(TextError::Line(41, Fault::Limit)),
    ),
    // A line of the schedule that passes the limit of all turns.
    ("cpu\n", "turn 0 2000\n", 10_000, "end\n", None),
    (
        "cpu\n",
        "turn 0 2000\n",
        10_000,
        "turn 0 1\n",
        Some(TextError::Line(10_010, Fault::Limit)),
    ),
    ("cpu\n", "turn 0 20000000\n", 1, "end\n", None),
    (
        "cpu\n",
        "turn 0 20000000\n",
        1,
        "turn 0 1\n",
        Some(TextError::Line(11, Fault::Limit)),
    ),
    ("cpu\n", "round 20000000 1\n", 1, "end\n", None),
    (
        "cpu\ncpu\n",
        "round 10000000 1\n",
        1,
        "round 1 1\n",
        Some(TextError::Line(12, Fault::Limit)),
    ),
    // Many lines.
    ("cpu\n", "look 0x1000 root\n", 100_000, "end\n", None),
    // Nothing comes after the end.
    ("end\n", "", 0, "x", Some(TextError::Line(10, Fault::After))),
    (
        "end\n",
        "",
        0,
        "\n",
        Some(TextError::Line(10, Fault::After)),
    ),
    (
        "end\n",
        "",
        0,
        "end\n",
        Some(TextError::Line(10, Fault::After)),
    ),
    (
        "end\n",
        "",
        0,
        "turn 0 1\n",
        Some(TextError::Line(10, Fault::After)),
    ),
    (
        "end\n",
        "",
        0,
        "turn 0 1",
        Some(TextError::Line(10, Fault::After)),
    ),
];

/// The first eight lines, a prefix, a line n times, and a rest.
fn long_text(
    alloc: Global,
    prefix: &str,
    line: &str,
    count: u64,
    rest: &str,
) -> Result<Vec<u8>, Fail> {
    let mut text = Vec::new(alloc);
    text.extend_from_slice(HEAD.as_bytes())?;
    text.extend_from_slice(prefix.as_bytes())?;
    for _ in 0..count {
        text.extend_from_slice(line.as_bytes())?;
    }
    text.extend_from_slice(rest.as_bytes())?;
    Ok(text)
}

#[test]
fn long_texts_and_ends_are_read(rt: HostRuntime) -> Result<(), Fail> {
    for (prefix, line, count, rest, want) in LONG.iter() {
        let text = long_text(rt.alloc(), prefix, line, *count, rest)?;
        assert_eq!(rt; error_of(rt.alloc(), &text), *want, "{line} and {rest}");
    }
    Ok(())
}

#[test]
fn a_text_of_the_greatest_length_is_read_and_printed(rt: HostRuntime) -> Result<(), Fail> {
    let prefix = "cpu\nlook 0x10000 nonsecure\n";
    let text = long_text(rt.alloc(), prefix, "look 0x1000 root\n", 61_675, "end\n")?;
    assert_eq!(rt; text.len(), 1_048_576);
    assert_eq!(rt; error_of(rt.alloc(), &text), None);
    assert!(rt; printed(rt.alloc(), &text)? == text);
    Ok(())
}
