use crate::looked::{WORD, cold, hit, seen};
use crate::played::{answers, done, played_text};
use gpi_values::Gpi;
use history::Outcome;
use std::test::Fail;

/// A shared word of 4 GB with one table. With one processor its duty word is 2186, and the line words
/// begin at 18571.
fn word(outcome: &Outcome, place: usize) -> Result<u64, Fail> {
    Ok(*outcome.words.as_slice().get(place).ok_or("no words")?)
}

/// A delegate beside an access that has set its duty word before the delegate's first act.
const BESIDE_AN_ACCESS: &str =
    "agent\ndelegate 0x0 realm\ncpu\nlook 0x0 nonsecure\nturn 1 1\nturn 0 100\n";

#[test]
fn a_barrier_waits_for_an_access_from_before(rt: HostRuntime) -> Result<(), Fail> {
    let outcome = played_text(rt.alloc(), 0, "nonsecure", BESIDE_AN_ACCESS)?;
    assert!(rt; answers(&outcome, 0)?.is_empty());
    // It holds its lock, has raised its generations, and leaves the duty word as it is.
    for place in [0, 2, 2050, 2178, 2186] {
        assert_eq!(rt; word(&outcome, place)?, 1);
    }
    Ok(())
}

#[test]
fn a_barrier_passes_when_the_access_is_over(rt: HostRuntime) -> Result<(), Fail> {
    // The rest of the access; and then the load of its duty word, the last clean and the unlock.
    for (turns, count) in [(2, 0), (3, 1)] {
        let rest = format!(in rt.alloc(); "{BESIDE_AN_ACCESS}turn 1 6\nturn 0 {turns}\n")?;
        let outcome = played_text(rt.alloc(), 0, "nonsecure", rest.as_str())?;
        let want = [seen(Gpi::Realm, false, cold(WORD, 1, 1))];
        assert_eq!(rt; answers(&outcome, 1)?, want.as_slice());
        assert_eq!(rt; answers(&outcome, 0)?.len(), count);
    }
    Ok(())
}

#[test]
fn an_undelegate_waits_behind_each_of_its_changes(rt: HostRuntime) -> Result<(), Fail> {
    // Two processors. The first change has one raise of each generation before its barrier, and the
    // second one another.
    let rest =
        "agent\nundelegate 0x0 realm\ncpu\nlook 0x0 realm\ncpu\nlook 0x0 realm\nlook 0x0 realm\n";
    for (lines, count, raised) in [
        ("turn 2 1\nturn 0 100\n", 0, 1),
        (
            "turn 2 1\nturn 0 100\nturn 1 1\nturn 2 6\nturn 0 100\n",
            0,
            2,
        ),
        ("turn 2 1\nturn 0 100\nturn 2 6\nturn 0 100\n", 1, 2),
        ("turn 2 8\nturn 0 13\nturn 2 1\nturn 0 100\n", 0, 2),
    ] {
        let rest = format!(in rt.alloc(); "{rest}{lines}")?;
        let outcome = played_text(rt.alloc(), 0, "realm", rest.as_str())?;
        assert_eq!(rt; answers(&outcome, 0)?.len(), count, "{lines}");
        assert_eq!(rt; word(&outcome, 2)?, raised, "{lines}");
    }
    Ok(())
}

#[test]
fn an_allowed_access_makes_its_line_resident(rt: HostRuntime) -> Result<(), Fail> {
    // Of two accesses that walk and one that is hit, and one that isn't allowed: the line words of the
    // first 64 KB and of the second.
    let calls =
        "cpu\nlook 0x3fff nonsecure\nlook 0x0 realm\nlook 0x1f000 nonsecure\nlook 0x4000 nonsecure\n";
    for (turns, first, second) in [
        (6, 0, 0),
        (7, 0x2000, 0),
        (15, 0x2000, 0),
        (17, 0x2000, 0),
        (100, 0x2_2000, 0x2000_0000_0000_0000),
    ] {
        let rest = format!(in rt.alloc(); "{calls}turn 0 {turns}\n")?;
        let outcome = played_text(rt.alloc(), 0, "nonsecure", rest.as_str())?;
        assert_eq!(rt; word(&outcome, 18571)?, first, "after {turns} turns");
        assert_eq!(rt; word(&outcome, 18572)?, second, "after {turns} turns");
    }
    Ok(())
}

#[test]
fn a_delegate_cleans_the_line_of_its_former_space_last(rt: HostRuntime) -> Result<(), Fail> {
    // After the barrier, as its 12th act beside a processor. The line of the next granule stays.
    let calls =
        "agent\ndelegate 0x0 realm\ncpu\nlook 0x0 nonsecure\nlook 0x1000 nonsecure\nturn 1 12\n";
    for (turns, line, count) in [(11, 0x22, 0), (12, 0x20, 0), (13, 0x20, 1)] {
        let rest = format!(in rt.alloc(); "{calls}turn 0 {turns}\n")?;
        let outcome = played_text(rt.alloc(), 0, "nonsecure", rest.as_str())?;
        assert_eq!(rt; word(&outcome, 18571)?, line, "after {turns} turns");
        assert_eq!(rt; answers(&outcome, 0)?.len(), count, "after {turns} turns");
    }
    Ok(())
}

#[test]
fn a_touch_after_the_change_is_cleaned(rt: HostRuntime) -> Result<(), Fail> {
    // The access is hit by a walk from before the change, and touches its line after the raises: the
    // delegate waits for its last act, and then cleans.
    let rest = "agent\ndelegate 0x0 realm\ncpu\nlook 0x0 nonsecure\nlook 0x0 nonsecure\n\
        turn 1 8\nturn 0 7\nturn 1 2\nturn 0 5\nturn 1 1\nturn 0 2\n";
    let outcome = played_text(rt.alloc(), 0, "nonsecure", rest)?;
    assert_eq!(rt; word(&outcome, 18571)?, 2);
    assert_eq!(rt; answers(&outcome, 1)?.len(), 1);
    let whole = format!(in rt.alloc(); "{rest}turn 1 1\nturn 0 3\n")?;
    let outcome = played_text(rt.alloc(), 0, "nonsecure", whole.as_str())?;
    assert_eq!(rt; word(&outcome, 18571)?, 0);
    assert_eq!(rt; answers(&outcome, 0)?, [done(1)].as_slice());
    let want = [
        seen(Gpi::NonSecure, true, cold(WORD, 0, 0)),
        seen(Gpi::NonSecure, true, hit(WORD, 0)),
    ];
    assert_eq!(rt; answers(&outcome, 1)?, want.as_slice());
    Ok(())
}
