use crate::played::{answers, done, played_whole};
use gpi_values::Gpi;
use gpt_descriptors::Reach;
use history::{Access, Answer, Outcome, Via};
use std::alloc::Global;
use std::test::Fail;

pub const WORD: Reach = Reach::Word;

const ALL_512: Reach = Reach::FiveTwelve;

const ALL_32: Reach = Reach::ThirtyTwo;

/// What playing a scenario leaves of 4 GB with contiguous entries of up to `max` MB, of which the
/// first is Non-secure by granules. Generations start at 3, and processors keep `ring` walks.
fn looked(alloc: Global, max: u64, ring: u64, rest: &str) -> Result<Outcome, Fail> {
    let text = format!(in alloc;
        "gpt 1\nspace 4\nmax {max}\nlocks 1\nfirst 3\nring {ring}\ntables 1\nbase 0x80000000\n\
         region 0x0 0x40000000 granule nonsecure\n{rest}end\n"
    )?;
    played_whole(alloc, text.as_str())
}

/// The answer of an access at a table.
pub fn seen(gpi: Gpi, allowed: bool, via: Via) -> Answer {
    Answer::Seen(Access {
        allowed,
        gpi,
        level: 1,
        via,
    })
}

pub fn cold(reach: Reach, lo: u64, hi: u64) -> Via {
    Via::Cold { reach, lo, hi }
}

pub fn hit(reach: Reach, at: u64) -> Via {
    Via::Hit { reach, at }
}

/// A kept walk of this reach and tag whose generation is `at`, and then a walk with this generation
/// before its word and after it.
fn missed(reach: Reach, tag: u64, at: u64, then: Reach, generation: u64) -> Via {
    Via::Missed {
        reach,
        tag,
        at,
        then,
        lo: generation,
        hi: generation,
    }
}

/// The duty word of the only processor, or of the first one.
fn duty(outcome: &Outcome) -> Result<u64, Fail> {
    Ok(*outcome.words.as_slice().get(2186).ok_or("no words")?)
}

#[test]
fn accesses_are_answered_by_the_word_and_its_generation(rt: HostRuntime) -> Result<(), Fail> {
    let rest = "cpu\nlook 0x0 nonsecure\nlook 0x10000 realm\nlook 0x40000000 root\nturn 0 100\n";
    let outcome = looked(rt.alloc(), 0, 8, rest)?;
    let beyond = Answer::Seen(Access {
        allowed: true,
        gpi: Gpi::Any,
        level: 0,
        via: Via::Still,
    });
    let want = [
        seen(Gpi::NonSecure, true, cold(WORD, 3, 3)),
        seen(Gpi::NonSecure, false, cold(WORD, 3, 3)),
        beyond,
    ];
    assert_eq!(rt; answers(&outcome, 0)?, want.as_slice());
    assert_eq!(rt; duty(&outcome)?, 0);
    Ok(())
}

#[test]
fn an_access_may_be_cut_with_its_duty_word_set(rt: HostRuntime) -> Result<(), Fail> {
    let rest = "agent\ncpu\nlook 0x40000000 root\nlook 0x0 nonsecure\nturn 1 6\n";
    let outcome = looked(rt.alloc(), 0, 8, rest)?;
    assert_eq!(rt; answers(&outcome, 1)?.len(), 1);
    assert_eq!(rt; duty(&outcome)?, 1);
    // An allowed access that is hit has four acts, after the eight of the one before it.
    let calls = "cpu\nlook 0x0 nonsecure\nlook 0xffff nonsecure\n";
    let cut = format!(in rt.alloc(); "{calls}turn 0 11\n")?;
    let outcome = looked(rt.alloc(), 0, 8, cut.as_str())?;
    assert_eq!(rt; answers(&outcome, 0)?.len(), 1);
    assert_eq!(rt; duty(&outcome)?, 1);
    let whole = format!(in rt.alloc(); "{calls}turn 0 12\n")?;
    let outcome = looked(rt.alloc(), 0, 8, whole.as_str())?;
    let want = [
        seen(Gpi::NonSecure, true, cold(WORD, 3, 3)),
        seen(Gpi::NonSecure, true, hit(WORD, 3)),
    ];
    assert_eq!(rt; answers(&outcome, 0)?, want.as_slice());
    assert_eq!(rt; duty(&outcome)?, 0);
    Ok(())
}

#[test]
fn an_access_sees_a_change_before_or_after_its_word(rt: HostRuntime) -> Result<(), Fail> {
    // The change is made between the generations and the word, and after the word; its generations
    // are raised before the access loads the one of its word again.
    let before =
        "agent\ndelegate 0x0 realm\ncpu\nlook 0x0 realm\nturn 0 6\nturn 1 4\nturn 0 4\nturn 1 4\n";
    let outcome = looked(rt.alloc(), 0, 8, before)?;
    let want = [seen(Gpi::Realm, true, cold(WORD, 3, 4))];
    assert_eq!(rt; answers(&outcome, 1)?, want.as_slice());
    let after =
        "agent\ndelegate 0x0 realm\ncpu\nlook 0x0 realm\nturn 0 6\nturn 1 5\nturn 0 4\nturn 1 2\n";
    let outcome = looked(rt.alloc(), 0, 8, after)?;
    let want = [seen(Gpi::NonSecure, false, cold(WORD, 3, 4))];
    assert_eq!(rt; answers(&outcome, 1)?, want.as_slice());
    Ok(())
}

#[test]
fn a_walk_is_tagged_by_what_was_loaded_before_its_word(rt: HostRuntime) -> Result<(), Fail> {
    // Its word has the change already, and its tag is from before the raises.
    let rest = "agent\ndelegate 0x0 realm\ncpu\nlook 0x0 realm\nlook 0x0 realm\nlook 0x0 realm\n\
        turn 0 6\nturn 1 4\nturn 0 4\nturn 1 17\n";
    let outcome = looked(rt.alloc(), 0, 8, rest)?;
    let want = [
        seen(Gpi::Realm, true, cold(WORD, 3, 4)),
        seen(Gpi::Realm, true, missed(WORD, 3, 4, WORD, 4)),
        seen(Gpi::Realm, true, hit(WORD, 4)),
    ];
    assert_eq!(rt; answers(&outcome, 1)?, want.as_slice());
    Ok(())
}

#[test]
fn a_kept_walk_gives_the_former_gpi_until_its_raise(rt: HostRuntime) -> Result<(), Fail> {
    // After the change, after the raise of 2 MB, and after the transition is done.
    let rest = "agent\ndelegate 0x0 realm\ncpu\nlook 0x0 nonsecure\nlook 0x0 nonsecure\n\
        look 0x0 nonsecure\nlook 0x0 realm\n\
        turn 1 8\nturn 0 7\nturn 1 4\nturn 0 1\nturn 1 8\nturn 0 5\nturn 1 4\n";
    let outcome = looked(rt.alloc(), 0, 8, rest)?;
    assert_eq!(rt; answers(&outcome, 0)?, [done(4)].as_slice());
    let want = [
        seen(Gpi::NonSecure, true, cold(WORD, 3, 3)),
        seen(Gpi::NonSecure, true, hit(WORD, 3)),
        seen(Gpi::Realm, false, missed(WORD, 3, 4, WORD, 4)),
        seen(Gpi::Realm, true, hit(WORD, 4)),
    ];
    assert_eq!(rt; answers(&outcome, 1)?, want.as_slice());
    Ok(())
}

#[test]
fn a_walk_of_512_mb_is_missed_by_a_change_elsewhere_in_it(rt: HostRuntime) -> Result<(), Fail> {
    // The lock, the word, three generations, 8,192 stores and the clean; the change and two raises;
    // and after another access the third raise, the barrier, the clean and the release.
    let rest = "agent\ndelegate 0x10215000 realm\ncpu\nlook 0x0 nonsecure\nlook 0x1fffffff secure\n\
        look 0x10215000 nonsecure\nlook 0x0 nonsecure\nlook 0x0 nonsecure\nlook 0x10215000 realm\n\
        turn 1 8\nturn 0 8198\nturn 1 3\nturn 0 3\nturn 1 4\nturn 0 4\nturn 1 22\n";
    let outcome = looked(rt.alloc(), 512, 8, rest)?;
    assert_eq!(rt; answers(&outcome, 0)?, [done(4)].as_slice());
    let want = [
        seen(Gpi::NonSecure, true, cold(ALL_512, 3, 3)),
        // Splitting raises nothing.
        seen(Gpi::NonSecure, false, hit(ALL_512, 3)),
        // The generation of the walk's size is the last that is raised.
        seen(Gpi::NonSecure, true, hit(ALL_512, 3)),
        seen(Gpi::NonSecure, true, missed(ALL_512, 3, 4, ALL_32, 3)),
        // The newest walk that covers the address is that of 32 MB now, and not where it ends.
        seen(Gpi::NonSecure, true, hit(ALL_32, 3)),
        seen(Gpi::Realm, true, missed(ALL_512, 3, 4, WORD, 4)),
    ];
    assert_eq!(rt; answers(&outcome, 1)?, want.as_slice());
    Ok(())
}

/// The size of a ring, whether the third and the last of five accesses are hit, the acts of all five,
/// and one fewer.
const RINGS: [(u64, bool, bool, u64, u64); 4] = [
    (1, false, false, 40, 39),
    (2, true, false, 36, 35),
    (3, true, true, 32, 31),
    (64, true, true, 32, 31),
];

/// The answer of an access that is hit, or cold.
fn found(is_hit: bool) -> Answer {
    let via = if is_hit {
        hit(WORD, 3)
    } else {
        cold(WORD, 3, 3)
    };
    seen(Gpi::NonSecure, true, via)
}

#[test]
fn a_full_ring_drops_its_oldest_walk(rt: HostRuntime) -> Result<(), Fail> {
    // A hit doesn't note its walk again: the ring of two drops the walk that was hit.
    let calls = "cpu\nlook 0x0 nonsecure\nlook 0x10000 nonsecure\nlook 0x0 nonsecure\n\
        look 0x20000 nonsecure\nlook 0x0 nonsecure\n";
    for (ring, third, last, acts, cut) in RINGS {
        let rest = format!(in rt.alloc(); "{calls}turn 0 {acts}\n")?;
        let outcome = looked(rt.alloc(), 0, ring, rest.as_str())?;
        let want = [
            found(false),
            found(false),
            found(third),
            found(false),
            found(last),
        ];
        assert_eq!(rt; answers(&outcome, 0)?, want.as_slice(), "a ring of {ring}");
        let rest = format!(in rt.alloc(); "{calls}turn 0 {cut}\n")?;
        let outcome = looked(rt.alloc(), 0, ring, rest.as_str())?;
        assert_eq!(rt; answers(&outcome, 0)?.len(), 4, "a ring of {ring}");
    }
    Ok(())
}

#[test]
fn each_processor_keeps_its_own_walks(rt: HostRuntime) -> Result<(), Fail> {
    let rest = "cpu\nlook 0x0 nonsecure\nlook 0x0 nonsecure\ncpu\nlook 0x0 secure\nround 12 1\n";
    let outcome = looked(rt.alloc(), 0, 1, rest)?;
    let first = [
        seen(Gpi::NonSecure, true, cold(WORD, 3, 3)),
        seen(Gpi::NonSecure, true, hit(WORD, 3)),
    ];
    assert_eq!(rt; answers(&outcome, 0)?, first.as_slice());
    let second = [seen(Gpi::NonSecure, false, cold(WORD, 3, 3))];
    assert_eq!(rt; answers(&outcome, 1)?, second.as_slice());
    Ok(())
}
