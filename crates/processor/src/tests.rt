ghost use Rattle.std.specs.Prelude.{◌≡◌, IfOk, IsTrue};
ghost use Rattle.std.specs.List.{All};
ghost use Rattle.processor.specs.Accesses.{IsAccess};

use super::*;
use gpi_values::{Gpi, Space};
use gpt_descriptors::{Geometry, MaxBlock, Reach, Setup, l0_good};
use shared_words::{Act, PlainWords, Words};
use std::alloc::Global;
use std::test::Fail;

/// An address with L1 word 0x2245 and field 3 of it, and with the generations 0x112 of 2 MB, 0x11
/// of 32 MB and 1 of 512 MB.
const INSIDE: u64 = 0x2245_3abc;

/// The acts of an access of processor 1 of 2 at this address: its places come after 2 locks, 2048,
/// 128 and 8 generations and, for the L1 word, the two duty words.
const SET: Act = Act::Store(2187, 1);

const LOAD_TWO: Act = Act::Load(276);

const LOAD_THIRTY_TWO: Act = Act::Load(2067);

const LOAD_FIVE_TWELVE: Act = Act::Load(2179);

const LOAD_WORD: Act = Act::Load(10961);

/// The line word, 16384 after the L1 word, has bit 4 * 3 + 1 for Non-secure and 4 * 3 + 3 for Realm.
const TOUCH_NON_SECURE: Act = Act::Or(27345, 0x2000);

const TOUCH_REALM: Act = Act::Or(27345, 0x8000);

const CLEAR: Act = Act::Store(2187, 0);

/// An L1 word, the act that loads the generation of its reach again, and what an access is answered
/// that loaded 5, 6 and 7 first and 9 last: its GPI, and whether it may access in Realm.
const WALKS: [(u64, Act, Reach, u64, Gpi, bool); 6] = [
    (
        0x9999_9999_9999_b888,
        LOAD_TWO,
        Reach::Word,
        5,
        Gpi::Realm,
        true,
    ),
    (
        0xbbbb_bbbb_bbbb_8bbb,
        LOAD_TWO,
        Reach::Word,
        5,
        Gpi::Secure,
        false,
    ),
    (0x1b1, LOAD_TWO, Reach::Two, 5, Gpi::Realm, true),
    (
        0x291,
        LOAD_THIRTY_TWO,
        Reach::ThirtyTwo,
        6,
        Gpi::NonSecure,
        false,
    ),
    (
        0x3f1,
        LOAD_FIVE_TWELVE,
        Reach::FiveTwelve,
        7,
        Gpi::Any,
        true,
    ),
    (
        0x301,
        LOAD_FIVE_TWELVE,
        Reach::FiveTwelve,
        7,
        Gpi::NoAccess,
        false,
    ),
];

/// 4 GB with 2 processors that keep this number of walks, a table of the first gigabyte, and blocks:
/// Realm, none and any.
fn one_table(ring: u64) -> Result<Geometry, Fail>
    ensures { IfOk result (λ g. g.cpus ≡ 2) }
{
    let setup = Setup::new(4, MaxBlock::FiveTwelve, 1, 0, ring, 1, 0x8000_0000).ok_or("refused")?;
    let l0 = [0x8000_0003, 0xb1, 0x01, 0xf1];
    if !l0_good(&setup, l0.as_slice()) {
        return Err("a bad table")?;
    }
    Ok(Geometry::new(setup, 2, l0.as_slice()))
}

/// Whether a task is an access inside the space.
fn is_access(geometry: &Geometry, task: Task) -> bool
    ensures { IsTrue result → IsAccess geometry.now task }
{
    match task {
        Task::Look(pa, _) => geometry.inside(pa),
        _ => false,
    }
}

/// Whether each task is one.
fn are_accesses(geometry: &Geometry, tasks: &[Task]) -> bool
    ensures { IsTrue result → All (IsAccess geometry.now) tasks.now }
{
    tasks.iter().all(|task| is_access(geometry, *task))
}

/// Processor 1 with these accesses, that keeps eight walks.
fn cpu(alloc: Global, tasks: Vec<Task>) -> Result<Cpu, Fail> {
    cpu_of(alloc, 8, tasks)
}

/// Processor 1 with these accesses, that keeps this number of walks.
fn cpu_of(alloc: Global, ring: u64, tasks: Vec<Task>) -> Result<Cpu, Fail> {
    let geometry = one_table(ring)?;
    if !are_accesses(&geometry, &tasks) {
        return Err("outside")?;
    }
    Ok(Cpu::new(alloc, geometry, 1, tasks)?)
}

/// Makes the next act, which answers `old`.
fn act(cpu: &mut Cpu, old: u64) -> Option<Act> {
    let next = cpu.next()?;
    if cpu.may_take(old) {
        cpu.took(old);
    }
    Some(next)
}

fn seen(allowed: bool, gpi: Gpi, level: u8, via: Via) -> Answer {
    Answer::Seen(Access {
        allowed,
        gpi,
        level,
        via,
    })
}

#[test]
fn accesses_walk_act_by_act(rt: HostRuntime) -> Result<(), Fail> {
    for (word, again, reach, lo, gpi, allowed) in WALKS {
        let tasks = vec![in rt.alloc(); Task::Look(INSIDE, Space::Realm)]?;
        let mut cpu = cpu(rt.alloc(), tasks)?;
        let acts = [
            (SET, 0),
            (LOAD_TWO, 5),
            (LOAD_THIRTY_TWO, 6),
            (LOAD_FIVE_TWELVE, 7),
            (LOAD_WORD, word),
            (again, 9),
        ];
        for (want, old) in acts {
            assert_eq!(rt; act(&mut cpu, old), Some(want), "of {word:#x}");
            assert_eq!(rt; cpu.left(), 1);
        }
        if allowed {
            assert_eq!(rt; act(&mut cpu, 0x10), Some(TOUCH_REALM), "of {word:#x}");
            assert_eq!(rt; cpu.left(), 1);
        }
        assert_eq!(rt; act(&mut cpu, 0), Some(CLEAR), "of {word:#x}");
        assert_eq!(rt; cpu.next(), None);
        assert_eq!(rt; cpu.left(), 0);
        let want = seen(allowed, gpi, 1, Via::Cold { reach, lo, hi: 9 });
        assert_eq!(rt; cpu.answers(), [want].as_slice(), "of {word:#x}");
    }
    Ok(())
}

/// Accesses with the act that makes the line resident: a word of lines for each 64 KB, from 18572 on.
const TOUCHES: [(u64, Space, Act); 6] = [
    (INSIDE, Space::Secure, Act::Or(27345, 0x1000)),
    (INSIDE, Space::NonSecure, TOUCH_NON_SECURE),
    (INSIDE, Space::Root, Act::Or(27345, 0x4000)),
    (INSIDE, Space::Realm, TOUCH_REALM),
    (0, Space::Secure, Act::Or(18572, 1)),
    (0x3fff_ffff, Space::Root, Act::Or(34955, 1 << 62)),
];

#[test]
fn allowed_accesses_touch_the_line_of_their_granule_and_space(rt: HostRuntime) -> Result<(), Fail> {
    for (pa, space, touch) in TOUCHES {
        let tasks = vec![in rt.alloc(); Task::Look(pa, space), Task::Look(pa, space)]?;
        let mut cpu = cpu(rt.alloc(), tasks)?;
        for old in [0, 0, 0, 0, u64::MAX, 0] {
            assert!(rt; act(&mut cpu, old).is_some());
        }
        assert_eq!(rt; act(&mut cpu, 0), Some(touch), "at {pa:#x} in {space:?}");
        assert_eq!(rt; act(&mut cpu, 0), Some(CLEAR));
        // A hit touches it again.
        assert_eq!(rt; act(&mut cpu, 0), Some(SET));
        assert!(rt; act(&mut cpu, 0).is_some());
        assert_eq!(rt;
            act(&mut cpu, u64::MAX),
            Some(touch),
            "at {pa:#x} in {space:?}"
        );
        assert_eq!(rt; act(&mut cpu, 0), Some(CLEAR));
        assert_eq!(rt; cpu.next(), None);
    }
    Ok(())
}

#[test]
fn accesses_at_blocks_have_no_acts(rt: HostRuntime) -> Result<(), Fail> {
    let tasks = vec![in rt.alloc();
        Task::Look(0x4000_0000, Space::Realm),
        Task::Look(0x7fff_ffff, Space::Secure),
        Task::Look(INSIDE, Space::NonSecure),
        Task::Look(0x8000_0000, Space::Root),
        Task::Look(0xc000_0000, Space::Root),
    ]?;
    let mut cpu = cpu(rt.alloc(), tasks)?;
    assert_eq!(rt; cpu.left(), 3);
    for old in [0, 1, 1, 1, 0x191, 2, 0, 0] {
        assert_eq!(rt; cpu.left(), 3);
        assert!(rt; act(&mut cpu, old).is_some());
    }
    assert_eq!(rt; cpu.next(), None);
    let cold = Via::Cold {
        reach: Reach::Two,
        lo: 1,
        hi: 2,
    };
    let want = [
        seen(true, Gpi::Realm, 0, Via::Still),
        seen(false, Gpi::Realm, 0, Via::Still),
        seen(true, Gpi::NonSecure, 1, cold),
        seen(false, Gpi::NoAccess, 0, Via::Still),
        seen(true, Gpi::Any, 0, Via::Still),
    ];
    assert_eq!(rt; cpu.into_answers().as_slice(), want.as_slice());
    Ok(())
}

#[test]
fn a_processor_without_accesses_has_ended(rt: HostRuntime) -> Result<(), Fail> {
    let cpu = cpu(rt.alloc(), Vec::new(rt.alloc()))?;
    assert_eq!(rt; cpu.next(), None);
    assert_eq!(rt; cpu.left(), 0);
    Ok(())
}

/// The words before the first act, each L1 word this one.
fn started(alloc: Global, word: u64) -> Result<PlainWords, Fail> {
    let geometry = one_table(8)?;
    let mut l1 = Vec::new(alloc);
    l1.resize(
        (geometry.l1_tables() * geometry.setup().table_words()) as usize,
        word,
    )?;
    Ok(PlainWords::new(alloc, &geometry, l1.as_slice())?)
}

/// Gives the processor a turn, and reports whether it made an act.
fn turn(cpu: &mut Cpu, words: &mut PlainWords) -> bool {
    cpu.may_turn(words.words()) && cpu.turn(words)
}

/// Writes a word.
fn set(words: &mut PlainWords, place: usize, value: u64) {
    if place < words.words().len() {
        words.apply(Act::Store(place, value));
    }
}

#[test]
fn turns_load_what_stands_there_then(rt: HostRuntime) -> Result<(), Fail> {
    let mut words = started(rt.alloc(), 0x391)?;
    let tasks = vec![in rt.alloc();
        Task::Look(INSIDE, Space::NonSecure),
        Task::Look(0x4000_0000, Space::Secure),
        Task::Look(INSIDE, Space::Realm),
    ]?;
    let mut cpu = cpu(rt.alloc(), tasks)?;
    set(&mut words, 27345, 0x100);
    for made in 0..8u64 {
        assert_eq!(rt;
            words.words().get(2187),
            Some(&(made.min(1))),
            "after {made}"
        );
        if made == 5 {
            set(&mut words, 2179, 4);
            set(&mut words, 10961, 0x3b1);
        }
        assert!(rt; turn(&mut cpu, &mut words), "turn {made}");
    }
    assert_eq!(rt; words.words().get(2187), Some(&0));
    assert_eq!(rt; words.words().get(27345), Some(&0x2100));
    assert_eq!(rt; cpu.left(), 1);
    for made in 0..9u64 {
        assert!(rt; turn(&mut cpu, &mut words), "turn {made}");
    }
    assert!(rt; !turn(&mut cpu, &mut words));
    assert_eq!(rt; words.words().get(2187), Some(&0));
    assert_eq!(rt; words.words().get(27345), Some(&0xa100));
    let cold = Via::Cold {
        reach: Reach::FiveTwelve,
        lo: 0,
        hi: 4,
    };
    let missed = Via::Missed {
        reach: Reach::FiveTwelve,
        tag: 0,
        at: 4,
        then: Reach::FiveTwelve,
        lo: 4,
        hi: 4,
    };
    let want = [
        seen(true, Gpi::NonSecure, 1, cold),
        seen(false, Gpi::Realm, 0, Via::Still),
        seen(true, Gpi::Realm, 1, missed),
    ];
    assert_eq!(rt; cpu.answers(), want.as_slice());
    Ok(())
}

#[test]
fn kept_walks_are_tried_before_the_tables(rt: HostRuntime) -> Result<(), Fail> {
    let tasks = vec![in rt.alloc();
        Task::Look(INSIDE, Space::Realm),
        Task::Look(INSIDE, Space::Realm),
        Task::Look(INSIDE, Space::Realm),
        Task::Look(INSIDE, Space::Realm),
        Task::Look(0x2380_0000, Space::NonSecure),
    ]?;
    let mut cpu = cpu(rt.alloc(), tasks)?;
    let acts = [
        // Cold: a word of granules, kept with the tag 5.
        (SET, 0),
        (LOAD_TWO, 5),
        (LOAD_THIRTY_TWO, 6),
        (LOAD_FIVE_TWELVE, 7),
        (LOAD_WORD, 0x9999_9999_9999_b888),
        (LOAD_TWO, 8),
        (TOUCH_REALM, 0),
        (CLEAR, 0),
        // Hit.
        (SET, 0),
        (LOAD_TWO, 5),
        (TOUCH_REALM, 0x8000),
        (CLEAR, 0),
        // Missed and denied: the word is a block of 32 MB now, kept with the tag 6.
        (SET, 0),
        (LOAD_TWO, 8),
        (LOAD_TWO, 8),
        (LOAD_THIRTY_TWO, 6),
        (LOAD_FIVE_TWELVE, 7),
        (LOAD_WORD, 0x291),
        (LOAD_THIRTY_TWO, 6),
        (CLEAR, 0),
        // Hit and denied.
        (SET, 0),
        (LOAD_THIRTY_TWO, 6),
        (CLEAR, 0),
        // Hit, for another granule of the block.
        (SET, 0),
        (LOAD_THIRTY_TWO, 6),
        (Act::Or(27660, 2), 0),
        (CLEAR, 0),
    ];
    for (want, old) in acts {
        assert_eq!(rt; act(&mut cpu, old), Some(want));
    }
    let hit = |reach: Reach, at: u64| Via::Hit { reach, at };
    let cold = Via::Cold {
        reach: Reach::Word,
        lo: 5,
        hi: 8,
    };
    let missed = Via::Missed {
        reach: Reach::Word,
        tag: 5,
        at: 8,
        then: Reach::ThirtyTwo,
        lo: 6,
        hi: 6,
    };
    let want = [
        seen(true, Gpi::Realm, 1, cold),
        seen(true, Gpi::Realm, 1, hit(Reach::Word, 5)),
        seen(false, Gpi::NonSecure, 1, missed),
        seen(false, Gpi::NonSecure, 1, hit(Reach::ThirtyTwo, 6)),
        seen(true, Gpi::NonSecure, 1, hit(Reach::ThirtyTwo, 6)),
    ];
    assert_eq!(rt; cpu.answers(), want.as_slice());
    Ok(())
}

#[test]
fn a_full_ring_drops_its_oldest_walk(rt: HostRuntime) -> Result<(), Fail> {
    // The walks that are kept, and the acts of the three accesses together, all denied.
    for (ring, acts) in [(1, 21u64), (2, 17)] {
        let tasks = vec![in rt.alloc();
            Task::Look(INSIDE, Space::Realm),
            Task::Look(0x1_0000, Space::Realm),
            Task::Look(INSIDE, Space::Realm),
        ]?;
        let mut cpu = cpu_of(rt.alloc(), ring, tasks)?;
        let mut made = 0u64;
        for _ in 0..30 {
            made = made.saturating_add(act(&mut cpu, 0).is_some() as u64);
        }
        assert_eq!(rt; made, acts, "with a ring of {ring}");
        assert_eq!(rt; cpu.left(), 0);
    }
    Ok(())
}

/// L1 words that give all their granules one GPI.
const WORDS: [u64; 7] = [
    0x9999_9999_9999_9999,
    0xbbbb_bbbb_bbbb_bbbb,
    0,
    0x191,
    0x1b1,
    0x2f1,
    0x381,
];

/// What one of these words says, worked out by hand: how far it reaches, the bytes of that, and its
/// GPI.
#[derive(Clone, Copy, Debug)]
struct Known {
    reach: Reach,
    bytes: u64,
    gpi: Gpi,
}

fn read_word(word: u64) -> Option<Known> {
    let (reach, bytes, gpi) = match word {
        0x9999_9999_9999_9999 => (Reach::Word, 0x1_0000, Gpi::NonSecure),
        0xbbbb_bbbb_bbbb_bbbb => (Reach::Word, 0x1_0000, Gpi::Realm),
        0 => (Reach::Word, 0x1_0000, Gpi::NoAccess),
        0x191 => (Reach::Two, 0x20_0000, Gpi::NonSecure),
        0x1b1 => (Reach::Two, 0x20_0000, Gpi::Realm),
        0x2f1 => (Reach::ThirtyTwo, 0x200_0000, Gpi::Any),
        0x381 => (Reach::FiveTwelve, 0x2000_0000, Gpi::Secure),
        _ => return None,
    };
    Some(Known { reach, bytes, gpi })
}

/// A walk that was made, with its first address and its tag.
#[derive(Clone, Copy, Debug)]
struct Made {
    word: Known,
    first: u64,
    tag: u64,
}

/// The walk around an address by what its five loads answered, and the last of these.
fn walk_around(pa: u64, olds: &[u64]) -> Result<(Made, u64), Fail> {
    match olds {
        [two, thirty_two, five_twelve, word, hi, ..] => {
            let word = read_word(*word).ok_or("not one of the words")?;
            let first = pa & !word.bytes.wrapping_sub(1);
            let tag = match word.reach {
                Reach::Word | Reach::Two => *two,
                Reach::ThirtyTwo => *thirty_two,
                Reach::FiveTwelve => *five_twelve,
            };
            Ok((Made { word, first, tag }, *hi))
        }
        _ => Err("too few loads")?,
    }
}

/// The last of these walks that covers an address.
fn newest(walks: &[Made], pa: u64) -> Option<Made> {
    let mut newest = None;
    for walk in walks {
        if walk.first <= pa && pa - walk.first < walk.word.bytes {
            newest = Some(*walk);
        }
    }
    newest
}

/// What an access finds that has a list of all walks of its processor, by what its acts answered;
/// the list gets the walk that it makes.
fn plain_access(
    walks: &mut Vec<Made>,
    ring: usize,
    pa: u64,
    olds: &[u64],
) -> Result<(Gpi, Via), Fail> {
    let dropped = walks.len().saturating_sub(ring);
    let kept = walks.as_slice().get(dropped..).ok_or("no part of it")?;
    let Some(old) = newest(kept, pa) else {
        let (walk, hi) = walk_around(pa, olds.get(1..).ok_or("no acts")?)?;
        walks.push(walk)?;
        let (reach, lo) = (walk.word.reach, walk.tag);
        return Ok((walk.word.gpi, Via::Cold { reach, lo, hi }));
    };
    let (reach, tag) = (old.word.reach, old.tag);
    let at = *olds.get(1).ok_or("no loads")?;
    if at == tag {
        return Ok((old.word.gpi, Via::Hit { reach, at }));
    }
    let (walk, hi) = walk_around(pa, olds.get(2..).ok_or("no more loads")?)?;
    walks.push(walk)?;
    let via = Via::Missed {
        reach,
        tag,
        at,
        then: walk.word.reach,
        lo: walk.tag,
        hi,
    };
    Ok((walk.word.gpi, via))
}

/// Gives the processor a turn and reports what its act answered. Of four loads one is of a word that
/// is changed just before.
fn disturbed_turn(cpu: &mut Cpu, words: &mut PlainWords, number: u64) -> Option<u64> {
    let place = match cpu.next()? {
        Act::Load(place) | Act::Store(place, _) | Act::Or(place, _) => place,
        _ => return None,
    };
    let value = *words.words().get(place)?;
    let changed = match number >> 61 {
        // The generations, and the L1 words.
        0 | 1 if place < 2186 => value.wrapping_add(1),
        0 | 1 if 2188 <= place && place < 18572 => *WORDS.get(
            (number >> 40) as usize % WORDS.len(),
        )?,
        _ => value,
    };
    set(words, place, changed);
    if turn(cpu, words) {
        Some(changed)
    } else {
        None
    }
}

/// The next of a fixed sequence of numbers.
fn next_number(number: u64) -> u64 {
    number
        .wrapping_mul(6_364_136_223_846_793_005)
        .wrapping_add(1_442_695_040_888_963_407)
}

/// One of 64 addresses in the first gigabyte: in two blocks of 512 MB, two of 32 MB in each, two of
/// 2 MB in each, and eight half words in each.
fn address(number: u64) -> u64 {
    let bits = number >> 33;
    (bits & 1) << 29 | (bits >> 1 & 1) << 25 | (bits >> 2 & 1) << 21 | (bits >> 3 & 7) << 15
}

/// The place of the line word of an address.
fn line_place(pa: u64) -> usize {
    18_572 + (pa >> 16) as usize
}

/// What an access in Realm leaves of a line word that was 0.
fn line_after(pa: u64, allowed: bool) -> u64 {
    if allowed {
        8 << (4 * ((pa >> 12) % 16))
    } else {
        0
    }
}

/// Gives the processor the turns of one access, and reports what its acts answered.
fn access(
    alloc: Global,
    cpu: &mut Cpu,
    words: &mut PlainWords,
    number: u64,
) -> Result<Vec<u64>, Fail> {
    let mut olds = Vec::new(alloc);
    let mut number = number;
    let left = cpu.left();
    for _ in 0..9 {
        if cpu.left() == left {
            number = next_number(number);
            olds.push(disturbed_turn(cpu, words, number).ok_or("no act")?)?;
        }
    }
    Ok(olds)
}

#[test]
fn answers_are_those_of_a_plain_ring(rt: HostRuntime) -> Result<(), Fail> {
    for ring in [1, 2, 8] {
        let mut number = ring;
        let mut addresses = Vec::new(rt.alloc());
        let mut tasks = Vec::new(rt.alloc());
        for _ in 0..150 {
            number = next_number(number);
            addresses.push(address(number))?;
            tasks.push(Task::Look(address(number), Space::Realm))?;
        }
        let mut cpu = cpu_of(rt.alloc(), ring, tasks)?;
        let mut words = started(rt.alloc(), 0x191)?;
        let mut walks = Vec::new(rt.alloc());
        let mut hits = 0_u64;
        for pa in addresses.iter() {
            number = next_number(number);
            let line = line_place(*pa);
            set(&mut words, line, 0);
            let olds = access(rt.alloc(), &mut cpu, &mut words, number)?;
            let (gpi, via) = plain_access(&mut walks, ring as usize, *pa, &olds)?;
            let allowed = gpi == Gpi::Realm || gpi == Gpi::Any;
            assert_eq!(rt; words.words().get(line), Some(&line_after(*pa, allowed)));
            assert_eq!(rt; cpu.answers().last(), Some(&seen(allowed, gpi, 1, via)));
            hits = hits.saturating_add(matches!(via, Via::Hit { .. }) as u64);
        }
        assert_eq!(rt; cpu.left(), 0);
        assert!(rt; 5 <= hits && hits < 140, "{hits} hits of a ring of {ring}");
    }
    Ok(())
}
