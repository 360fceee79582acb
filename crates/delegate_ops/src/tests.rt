ghost use Rattle.std.specs.Prelude.{◌≡◌, false};
ghost use Rattle.delegate_ops.specs.InnerAgents.{is_look};

use super::*;
use gpi_values::{Gpi, Source};
use gpt_descriptors::{Generations, Geometry, MaxBlock, Setup, Size, l0_good};
use shared_words::{Act, PlainWords, Words};
use std::alloc::Global;
use std::test::Fail;

/// L1 words of sixteen Secure and of sixteen Non-secure granules.
const SECURE: u64 = 0x8888_8888_8888_8888;

const NON_SECURE: u64 = 0x9999_9999_9999_9999;

/// Words of contiguous 2 MB and 32 MB, Non-secure.
const TWO_MB: u64 = 0x191;

const THIRTY_TWO_MB: u64 = 0x291;

/// The acts of a call at address 0: its lock is bit 0 of the first word, its L1 word comes after
/// 2 locks, 2048, 128 and 8 generations and one duty word.
const LOCK: Act = Act::Or(0, 1);

const LOOK: Act = Act::Load(2187);

const UNLOCK: Act = Act::And(0, !1);

const DELEGATE: Task = Task::Delegate(0, Source::Realm);

const UNDELEGATE: Task = Task::Undelegate(0, Source::Realm);

/// An address with lock 1, L1 word 0x2245 and field 3 of it, and with the generations 0x112 of 2 MB,
/// 0x11 of 32 MB and 1 of 512 MB.
const INSIDE: u64 = 0x2245_3000;

/// The generations around it before its first act, the first two as high as they may be.
const INSIDE_GENERATIONS: [(usize, u64); 3] = [
    (276, 0x7fff_ffff_ffff_fffd),
    (2067, 0x7fff_ffff_ffff_fffd),
    (2179, 500),
];

/// The load of the one processor's duty word.
const DUTY: Act = Act::Load(2186);

/// The line word of that L1 word comes 0x4000 words after it. These clean the lines of the granule
/// in the Secure, the Non-secure and the Realm space.
const CLEAN_SECURE: Act = Act::And(27344, !0x1000);

const CLEAN_NON_SECURE: Act = Act::And(27344, !0x2000);

const CLEAN_REALM: Act = Act::And(27344, !0x8000);

/// Each act of its delegate by realm, and what the act answers.
const DELEGATE_INSIDE: [(Act, u64); 13] = [
    (Act::Or(0, 2), 0),
    (Act::Load(10960), NON_SECURE),
    (Act::Load(276), 0x7fff_ffff_ffff_fffd),
    (Act::Load(2067), 0x7fff_ffff_ffff_fffd),
    (Act::Load(2179), 500),
    (CLEAN_REALM, 0),
    (Act::Store(10960, 0x9999_9999_9999_b999), 0),
    (Act::Store(276, 0x7fff_ffff_ffff_fffe), 0),
    (Act::Store(2067, 0x7fff_ffff_ffff_fffe), 0),
    (Act::Store(2179, 501), 0),
    (DUTY, 0),
    (CLEAN_NON_SECURE, 0),
    (Act::And(0, !2), 2),
];

/// Each act of its undelegate by secure.
const UNDELEGATE_INSIDE: [(Act, u64); 18] = [
    (Act::Or(0, 2), 0),
    (Act::Load(10960), SECURE),
    (Act::Load(276), 0x7fff_ffff_ffff_fffd),
    (Act::Load(2067), 0x7fff_ffff_ffff_fffd),
    (Act::Load(2179), 500),
    (Act::Store(10960, 0x8888_8888_8888_0888), 0),
    (Act::Store(276, 0x7fff_ffff_ffff_fffe), 0),
    (Act::Store(2067, 0x7fff_ffff_ffff_fffe), 0),
    (Act::Store(2179, 501), 0),
    (DUTY, 0),
    (CLEAN_SECURE, 0),
    (CLEAN_NON_SECURE, 0),
    (Act::Store(10960, 0x8888_8888_8888_9888), 0),
    (Act::Store(276, 0x7fff_ffff_ffff_ffff), 0),
    (Act::Store(2067, 0x7fff_ffff_ffff_ffff), 0),
    (Act::Store(2179, 502), 0),
    (DUTY, 0),
    (Act::And(0, !2), 2),
];

/// Each act up to merging of its undelegate by realm, where its other fifteen granules are
/// Non-secure and generations start at 0.
const UNDELEGATE_REALM: [(Act, u64); 17] = [
    (Act::Or(0, 2), 0),
    (Act::Load(10960), 0x9999_9999_9999_b999),
    (Act::Load(276), 0),
    (Act::Load(2067), 0),
    (Act::Load(2179), 0),
    (Act::Store(10960, 0x9999_9999_9999_0999), 0),
    (Act::Store(276, 1), 0),
    (Act::Store(2067, 1), 0),
    (Act::Store(2179, 1), 0),
    (DUTY, 0),
    (CLEAN_REALM, 0),
    (CLEAN_NON_SECURE, 0),
    (Act::Store(10960, NON_SECURE), 0),
    (Act::Store(276, 2), 0),
    (Act::Store(2067, 2), 0),
    (Act::Store(2179, 2), 0),
    (DUTY, 0),
];

/// The generations that this undelegate gives.
const TWICE_RAISED: Generations = Generations {
    two: 2,
    thirty_two: 2,
    five_twelve: 2,
};

/// The first words of the fifteen other 2 MB of its 32 MB, which begin at word 10891.
const OTHER_2_MB: [usize; 15] = [
    10891, 10923, 10987, 11019, 11051, 11083, 11115, 11147, 11179, 11211, 11243, 11275, 11307,
    11339, 11371,
];

/// Generations around address 0, the first size that is worn, and its value.
const WORN: [([(usize, u64); 3], Size, u64); 3] = [
    (
        [
            (2, 0x7fff_ffff_ffff_fffe),
            (2050, 0x7fff_ffff_ffff_ffff),
            (2178, 0x7fff_ffff_ffff_ffff),
        ],
        Size::Two,
        0x7fff_ffff_ffff_fffe,
    ),
    (
        [
            (2, 0x7fff_ffff_ffff_fffd),
            (2050, 0x7fff_ffff_ffff_ffff),
            (2178, 0x7fff_ffff_ffff_fffe),
        ],
        Size::ThirtyTwo,
        0x7fff_ffff_ffff_ffff,
    ),
    (
        [
            (2, 0),
            (2050, 0x7fff_ffff_ffff_fffd),
            (2178, 0x7fff_ffff_ffff_fffe),
        ],
        Size::FiveTwelve,
        0x7fff_ffff_ffff_fffe,
    ),
];

/// 4 GB with a table of the first gigabyte alone, a lock for each 512 MB, contiguous entries up to
/// this size, and this number of processors.
fn with_processors(cpus: u32, max: MaxBlock) -> Result<Geometry, Fail> {
    let setup = Setup::new(4, max, 1, 0, 8, 1, 0x8000_0000).ok_or("refused")?;
    let l0 = [0x8000_0003, 0xf1, 0xf1, 0xf1];
    if !l0_good(&setup, l0.as_slice()) || cpus > 32 {
        return Err("a bad table")?;
    }
    Ok(Geometry::new(setup, cpus, l0.as_slice()))
}

/// With one processor.
fn one_table(max: MaxBlock) -> Result<Geometry, Fail> {
    with_processors(1, max)
}

/// The words before the first act, each L1 word this one, with one processor.
fn started(alloc: Global, word: u64) -> Result<PlainWords, Fail> {
    started_with(alloc, 1, word)
}

/// The words before the first act, each L1 word this one, with this number of processors.
fn started_with(alloc: Global, cpus: u32, word: u64) -> Result<PlainWords, Fail> {
    let geometry = with_processors(cpus, MaxBlock::FiveTwelve)?;
    let count = (geometry.l1_tables() * geometry.setup().table_words()) as usize;
    let mut l1 = Vec::new(alloc);
    l1.resize(count, word)?;
    let words = PlainWords::new(alloc, &geometry, l1.as_slice())?;
    Ok(words)
}

/// Makes an act, or none where there is no such place.
fn make(words: &mut PlainWords, act: Act) -> Option<u64> {
    let place = match act {
        Act::Load(place) => place,
        Act::Store(place, _) => place,
        Act::Or(place, _) => place,
        Act::And(place, _) => place,
    };
    if place < words.words().len() {
        Some(words.apply(act))
    } else {
        None
    }
}

/// Writes these words at these places.
fn set(words: &mut PlainWords, values: &[(usize, u64)]) {
    for (place, value) in values {
        make(words, Act::Store(*place, *value));
    }
}

/// Makes the agent's next act, and gives it with its answer.
fn step(agent: &mut Agent, words: &mut PlainWords) -> Option<(Act, u64)> {
    let act = agent.next()?;
    let old = make(words, act)?;
    if agent.may_take(old) {
        agent.took(old);
        Some((act, old))
    } else {
        None
    }
}

#[test]
fn two_calls_at_a_secure_granule_take_six_acts(rt: HostRuntime) -> Result<(), Fail> {
    let tasks = vec![in rt.alloc();
        Task::Delegate(0x20_0800, Source::Realm),
        Task::Delegate(0x4000_0000, Source::Realm),
        DELEGATE,
        UNDELEGATE,
    ]?;
    let before = started(rt.alloc(), SECURE)?;
    let mut words = started(rt.alloc(), SECURE)?;
    let mut agent = Agent::new(rt.alloc(), one_table(MaxBlock::FiveTwelve)?, tasks)?;
    assert_eq!(rt; agent.answers(), [Answer::Inval, Answer::Inval].as_slice());
    assert_eq!(rt; agent.left(), 2);

    // Each act with its answer, and the number of tasks without an answer after it.
    let run = [
        (LOCK, 0, 2),
        (LOOK, SECURE, 2),
        (UNLOCK, 1, 1),
        (LOCK, 0, 1),
        (LOOK, SECURE, 1),
        (UNLOCK, 1, 0),
    ];
    for (act, old, left) in run {
        assert_eq!(rt; step(&mut agent, &mut words), Some((act, old)));
        assert!(rt; !agent.waits());
        assert_eq!(rt; agent.left(), left);
        // Only the first word may have changed.
        assert!(rt; words.words().get(1..) == before.words().get(1..));
    }
    assert_eq!(rt; agent.next(), None);
    assert_eq!(rt;
        agent.answers(),
        [
            Answer::Inval,
            Answer::Inval,
            Answer::Perm(Gpi::Secure),
            Answer::Perm(Gpi::Secure),
        ]
        .as_slice()
    );
    assert_eq!(rt; words.words().first().copied(), Some(0));
    agents_follow_their_script();
    Ok(())
}

#[test]
fn an_agent_waits_for_a_lock_that_is_held(rt: HostRuntime) -> Result<(), Fail> {
    let mut words = started(rt.alloc(), SECURE)?;
    let mut agent = Agent::new(
        rt.alloc(),
        one_table(MaxBlock::FiveTwelve)?,
        vec![in rt.alloc(); DELEGATE]?,
    )?;

    // The locks of the first two blocks are held.
    assert_eq!(rt; make(&mut words, Act::Or(0, 0b11)), Some(0));
    for _ in 0..5 {
        assert_eq!(rt; step(&mut agent, &mut words), Some((LOCK, 0b11)));
        assert!(rt; agent.waits());
        assert_eq!(rt; agent.left(), 1);
    }

    // The second one doesn't matter.
    assert_eq!(rt; make(&mut words, UNLOCK), Some(0b11));
    for (act, old) in [(LOCK, 0b10), (LOOK, SECURE), (UNLOCK, 0b11)] {
        assert_eq!(rt; step(&mut agent, &mut words), Some((act, old)));
        assert!(rt; !agent.waits());
    }
    assert_eq!(rt; agent.answers(), [Answer::Perm(Gpi::Secure)].as_slice());
    assert_eq!(rt; words.words().first().copied(), Some(0b10));
    Ok(())
}

#[test]
fn a_delegate_changes_its_granule_once(rt: HostRuntime) -> Result<(), Fail> {
    let mut words = started(rt.alloc(), NON_SECURE)?;
    set(&mut words, INSIDE_GENERATIONS.as_slice());
    let tasks = vec![in rt.alloc(); Task::Delegate(INSIDE, Source::Realm)]?;
    let mut agent = Agent::new(rt.alloc(), one_table(MaxBlock::FiveTwelve)?, tasks)?;
    for (act, old) in DELEGATE_INSIDE {
        assert_eq!(rt; step(&mut agent, &mut words), Some((act, old)));
    }
    let given = Generations {
        two: 0x7fff_ffff_ffff_fffe,
        thirty_two: 0x7fff_ffff_ffff_fffe,
        five_twelve: 501,
    };
    assert_eq!(rt; agent.answers(), [Answer::Done(given)].as_slice());
    assert_eq!(rt; agent.next(), None);
    Ok(())
}

#[test]
fn an_undelegate_changes_its_granule_twice(rt: HostRuntime) -> Result<(), Fail> {
    let mut words = started(rt.alloc(), SECURE)?;
    set(&mut words, INSIDE_GENERATIONS.as_slice());
    let tasks = vec![in rt.alloc(); Task::Undelegate(INSIDE, Source::Secure)]?;
    let mut agent = Agent::new(rt.alloc(), one_table(MaxBlock::FiveTwelve)?, tasks)?;
    for (act, old) in UNDELEGATE_INSIDE {
        assert_eq!(rt; step(&mut agent, &mut words), Some((act, old)));
    }
    let given = Generations {
        two: 0x7fff_ffff_ffff_ffff,
        thirty_two: 0x7fff_ffff_ffff_ffff,
        five_twelve: 502,
    };
    assert_eq!(rt; agent.answers(), [Answer::Done(given)].as_slice());
    assert_eq!(rt; agent.next(), None);
    Ok(())
}

#[test]
fn a_worn_generation_is_given_with_its_first_size(rt: HostRuntime) -> Result<(), Fail> {
    for (generations, size, value) in WORN {
        let mut words = started(rt.alloc(), NON_SECURE)?;
        set(&mut words, generations.as_slice());
        let mut agent = Agent::new(
            rt.alloc(),
            one_table(MaxBlock::FiveTwelve)?,
            vec![in rt.alloc(); DELEGATE]?,
        )?;
        for (act, old) in [(LOCK, 0), (LOOK, NON_SECURE)] {
            assert_eq!(rt; step(&mut agent, &mut words), Some((act, old)));
        }
        for (place, old) in generations {
            assert_eq!(rt; step(&mut agent, &mut words), Some((Act::Load(place), old)));
        }
        assert_eq!(rt; step(&mut agent, &mut words), Some((UNLOCK, 1)));
        assert_eq!(rt; agent.answers(), [Answer::Worn(size, value)].as_slice());
    }
    refused_calls_change_nothing();
    Ok(())
}

#[test]
fn a_delegate_splits_its_2_mb_first(rt: HostRuntime) -> Result<(), Fail> {
    let mut words = started(rt.alloc(), TWO_MB)?;
    set(&mut words, INSIDE_GENERATIONS.as_slice());
    let tasks = vec![in rt.alloc(); Task::Delegate(INSIDE, Source::Realm)]?;
    let mut agent = Agent::new(rt.alloc(), one_table(MaxBlock::Two)?, tasks)?;
    for (act, old) in [
        (Act::Or(0, 2), 0),
        (Act::Load(10960), TWO_MB),
        (Act::Load(276), 0x7fff_ffff_ffff_fffd),
        (Act::Load(2067), 0x7fff_ffff_ffff_fffd),
        (Act::Load(2179), 500),
    ] {
        assert_eq!(rt; step(&mut agent, &mut words), Some((act, old)));
    }
    for place in 10955..10987 {
        let store = Act::Store(place, NON_SECURE);
        assert_eq!(rt; step(&mut agent, &mut words), Some((store, 0)));
    }
    // The changed word hasn't sixteen equal GPIs: there is nothing to merge.
    for (act, old) in [
        (CLEAN_REALM, 0),
        (Act::Store(10960, 0x9999_9999_9999_b999), 0),
        (Act::Store(276, 0x7fff_ffff_ffff_fffe), 0),
        (Act::Store(2067, 0x7fff_ffff_ffff_fffe), 0),
        (Act::Store(2179, 501), 0),
        (DUTY, 0),
        (CLEAN_NON_SECURE, 0),
        (Act::And(0, !2), 2),
    ] {
        assert_eq!(rt; step(&mut agent, &mut words), Some((act, old)));
    }
    let given = Generations {
        two: 0x7fff_ffff_ffff_fffe,
        thirty_two: 0x7fff_ffff_ffff_fffe,
        five_twelve: 501,
    };
    assert_eq!(rt; agent.answers(), [Answer::Done(given)].as_slice());
    assert_eq!(rt; agent.next(), None);
    // The words beside the block are as they were.
    assert_eq!(rt; words.words().get(10954).copied(), Some(TWO_MB));
    assert_eq!(rt; words.words().get(10987).copied(), Some(TWO_MB));
    Ok(())
}

#[test]
fn an_undelegate_lets_2_mb_merge_again(rt: HostRuntime) -> Result<(), Fail> {
    let mut words = started(rt.alloc(), NON_SECURE)?;
    set(&mut words, [(10960, 0x9999_9999_9999_b999)].as_slice());
    let tasks = vec![in rt.alloc(); Task::Undelegate(INSIDE, Source::Realm)]?;
    let mut agent = Agent::new(rt.alloc(), one_table(MaxBlock::Two)?, tasks)?;
    for (act, old) in UNDELEGATE_REALM {
        assert_eq!(rt; step(&mut agent, &mut words), Some((act, old)));
    }
    for place in 10955..10987 {
        let load = Act::Load(place);
        assert_eq!(rt; step(&mut agent, &mut words), Some((load, NON_SECURE)));
        assert_eq!(rt; agent.left(), 1);
    }
    for place in 10955..10987 {
        let store = Act::Store(place, TWO_MB);
        assert_eq!(rt; step(&mut agent, &mut words), Some((store, 0)));
        assert_eq!(rt; agent.left(), 1);
    }
    assert_eq!(rt; step(&mut agent, &mut words), Some((Act::And(0, !2), 2)));
    assert_eq!(rt; agent.answers(), [Answer::Done(TWICE_RAISED)].as_slice());
    assert_eq!(rt; agent.next(), None);
    Ok(())
}

#[test]
fn merging_stops_at_the_first_word_that_differs(rt: HostRuntime) -> Result<(), Fail> {
    // Another granule of the 2 MB, in its fourth word, is Realm too, and one in its last word.
    let mut words = started(rt.alloc(), NON_SECURE)?;
    set(
        &mut words,
        [
            (10958, 0xb999_9999_9999_9999),
            (10960, 0x9999_9999_9999_b999),
            (10986, 0x9999_9999_9999_999b),
        ]
        .as_slice(),
    );
    let tasks = vec![in rt.alloc(); Task::Undelegate(INSIDE, Source::Realm)]?;
    let mut agent = Agent::new(rt.alloc(), one_table(MaxBlock::Two)?, tasks)?;
    for (act, old) in UNDELEGATE_REALM {
        assert_eq!(rt; step(&mut agent, &mut words), Some((act, old)));
    }
    for (act, old) in [
        (Act::Load(10955), NON_SECURE),
        (Act::Load(10956), NON_SECURE),
        (Act::Load(10957), NON_SECURE),
        (Act::Load(10958), 0xb999_9999_9999_9999),
        (Act::And(0, !2), 2),
    ] {
        assert_eq!(rt; step(&mut agent, &mut words), Some((act, old)));
    }
    assert_eq!(rt; agent.answers(), [Answer::Done(TWICE_RAISED)].as_slice());
    assert_eq!(rt; agent.next(), None);
    Ok(())
}

#[test]
fn a_granule_that_comes_back_lets_32_mb_merge_again(rt: HostRuntime) -> Result<(), Fail> {
    // The third 32 MB of its 512 MB begin with 2 MB, so the 512 MB can't merge.
    let mut words = started(rt.alloc(), THIRTY_TWO_MB)?;
    set(&mut words, [(11403, TWO_MB)].as_slice());
    let tasks = vec![in rt.alloc();
        Task::Delegate(INSIDE, Source::Secure),
        Task::Undelegate(INSIDE, Source::Secure),
    ]?;
    let mut agent = Agent::new(rt.alloc(), one_table(MaxBlock::FiveTwelve)?, tasks)?;

    // The delegate. The 32 MB have words 10891 to 11402, the 2 MB of the granule 10955 to 10986.
    for (act, old) in [
        (Act::Or(0, 2), 0),
        (Act::Load(10960), THIRTY_TWO_MB),
        (Act::Load(276), 0),
        (Act::Load(2067), 0),
        (Act::Load(2179), 0),
    ] {
        assert_eq!(rt; step(&mut agent, &mut words), Some((act, old)));
    }
    for place in 10891..11403 {
        let word = if 10955 <= place && place < 10987 {
            NON_SECURE
        } else {
            TWO_MB
        };
        let store = Act::Store(place, word);
        assert_eq!(rt; step(&mut agent, &mut words), Some((store, 0)));
    }
    for (act, old) in [
        (CLEAN_SECURE, 0),
        (Act::Store(10960, 0x9999_9999_9999_8999), 0),
        (Act::Store(276, 1), 0),
        (Act::Store(2067, 1), 0),
        (Act::Store(2179, 1), 0),
        (DUTY, 0),
        (CLEAN_NON_SECURE, 0),
        (Act::And(0, !2), 2),
    ] {
        assert_eq!(rt; agent.left(), 2);
        assert_eq!(rt; step(&mut agent, &mut words), Some((act, old)));
    }

    // The undelegate.
    for (act, old) in [
        (Act::Or(0, 2), 0),
        (Act::Load(10960), 0x9999_9999_9999_8999),
        (Act::Load(276), 1),
        (Act::Load(2067), 1),
        (Act::Load(2179), 1),
        (Act::Store(10960, 0x9999_9999_9999_0999), 0),
        (Act::Store(276, 2), 0),
        (Act::Store(2067, 2), 0),
        (Act::Store(2179, 2), 0),
        (DUTY, 0),
        (CLEAN_SECURE, 0),
        (CLEAN_NON_SECURE, 0),
        (Act::Store(10960, NON_SECURE), 0),
        (Act::Store(276, 3), 0),
        (Act::Store(2067, 3), 0),
        (Act::Store(2179, 3), 0),
        (DUTY, 0),
    ] {
        assert_eq!(rt; agent.left(), 1);
        assert_eq!(rt; step(&mut agent, &mut words), Some((act, old)));
    }
    for place in 10955..10987 {
        let load = Act::Load(place);
        assert_eq!(rt; step(&mut agent, &mut words), Some((load, NON_SECURE)));
    }
    // The first words of the other fifteen 2 MB, and then of the other 32 MB up to one that differs.
    for place in OTHER_2_MB {
        let load = Act::Load(place);
        assert_eq!(rt; step(&mut agent, &mut words), Some((load, TWO_MB)));
    }
    for (act, old) in [
        (Act::Load(10379), THIRTY_TWO_MB),
        (Act::Load(11403), TWO_MB),
    ] {
        assert_eq!(rt; step(&mut agent, &mut words), Some((act, old)));
    }
    for place in 10891..11403 {
        let store = Act::Store(place, THIRTY_TWO_MB);
        assert_eq!(rt; step(&mut agent, &mut words), Some((store, 0)));
    }
    assert_eq!(rt; step(&mut agent, &mut words), Some((Act::And(0, !2), 2)));
    let once = Generations {
        two: 1,
        thirty_two: 1,
        five_twelve: 1,
    };
    let thrice = Generations {
        two: 3,
        thirty_two: 3,
        five_twelve: 3,
    };
    let answers = [Answer::Done(once), Answer::Done(thrice)];
    assert_eq!(rt; agent.answers(), answers.as_slice());
    assert_eq!(rt; agent.next(), None);
    Ok(())
}

#[test]
fn an_unknown_call_is_answered_without_acts(rt: HostRuntime) -> Result<(), Fail> {
    let tasks = vec![in rt.alloc(); Task::Unknown, DELEGATE, Task::Unknown]?;
    let mut words = started(rt.alloc(), SECURE)?;
    let mut agent = Agent::new(rt.alloc(), one_table(MaxBlock::FiveTwelve)?, tasks)?;
    assert_eq!(rt; agent.answers(), [Answer::Unknown].as_slice());
    for act in [LOCK, LOOK, UNLOCK] {
        assert_eq!(rt; agent.left(), 2);
        assert_eq!(rt; agent.next(), Some(act));
        assert!(rt; step(&mut agent, &mut words).is_some());
    }
    assert_eq!(rt; agent.left(), 0);
    assert_eq!(rt;
        agent.answers(),
        [Answer::Unknown, Answer::Perm(Gpi::Secure), Answer::Unknown].as_slice()
    );
    Ok(())
}

/// Whether an agent that makes the delegate at address 0, and then this call, begins it with these acts,
/// and has an answer to it before them where it is one without acts.
fn follows(alloc: Global, next: Task, acts: [Option<Act>; 2], idle: bool) -> Result<bool, Fail>
    requires { is_look next ≡ false }
{
    let mut words = started(alloc, SECURE)?;
    let tasks = vec![in alloc; DELEGATE, next]?;
    let mut agent = Agent::new(alloc, one_table(MaxBlock::FiveTwelve)?, tasks)?;
    for _ in 0..3 {
        step(&mut agent, &mut words);
    }
    let mut same = agent.answers().len() == if idle { 2 } else { 1 };
    for act in acts {
        same = same && agent.next() == act;
        step(&mut agent, &mut words);
    }
    Ok(same)
}

#[test]
fn each_call_acts_at_its_own_places(rt: HostRuntime) -> Result<(), Fail> {
    let alloc = rt.alloc();
    let here = [Some(LOCK), Some(LOOK)];
    // The second granule of the same L1 word, the first one of the next word, and the first one of
    // the second 512 MB.
    let next_word = [Some(LOCK), Some(Act::Load(2188))];
    let second = [Some(Act::Or(0, 2)), Some(Act::Load(10379))];
    assert!(rt; follows(alloc, DELEGATE, here, false)?);
    assert!(rt; follows(alloc, UNDELEGATE, here, false)?);
    assert!(rt; follows(alloc, Task::Delegate(0x1000, Source::Secure), here, false)?);
    assert!(rt;
        follows(
            alloc,
            Task::Undelegate(0x1_0000, Source::Realm),
            next_word,
            false
        )?
    );
    assert!(rt;
        follows(
            alloc,
            Task::Delegate(0x2000_0000, Source::Realm),
            second,
            false
        )?
    );
    assert!(rt;
        follows(
            alloc,
            Task::Delegate(0x800, Source::Realm),
            [None, None],
            true
        )?
    );
    assert!(rt;
        follows(
            alloc,
            Task::Undelegate(0x4000_0000, Source::Realm),
            [None, None],
            true
        )?
    );
    assert!(rt; follows(alloc, Task::Unknown, [None, None], true)?);
    Ok(())
}

/// With two processors each L1 word and each line word stands one place later. These clean the
/// lines of the granule in the Non-secure and the Realm space.
const SECOND_CLEAN_NON_SECURE: Act = Act::And(27345, !0x2000);

const SECOND_CLEAN_REALM: Act = Act::And(27345, !0x8000);

/// The acts of its delegate by realm up to its barrier, beside two processors. All lines of its word
/// are resident before it.
const DELEGATE_TO_BARRIER: [(Act, u64); 10] = [
    (Act::Or(0, 2), 0),
    (Act::Load(10961), NON_SECURE),
    (Act::Load(276), 0),
    (Act::Load(2067), 0),
    (Act::Load(2179), 0),
    (SECOND_CLEAN_REALM, 0xffff_ffff_ffff_ffff),
    (Act::Store(10961, 0x9999_9999_9999_b999), 0),
    (Act::Store(276, 1), 0),
    (Act::Store(2067, 1), 0),
    (Act::Store(2179, 1), 0),
];

/// The acts of its undelegate by realm up to its first barrier, and from it up to its second one.
const UNDELEGATE_TO_BARRIER: [(Act, u64); 9] = [
    (Act::Or(0, 2), 0),
    (Act::Load(10961), 0x9999_9999_9999_b999),
    (Act::Load(276), 0),
    (Act::Load(2067), 0),
    (Act::Load(2179), 0),
    (Act::Store(10961, 0x9999_9999_9999_0999), 0),
    (Act::Store(276, 1), 0),
    (Act::Store(2067, 1), 0),
    (Act::Store(2179, 1), 0),
];

const UNDELEGATE_TO_NEXT_BARRIER: [(Act, u64); 6] = [
    (SECOND_CLEAN_REALM, 0xffff_ffff_ffff_ffff),
    (SECOND_CLEAN_NON_SECURE, 0xffff_ffff_ffff_7fff),
    (Act::Store(10961, NON_SECURE), 0),
    (Act::Store(276, 2), 0),
    (Act::Store(2067, 2), 0),
    (Act::Store(2179, 2), 0),
];

/// The duty words that are set before each load of a barrier over two processors, its place, what
/// it answers, and whether the agent then waits.
const TWO_PROCESSORS: [([(usize, u64); 2], usize, u64, bool); 5] = [
    ([(2186, 1), (2187, 1)], 2186, 1, true),
    ([(2186, 1), (2187, 0)], 2186, 1, true),
    ([(2186, 0), (2187, 1)], 2186, 0, false),
    ([(2186, 1), (2187, 1)], 2187, 1, true),
    ([(2186, 1), (2187, 0)], 2187, 0, false),
];

#[test]
fn a_delegate_waits_for_each_access_under_way(rt: HostRuntime) -> Result<(), Fail> {
    let tasks = vec![in rt.alloc(); Task::Delegate(INSIDE, Source::Realm)]?;
    let geometry = with_processors(2, MaxBlock::Zero)?;
    let mut words = started_with(rt.alloc(), 2, NON_SECURE)?;
    set(&mut words, [(27345, 0xffff_ffff_ffff_ffff)].as_slice());
    let mut agent = Agent::new(rt.alloc(), geometry, tasks)?;
    for (act, old) in DELEGATE_TO_BARRIER {
        assert_eq!(rt; step(&mut agent, &mut words), Some((act, old)));
    }
    for (duties, place, old, waits) in TWO_PROCESSORS {
        set(&mut words, duties.as_slice());
        assert_eq!(rt; step(&mut agent, &mut words), Some((Act::Load(place), old)));
        assert_eq!(rt; agent.waits(), waits);
    }
    for (act, old) in [
        (SECOND_CLEAN_NON_SECURE, 0xffff_ffff_ffff_7fff),
        (Act::And(0, !2), 2),
    ] {
        assert_eq!(rt; step(&mut agent, &mut words), Some((act, old)));
        assert!(rt; !agent.waits());
    }
    assert_eq!(rt; agent.next(), None);
    assert_eq!(rt;
        words.words().get(27345).copied(),
        Some(0xffff_ffff_ffff_5fff)
    );
    Ok(())
}

#[test]
fn an_undelegate_waits_after_both_changes(rt: HostRuntime) -> Result<(), Fail> {
    let tasks = vec![in rt.alloc(); Task::Undelegate(INSIDE, Source::Realm)]?;
    let geometry = with_processors(2, MaxBlock::Zero)?;
    let mut words = started_with(rt.alloc(), 2, NON_SECURE)?;
    set(
        &mut words,
        [
            (10961, 0x9999_9999_9999_b999),
            (27345, 0xffff_ffff_ffff_ffff),
        ]
        .as_slice(),
    );
    let mut agent = Agent::new(rt.alloc(), geometry, tasks)?;
    for acts in [
        UNDELEGATE_TO_BARRIER.as_slice(),
        UNDELEGATE_TO_NEXT_BARRIER.as_slice(),
    ] {
        for (act, old) in acts {
            assert_eq!(rt; step(&mut agent, &mut words), Some((*act, *old)));
        }
        for (duties, place, old, waits) in TWO_PROCESSORS {
            set(&mut words, duties.as_slice());
            assert_eq!(rt; step(&mut agent, &mut words), Some((Act::Load(place), old)));
            assert_eq!(rt; agent.waits(), waits);
        }
    }
    // Nothing is cleaned after the second barrier.
    assert_eq!(rt; step(&mut agent, &mut words), Some((Act::And(0, !2), 2)));
    assert_eq!(rt; agent.next(), None);
    assert_eq!(rt;
        words.words().get(27345).copied(),
        Some(0xffff_ffff_ffff_5fff)
    );
    Ok(())
}

#[test]
fn without_processors_a_barrier_has_no_acts(rt: HostRuntime) -> Result<(), Fail> {
    let tasks = vec![in rt.alloc(); DELEGATE]?;
    let geometry = with_processors(0, MaxBlock::Zero)?;
    let mut words = started_with(rt.alloc(), 0, NON_SECURE)?;
    let mut agent = Agent::new(rt.alloc(), geometry, tasks)?;
    for (act, old) in [
        (LOCK, 0),
        (Act::Load(2186), NON_SECURE),
        (Act::Load(2), 0),
        (Act::Load(2050), 0),
        (Act::Load(2178), 0),
        (Act::And(18570, !8), 0),
        (Act::Store(2186, 0x9999_9999_9999_999b), 0),
        (Act::Store(2, 1), 0),
        (Act::Store(2050, 1), 0),
        (Act::Store(2178, 1), 0),
        (Act::And(18570, !2), 0),
        (UNLOCK, 1),
    ] {
        assert_eq!(rt; step(&mut agent, &mut words), Some((act, old)));
    }
    assert_eq!(rt; agent.next(), None);
    Ok(())
}
