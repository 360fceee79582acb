ghost use Rattle.std.specs.Prelude.{◌≡◌, true};
ghost use Rattle.report_text.specs.RunText.{FitsScenario};

use gpt_descriptors::{Generations, Geometry, Gpi, MaxBlock, Reach, Setup, Size, l0_good};
use history::{Access, Answer, Outcome, Via};
use report_text::*;
use scenario_text::{Kind, Listed, Region, Scenario, parse};
use std::alloc::Global;
use std::process::Abort;
use std::test::Fail;
use table_build::{Plan, build};

/// A setup of 4 GB with this number of tables, and this largest contiguous size.
fn setup_with(rt: &impl Abort, max: MaxBlock, tables: u64) -> Setup {
    Setup::new(4, max, 1, 0, 8, tables, 0x8000_0000).expect(rt, "tables in range")
}

fn region(base: u64, size: u64, kind: Kind, gpi: Gpi) -> Region {
    Region {
        base,
        size,
        kind,
        gpi,
    }
}

/// The report of the tables of these regions.
fn report_of(alloc: Global, setup: &Setup, regions: &[Region]) -> Result<Vec<u8>, Fail> {
    let plan = Plan::plan(alloc, regions, setup)?;
    let tables = build(alloc, &plan, plan.setup().base())?;
    Ok(tables_report(alloc, &tables)?)
}

#[test]
fn one_gigabyte_is_one_run_of_the_largest_block(rt: HostRuntime) -> Result<(), Fail> {
    let regions = [region(0, 0x4000_0000, Kind::Granule, Gpi::NonSecure)];
    let table = [
        (MaxBlock::Zero, "l1 0 0 16384 0x9999999999999999\n"),
        (MaxBlock::Two, "l1 0 0 16384 0x191\n"),
        (MaxBlock::ThirtyTwo, "l1 0 0 16384 0x291\n"),
        (MaxBlock::FiveTwelve, "l1 0 0 16384 0x391\n"),
    ];
    for (max, line) in table {
        let report = report_of(rt.alloc(), &setup_with(&rt, max, 1), &regions)?;
        let text = format!(in rt.alloc();
            "report 1 tables\nl0 0 1 0x80000003\nl0 1 3 0xf1\n{line}end\n"
        )?;
        assert_eq!(rt; report.as_slice(), text.as_bytes(), "at {max:?}");
    }
    Ok(())
}

#[test]
fn runs_are_reported_one_by_one_and_table_by_table(rt: HostRuntime) -> Result<(), Fail> {
    let one = region(0x1000, 0x1000, Kind::Granule, Gpi::Realm);
    let half = region(0, 0x10_0000, Kind::Granule, Gpi::Secure);
    let other_half = region(0x10_0000, 0x10_0000, Kind::Granule, Gpi::Secure);
    let last = region(0xffff_f000, 0x1000, Kind::Granule, Gpi::NonSecure);
    let blocks = region(0x4000_0000, 0x4000_0000, Kind::Block, Gpi::Root);
    let more_blocks = region(0x8000_0000, 0x4000_0000, Kind::Block, Gpi::Root);
    let two_tables = region(0x4000_0000, 0x8000_0000, Kind::Granule, Gpi::NonSecure);
    // Two regions, or one region twice, and the report of the first alone or of both.
    let table = [
        // One granule, the second of its word.
        (
            [one, one],
            1,
            "report 1 tables\n\
             l0 0 1 0x80000003\n\
             l0 1 3 0xf1\n\
             l1 0 0 1 0xffffffffffffffbf\n\
             l1 0 1 31 0xffffffffffffffff\n\
             l1 0 32 480 0x1f1\n\
             l1 0 512 7680 0x2f1\n\
             l1 0 8192 8192 0x3f1\n\
             end\n",
        ),
        // Two neighbours of 1 MB make a block of 2 MB.
        (
            [half, other_half],
            2,
            "report 1 tables\n\
             l0 0 1 0x80000003\n\
             l0 1 3 0xf1\n\
             l1 0 0 32 0x181\n\
             l1 0 32 480 0x1f1\n\
             l1 0 512 7680 0x2f1\n\
             l1 0 8192 8192 0x3f1\n\
             end\n",
        ),
        // The last word is a run of its own.
        (
            [last, last],
            1,
            "report 1 tables\n\
             l0 0 3 0xf1\n\
             l0 3 1 0x80000003\n\
             l1 0 0 8192 0x3f1\n\
             l1 0 8192 7680 0x2f1\n\
             l1 0 15872 480 0x1f1\n\
             l1 0 16352 31 0xffffffffffffffff\n\
             l1 0 16383 1 0x9fffffffffffffff\n\
             end\n",
        ),
        // Blocks have no level 1 table.
        (
            [blocks, more_blocks],
            2,
            "report 1 tables\n\
             l0 0 1 0xf1\n\
             l0 1 2 0xa1\n\
             l0 3 1 0xf1\n\
             end\n",
        ),
        // The runs of two tables stay apart where they are of one word.
        (
            [two_tables, two_tables],
            1,
            "report 1 tables\n\
             l0 0 1 0xf1\n\
             l0 1 1 0x80000003\n\
             l0 2 1 0x80020003\n\
             l0 3 1 0xf1\n\
             l1 0 0 16384 0x391\n\
             l1 1 0 16384 0x391\n\
             end\n",
        ),
    ];
    let setup = setup_with(&rt, MaxBlock::FiveTwelve, 2);
    for (regions, count, text) in table {
        assert!(rt; count <= 2);
        let report = report_of(rt.alloc(), &setup, &regions[..count])?;
        assert_eq!(rt; report.as_slice(), text.as_bytes(), "of {regions:?}");
    }
    Ok(())
}

/// 4 GB with one table, an agent with eight calls and a processor with five accesses.
const SCENARIO: &str = "gpt 1\n\
    space 4\n\
    max 512\n\
    locks 1\n\
    first 7\n\
    ring 8\n\
    tables 1\n\
    base 0x80000000\n\
    region 0x40000000 0x40000000 granule nonsecure\n\
    agent\n\
    delegate 0x40000000 realm\n\
    undelegate 0x40001000 secure\n\
    delegate 0x1 realm\n\
    smc delegate 0x40002000 realm\n\
    smc undelegate 0x40003000 realm\n\
    smc delegate 0x40002000 secure\n\
    smc delegate 0x1 realm\n\
    undelegate 0x40000000 realm\n\
    cpu\n\
    look 0x0 nonsecure\n\
    look 0x40025000 realm\n\
    look 0x40025000 secure\n\
    look 0x40000000 root\n\
    look 0x40000000 root\n\
    round 1 10\n\
    end\n";

const AGENT_LINES: &str = "0.0 done 8 7 9\n\
    0.1 perm realm\n\
    0.2 inval\n\
    0.3 worn 32m 9223372036854775806 code -100\n\
    0.4 perm none code -3\n\
    0.5 unknown code -1\n\
    0.6 done 1 2 3 code 0\n";

const PROCESSOR_LINES: &str = "1.0 granted any 0 still\n\
    1.1 fault nonsecure 1 hit 64k 7\n\
    1.2 granted secure 1 cold 2m 7 8\n\
    1.3 fault root 1 missed 32m 7 8 512m 9 10\n";

const STATE_LINES: &str = "held 0\n\
    held 67\n\
    l0 0 1 0xf1\n\
    l0 1 1 0x80000003\n\
    l0 2 2 0xf1\n\
    l1 0 0 3 0x0\n\
    l1 0 3 1 0x391\n\
    l1 0 4 16380 0x0\n\
    gen 2m 600 9\n\
    gen 32m 40 8\n\
    gen 512m 2 10\n\
    line 0x40025000 secure\n\
    line 0x40025000 realm\n";

fn agent_answers(alloc: Global) -> Result<Listed<Answer>, Fail> {
    let changed = Generations {
        two: 8,
        thirty_two: 7,
        five_twelve: 9,
    };
    let changed_again = Generations {
        two: 1,
        thirty_two: 2,
        five_twelve: 3,
    };
    Ok(Listed::new(vec![in alloc;
        Answer::Done(changed),
        Answer::Perm(Gpi::Realm),
        Answer::Inval,
        Answer::Worn(Size::ThirtyTwo, 9223372036854775806),
        Answer::Perm(Gpi::NoAccess),
        Answer::Unknown,
        Answer::Done(changed_again),
    ]?))
}

pub fn seen(allowed: bool, gpi: Gpi, level: u8, via: Via) -> Answer {
    Answer::Seen(Access {
        allowed,
        gpi,
        level,
        via,
    })
}

/// How an access is hit, is cold, and is missed.
pub const VIAS: [Via; 3] = [
    Via::Hit {
        reach: Reach::Word,
        at: 7,
    },
    Via::Cold {
        reach: Reach::Two,
        lo: 7,
        hi: 8,
    },
    Via::Missed {
        reach: Reach::ThirtyTwo,
        tag: 7,
        at: 8,
        then: Reach::FiveTwelve,
        lo: 9,
        hi: 10,
    },
];

fn processor_answers(alloc: Global) -> Result<Listed<Answer>, Fail> {
    let [hit, cold, missed] = VIAS;
    Ok(Listed::new(vec![in alloc;
        seen(true, Gpi::Any, 0, Via::Still),
        seen(false, Gpi::NonSecure, 1, hit),
        seen(true, Gpi::Secure, 1, cold),
        seen(false, Gpi::Root, 1, missed),
    ]?))
}

/// Shared words that are 0, but for the generations, which are 7, and those named here by place.
fn words_with(alloc: Global, length: usize, changed: &[(usize, u64)]) -> Result<Vec<u64>, Fail> {
    let mut words = vec![in alloc; 0u64; length]?;
    for (k, word) in words.iter_mut().enumerate() {
        if 2 <= k && k < 2186 {
            *word = 7;
        }
    }
    for &(place, value) in changed {
        if let Some(word) = words.get_mut(place) {
            *word = value;
        }
    }
    Ok(words)
}

/// Whether this is an outcome of a scenario of two callers.
pub fn fits(scenario: &Scenario, outcome: &Outcome) -> bool
    ensures { result ≡ true → FitsScenario scenario.now outcome.now }
{
    let [agent, cpu] = scenario.scripts.as_slice() else {
        return false;
    };
    let [first, second] = outcome.answers.as_slice() else {
        return false;
    };
    first.as_slice().len() <= call_count(agent)
        && second.as_slice().len() <= call_count(cpu)
        && outcome.words.as_slice().len() == outcome.geometry.words()
}

#[test]
fn a_run_is_reported_call_by_call_and_word_by_word(rt: HostRuntime) -> Result<(), Fail> {
    let alloc = rt.alloc();
    let scenario = parse(alloc, SCENARIO.as_bytes()).ok().ok_or("a scenario")?;
    let l0 = [0xf1, 0x8000_0003, 0xf1, 0xf1];
    assert!(rt; l0_good(&scenario.setup, &l0));
    let geometry = Geometry::new(scenario.setup, 1, &l0);
    // Two locks, a generation of each size, an L1 word, and the line word of granule 37 of 1 GB.
    let changed = [
        (0, 1),
        (1, 8),
        (602, 9),
        (2090, 8),
        (2180, 10),
        (2190, 0x391),
        (18573, 0x90_0000),
    ];
    let outcome = Outcome {
        geometry,
        answers: Listed::new(vec![in alloc; agent_answers(alloc)?, processor_answers(alloc)?]?),
        words: Listed::new(words_with(alloc, geometry.words(), &changed)?),
    };
    assert!(rt; fits(&scenario, &outcome));
    for (mode, name) in [(Mode::Play, "play"), (Mode::Race, "race")] {
        let report = run_report(alloc, mode, &scenario, &outcome)?;
        let text = format!(in alloc;
            "report 1 {name}\n{AGENT_LINES}{PROCESSOR_LINES}left 0 1\nleft 1 1\n{STATE_LINES}end\n"
        )?;
        assert_eq!(rt; report.as_slice(), text.as_bytes());
    }
    assert_eq!(rt; scenario.scripts.as_slice().len(), 2);
    for (caller, lines) in [(0, AGENT_LINES), (1, PROCESSOR_LINES)] {
        let text = caller_lines(alloc, &scenario, &outcome, caller)?;
        assert_eq!(rt; text.as_slice(), lines.as_bytes());
    }
    let state = state_lines(alloc, &outcome.geometry, outcome.words.as_slice())?;
    assert_eq!(rt; state.as_slice(), STATE_LINES.as_bytes());
    Ok(())
}

/// The L0 words of the last 16 gigabytes of 64, each with a table.
const LAST_TABLES: [u64; 16] = [
    0x8000_0003,
    0x8002_0003,
    0x8004_0003,
    0x8006_0003,
    0x8008_0003,
    0x800a_0003,
    0x800c_0003,
    0x800e_0003,
    0x8010_0003,
    0x8012_0003,
    0x8014_0003,
    0x8016_0003,
    0x8018_0003,
    0x801a_0003,
    0x801c_0003,
    0x801e_0003,
];

const LAST_LINES: &str = "held 127\n\
    l0 0 48 0xf1\n\
    l0 48 1 0x80000003\n\
    l0 49 1 0x80020003\n\
    l0 50 1 0x80040003\n\
    l0 51 1 0x80060003\n\
    l0 52 1 0x80080003\n\
    l0 53 1 0x800a0003\n\
    l0 54 1 0x800c0003\n\
    l0 55 1 0x800e0003\n\
    l0 56 1 0x80100003\n\
    l0 57 1 0x80120003\n\
    l0 58 1 0x80140003\n\
    l0 59 1 0x80160003\n\
    l0 60 1 0x80180003\n\
    l0 61 1 0x801a0003\n\
    l0 62 1 0x801c0003\n\
    l0 63 1 0x801e0003\n\
    l1 0 0 16384 0x0\n\
    l1 1 0 16384 0x0\n\
    l1 2 0 16384 0x0\n\
    l1 3 0 16384 0x0\n\
    l1 4 0 16384 0x0\n\
    l1 5 0 16384 0x0\n\
    l1 6 0 16384 0x0\n\
    l1 7 0 16384 0x0\n\
    l1 8 0 16384 0x0\n\
    l1 9 0 16384 0x0\n\
    l1 10 0 16384 0x0\n\
    l1 11 0 16384 0x0\n\
    l1 12 0 16384 0x0\n\
    l1 13 0 16384 0x0\n\
    l1 14 0 16384 0x0\n\
    l1 15 0 16383 0x0\n\
    l1 15 16383 1 0xffffffffffffffff\n\
    gen 2m 32767 7\n\
    gen 32m 2047 8\n\
    gen 512m 127 9223372036854775807\n\
    line 0xffffff000 realm\n";

#[test]
fn the_last_words_of_the_largest_geometry_are_reported(rt: HostRuntime) -> Result<(), Fail> {
    let alloc = rt.alloc();
    let setup = Setup::new(64, MaxBlock::Zero, 1, 0, 64, 16, 0x8000_0000).ok_or("a setup")?;
    let mut l0 = vec![in alloc; 0xf1u64; 48]?;
    l0.extend_from_slice(&LAST_TABLES)?;
    assert!(rt; l0_good(&setup, l0.as_slice()));
    let geometry = Geometry::new(setup, 32, l0.as_slice());
    assert_eq!(rt; geometry.words(), 559_266);
    let mut words = vec![in alloc; 0u64; geometry.words()]?;
    // A lock, a generation of each size, a duty word, which no line shows, an L1 word and a line
    // word: the last of each.
    let last = [
        (1usize, 0x8000_0000_0000_0000u64),
        (32_769, 7),
        (34_817, 8),
        (34_945, 9_223_372_036_854_775_807),
        (34_977, 1),
        (297_121, 0xffff_ffff_ffff_ffff),
        (559_265, 0x8000_0000_0000_0000),
    ];
    for (place, value) in last {
        if let Some(word) = words.get_mut(place) {
            *word = value;
        }
    }
    assert_eq!(rt; words.len(), geometry.words());
    let state = state_lines(alloc, &geometry, words.as_slice())?;
    assert_eq!(rt; state.as_slice(), LAST_LINES.as_bytes());
    Ok(())
}
