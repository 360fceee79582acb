ghost use Rattle.scenario_text.specs.Spelling.{WellFormed};

use core_machine::{Caller, callers, geometry_of, play};
use gpi_values::Gpi;
use gpt_descriptors::{Generations, Size};
use history::{Answer, Outcome};
use region_plan::Plan;
use scenario_text::{Scenario, parse};
use shared_words::Act;
use std::alloc::{AllocError, Global};
use std::test::Fail;
use table_build::build;

/// What playing a scenario leaves.
fn played(alloc: Global, scenario: &Scenario) -> Option<Outcome>
    requires { WellFormed scenario.now }
{
    let regions = scenario.regions.as_slice();
    match Plan::plan(alloc, regions, &scenario.setup) {
        Ok(plan) => match build(alloc, &plan, scenario.setup.base()) {
            Ok(tables) => play(alloc, scenario, tables).ok(),
            Err(_) => None,
        },
        Err(_) => None,
    }
}

/// The text of a scenario of 4 GB with contiguous entries of up to `max` MB, of which the first has
/// this GPI, by granules.
fn text(alloc: Global, max: u64, first: u64, gpi: &str, rest: &str) -> Result<String, AllocError> {
    format!(in alloc;
        "gpt 1\nspace 4\nmax {max}\nlocks 1\nfirst {first}\nring 8\ntables 1\nbase 0x80000000\n\
         region 0x0 0x40000000 granule {gpi}\n{rest}end\n"
    )
}

/// What playing the scenario of this text leaves.
pub fn played_whole(alloc: Global, text: &str) -> Result<Outcome, Fail> {
    match parse(alloc, text.as_bytes()) {
        Ok(scenario) => Ok(played(alloc, &scenario).ok_or("no outcome")?),
        Err(_) => Err("no scenario")?,
    }
}

/// What playing such a scenario leaves.
fn played_at(alloc: Global, max: u64, first: u64, gpi: &str, rest: &str) -> Result<Outcome, Fail> {
    let text = text(alloc, max, first, gpi, rest)?;
    played_whole(alloc, text.as_str())
}

/// What playing such a scenario without contiguous entries leaves.
pub fn played_text(alloc: Global, first: u64, gpi: &str, rest: &str) -> Result<Outcome, Fail> {
    played_at(alloc, 0, first, gpi, rest)
}

/// What the calls of a caller were answered.
pub fn answers(outcome: &Outcome, caller: usize) -> Result<&[Answer], Fail> {
    let answers = outcome.answers.as_slice();
    Ok(answers.get(caller).ok_or("no caller")?.as_slice())
}

pub fn done(generation: u64) -> Answer {
    Answer::Done(Generations {
        two: generation,
        thirty_two: generation,
        five_twelve: generation,
    })
}

/// The shared words of 4 GB and one Non-secure table, no lock held: the generations are the first
/// ones but for those around the first granule, and the first L1 word is this one.
fn words(alloc: Global, first: u64, around: u64, l1_word: u64) -> Result<Vec<u64>, Fail> {
    let mut words = vec![in alloc; 0u64; 34954]?;
    for (place, word) in words.iter_mut().enumerate() {
        *word = match place {
            2 | 2050 | 2178 => around,
            2..2186 => first,
            2186 => l1_word,
            2187..18570 => 0x9999_9999_9999_9999,
            _ => 0,
        };
    }
    Ok(words)
}

const REFUSED: &str =
    "agent\ndelegate 0x200800 realm\ndelegate 0x40000000 realm\ndelegate 0x0 realm\n\
    undelegate 0x0 realm\n";

#[test]
fn calls_are_refused_and_locks_released(rt: HostRuntime) -> Result<(), Fail> {
    let rest = format!(in rt.alloc(); "{REFUSED}turn 0 6\n")?;
    let outcome = played_text(rt.alloc(), 0, "secure", &rest)?;
    assert_eq!(rt; outcome.answers.as_slice().len(), 1);
    let want = [
        Answer::Inval,
        Answer::Inval,
        Answer::Perm(Gpi::Secure),
        Answer::Perm(Gpi::Secure),
    ];
    assert_eq!(rt; answers(&outcome, 0)?, want.as_slice());
    let words = outcome.words.as_slice();
    assert_eq!(rt; words.len(), outcome.geometry.words());
    let held = words.iter().take(2).filter(|word| **word != 0).count();
    assert_eq!(rt; held, 0);
    let changed = words
        .iter()
        .filter(|word| **word != 0 && **word != 0x8888_8888_8888_8888)
        .count();
    assert_eq!(rt; changed, 0);
    Ok(())
}

#[test]
fn a_schedule_may_end_before_a_call(rt: HostRuntime) -> Result<(), Fail> {
    let rest = format!(in rt.alloc(); "{REFUSED}turn 0 4\n")?;
    let outcome = played_text(rt.alloc(), 0, "secure", &rest)?;
    assert_eq!(rt; answers(&outcome, 0)?.len(), 3);
    assert_eq!(rt; *outcome.words.as_slice().get(0).ok_or("no words")?, 1);
    Ok(())
}

#[test]
fn one_of_two_agents_waits_and_is_refused(rt: HostRuntime) -> Result<(), Fail> {
    let rest =
        "agent\ndelegate 0x0 realm\nagent\ndelegate 0x0 secure\nturn 0 1\nturn 1 5\nturn 0 100\nturn 1 100\n";
    let outcome = played_text(rt.alloc(), 0, "nonsecure", rest)?;
    assert_eq!(rt; outcome.answers.as_slice().len(), 2);
    assert_eq!(rt; answers(&outcome, 0)?, [done(1)].as_slice());
    assert_eq!(rt;
        answers(&outcome, 1)?,
        [Answer::Perm(Gpi::Realm)].as_slice()
    );
    let want = words(rt.alloc(), 0, 1, 0x9999_9999_9999_999b)?;
    assert_eq!(rt; outcome.words.as_slice(), want.as_slice());
    Ok(())
}

#[test]
fn a_granule_goes_and_comes_back(rt: HostRuntime) -> Result<(), Fail> {
    let rest = "agent\ndelegate 0x0 realm\nundelegate 0x0 realm\nround 1 28\n";
    let outcome = played_text(rt.alloc(), 0, "nonsecure", rest)?;
    assert_eq!(rt; answers(&outcome, 0)?, [done(1), done(3)].as_slice());
    let want = words(rt.alloc(), 0, 3, 0x9999_9999_9999_9999)?;
    assert_eq!(rt; outcome.words.as_slice(), want.as_slice());
    Ok(())
}

#[test]
fn a_splitting_may_be_cut_in_the_middle(rt: HostRuntime) -> Result<(), Fail> {
    // The lock, the word and three generations, and then half of the 8,192 stores.
    let rest = "agent\ndelegate 0x0 realm\nturn 0 4101\n";
    let outcome = played_at(rt.alloc(), 512, 0, "nonsecure", rest)?;
    assert!(rt; answers(&outcome, 0)?.is_empty());
    let mut want = vec![in rt.alloc(); 0u64; 34954]?;
    for (place, word) in want.iter_mut().enumerate() {
        *word = match place {
            0 => 1,
            2186..2218 => 0x9999_9999_9999_9999,
            2218..2698 => 0x191,
            2698..6282 => 0x291,
            6282..18570 => 0x391,
            _ => 0,
        };
    }
    assert_eq!(rt; outcome.words.as_slice(), want.as_slice());
    Ok(())
}

/// What is left of a delegate and an undelegate in the middle of 512 MB by these lines.
fn played_between(alloc: Global, lines: &str) -> Result<Outcome, Fail> {
    let rest = format!(in alloc;
        "agent\ndelegate 0x10215000 realm\nundelegate 0x10215000 realm\n{lines}"
    )?;
    played_at(alloc, 512, 0, "nonsecure", rest.as_str())
}

/// Turns in the middle of a splitting, at its end, in the tests of merging, in the middle of
/// merging, at its end, and beyond it.
const TURNS: [u64; 10] = [
    20, 4101, 4136, 8196, 8197, 8244, 8283, 12_000, 16_474, 16_500,
];

#[test]
fn turns_of_one_line_leave_what_single_turns_leave(rt: HostRuntime) -> Result<(), Fail> {
    for turns in TURNS {
        let line = format!(in rt.alloc(); "turn 0 {turns}\n")?;
        let single = format!(in rt.alloc(); "round 1 {turns}\n")?;
        let short = format!(in rt.alloc(); "round 13 {}\nturn 0 {}\n", turns / 13, turns % 13)?;
        let wanted = played_between(rt.alloc(), single.as_str())?;
        for lines in [line.as_str(), short.as_str()] {
            let found = played_between(rt.alloc(), lines)?;
            assert!(rt;
                found.words.as_slice() == wanted.words.as_slice(),
                "{turns} turns"
            );
            assert_eq!(rt; answers(&found, 0)?, answers(&wanted, 0)?, "{turns} turns");
        }
    }
    Ok(())
}

#[test]
fn a_granule_that_comes_back_lets_512_mb_merge(rt: HostRuntime) -> Result<(), Fail> {
    let rest = "agent\ndelegate 0x0 realm\nundelegate 0x0 realm\nturn 0 16474\n";
    let outcome = played_at(rt.alloc(), 512, 0, "nonsecure", rest)?;
    assert_eq!(rt; answers(&outcome, 0)?, [done(1), done(3)].as_slice());
    let mut want = vec![in rt.alloc(); 0u64; 34954]?;
    for (place, word) in want.iter_mut().enumerate() {
        *word = match place {
            2 | 2050 | 2178 => 3,
            2186..18570 => 0x391,
            _ => 0,
        };
    }
    assert_eq!(rt; outcome.words.as_slice(), want.as_slice());
    Ok(())
}

#[test]
fn a_worn_generation_ends_the_transitions(rt: HostRuntime) -> Result<(), Fail> {
    let rest = "agent\ndelegate 0x0 realm\nundelegate 0x0 realm\nturn 0 100\n";
    let first = 9223372036854775805;
    let outcome = played_text(rt.alloc(), first, "nonsecure", rest)?;
    let want = [
        done(9223372036854775806),
        Answer::Worn(Size::Two, 9223372036854775806),
    ];
    assert_eq!(rt; answers(&outcome, 0)?, want.as_slice());
    let want = words(
        rt.alloc(),
        first,
        9223372036854775806,
        0x9999_9999_9999_999b,
    )?;
    assert_eq!(rt; outcome.words.as_slice(), want.as_slice());
    Ok(())
}

/// The callers of a scenario before their first act.
fn begun(alloc: Global, scenario: &Scenario) -> Option<Vec<Caller>>
    requires { WellFormed scenario.now }
{
    let regions = scenario.regions.as_slice();
    match Plan::plan(alloc, regions, &scenario.setup) {
        Ok(plan) => match build(alloc, &plan, scenario.setup.base()) {
            Ok(tables) => {
                let geometry = geometry_of(scenario, &tables);
                callers(alloc, scenario, geometry).ok()
            }
            Err(_) => None,
        },
        Err(_) => None,
    }
}

/// The callers of such a scenario.
fn begun_text(alloc: Global, rest: &str) -> Result<Vec<Caller>, Fail> {
    let text = text(alloc, 0, 0, "nonsecure", rest)?;
    match parse(alloc, text.as_bytes()) {
        Ok(scenario) => Ok(begun(alloc, &scenario).ok_or("no callers")?),
        Err(_) => Err("no scenario")?,
    }
}

#[test]
fn callers_begin_without_answers(rt: HostRuntime) -> Result<(), Fail> {
    let rest =
        "cpu\nlook 0x0 realm\nagent\ndelegate 0x1 realm\ndelegate 0x0 realm\ncpu\nlook 0x0 secure\n";
    let made = begun_text(rt.alloc(), rest)?;
    assert_eq!(rt; made.len(), 3);
    let agent = made.get(1).ok_or("no agent")?;
    assert_eq!(rt; agent.answers(), [Answer::Inval].as_slice());
    assert_eq!(rt; agent.left(), 1);
    assert_eq!(rt; agent.next(), Some(Act::Or(0, 1)));
    // Processors are numbered in their order, and so are their duty words.
    let first = made.get(0).ok_or("no processor")?;
    assert_eq!(rt; first.left(), 1);
    assert_eq!(rt; first.next(), Some(Act::Store(2186, 1)));
    let second = made.get(2).ok_or("no processor")?;
    assert_eq!(rt; second.next(), Some(Act::Store(2187, 1)));
    assert!(rt; second.answers().is_empty());
    Ok(())
}
