ghost use Rattle.scenario_text.specs.Spelling.{WellFormed};

use crate::opened::Opened;
use core_machine::play;
use gpi_values::Gpi;
use gpt_descriptors::{Generations, Reach};
use history::{Access, Answer, Outcome, Via};
use region_plan::Plan;
use scenario_text::{Scenario, Slot, parse};
use std::alloc::{AllocError, Global};
use std::test::Fail;
use table_build::build;

/// An agent delegates a granule, and a processor has three accesses at it.
const DELEGATE: &str =
    "gpt 1\nspace 4\nmax 0\nlocks 1\nfirst 0\nring 8\ntables 1\nbase 0x80000000\n\
region 0x0 0x40000000 granule nonsecure\nagent\ndelegate 0x200000 realm\ncpu\n\
look 0x200000 nonsecure\nlook 0x200000 nonsecure\nlook 0x200000 nonsecure\n\
turn 1 8\nturn 0 7\nturn 1 4\nturn 0 6\nturn 1 8\nend\n";

/// Two agents at one granule, under one lock.
const AGENTS: &str = "gpt 1\nspace 4\nmax 0\nlocks 1\nfirst 0\nring 8\ntables 1\nbase 0x80000000\n\
region 0x0 0x40000000 granule nonsecure\nagent\ndelegate 0x200000 realm\nagent\n\
delegate 0x200000 secure\n";

/// An agent, and a processor that it may wait for.
const BARRIER: &str = "gpt 1\nspace 4\nmax 0\nlocks 1\nfirst 0\nring 8\ntables 1\nbase 0x80000000\n\
region 0x0 0x40000000 granule nonsecure\nagent\ndelegate 0x200000 realm\ncpu\n\
look 0x200000 nonsecure\n";

/// An agent that splits the block around its granule.
const SPLIT: &str = "gpt 1\nspace 4\nmax 2\nlocks 1\nfirst 0\nring 8\ntables 1\nbase 0x80000000\n\
region 0x0 0x40000000 granule nonsecure\nagent\ndelegate 0x200000 realm\nundelegate 0x200000 realm\n\
agent\nundelegate 0x3ff000 realm\n";

/// The callers of a scenario on their field, and what its schedule leaves in the plain machine.
fn both(alloc: Global, scenario: &Scenario) -> Option<(Opened, Outcome)>
    requires { WellFormed scenario.now }
{
    match Plan::plan(alloc, scenario.regions.as_slice(), &scenario.setup) {
        Ok(plan) => match build(alloc, &plan, scenario.setup.base()) {
            Ok(tables) => match Opened::of_scenario(alloc, scenario, &tables) {
                Ok(opened) => match play(alloc, scenario, tables) {
                    Ok(outcome) => Some((opened, outcome)),
                    Err(_) => None,
                },
                Err(_) => None,
            },
            Err(_) => None,
        },
        Err(_) => None,
    }
}

/// The turns of one line of a schedule, by the passes.
fn slot(opened: &mut Opened, slot: Slot) {
    if let Slot::Turn(caller, count) = slot {
        for _ in 0..count {
            if (caller as usize) < opened.callers().len() {
                opened.turn(caller as usize);
            }
        }
    }
}

/// Whether the answers and the words are the same.
fn is_same(opened: &Opened, outcome: &Outcome) -> bool {
    let answers = outcome.answers.as_slice();
    let words = outcome.words.as_slice();
    let callers = opened.callers();
    if answers.len() != callers.len() || opened.field().word_count() != words.len() {
        return false;
    }
    for c in 0..callers.len() {
        if callers[c].answers() != answers[c].as_slice() {
            return false;
        }
    }
    for place in 0..words.len() {
        if opened.field().word(place) != words[place] {
            return false;
        }
    }
    true
}

/// Whether the passes and the plain machine leave the same after the schedule of this text.
fn agrees(alloc: Global, text: &str) -> Option<(Opened, bool)> {
    let Ok(scenario) = parse(alloc, text.as_bytes()) else {
        return None;
    };
    let (mut opened, outcome) = both(alloc, &scenario)?;
    for line in scenario.schedule.as_slice() {
        slot(&mut opened, *line);
    }
    let same = is_same(&opened, &outcome);
    Some((opened, same))
}

#[test]
fn turns_of_passes_are_those_of_the_schedule(rt: HostRuntime) -> Result<(), Fail> {
    let (opened, same) = agrees(rt.alloc(), DELEGATE).ok_or("not opened")?;
    assert!(rt; same);
    let done = Answer::Done(Generations {
        two: 1,
        thirty_two: 1,
        five_twelve: 1,
    });
    let seen = |allowed: bool, gpi: Gpi, via: Via| {
        Answer::Seen(Access {
            allowed,
            gpi,
            level: 1,
            via,
        })
    };
    let (word, nonsecure) = (Reach::Word, Gpi::NonSecure);
    let want = [
        seen(
            true,
            nonsecure,
            Via::Cold {
                reach: word,
                lo: 0,
                hi: 0,
            },
        ),
        seen(true, nonsecure, Via::Hit { reach: word, at: 0 }),
        seen(
            false,
            Gpi::Realm,
            Via::Missed {
                reach: word,
                then: word,
                tag: 0,
                at: 1,
                lo: 1,
                hi: 1,
            },
        ),
    ];
    let given = opened.callers();
    assert_eq!(rt; given.len(), 2);
    assert_eq!(rt;
        given.first().map(|agent| agent.answers()),
        Some([done].as_slice())
    );
    assert_eq!(rt;
        given.last().map(|cpu| cpu.answers()),
        Some(want.as_slice())
    );
    Ok(())
}

/// The text with the turns of two callers, of which caller 1 has those whose bits are set.
fn ordered(
    alloc: Global,
    callers: &str,
    before: &str,
    bits: u32,
    turns: u32,
) -> Result<String, AllocError> {
    let mut out = format!(in alloc; "{callers}{before}")?;
    for k in 0..turns {
        write!(out, "turn {} 1\n", bits >> (k & 31) & 1)?;
    }
    write!(out, "turn 0 40\nturn 1 40\nturn 0 40\nend\n")?;
    Ok(out)
}

#[test]
fn every_order_of_acts_leaves_what_the_machine_leaves(rt: HostRuntime) -> Result<(), Fail> {
    // The callers, the turns before, and where the orders of six turns begin: at the locks, at the change
    // and the raises, at the barrier, in a splitting.
    let table = [
        (AGENTS, ""),
        (AGENTS, "turn 0 5\n"),
        (BARRIER, "turn 0 6\n"),
        (BARRIER, "turn 0 9\nturn 1 4\n"),
        (SPLIT, "turn 0 4\n"),
    ];
    for (callers, before) in table {
        for bits in 0..64 {
            let text = ordered(rt.alloc(), callers, before, bits, 6)?;
            let (_, same) = agrees(rt.alloc(), text.as_str()).ok_or("not opened")?;
            assert!(rt; same, "the order {bits} of {text}");
        }
    }
    Ok(())
}
