ghost use Rattle.scenario_text.specs.Spelling.{WellFormed};

use crate::acts::{Case, DELEGATE, Turn, UNDELEGATE, advance, finish, is_access};
use crate::judged::{FIRST, done_of, judge, kept_of, leaves_line, marks};
use core_machine::play;
use gpi_values::Gpi;
use history::{Access, Answer, Outcome};
use region_plan::Plan;
use scenario_text::{Scenario, parse};
use std::alloc::{AllocError, Global};
use std::process::Abort;
use std::test::Fail;
use table_build::build;

/// How many orders one scenario plays, each on the first granule of 2 MB of its own.
const SLOTS: usize = 512;

fn name(gpi: Gpi) -> &'static str {
    match gpi {
        Gpi::Secure => "secure",
        Gpi::Realm => "realm",
        _ => "nonsecure",
    }
}

/// The scenario of these orders, one after another.
fn text(alloc: Global, case: &Case<'_>, orders: &[Vec<Turn>]) -> Result<String, AllocError> {
    let (call, source, space) = (case.call, name(case.source), name(case.space));
    let mut out = format!(in alloc;
        "gpt 1\nspace 4\nmax 0\nlocks 1\nfirst {FIRST}\nring 8\ntables 1\nbase 0x80000000\n\
         region 0x0 0x40000000 granule {}\nagent\n",
        name(case.gpi(0))
    )?;
    for slot in 0..orders.len() {
        let base = slot.wrapping_mul(0x20_0000);
        write!(out, "{call} 0x{base:x} {source}\n")?;
    }
    write!(out, "cpu\n")?;
    for slot in 0..orders.len() {
        let base = slot.wrapping_mul(0x20_0000);
        for _ in 0..1 + case.kept as usize {
            write!(out, "look 0x{base:x} {space}\n")?;
        }
    }
    let earlier = 7 + (case.gpi(0) == case.space) as usize;
    for turns in orders {
        if case.kept {
            write!(out, "turn 1 {earlier}\n")?;
        }
        for turn in turns {
            write!(out, "turn {} 1\n", is_access(turn.step) as usize)?;
        }
    }
    write!(out, "end\n")?;
    Ok(out)
}

/// What playing a scenario leaves.
fn played(alloc: Global, scenario: &Scenario) -> Option<Outcome>
    requires { WellFormed scenario.now }
{
    let regions = scenario.regions.as_slice();
    match Plan::plan(alloc, regions, &scenario.setup) {
        Ok(plan) => match build(alloc, &plan, scenario.setup.base()) {
            Ok(tables) => play(alloc, scenario, tables).ok(),
            Err(_) => None,
        },
        Err(_) => None,
    }
}

/// Sixteen granules, the first of this GPI and the others of that one.
fn word(first: Gpi, others: Gpi) -> u64 {
    let value = |gpi: Gpi| match gpi {
        Gpi::Secure => 8u64,
        Gpi::Realm => 11,
        _ => 9,
    };
    value(others)
        .wrapping_mul(0x1111_1111_1111_1110)
        .wrapping_add(value(first))
}

/// The shared words when these orders have ended, of which some left a line. The generations of 2,
/// 32 and 512 MB count the changes, the granules have their last GPI, and nothing is locked.
fn words(alloc: Global, case: &Case<'_>, lines: &[bool]) -> Result<Vec<u64>, AllocError> {
    let first = case.gpi(0);
    let last = case.gpi(case.changes());
    let changes = case.changes() as u64;
    let mut words = vec![in alloc; 0u64; 2]?;
    for (count, size) in [(2048usize, 1usize), (128, 16), (8, 256)] {
        for index in 0..count {
            let others = lines.len().saturating_sub(index.wrapping_mul(size));
            let orders = others.min(size) as u64;
            words.push(FIRST.wrapping_add(changes.wrapping_mul(orders)))?;
        }
    }
    words.push(0)?;
    for index in 0..16384usize {
        let changed = index % 32 == 0 && index / 32 < lines.len();
        words.push(word(if changed { last } else { first }, first))?;
    }
    for index in 0..16384usize {
        let line = index % 32 == 0 && lines.get(index / 32).copied() == Some(true);
        words.push(if line { bit(case.space) } else { 0 })?;
    }
    Ok(words)
}

/// The bit of a space in the line word of the first of sixteen granules.
fn bit(space: Gpi) -> u64 {
    match space {
        Gpi::Secure => 1,
        Gpi::Realm => 8,
        _ => 2,
    }
}

/// What a caller's call was answered.
fn answer(outcome: &Outcome, caller: usize, call: usize) -> Option<Answer> {
    let answers = outcome.answers.as_slice().get(caller)?;
    answers.as_slice().get(call).copied()
}

/// Holds the answers of one order, before which as many as `slot` were played, against it.
fn hold_answers(
    rt: &(impl Abort + Print),
    case: &Case<'_>,
    outcome: &Outcome,
    slot: usize,
    turns: &[Turn],
) -> Option<Access> {
    assert_eq!(rt;
        answer(outcome, 0, slot),
        Some(done_of(case, slot)),
        "{turns:?}"
    );
    let mut look = slot;
    if case.kept {
        look = slot.wrapping_mul(2);
        assert_eq!(rt; answer(outcome, 1, look), Some(kept_of(case)));
        look = look.wrapping_add(1);
    }
    match answer(outcome, 1, look) {
        Some(Answer::Seen(seen)) => {
            judge(rt, case, turns, &seen);
            Some(seen)
        }
        _ => None,
    }
}

/// Plays these orders in one scenario, and holds the answers of each and all words against them.
fn hold(
    rt: &(impl Abort + Print),
    alloc: Global,
    case: &Case<'_>,
    orders: &[Vec<Turn>],
    tally: &mut [usize; 7],
) -> Result<(), Fail> {
    let text = text(alloc, case, orders)?;
    let outcome = match parse(alloc, text.as_bytes()) {
        Ok(scenario) => played(alloc, &scenario).ok_or("no outcome")?,
        Err(_) => Err("no scenario")?,
    };
    let mut lines = Vec::new(alloc);
    for (slot, turns) in orders.iter().enumerate() {
        let turns = turns.as_slice();
        let seen = hold_answers(rt, case, &outcome, slot, turns).ok_or("not seen")?;
        lines.push(leaves_line(case, turns, &seen))?;
        for (total, mark) in tally.iter_mut().zip(marks(case, turns, &seen)) {
            *total = total.wrapping_add(mark as usize);
        }
    }
    let want = words(alloc, case, lines.as_slice())?;
    assert!(rt;
        outcome.words.as_slice() == want.as_slice(),
        "words of {case:?}"
    );
    Ok(())
}

/// Plays every order of a case, and counts their marks.
fn every_order(
    rt: &(impl Abort + Print),
    alloc: Global,
    case: &Case<'_>,
) -> Result<[usize; 7], Fail> {
    let mut tally = [0; 7];
    let mut turns = Vec::new(alloc);
    finish(case, &mut turns)?;
    let mut orders = Vec::new(alloc);
    for _ in 0..1_000_000 {
        orders.push(turns.clone()?)?;
        let more = advance(case, &mut turns)?;
        if !more || orders.len() == SLOTS {
            hold(rt, alloc, case, orders.as_slice(), &mut tally)?;
            orders.clear();
        }
        if !more {
            break;
        }
    }
    Ok(tally)
}

/// Every order with an access in the Non-secure space and in that of the source, each without a kept
/// walk and with one, is counted so.
fn tallies_are(
    rt: &(impl Abort + Print),
    alloc: Global,
    case: &Case<'_>,
    wanted: [[usize; 7]; 4],
) -> Result<(), Fail> {
    let kinds = [
        (Gpi::NonSecure, false),
        (Gpi::NonSecure, true),
        (case.source, false),
        (case.source, true),
    ];
    for ((space, kept), wanted) in kinds.into_iter().zip(wanted) {
        let case = Case {
            space,
            kept,
            ..*case
        };
        assert_eq!(rt; every_order(rt, alloc, &case)?, wanted, "{case:?}");
    }
    Ok(())
}

// The numbers of each mark were counted by another program, which walks the acts without words.
#[test]
fn every_order_of_a_delegate_and_an_access(rt: HostRuntime) -> Result<(), Fail> {
    let wanted = [
        [73241, 35442, 45771, 0, 0, 100, 0],
        [6152, 4868, 1206, 1206, 128, 173, 0],
        [74636, 49148, 60908, 0, 0, 0, 60908],
        [10203, 9505, 9939, 264, 0, 0, 9939],
    ];
    for source in [Gpi::Realm, Gpi::Secure] {
        let case = Case {
            call: "delegate",
            source,
            acts: &DELEGATE,
            gpis: &[Gpi::NonSecure, source],
            space: source,
            kept: false,
        };
        tallies_are(&rt, rt.alloc(), &case, wanted)?;
    }
    Ok(())
}

#[test]
fn every_order_of_an_undelegate_and_an_access(rt: HostRuntime) -> Result<(), Fail> {
    let wanted = [
        [38018, 24097, 11237, 0, 0, 0, 11237],
        [30814, 26020, 25546, 196, 0, 0, 25546],
        [48114, 25995, 23223, 0, 0, 72, 0],
        [18045, 14106, 854, 854, 112, 137, 0],
    ];
    for source in [Gpi::Realm, Gpi::Secure] {
        let case = Case {
            call: "undelegate",
            source,
            acts: &UNDELEGATE,
            gpis: &[source, Gpi::NoAccess, Gpi::NonSecure],
            space: source,
            kept: false,
        };
        tallies_are(&rt, rt.alloc(), &case, wanted)?;
    }
    Ok(())
}
