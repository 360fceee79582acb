use crate::acts::{Case, Step, Turn, before, count, decided, decided_gpi, deciding};
use gpt_descriptors::{Generations, Reach};
use history::{Access, Answer, Via};
use std::process::Abort;

/// The first generation of all regions.
pub const FIRST: u64 = 7;

/// The generation that an access loads by this act. Each change raises it once.
fn loaded(turns: &[Turn], step: Step) -> u64 {
    FIRST.wrapping_add(count(before(turns, step), Step::RaiseTwo) as u64)
}

/// How the access finds its GPI by its script: a kept walk is from before the transition.
fn via_of(case: &Case<'_>, turns: &[Turn]) -> Via {
    let reach = Reach::Word;
    let at = loaded(turns, Step::Check);
    let (lo, hi) = (loaded(turns, Step::Two), loaded(turns, Step::Again));
    match (case.kept, deciding(turns)) {
        (false, _) => Via::Cold { reach, lo, hi },
        (true, Step::Check) => Via::Hit { reach, at },
        (true, _) => Via::Missed {
            reach,
            tag: FIRST,
            at,
            then: reach,
            lo,
            hi,
        },
    }
}

/// The GPI of an access is the map's, or the former one of a change that is open, from its store to
/// its third raise; and a walk has the map's.
fn is_legal(case: &Case<'_>, turns: &[Turn], seen: &Access) -> bool {
    let changes = count(decided(turns), Step::Change);
    let is_open = changes > count(decided(turns), Step::Settle);
    let is_hit = matches!(seen.via, Via::Hit { .. });
    let is_former = seen.gpi == case.gpi(changes.saturating_sub(1));
    seen.level == 1
        && seen.allowed == (seen.gpi == case.space)
        && (seen.gpi == case.gpi(changes) || is_open && is_hit && is_former)
}

/// The GPI is that after the change numbered `v` for some `v` with `lo <= v <= hi + 1`, and the count
/// of changes before the access is between these too.
fn has_stamps(case: &Case<'_>, turns: &[Turn], seen: &Access) -> bool {
    let counted = FIRST.wrapping_add(count(decided(turns), Step::Change) as u64);
    let last = FIRST.wrapping_add(case.changes() as u64);
    let (lo, hi, fits) = match seen.via {
        Via::Cold { lo, hi, .. } => (lo, hi, !case.kept),
        Via::Hit { at, .. } => (at, at, case.kept && at == FIRST),
        Via::Missed {
            tag,
            at,
            lo,
            hi,
            ..
        } => (lo, hi, case.kept && tag < at && at <= counted),
        Via::Still => (0, 0, false),
    };
    let saw = |v: u64| {
        let change = v.wrapping_sub(FIRST) as usize;
        change <= case.changes() && case.gpi(change) == seen.gpi
    };
    let saw_one = (lo..=hi.wrapping_add(1)).any(|v| saw(v));
    let bounded = lo <= counted && counted <= hi.wrapping_add(1);
    fits && FIRST <= lo && lo <= hi && hi <= last && bounded && saw_one
}

/// Whether the access begins when the transition is complete.
fn begins_after(case: &Case<'_>, turns: &[Turn]) -> bool {
    count(before(turns, Step::On), Step::Settle) == case.changes()
}

/// The line of the granule is resident at the end exactly where the map permits it then, and the
/// access was allowed after the last change.
pub fn leaves_line(case: &Case<'_>, turns: &[Turn], seen: &Access) -> bool {
    let permits = case.gpi(case.changes()) == case.space;
    seen.allowed && permits && count(decided(turns), Step::Change) == case.changes()
}

/// The answer of the transition, before which as many orders as `slot` were played: the generations
/// of 2, 32 and 512 MB count their changes too.
pub fn done_of(case: &Case<'_>, slot: usize) -> Answer {
    let changes = case.changes() as u64;
    let after = |orders: usize| FIRST.wrapping_add(changes.wrapping_mul(orders as u64));
    Answer::Done(Generations {
        two: after(1),
        thirty_two: after((slot % 16).wrapping_add(1)),
        five_twelve: after((slot % 256).wrapping_add(1)),
    })
}

/// The answer of the access before the transition, whose walk is kept.
pub fn kept_of(case: &Case<'_>) -> Answer {
    Answer::Seen(Access {
        allowed: case.gpi(0) == case.space,
        gpi: case.gpi(0),
        level: 1,
        via: Via::Cold {
            reach: Reach::Word,
            lo: FIRST,
            hi: FIRST,
        },
    })
}

/// Holds what an access was answered against the order of its acts.
pub fn judge(rt: &(impl Abort + Print), case: &Case<'_>, turns: &[Turn], seen: &Access) {
    let late = begins_after(case, turns) && seen.gpi != case.gpi(case.changes());
    let legal = is_legal(case, turns, seen);
    assert!(rt; legal && !late, "not legal: {seen:?} {turns:?}");
    let stamps = has_stamps(case, turns, seen);
    assert!(rt; stamps, "not its stamps: {seen:?} {turns:?}");
    let script = seen.via == via_of(case, turns) && seen.gpi == decided_gpi(case, turns);
    assert!(rt; script, "not its script: {seen:?} {turns:?}");
}

/// What an order is counted as: an order, and one that waits, is granted, hits, is granted by the
/// former GPI, begins after the transition and is denied, and leaves a line.
pub fn marks(case: &Case<'_>, turns: &[Turn], seen: &Access) -> [bool; 7] {
    let changes = count(decided(turns), Step::Change);
    [
        true,
        count(turns, Step::Wait) > 0,
        seen.allowed,
        matches!(seen.via, Via::Hit { .. }),
        seen.allowed && seen.gpi != case.gpi(changes),
        begins_after(case, turns) && !seen.allowed,
        leaves_line(case, turns, seen),
    ]
}
