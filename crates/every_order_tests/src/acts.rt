use gpi_values::Gpi;
use std::alloc::AllocError;

/// One act of a transition or, from `On` to `Off`, of an access.
#[derive(Clone, Copy, Debug, PartialEq, Eq)]
pub enum Step {
    Lock,
    Load,
    Clean,
    Change,
    RaiseTwo,
    Raise,
    /// The third raise, which completes a change.
    Settle,
    Barrier,
    /// A turn at the barrier while the access goes on.
    Wait,
    Unlock,
    On,
    /// The load of the generation of the kept walk.
    Check,
    Two,
    Other,
    Word,
    /// The second load of the walk's generation.
    Again,
    Touch,
    Off,
}

use Step::*;

pub const DELEGATE: [Step; 13] = [
    Lock, Load, Load, Load, Load, Clean, Change, RaiseTwo, Raise, Settle, Barrier, Clean, Unlock,
];

pub const UNDELEGATE: [Step; 18] = [
    Lock, Load, Load, Load, Load, Change, RaiseTwo, Raise, Settle, Barrier, Clean, Clean, Change,
    RaiseTwo, Raise, Settle, Barrier, Unlock,
];

/// The acts of an access, of which a denied one has no touch.
const COLD: [Step; 8] = [On, Two, Other, Other, Word, Again, Touch, Off];

const HIT: [Step; 4] = [On, Check, Touch, Off];

const MISSED: [Step; 9] = [On, Check, Two, Other, Other, Word, Again, Touch, Off];

/// A transition and an access of one granule.
#[derive(Clone, Copy, Debug)]
pub struct Case<'a> {
    pub call: &'a str,
    pub source: Gpi,
    pub acts: &'a [Step],
    /// What the granule is before the transition and after each of its changes.
    pub gpis: &'a [Gpi],
    /// The GPI of the space of the access.
    pub space: Gpi,
    /// The processor keeps a walk of the granule from an earlier access.
    pub kept: bool,
}

impl Case<'_> {
    pub fn gpi(&self, changes: usize) -> Gpi {
        self.gpis.get(changes).copied().unwrap_or(Gpi::Root)
    }

    pub fn changes(&self) -> usize {
        self.gpis.len().saturating_sub(1)
    }
}

/// A turn, and whether the processor's turn in its place is still to be tried.
#[derive(Clone, Copy, Debug)]
pub struct Turn {
    pub step: Step,
    pub other: bool,
}

pub fn is_access(step: Step) -> bool {
    COLD.contains(&step) || step == Check
}

pub fn count(turns: &[Turn], step: Step) -> usize {
    turns.iter().filter(|turn| turn.step == step).count()
}

/// The turns before the first one with this act, all where there is none.
pub fn before(turns: &[Turn], step: Step) -> &[Turn] {
    let place = turns.iter().position(|turn| turn.step == step);
    turns
        .split_at(place.unwrap_or(turns.len()).min(turns.len()))
        .0
}

/// The act by which the access is decided.
pub fn deciding(turns: &[Turn]) -> Step {
    match count(turns, Word) {
        0 => Check,
        _ => Word,
    }
}

/// The turns before the access is decided.
pub fn decided(turns: &[Turn]) -> &[Turn] {
    before(turns, deciding(turns))
}

/// What a decided access is decided by: a kept walk is from before the transition.
pub fn decided_gpi(case: &Case<'_>, turns: &[Turn]) -> Gpi {
    match deciding(turns) {
        Word => case.gpi(count(decided(turns), Change)),
        _ => case.gpi(0),
    }
}

fn next_of_agent(case: &Case<'_>, turns: &[Turn]) -> Option<Step> {
    let made = turns
        .iter()
        .filter(|turn| !is_access(turn.step) && turn.step != Wait)
        .count();
    let step = case.acts.get(made).copied();
    if step != Some(Barrier) || count(turns, On) == count(turns, Off) {
        return step;
    }
    // After a wait the processor goes next, since a second one would change nothing.
    match turns.last() {
        Some(turn) if turn.step == Wait => None,
        _ => Some(Wait),
    }
}

fn next_of_access(case: &Case<'_>, turns: &[Turn]) -> Option<Step> {
    let made = turns.iter().filter(|turn| is_access(turn.step)).count();
    let raised = count(before(turns, Check), RaiseTwo) > 0;
    let step = match (case.kept, raised) {
        (false, _) => COLD.get(made).copied(),
        (true, false) => HIT.get(made).copied(),
        (true, true) => MISSED.get(made).copied(),
    };
    match step {
        _ if count(turns, Off) > 0 => None,
        Some(Touch) if decided_gpi(case, turns) != case.space => Some(Off),
        _ => step,
    }
}

/// Goes on until both have ended, the agent first where it can.
pub fn finish(case: &Case<'_>, turns: &mut Vec<Turn>) -> Result<(), AllocError> {
    for _ in 0..64 {
        let access = next_of_access(case, turns);
        let Some(step) = next_of_agent(case, turns).or(access) else {
            return Ok(());
        };
        let other = access.is_some() && !is_access(step);
        turns.push(Turn { step, other })?;
    }
    Ok(())
}

/// Goes on to the next order, if there is one: the last turn in whose place the processor may go.
pub fn advance(case: &Case<'_>, turns: &mut Vec<Turn>) -> Result<bool, AllocError> {
    for _ in 0..turns.len() {
        match (turns.pop(), next_of_access(case, turns)) {
            (Some(Turn { other: true, .. }), Some(step)) => {
                turns.push(Turn { step, other: false })?;
                finish(case, turns)?;
                return Ok(true);
            }
            _ => {}
        }
    }
    Ok(false)
}
