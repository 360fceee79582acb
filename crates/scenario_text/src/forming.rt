ghost use Rattle.std.specs.Prelude.{◌≡◌, ◌≤◌, ◌<◌, ◌^◌, ◌↔◌, IsTrue, sum_by};
ghost use Rattle.std.specs.List.{All};
ghost use Rattle.gpt_descriptors.specs.Sizes.{IsSetup};
ghost use Rattle.scenario_text.specs.Spelling.{WellFormed, IsRegion, IsAsk, IsScript, IsSlot, turns_of, caller_limit, turn_limit};

use crate::scenario::{Ask, Look, Scenario, Script, Slot};
use gpt_descriptors::{REGION_BYTES, Setup};
use region_plan::Region;

/// The most callers of a scenario.
pub const CALLER_LIMIT: usize = 32;

/// The most turns of a schedule, and of one of its lines.
pub const TURN_LIMIT: u64 = 20_000_000;

/// Holds of each region: the types of its numbers say so.
fn region_fits(_region: Region) -> bool
    ensures { IsTrue result ↔ IsRegion _region }
{
    true
}

fn regions_fit(regions: &[Region]) -> bool
    ensures { IsTrue result ↔ All IsRegion regions.now }
{
    regions.iter().all(|region| region_fits(*region))
}

/// Holds of each call: the type of its address says so.
fn ask_fits(_ask: Ask) -> bool
    ensures { IsTrue result ↔ IsAsk _ask }
{
    true
}

fn asks_fit(asks: &[Ask]) -> bool
    ensures { IsTrue result ↔ All IsAsk asks.now }
{
    asks.iter().all(|ask| ask_fits(*ask))
}

fn looks_inside(space: u64, looks: &[Look]) -> bool
    ensures { IsTrue result ↔ All (λ look. look.pa < space) looks.now }
{
    looks.iter().all(|look| look.pa < space)
}

fn slot_good(callers: u64, slot: Slot) -> bool
    ensures { IsTrue result ↔ IsSlot callers slot }
{
    match slot {
        Slot::Turn(caller, turns) => u64::from(caller) < callers && turns_good(turns),
        Slot::Round(turns, times) => turns_good(turns) && turns_good(times),
    }
}

fn turns_good(turns: u32) -> bool
    ensures { IsTrue result ↔ ((1 ≤ turns) × (turns ≤ turn_limit)) }
{
    1 <= turns && u64::from(turns) <= TURN_LIMIT
}

fn slots_good(callers: u64, schedule: &[Slot]) -> bool
    ensures { IsTrue result ↔ All (IsSlot callers) schedule.now }
{
    schedule.iter().all(|slot| slot_good(callers, *slot))
}

/// The turns of a good line of the schedule.
pub fn turns_in(callers: u64, slot: Slot) -> u64
    requires callers { callers ≤ caller_limit }
    requires slot { IsSlot callers slot }
    ensures value { result ≡ turns_of callers slot }
    ensures fits { result < 2 ^ 60 }
{
    match slot {
        Slot::Turn(_, turns) => u64::from(turns),
        Slot::Round(turns, times) => u64::from(turns) * u64::from(times) * callers,
    }
}

fn script_good(setup: &Setup, script: &Script) -> bool
    ensures { IsTrue result ↔ IsScript setup.now script.now }
{
    match script {
        Script::Agent(asks) => asks_fit(asks.as_slice()),
        Script::Cpu(looks) => looks_inside(setup.gigabytes() * REGION_BYTES, looks.as_slice()),
    }
}

fn scripts_good(setup: &Setup, scripts: &[Script]) -> bool
    ensures { IsTrue result ↔ All (IsScript setup.now) scripts.now }
{
    scripts.iter().all(|script| script_good(setup, script))
}

/// Whether all turns of good lines are within the limit. It stops at the first line that passes it,
/// so that the sum can't overflow.
fn turns_within(callers: u64, schedule: &[Slot]) -> bool
    requires callers { callers ≤ caller_limit }
    requires slots { All (IsSlot callers) schedule.now }
    ensures { IsTrue result ↔ (sum_by (turns_of callers) schedule.now ≤ turn_limit) }
{
    let mut sum = 0;
    for slot in schedule {
        sum += turns_in(callers, *slot);
        if sum > TURN_LIMIT {
            return false;
        }
    }
    true
}

fn schedule_good(callers: u64, schedule: &[Slot]) -> bool
    requires { callers ≤ caller_limit }
    ensures { IsTrue result ↔ (All (IsSlot callers) schedule.now
        × (sum_by (turns_of callers) schedule.now ≤ turn_limit)) }
{
    slots_good(callers, schedule) && turns_within(callers, schedule)
}

/// Says what holds of each setup.
fn setup_fits(setup: &Setup)
    ensures setup { IsSetup setup.now }
    ensures base { setup.now.base < 2 ^ 64 }
{
    let _first = setup.first();
    let _base = setup.base();
}

/// Whether a scenario has a text: each access is in the protected space, there are at most 32
/// callers, each line of the schedule names one of them and has 1 to 20,000,000 turns and times,
/// and all its turns together are at most 20,000,000.
pub fn well_formed(scenario: &Scenario) -> bool
    ensures { IsTrue result ↔ WellFormed scenario.now }
{
    setup_fits(&scenario.setup);
    let scripts = scenario.scripts.as_slice();
    scripts.len() <= CALLER_LIMIT
        && regions_fit(scenario.regions.as_slice())
        && scripts_good(&scenario.setup, scripts)
        && schedule_good(scripts.len() as u64, scenario.schedule.as_slice())
}
