ghost use Rattle.std.specs.Prelude.{◌≡◌, IfOk, None, false};
ghost use Rattle.scenario_text.specs.Spelling.{WellFormed};
ghost use Rattle.region_plan.specs.Refusals.{refusal};
ghost use Rattle.table_build.specs.Built.{is_bad_base};
ghost use Rattle.load_scenario.specs.Load.{load_setup, load_regions, load_scripts, load_schedule, load_of};

use crate::calls::{agent, cpu};
use crate::draws::Generator;
use gpt_descriptors::{Gpi, MaxBlock, Setup};
use region_plan::{Kind, Region};
use scenario_text::{Listed, Scenario, Script, Slot, Source};
use std::alloc::{AllocError, Global};

/// The turns that each caller has in a round.
const TURNS: u32 = 64;

/// The rounds of the schedule.
const ROUNDS: u32 = 32000;

/// All 4 GB, Non-secure by granules.
const ALL_GRANULES: Region = Region {
    base: 0,
    size: 0x1_0000_0000,
    kind: Kind::Granule,
    gpi: Gpi::NonSecure,
};

/// The setup of each of these scenarios.
fn load_setup() -> Setup
    ensures { result ≡ load_setup }
{
    match Setup::new(4, MaxBlock::FiveTwelve, 1, 0, 8, 4, 0x8000_0000) {
        Some(setup) => setup,
        None => unreachable!(),
    }
}

/// The regions of each of these scenarios.
fn load_regions(alloc: Global) -> Result<Listed<Region>, AllocError>
    ensures { IfOk result (λ regions. regions ≡ load_regions) }
{
    Ok(Listed::new(vec![in alloc; ALL_GRANULES]?))
}

/// The scripts of a number: two agents, then four processors.
fn load_scripts(alloc: Global, number: u32) -> Result<Listed<Script>, AllocError>
    ensures { IfOk result (λ scripts. scripts ≡ load_scripts number) }
{
    let mut generator = Generator {
        value: u64::from(number),
    };
    let scripts = vec![in alloc;
        agent(alloc, &mut generator, Source::Realm)?,
        agent(alloc, &mut generator, Source::Secure)?,
        cpu(alloc, &mut generator)?,
        cpu(alloc, &mut generator)?,
        cpu(alloc, &mut generator)?,
        cpu(alloc, &mut generator)?,
    ]?;
    Ok(Listed::new(scripts))
}

/// The schedule of each of these scenarios.
fn load_schedule(alloc: Global) -> Result<Listed<Slot>, AllocError>
    ensures { IfOk result (λ schedule. schedule ≡ load_schedule) }
{
    Ok(Listed::new(vec![in alloc; Slot::Round(TURNS, ROUNDS)]?))
}

/// The scenario of a number, 0 to 4,294,967,295: one Realm and one Secure agent with 50 calls each,
/// then four processors with 400 accesses each, drawn from the number in this order; a protected
/// space of 4 GB, Non-secure by granules, with memory for its four level 1 tables from byte address
/// 0x80000000 on; and a schedule of 32,000 rounds of 64 turns of each caller. The same number
/// always gives the same scenario, which has a text, and whose regions and table base are accepted.
///
/// `AllocError` where memory is exhausted.
pub fn load_scenario(alloc: Global, number: u32) -> Result<Scenario, AllocError>
    ensures scenario { IfOk result (λ scenario. scenario ≡ load_of number) }
    ensures formed { IfOk result (λ scenario. WellFormed scenario) }
    ensures planned { IfOk result
        (λ scenario. refusal scenario.setup scenario.regions ≡ None) }
    ensures based { IfOk result
        (λ scenario. is_bad_base scenario.setup scenario.regions ≡ false) }
{
    Ok(Scenario {
        setup: load_setup(),
        regions: load_regions(alloc)?,
        scripts: load_scripts(alloc, number)?,
        schedule: load_schedule(alloc)?,
    })
}
