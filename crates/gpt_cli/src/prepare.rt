ghost use Rattle.std.specs.Prelude.{◌≡◌, IfOk, IfErr};
ghost use Rattle.gpt_cli.specs.InnerPreparing.{IsPrepared, HasScenario, Refuses};

use crate::refusal::Refusal;
use gpt_stream::INPUT_LIMIT;
use region_plan::Plan;
use scenario_text::{Scenario, parse};
use std::alloc::Global;
use table_build::{Tables, build};

/// What a command starts from: a scenario that is accepted, and its built tables.
#[derive(Debug, Drop)]
pub struct Prepared {
    pub scenario: Scenario,
    pub tables: Tables,
}

/// The scenario of an input, or what refuses its length or one of its lines. The memory of the input
/// is given back here, before the answers take theirs.
fn read_scenario(alloc: Global, bytes: Vec<u8>) -> Result<Scenario, Refusal>
    ensures scenario { IfOk result (λ scenario. HasScenario bytes.items scenario) }
    ensures refused { IfErr result (λ refusal. Refuses bytes.items refusal) }
{
    if bytes.len() > INPUT_LIMIT {
        return Err(Refusal::TooLong);
    }
    Ok(parse(alloc, bytes.as_slice())?)
}

/// Holds an input against all rules: what was prepared of it, or the first rule that refuses it.
/// The limit comes first, then the lines, the regions and the base.
pub fn prepare(alloc: Global, bytes: Vec<u8>) -> Result<Prepared, Refusal>
    ensures prepared { IfOk result (λ prepared. IsPrepared prepared) }
    ensures scenario { IfOk result (λ prepared. HasScenario bytes.items prepared.scenario) }
    ensures refused { IfErr result (λ refusal. Refuses bytes.items refusal) }
{
    let scenario = read_scenario(alloc, bytes)?;
    let plan = Plan::plan(alloc, scenario.regions.as_slice(), &scenario.setup)?;
    let tables = build(alloc, &plan, scenario.setup.base())?;
    Ok(Prepared { scenario, tables })
}
