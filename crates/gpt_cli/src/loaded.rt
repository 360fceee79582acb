ghost use Rattle.std.specs.Prelude.{◌≡◌, ◌≢◌, false, IfOk, None};
ghost use Rattle.region_plan.specs.Refusals.{refusal};
ghost use Rattle.table_build.specs.Built.{tables_of, is_bad_base};
ghost use Rattle.gpt_cli.specs.Statuses.{code_of};
ghost use Rattle.gpt_cli.specs.Replies.{RepliesToLoad};
ghost use Rattle.gpt_cli.specs.declared.status.Status.TheVariants as status;

use crate::accepted::run_status;
use crate::reply::Reply;
use core_machine::play;
use gpi_values::Listed;
use load_scenario::load_scenario;
use region_plan::Plan;
use report_text::load_report;
use scenario_text::Scenario;
use std::alloc::{AllocError, Global};
use table_build::{Tables, build};

/// The canonical tables of a scenario that no rule refuses, so that memory is all that may be
/// exhausted.
fn tables_of_accepted(alloc: Global, scenario: &Scenario) -> Result<Tables, AllocError>
    requires planned { refusal scenario.now.setup scenario.now.regions ≡ None }
    requires based { is_bad_base scenario.now.setup scenario.now.regions ≡ false }
    ensures { IfOk result (λ tables. tables
        ≡ tables_of scenario.now.setup scenario.now.regions) }
{
    let Ok(plan) = Plan::plan(alloc, scenario.regions.as_slice(), &scenario.setup) else {
        return Err(AllocError);
    };
    let Ok(tables) = build(alloc, &plan, scenario.setup.base()) else {
        return Err(AllocError);
    };
    Ok(tables)
}

/// The reply to a load of this number: the summary of its run.
pub fn reply_to_load(alloc: Global, number: u32) -> Result<Reply, AllocError>
    ensures replies { IfOk result (λ reply. RepliesToLoad number reply) }
    ensures status { IfOk result (λ reply. (code_of reply.status ≢ code_of status.ReadFailed)
        × (code_of reply.status ≢ code_of status.NoMemory)) }
{
    let scenario = load_scenario(alloc, number)?;
    let tables = tables_of_accepted(alloc, &scenario)?;
    let outcome = play(alloc, &scenario, tables)?;
    Ok(Reply {
        status: run_status(&scenario, &outcome),
        text: Listed::new(load_report(alloc, number, &scenario, &outcome)?),
    })
}
