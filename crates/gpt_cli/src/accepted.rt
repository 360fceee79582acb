ghost use Rattle.std.specs.Prelude.{◌≡◌, IfOk, length};
ghost use Rattle.report_text.specs.RunText.{FitsScenario};
ghost use Rattle.gpt_cli.specs.Upheld.{Upholds};
ghost use Rattle.gpt_cli.specs.Replies.{has_left, run_status, played_reply, accepted_reply};
ghost use Rattle.gpt_cli.specs.InnerPreparing.{IsPrepared};
ghost use Rattle.gpt_cli.specs.declared.command.Command.TheVariants as the_command;

use crate::command::Command;
use crate::prepare::Prepared;
use crate::reply::Reply;
use crate::status::Status;
use core_machine::play;
use gpi_values::Listed;
use history::{Answer, Outcome};
use report_text::{Mode, call_count, run_report, tables_report};
use scenario_text::{Scenario, Script};
use std::alloc::{AllocError, Global};

/// The report of the tables.
fn reply_of_tables(alloc: Global, prepared: &Prepared) -> Result<Reply, AllocError>
    requires { IsPrepared prepared.now }
    ensures reply { IfOk result
        (λ reply. reply ≡ accepted_reply the_command.Tables prepared.now.scenario) }
    ensures upholds { IfOk result (λ _. Upholds the_command.Tables prepared.now.scenario) }
{
    Ok(Reply {
        status: Status::Done,
        text: Listed::new(tables_report(alloc, &prepared.tables)?),
    })
}

/// Whether a call has no answer.
fn has_left(scripts: &[Script], answers: &[Listed<Answer>]) -> bool
    requires { length answers.now ≡ length scripts.now }
    ensures { result ≡ has_left scripts.now answers.now }
{
    for k in 0..scripts.len() {
        if answers[k].as_slice().len() < call_count(&scripts[k]) {
            return true;
        }
    }
    false
}

/// The status of what a run left.
pub fn run_status(scenario: &Scenario, outcome: &Outcome) -> Status
    requires { FitsScenario scenario.now outcome.now }
    ensures { result ≡ run_status scenario.now outcome.now }
{
    if has_left(scenario.scripts.as_slice(), outcome.answers.as_slice()) {
        Status::Left
    } else {
        Status::Done
    }
}

/// The report of what a run left.
fn reply_of_outcome(
    alloc: Global,
    scenario: &Scenario,
    outcome: &Outcome,
) -> Result<Reply, AllocError>
    requires { FitsScenario scenario.now outcome.now }
    ensures { IfOk result (λ reply. reply ≡ played_reply scenario.now outcome.now) }
{
    Ok(Reply {
        status: run_status(scenario, outcome),
        text: Listed::new(run_report(alloc, Mode::Play, scenario, outcome)?),
    })
}

/// The report of the scenario's run on its built tables.
fn reply_of_play(alloc: Global, prepared: Prepared) -> Result<Reply, AllocError>
    requires { IsPrepared prepared }
    ensures reply { IfOk result
        (λ reply. reply ≡ accepted_reply the_command.Play prepared.scenario) }
    ensures upholds { IfOk result (λ _. Upholds the_command.Play prepared.scenario) }
{
    let Prepared { scenario, tables } = prepared;
    let outcome = play(alloc, &scenario, tables)?;
    reply_of_outcome(alloc, &scenario, &outcome)
}

/// What a command replies to an accepted scenario.
pub fn reply_to_prepared(
    alloc: Global,
    command: Command,
    prepared: Prepared,
) -> Result<Reply, AllocError>
    requires { IsPrepared prepared }
    ensures reply { IfOk result (λ reply. reply ≡ accepted_reply command prepared.scenario) }
    ensures upholds { IfOk result (λ _. Upholds command prepared.scenario) }
{
    match command {
        Command::Tables => reply_of_tables(alloc, &prepared),
        Command::Play => reply_of_play(alloc, prepared),
    }
}
