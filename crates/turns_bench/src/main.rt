//! Plays the scenario of standard input, as `gpt_cli play` does, and prints how many calls were
//! answered in place of the report: `bench/turns.sh` times its turns without the report's texts.
#![tactic(auto)]

ghost use Rattle.std.specs.Prelude.{◌≡◌, None};
ghost use Rattle.scenario_text.specs.Spelling.{WellFormed};
ghost use Rattle.core_machine.specs.Scenarios.{IsAccepted};
ghost use Rattle.table_build.specs.Built.{tables_of, is_bad_base};
ghost use Rattle.region_plan.specs.Refusals.{refusal};

use core_machine::play;
use gpt_io::StdSource;
use gpt_stream::read_input;
use history::Outcome;
use region_plan::Plan;
use scenario_text::parse;
use std::alloc::Global;
use std::process::ExitCode;
use table_build::build;

/// What the run of a scenario leaves, or `None` where the input is refused or memory is wanting.
fn played(alloc: Global, bytes: &[u8]) -> Option<Outcome> {
    let Ok(scenario) = parse(alloc, bytes) else {
        return None;
    };
    let Ok(plan) = Plan::plan(alloc, scenario.regions.as_slice(), &scenario.setup) else {
        return None;
    };
    let Ok(tables) = build(alloc, &plan, scenario.setup.base()) else {
        return None;
    };
    play(alloc, &scenario, tables).ok()
}

/// The number of answers of all callers.
fn answers_of(outcome: &Outcome) -> usize {
    let mut count = 0usize;
    for answers in outcome.answers.as_slice() {
        count = count.saturating_add(answers.as_slice().len());
    }
    count
}

fn main(rt: HostRuntime) -> ExitCode {
    let alloc = rt.alloc();
    let mut source = StdSource::new(rt.stdin());
    let Ok(bytes) = read_input(alloc, &mut source) else {
        return ExitCode::FAILURE;
    };
    let Some(outcome) = played(alloc, &bytes) else {
        return ExitCode::FAILURE;
    };
    let count = answers_of(&outcome);
    let _ = println!(rt; "{count}");
    ExitCode::SUCCESS
}
