ghost use Rattle.std.specs.Prelude.{◌≡◌, ◌≤◌, ℕ, [], List, length, map, IfOk, vec_capacity};
ghost use Rattle.std.specs.List.{All};
ghost use Rattle.scenario_text.specs.Spelling.{WellFormed};
ghost use Rattle.scenario_text.specs.Calls.{AreAnswersOf};
ghost use Rattle.gpt_descriptors.specs.Places.{word_count};
ghost use Rattle.table_build.specs.Built.{tables_of};
ghost use Rattle.core_machine.specs.InnerCallers.{caller_next};
ghost use Rattle.core_machine.specs.Scenarios.{IsAccepted};
ghost use Rattle.race_run.specs.Passes.{AreOn, IsPassOf};
ghost use Rattle.race_run.specs.Race.{HasRaced};
ghost use Rattle.race_run.specs.InnerRunners.{AreRunners, HaveEnded, caller_in, pass_in};

use crate::field::{Field, Pass};
use crate::gate::Gate;
use crate::opened::Opened;
use core_machine::{Caller, answers_of, geometry_of};
use gpi_values::Listed;
use history::Outcome;
use scenario_text::Scenario;
use std::alloc::{AllocError, Global};
use std::sync::Wait;
use std::thread::{Threads, for_each_mut};
use table_build::Tables;

/// A caller with its pass, and room after them, so that no two callers are on one cache line.
#[derive(Drop)]
pub(crate) struct Runner {
    pub(crate) caller: Caller,
    pub(crate) pass: Pass,
    room: [u64; 16],
}

/// Each caller with its pass.
fn pair(passes: Vec<Pass>, callers: Vec<Caller>, runners: &mut Vec<Runner>)
    requires many { length passes.items ≡ length callers.items }
    requires room { length callers.items ≤ vec_capacity runners.old }
    requires empty { runners.old.items ≡ [] }
    ensures passes { map pass_in runners.new.items ≡ passes.items }
    ensures callers { map caller_in runners.new.items ≡ callers.items }
{
    let mut passes = passes.into_iter();
    for caller in callers {
        let Some(pass) = passes.next() else {
            return;
        };
        runners.push_reserved(Runner {
            caller,
            pass,
            room: [0; 16],
        });
    }
}

/// The passes and the callers again.
fn part(runners: Vec<Runner>, passes: &mut Vec<Pass>, callers: &mut Vec<Caller>)
    requires room { (length runners.items ≤ vec_capacity passes.old)
        × (length runners.items ≤ vec_capacity callers.old) }
    requires empty { (passes.old.items ≡ []) × (callers.old.items ≡ []) }
    ensures passes { passes.new.items ≡ map pass_in runners.items }
    ensures callers { callers.new.items ≡ map caller_in runners.items }
{
    for runner in runners {
        passes.push_reserved(runner.pass);
        callers.push_reserved(runner.caller);
    }
}

impl Field {
    /// All callers until they have no act, beside each other. Where a thread can't be started, the thread that
    /// wanted it does its work.
    fn run_all<R: Threads + Wait + Sync, G: Gate + Sync>(
        &self,
        rt: &R,
        runners: &mut Vec<Runner>,
        gate: &G,
    )
        requires { AreRunners self.now runners.old.items }
        ensures many { length runners.new.items ≡ length runners.old.items }
        ensures runners { AreRunners self.now runners.new.items }
        ensures ended { HaveEnded runners.new.items }
    {
        let threads = runners.len();
        if threads == 0 {
            return;
        }
        let turns = |number: usize, runner: &mut Runner|
            requires { IsPassOf self.now runner.now.pass number runner.now.caller }
            ensures pass { IsPassOf self.entry.now runner.exit.now.pass number runner.exit.now.caller }
            ensures ended { caller_next runner.exit.now.caller ≡ None }
        {
            let number = u32::try_from(number).unwrap_or(u32::MAX);
            self.run(rt, number, &mut runner.pass, &mut runner.caller, gate);
        };
        for_each_mut(rt, runners.as_mut_slice(), threads, &turns);
    }
}

/// Runs all callers of a scenario to their ends, each on a thread of its own, on the shared words of its built
/// tables. The schedule of the scenario isn't used. The pass has seen the whole history. All lists, rings,
/// words and passes are made before the first act; AllocError where memory for them isn't found.
pub fn race<R: Threads + Wait + Sync, G: Gate + Sync>(
    rt: &R,
    alloc: Global,
    scenario: &Scenario,
    tables: Tables,
    gate: &G,
) -> Result<(Outcome, Pass), AllocError>
    requires wellformed { WellFormed scenario.now }
    requires accepted { IsAccepted scenario.now }
    requires built { tables ≡ tables_of scenario.now.setup scenario.now.regions }
    // Each call is answered, and answers and words fit the history that the pass has seen.
    ensures raced { IfOk result (λ raced. HasRaced scenario.now raced.0 raced.1.view.seen) }
    // What a report asks of an outcome.
    ensures size { IfOk result (λ raced. length raced.0.words ≡ word_count raced.0.geometry) }
    ensures answered { IfOk result (λ raced. AreAnswersOf scenario.now.scripts raced.0.answers) }
{
    let geometry = geometry_of(scenario, &tables);
    let (field, passes, callers) = Opened::of_scenario(alloc, scenario, &tables)?.into_parts();
    let count = callers.len();
    let mut runners = Vec::with_capacity(alloc, count)?;
    let mut left = Vec::with_capacity(alloc, count)?;
    let mut ended = Vec::with_capacity(alloc, count)?;
    let answers = Vec::with_capacity(alloc, count)?;
    let words = Vec::with_capacity(alloc, field.word_count())?;
    pair(passes, callers, &mut runners);
    field.run_all(rt, &mut runners, gate);
    part(runners, &mut left, &mut ended);
    let (words, whole) = field.close_into(left, words);
    let outcome = Outcome {
        geometry,
        answers: Listed::new(answers_of(alloc, ended, answers)),
        words: Listed::new(words),
    };
    Ok((outcome, whole))
}
