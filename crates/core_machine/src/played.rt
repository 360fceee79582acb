ghost use Rattle.std.specs.Prelude.{◌≡◌, ◌≤◌, [], IfOk, length, map, count_by, vec_capacity};
ghost use Rattle.gpt_descriptors.specs.Places.{IsGeometry, word_count};
ghost use Rattle.scenario_text.specs.Spelling.{WellFormed};
ghost use Rattle.scenario_text.specs.Calls.{AreAnswersOf};
ghost use Rattle.table_build.specs.Built.{tables_of};
ghost use Rattle.core_machine.specs.InnerCallers.{caller_answers};
ghost use Rattle.core_machine.specs.InnerMachine.{InvariantFor};
ghost use Rattle.core_machine.specs.InnerPlay.{opening_of, played, outcome_of, played_trace};
ghost use Rattle.core_machine.specs.Scenarios.{IsAccepted, first_map, geometry_of, is_cpu};
ghost use Rattle.core_machine.specs.Run.{IsRun};

use crate::caller::Caller;
use crate::calling::callers;
use crate::machine::Machine;
use gpi_values::Listed;
use gpt_descriptors::Geometry;
use history::{Answer, Outcome};
use scenario_text::{Scenario, Script};
use shared_words::PlainWords;
use std::alloc::{AllocError, Global};
use table_build::Tables;

/// The number of processors of a scenario.
pub fn count_cpus(scripts: &[Script]) -> usize
    ensures { result ≡ count_by is_cpu scripts.now }
{
    scripts
        .iter()
        .filter(|script| matches!(script, Script::Cpu(_)))
        .count()
}

/// Moves the answers of all callers, in their order, into the room for them.
pub fn answers_of(
    alloc: Global,
    callers: Vec<Caller>,
    room: Vec<Listed<Answer>>,
) -> Vec<Listed<Answer>>
    requires empty { room.items ≡ [] }
    requires room { length callers.items ≤ vec_capacity room }
    ensures { result.items ≡ map caller_answers callers.items }
{
    let mut answers = room;
    for caller in callers {
        answers.push_reserved(Listed::new(caller.into_answers(alloc)));
    }
    answers
}

/// The geometry of a scenario whose tables were built: where each of its shared words is.
pub fn geometry_of(scenario: &Scenario, tables: &Tables) -> Geometry
    requires wellformed { WellFormed scenario.now }
    requires built { tables.now ≡ tables_of scenario.now.setup scenario.now.regions }
    ensures geometry { result ≡ geometry_of scenario.now }
    ensures known { IsGeometry result }
{
    let cpus = count_cpus(scenario.scripts.as_slice()) as u32;
    let geometry = Geometry::new(scenario.setup, cpus, tables.l0());
    let _setup = geometry.setup();
    geometry
}

/// The machine of a scenario before the first act, on its built tables. Their memory is given back
/// once their words are among the shared words.
fn open(
    alloc: Global,
    scenario: &Scenario,
    tables: Tables,
) -> Result<Machine<PlainWords>, AllocError>
    requires wellformed { WellFormed scenario.now }
    requires accepted { IsAccepted scenario.now }
    requires built { tables ≡ tables_of scenario.now.setup scenario.now.regions }
    ensures machine { IfOk result (λ machine. machine ≡ opening_of scenario.now) }
    ensures invariant { IfOk result (λ machine. InvariantFor (first_map scenario.now) machine []) }
{
    let geometry = geometry_of(scenario, &tables);
    let callers = callers(alloc, scenario, geometry)?;
    let words = PlainWords::new(alloc, &geometry, tables.l1())?;
    Ok(Machine::new(geometry, callers, words))
}

/// What a machine leaves, with room for the answers of its callers.
fn leave(alloc: Global, machine: Machine<PlainWords>, room: Vec<Listed<Answer>>) -> Outcome
    requires empty { room.items ≡ [] }
    requires room { length machine.callers ≤ vec_capacity room }
    ensures { result ≡ outcome_of machine }
{
    let geometry = machine.geometry();
    let (callers, words) = machine.into_parts();
    Outcome {
        geometry,
        answers: Listed::new(answers_of(alloc, callers, room)),
        words: Listed::new(words.into_words()),
    }
}

/// All turns of a scenario's schedule, on its built tables: each gives its caller one act, if it
/// has one. No memory is taken after the first act. The outcome is what the trace of the schedule
/// leaves, and is that of one legal history, the trace's. It has all shared words, and no caller
/// has more answers than calls.
pub fn play(alloc: Global, scenario: &Scenario, tables: Tables) -> Result<Outcome, AllocError>
    requires wellformed { WellFormed scenario.now }
    requires accepted { IsAccepted scenario.now }
    requires built { tables ≡ tables_of scenario.now.setup scenario.now.regions }
    ensures trace { IfOk result (λ outcome. outcome ≡ outcome_of (played scenario.now)) }
    ensures run { IfOk result (λ outcome. IsRun scenario.now outcome (played_trace scenario.now)) }
    ensures size { IfOk result (λ outcome. length outcome.words ≡ word_count outcome.geometry) }
    ensures answered { IfOk result (λ outcome. AreAnswersOf scenario.now.scripts outcome.answers) }
{
    let mut machine = open(alloc, scenario, tables)?;
    let room = Vec::with_capacity(alloc, scenario.scripts.as_slice().len())?;
    machine.schedule(scenario.schedule.as_slice());
    Ok(leave(alloc, machine, room))
}
