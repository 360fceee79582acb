ghost use Rattle.std.specs.Prelude.{◌≡◌, ◌<◌, IfOk, List, Some, length, slice_get};
ghost use Rattle.gpt_descriptors.specs.Places.{word_count};
ghost use Rattle.history.specs.declared.call.Answer.{Answer as TheAnswer};
ghost use Rattle.scenario_text.specs.declared.scenario.Script.{Script as TheScript};
ghost use Rattle.report_text.specs.RunText.{mode_name, caller_text, state_text, report_of_run, FitsScenario};

use crate::callers::{push_caller, push_callers, push_lefts};
use crate::state::push_state;
use gpt_descriptors::Geometry;
use history::Outcome;
use scenario_text::Scenario;
use std::alloc::{AllocError, Global};

/// Which command a report is of.
#[derive(Clone, Copy, Debug, PartialEq, Eq)]
pub enum Mode {
    Play,
    Race,
}

fn name_of_mode(mode: Mode) -> &'static str
    ensures { result.now ≡ mode_name mode }
{
    match mode {
        Mode::Play => "play",
        Mode::Race => "race",
    }
}

/// The lines of one caller's answered calls, in their order.
pub fn caller_lines(
    alloc: Global,
    scenario: &Scenario,
    outcome: &Outcome,
    caller: u32,
) -> Result<Vec<u8>, AllocError>
    requires fits { FitsScenario scenario.now outcome.now }
    requires caller { caller < length scenario.now.scripts }
    ensures { (script : TheScript) (answers : List TheAnswer)
        → slice_get scenario.now.scripts caller ≡ Some script
        → slice_get outcome.now.answers caller ≡ Some answers
        → IfOk result (λ text. text.items ≡ caller_text caller script answers) }
{
    let mut out = String::new(alloc);
    let k = caller as usize;
    push_caller(
        &mut out,
        caller as u64,
        &scenario.scripts.as_slice()[k],
        outcome.answers.as_slice()[k].as_slice(),
    )?;
    Ok(out.into_bytes())
}

/// What the shared words show: the locks that are held, the tables, the generations that aren't the
/// first one, and the resident lines.
pub fn state_lines(alloc: Global, geometry: &Geometry, words: &[u64]) -> Result<Vec<u8>, AllocError>
    requires { length words.now ≡ word_count geometry.now }
    ensures { IfOk result (λ text. text.items ≡ state_text geometry.now words.now) }
{
    let mut out = String::new(alloc);
    push_state(&mut out, geometry, words)?;
    Ok(out.into_bytes())
}

/// The report of a run.
#[tactic(auto, unfolding(crate::specs::RunText::report_of_run))]
pub fn run_report(
    alloc: Global,
    mode: Mode,
    scenario: &Scenario,
    outcome: &Outcome,
) -> Result<Vec<u8>, AllocError>
    requires { FitsScenario scenario.now outcome.now }
    ensures { IfOk result (λ text. text.items ≡ report_of_run mode scenario.now outcome.now) }
{
    let mut out = String::new(alloc);
    let command = name_of_mode(mode);
    write!(out, "report 1 {command}\n")?;
    let scripts = scenario.scripts.as_slice();
    let answers = outcome.answers.as_slice();
    push_callers(&mut out, scripts, answers)?;
    push_lefts(&mut out, scripts, answers)?;
    push_state(&mut out, &outcome.geometry, outcome.words.as_slice())?;
    out.push_str("end\n")?;
    Ok(out.into_bytes())
}
