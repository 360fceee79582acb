ghost use Rattle.std.specs.Prelude.{◌≡◌, ◌≤◌, ◌<◌, ◌-◌, OnOk, Some, length, slice_get};
ghost use Rattle.scenario_text.specs.Calls.{calls_of, AreAnswersOf};
ghost use Rattle.report_text.specs.RunText.{script_calls, caller_text, callers_text, left_line, left_text};
ghost use Rattle.report_text.specs.InnerAdding.{Adds};

use crate::answers::push_call;
use gpi_values::Listed;
use history::Answer;
use scenario_text::{Ask, Script};
use std::alloc::AllocError;

/// The number of calls of a script.
pub fn call_count(script: &Script) -> usize
    ensures { result ≡ calls_of script.now }
{
    match script {
        Script::Agent(asks) => asks.as_slice().len(),
        Script::Cpu(looks) => looks.as_slice().len(),
    }
}

/// Whether a call comes through the monitor.
fn is_monitor_call(script: &Script, call: usize) -> bool
    requires { call < calls_of script.now }
    ensures { slice_get (script_calls script.now) call ≡ Some result }
{
    match script {
        Script::Agent(asks) => matches!(
            asks.as_slice()[call],
            Ask::SmcDelegate(..) | Ask::SmcUndelegate(..)
        ),
        Script::Cpu(_) => false,
    }
}

/// Appends the lines of one caller's answered calls.
pub fn push_caller(
    out: &mut String,
    caller: u64,
    script: &Script,
    answers: &[Answer],
) -> Result<(), AllocError>
    requires { length answers.now ≤ calls_of script.now }
    ensures { OnOk result (Adds out.old (caller_text caller script.now answers.now) out.new) }
{
    for k in 0..answers.len() {
        let monitor = is_monitor_call(script, k);
        push_call(out, caller, k as u64, monitor, &answers[k])?;
    }
    Ok(())
}

/// Appends the lines of all callers.
pub fn push_callers(
    out: &mut String,
    scripts: &[Script],
    answers: &[Listed<Answer>],
) -> Result<(), AllocError>
    requires { AreAnswersOf scripts.now answers.now }
    ensures { OnOk result (Adds out.old (callers_text 0 scripts.now answers.now) out.new) }
{
    for k in 0..scripts.len() {
        push_caller(out, k as u64, &scripts[k], answers[k].as_slice())?;
    }
    Ok(())
}

/// Appends the line of a caller that has calls left.
fn push_left(out: &mut String, caller: u64, left: usize) -> Result<(), AllocError>
    ensures { OnOk result (Adds out.old (left_line caller left) out.new) }
{
    if left == 0 {
        return Ok(());
    }
    write!(out, "left {caller} {left}\n")
}

/// Appends how many calls each caller has left.
pub fn push_lefts(
    out: &mut String,
    scripts: &[Script],
    answers: &[Listed<Answer>],
) -> Result<(), AllocError>
    requires { AreAnswersOf scripts.now answers.now }
    ensures { OnOk result (Adds out.old (left_text 0 scripts.now answers.now) out.new) }
{
    for k in 0..scripts.len() {
        let left = call_count(&scripts[k]) - answers[k].as_slice().len();
        push_left(out, k as u64, left)?;
    }
    Ok(())
}
