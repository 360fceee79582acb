ghost use Rattle.std.specs.Prelude.{◌≡◌, OnOk};
ghost use Rattle.report_text.specs.RunText.{size_name, reach_name, verdict_name, via_fields, answer_fields, call_line};
ghost use Rattle.report_text.specs.RunParts.{code_text};
ghost use Rattle.report_text.specs.InnerAdding.{Adds, spaced};

use gpi_values::gpi_name;
use gpt_descriptors::{Reach, Size};
use history::{Access, Answer, Via};
use rmm_calls::code;
use std::alloc::AllocError;

pub fn name_of_size(size: Size) -> &'static str
    ensures { result.now ≡ size_name size }
{
    match size {
        Size::Two => "2m",
        Size::ThirtyTwo => "32m",
        Size::FiveTwelve => "512m",
    }
}

fn name_of_reach(reach: Reach) -> &'static str
    ensures { result.now ≡ reach_name reach }
{
    match reach {
        Reach::Word => "64k",
        Reach::Two => "2m",
        Reach::ThirtyTwo => "32m",
        Reach::FiveTwelve => "512m",
    }
}

fn name_of_verdict(allowed: bool) -> &'static str
    ensures { result.now ≡ verdict_name allowed }
{
    if allowed { "granted" } else { "fault" }
}

/// Appends how an access found its GPI, after a space.
fn push_via(out: &mut String, via: Via) -> Result<(), AllocError>
    ensures { OnOk result (Adds out.old (spaced (via_fields via)) out.new) }
{
    match via {
        Via::Still => out.push_str(" still"),
        Via::Hit { reach, at } => {
            let reach = name_of_reach(reach);
            write!(out, " hit {reach} {at}")
        }
        Via::Cold { reach, lo, hi } => {
            let reach = name_of_reach(reach);
            write!(out, " cold {reach} {lo} {hi}")
        }
        Via::Missed {
            reach,
            tag,
            at,
            then,
            lo,
            hi,
        } => {
            let reach = name_of_reach(reach);
            let then = name_of_reach(then);
            write!(out, " missed {reach} {tag} {at} {then} {lo} {hi}")
        }
    }
}

/// Appends what an access saw, after a space.
#[tactic(auto, using(crate::proofs::AnswerLemmas::join_via))]
fn push_access(out: &mut String, access: &Access) -> Result<(), AllocError>
    ensures { OnOk result (Adds out.old (spaced (answer_fields (Answer.Seen access.now))) out.new) }
{
    let verdict = name_of_verdict(access.allowed);
    let gpi = gpi_name(access.gpi);
    let level = access.level;
    write!(out, " {verdict} {gpi} {level}")?;
    push_via(out, access.via)
}

/// Appends what a call was answered, after a space.
fn push_answer(out: &mut String, answer: &Answer) -> Result<(), AllocError>
    ensures { OnOk result (Adds out.old (spaced (answer_fields answer.now)) out.new) }
{
    match answer {
        Answer::Inval => out.push_str(" inval"),
        Answer::Unknown => out.push_str(" unknown"),
        Answer::Perm(found) => {
            let found = gpi_name(*found);
            write!(out, " perm {found}")
        }
        Answer::Worn(size, value) => {
            let size = name_of_size(*size);
            write!(out, " worn {size} {value}")
        }
        Answer::Done(generations) => {
            let two = generations.two;
            let thirty_two = generations.thirty_two;
            let five_twelve = generations.five_twelve;
            write!(out, " done {two} {thirty_two} {five_twelve}")
        }
        Answer::Seen(access) => push_access(out, access),
    }
}

/// Appends the code that a monitor call returns, after a space; nothing for other calls.
fn push_code(out: &mut String, monitor: bool, answer: &Answer) -> Result<(), AllocError>
    ensures { OnOk result (Adds out.old (code_text monitor answer.now) out.new) }
{
    if !monitor || matches!(answer, Answer::Seen(_)) {
        return Ok(());
    }
    let code = code(answer);
    write!(out, " code {code}")
}

/// Appends the line of an answered call.
#[tactic(auto, using(crate::proofs::AnswerLemmas::call_line_parts))]
pub fn push_call(
    out: &mut String,
    caller: u64,
    call: u64,
    monitor: bool,
    answer: &Answer,
) -> Result<(), AllocError>
    ensures { OnOk result (Adds out.old (call_line caller call monitor answer.now) out.new) }
{
    write!(out, "{caller}.{call}")?;
    push_answer(out, answer)?;
    push_code(out, monitor, answer)?;
    out.push_str("\n")
}
