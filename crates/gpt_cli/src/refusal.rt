ghost use Rattle.std.specs.Prelude.{◌≡◌, ◌≢◌, IfOk, OnOk, string_bytes};
ghost use Rattle.gpt_cli.specs.Texts.{fault_name, line_text, plan_text};
ghost use Rattle.gpt_cli.specs.Replies.{refused};
ghost use Rattle.gpt_cli.specs.InnerPreparing.{refusal_line, of_text_error, of_plan_error, of_build_error};
ghost use Rattle.gpt_cli.specs.declared.refusal.Refusal.TheVariants as cause;

use crate::reply::Reply;
use crate::status::Status;
use gpi_values::Listed;
use region_plan::PlanError;
use scenario_text::{Fault, TextError};
use std::alloc::{AllocError, Global};
use table_build::BuildError;

/// Why an input is refused: the first rule that it breaks.
#[derive(Clone, Copy, Debug, PartialEq, Eq)]
pub enum Refusal {
    /// It is longer than the limit.
    TooLong,
    /// Its first bad line, counted from 1, and the fault of that line.
    Line(u64, Fault),
    /// The first rule that its regions break.
    Plan(PlanError),
    /// The tables can't stand at this base.
    Base(u64),
    /// No rule: memory ran out.
    Memory,
}

impl From<TextError> for Refusal {
    ghost from_gives = { λ error refusal. refusal ≡ of_text_error error };

    fn from(error: TextError) -> Refusal {
        match error {
            TextError::Line(line, fault) => Refusal::Line(line, fault),
            TextError::Memory => Refusal::Memory,
        }
    }
}

impl From<PlanError> for Refusal {
    ghost from_gives = { λ error refusal. refusal ≡ of_plan_error error };

    fn from(error: PlanError) -> Refusal {
        match error {
            PlanError::Memory => Refusal::Memory,
            rule => Refusal::Plan(rule),
        }
    }
}

impl From<BuildError> for Refusal {
    ghost from_gives = { λ error refusal. refusal ≡ of_build_error error };

    fn from(error: BuildError) -> Refusal {
        match error {
            BuildError::BadBase(base) => Refusal::Base(base),
            BuildError::Memory => Refusal::Memory,
        }
    }
}

fn name_of_fault(fault: Fault) -> &'static str
    ensures { result.now ≡ fault_name fault }
{
    match fault {
        Fault::Word => "word",
        Fault::Fields => "fields",
        Fault::Number => "number",
        Fault::Value => "value",
        Fault::End => "end",
        Fault::After => "after",
        Fault::Limit => "limit",
    }
}

/// The line of a text whose first bad line is `line`.
fn fault_line(alloc: Global, line: u64, fault: Fault) -> Result<String, AllocError>
    ensures { IfOk result (λ text. string_bytes text ≡ line_text line fault) }
{
    let name = name_of_fault(fault);
    let text = format!(in alloc; "line {line}: {name}\n")?;
    Ok(text)
}

/// The line of regions that a rule refuses.
fn plan_line(alloc: Global, error: PlanError) -> Result<String, AllocError>
    ensures { IfOk result (λ line. string_bytes line ≡ plan_text error) }
{
    match error {
        PlanError::Empty => String::from_str(alloc, "plan: empty\n"),
        PlanError::TooMany => String::from_str(alloc, "plan: too many\n"),
        PlanError::Unaligned(i) => format!(in alloc; "plan: unaligned {i}\n"),
        PlanError::Outside(i) => format!(in alloc; "plan: outside {i}\n"),
        PlanError::NotBlock(i) => format!(in alloc; "plan: not block {i}\n"),
        PlanError::Overlap(i, j) => format!(in alloc; "plan: overlap {i} {j}\n"),
        PlanError::NoTables(need) => format!(in alloc; "plan: tables {need}\n"),
        PlanError::Memory => Err(AllocError),
    }
}

/// The line that says why an input is refused. Want of memory has none.
fn refusal_line(alloc: Global, refusal: Refusal) -> Result<String, AllocError>
    ensures line { IfOk result (λ line. string_bytes line ≡ refusal_line refusal) }
    ensures rule { OnOk result (refusal ≢ cause.Memory) }
{
    match refusal {
        Refusal::TooLong => String::from_str(alloc, "too long\n"),
        Refusal::Line(line, fault) => fault_line(alloc, line, fault),
        Refusal::Plan(error) => plan_line(alloc, error),
        Refusal::Base(base) => format!(in alloc; "base: 0x{base:x}\n"),
        Refusal::Memory => Err(AllocError),
    }
}

/// The reply to a refused input: one line that says why. Want of memory has none.
pub fn refusal_text(alloc: Global, refusal: &Refusal) -> Result<Reply, AllocError>
    ensures reply { IfOk result (λ reply. reply ≡ refused (refusal_line refusal.now)) }
    ensures rule { OnOk result (refusal.now ≢ cause.Memory) }
{
    let line = refusal_line(alloc, *refusal)?;
    Ok(Reply {
        status: Status::Refused,
        text: Listed::new(line.into_bytes()),
    })
}
