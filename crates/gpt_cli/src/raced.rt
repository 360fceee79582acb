ghost use Rattle.std.specs.Prelude.{◌≡◌, ◌≢◌, IfOk};
ghost use Rattle.gpt_cli.specs.Statuses.{code_of};
ghost use Rattle.gpt_cli.specs.Races.{IsRaced, Races};
ghost use Rattle.gpt_cli.specs.InnerPreparing.{IsPrepared};
ghost use Rattle.gpt_cli.specs.declared.status.Status.TheVariants as status;

use crate::prepare::{Prepared, prepare};
use crate::refusal::refusal_text;
use crate::reply::Reply;
use crate::status::Status;
use gpi_values::Listed;
use race_run::{Gate, race};
use report_text::{Mode, run_report};
use std::alloc::{AllocError, Global};
use std::sync::Wait;
use std::thread::Threads;

/// The report of the scenario's callers, run beside each other on its built tables.
fn reply_to_prepared_race<R: Threads + Wait + Sync, G: Gate + Sync>(
    rt: &R,
    alloc: Global,
    prepared: Prepared,
    gate: &G,
) -> Result<Reply, AllocError>
    requires { IsPrepared prepared }
    ensures { IfOk result (λ reply. IsRaced prepared.scenario reply) }
{
    let Prepared { scenario, tables } = prepared;
    let (outcome, _history) = race(rt, alloc, &scenario, tables, gate)?;
    Ok(Reply {
        status: Status::Done,
        text: Listed::new(run_report(alloc, Mode::Race, &scenario, &outcome)?),
    })
}

/// The reply of `race` to the bytes that were read.
pub fn reply_to_race<R: Threads + Wait + Sync, G: Gate + Sync>(
    rt: &R,
    alloc: Global,
    bytes: Vec<u8>,
    gate: &G,
) -> Result<Reply, AllocError>
    ensures replies { IfOk result (λ reply. Races bytes.items reply) }
    ensures status { IfOk result (λ reply. (code_of reply.status ≢ code_of status.ReadFailed)
        × (code_of reply.status ≢ code_of status.NoMemory)) }
{
    match prepare(alloc, bytes) {
        Ok(prepared) => reply_to_prepared_race(rt, alloc, prepared, gate),
        Err(refusal) => refusal_text(alloc, &refusal),
    }
}
