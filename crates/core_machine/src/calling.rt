ghost use Rattle.std.specs.Prelude.{◌≡◌, ◌≤◌, ◌<◌, ◌-◌, ◌^◌, IfOk, map, if◌then◌else◌};
ghost use Rattle.scenario_text.specs.Spelling.{IsScript, WellFormed};
ghost use Rattle.core_machine.specs.InnerPlay.{caller_of, callers_from, next_number};
ghost use Rattle.rmm_calls.specs.Codes.{is_admitted};
ghost use Rattle.history.specs.declared.call.Task.TheVariants as the_task;
ghost use Rattle.delegate_ops.specs.InnerAgents.{task_of};
ghost use Rattle.core_machine.specs.Scenarios.{task_of_ask, task_of_look, tasks_of, geometry_of};

use crate::caller::Caller;
use delegate_ops::{Agent, Task};
use gpi_values::{Source, World};
use gpt_descriptors::Geometry;
use processor::Cpu;
use rmm_calls::admits;
use scenario_text::{Ask, Look, Scenario, Script};
use std::alloc::{AllocError, Global};

/// The task of a transition through the monitor, if its world is admitted: then it is the Realm's.
fn admitted(world: World, task: Task) -> Task
    ensures { result ≡ (if is_admitted world then task else the_task.Unknown) }
{
    if admits(world) { task } else { Task::Unknown }
}

/// The task of a call. A call through the monitor is the Realm's where its world is admitted, and
/// `Unknown` where it isn't.
pub fn task_of(ask: Ask) -> Task
    ensures { result ≡ task_of_ask ask }
{
    match ask {
        Ask::Delegate(pa, source) => Task::Delegate(pa, source),
        Ask::Undelegate(pa, source) => Task::Undelegate(pa, source),
        Ask::SmcDelegate(pa, world) => admitted(world, Task::Delegate(pa, Source::Realm)),
        Ask::SmcUndelegate(pa, world) => admitted(world, Task::Undelegate(pa, Source::Realm)),
    }
}

/// The tasks of an agent's calls.
fn tasks_of(alloc: Global, asks: &[Ask]) -> Result<Vec<Task>, AllocError>
    ensures { IfOk result (λ tasks. tasks.items ≡ map task_of_ask asks.now) }
{
    let mut tasks = Vec::with_capacity(alloc, asks.len())?;
    for ask in asks {
        tasks.push(task_of(*ask))?;
    }
    Ok(tasks)
}

/// The tasks of a processor's accesses.
fn look_tasks(alloc: Global, looks: &[Look]) -> Result<Vec<Task>, AllocError>
    ensures { IfOk result (λ tasks. tasks.items ≡ map task_of_look looks.now) }
{
    let mut tasks = Vec::with_capacity(alloc, looks.len())?;
    for look in looks {
        tasks.push(Task::Look(look.pa, look.space))?;
    }
    Ok(tasks)
}

/// The number of the next processor after a script.
fn next_number(script: &Script, number: u32) -> u32
    requires { number < 2 ^ 32 - 1 }
    ensures { result ≡ next_number number script.now }
{
    match script {
        Script::Agent(_) => number,
        Script::Cpu(_) => number + 1,
    }
}

/// The caller of a script; where it is a processor, its number is `number`.
fn caller_of(
    alloc: Global,
    script: &Script,
    geometry: Geometry,
    number: u32,
) -> Result<Caller, AllocError>
    requires script { IsScript geometry.setup script.now }
    requires number { next_number number script.now ≤ geometry.cpus }
    ensures { IfOk result (λ caller. caller ≡ caller_of geometry number script.now) }
{
    match script {
        Script::Agent(asks) => {
            let tasks = tasks_of(alloc, asks.as_slice())?;
            Ok(Caller::Agent(Agent::new(alloc, geometry, tasks)?))
        }
        Script::Cpu(looks) => {
            let tasks = look_tasks(alloc, looks.as_slice())?;
            Ok(Caller::Cpu(Cpu::new(alloc, geometry, number, tasks)?))
        }
    }
}

/// The callers of a scenario, one for each script, in their order. The processors among them are
/// numbered from 0, in their order. The geometry is that of the scenario.
pub fn callers(
    alloc: Global,
    scenario: &Scenario,
    geometry: Geometry,
) -> Result<Vec<Caller>, AllocError>
    requires wellformed { WellFormed scenario.now }
    requires geometry { geometry ≡ geometry_of scenario.now }
    ensures { IfOk result
        (λ callers. callers.items ≡ callers_from geometry 0 scenario.now.scripts) }
{
    let scripts = scenario.scripts.as_slice();
    let mut callers = Vec::with_capacity(alloc, scripts.len())?;
    let mut number = 0;
    for script in scripts {
        callers.push(caller_of(alloc, script, geometry, number)?)?;
        number = next_number(script, number);
    }
    Ok(callers)
}
