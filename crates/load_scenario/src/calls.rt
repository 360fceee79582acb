ghost use Rattle.std.specs.Prelude.{◌≡◌, ◌<◌, ◌≤◌, ◌^◌, IfOk};
ghost use Rattle.load_scenario.specs.Load.{stepped_by, drawn_address, numbered_space, drawn_ask, drawn_look, drawn_agent, drawn_cpu};

use crate::draws::Generator;
use scenario_text::{Ask, Listed, Look, Script, Source, Space};
use std::alloc::{AllocError, Global};

/// The calls of an agent.
const AGENT_CALLS: usize = 50;

/// The accesses of a processor.
const CPU_CALLS: usize = 400;

/// The byte address of a draw: one of four granules of one of four lots of 2 MB of one of eight
/// lots of 512 MB.
fn drawn_address(drawn: u64) -> u64
    ensures address { result ≡ drawn_address drawn }
    ensures range { result < 2 ^ 32 }
{
    drawn % 8 * 0x2000_0000 + drawn / 8 % 4 * 0x20_0000 + drawn / 32 % 4 * 0x1000
}

/// The space of a number.
fn numbered_space(number: u64) -> Space
    requires { number < 4 }
    ensures { result ≡ numbered_space number }
{
    match number {
        0 => Space::Secure,
        1 => Space::NonSecure,
        2 => Space::Root,
        _ => Space::Realm,
    }
}

/// The call of an agent for this source.
fn drawn_ask(source: Source, drawn: u64) -> Ask
    ensures { result ≡ drawn_ask source drawn }
{
    let pa = drawn_address(drawn);
    if drawn / 128 % 2 == 0 {
        Ask::Delegate(pa, source)
    } else {
        Ask::Undelegate(pa, source)
    }
}

/// The access of a processor.
fn drawn_look(drawn: u64) -> Look
    ensures { result ≡ drawn_look drawn }
{
    Look {
        pa: drawn_address(drawn),
        space: numbered_space(drawn / 128 % 4),
    }
}

/// An agent with the generator's next `AGENT_CALLS` draws.
#[tactic(auto, using(crate::proofs::DrawLemmas::stepped_none))]
pub fn agent(alloc: Global, generator: &mut Generator, source: Source) -> Result<Script, AllocError>
    ensures script { IfOk result (λ s. s ≡ drawn_agent generator.old.value 0 source) }
    ensures value { IfOk result (λ s. generator.new.value ≡ stepped_by 50 generator.old.value) }
{
    let mut asks = Vec::with_capacity(alloc, AGENT_CALLS)?;
    for _ in 0..AGENT_CALLS {
        asks.push(drawn_ask(source, generator.draw()))?;
    }
    Ok(Script::Agent(Listed::new(asks)))
}

/// A processor with the generator's next `CPU_CALLS` draws.
#[tactic(auto, using(crate::proofs::DrawLemmas::stepped_none))]
pub fn cpu(alloc: Global, generator: &mut Generator) -> Result<Script, AllocError>
    ensures script { IfOk result (λ s. s ≡ drawn_cpu generator.old.value 0) }
    ensures value { IfOk result (λ s. generator.new.value ≡ stepped_by 400 generator.old.value) }
{
    let mut looks = Vec::with_capacity(alloc, CPU_CALLS)?;
    for _ in 0..CPU_CALLS {
        looks.push(drawn_look(generator.draw()))?;
    }
    Ok(Script::Cpu(Listed::new(looks)))
}
