ghost use Rattle.std.specs.Prelude.{◌≡◌, ◌∷◌, [], map, IfOk};
ghost use Rattle.std.specs.List.{flat_map};
ghost use Rattle.line_text.specs.Lines.{line};
ghost use Rattle.scenario_text.specs.Spelling.{WellFormed, text_of, line_text, head_lines, script_lines, address, max_count, kind_name, OneRegion, OneAsk, OneLook, OneSlot};
ghost use Rattle.scenario_text.specs.InnerPrinting.{Adds, AddsLines, space_lines, table_lines};

use crate::scenario::{Ask, Look, Scenario, Script, Slot};
use gpi_values::{gpi_name, source_name, space_name, world_name};
use gpt_descriptors::{MaxBlock, Setup};
use region_plan::{Kind, Region};
use std::alloc::{AllocError, Global};

/// The version of the format.
const VERSION: u64 = 1;

fn name_of_kind(kind: Kind) -> &'static str
    ensures { result.now ≡ kind_name kind }
{
    match kind {
        Kind::Block => "block",
        Kind::Granule => "granule",
    }
}

fn count_of_max(max: MaxBlock) -> u64
    ensures { result ≡ max_count max }
{
    match max {
        MaxBlock::Zero => 0,
        MaxBlock::Two => 2,
        MaxBlock::ThirtyTwo => 32,
        MaxBlock::FiveTwelve => 512,
    }
}

/// Appends the lines on the format and the sizes of the space.
fn space_lines(out: &mut String, setup: &Setup) -> Result<(), AllocError>
    ensures { IfOk result (λ u. AddsLines out.old (space_lines setup.now) out.new) }
{
    let gigabytes = setup.gigabytes();
    let max = count_of_max(setup.max());
    let locks = setup.lock_blocks();
    write!(
        out,
        "gpt {VERSION}\nspace {gigabytes}\nmax {max}\nlocks {locks}\n"
    )
}

/// Appends the lines on the generations, the walks that are kept and the tables.
fn table_lines(out: &mut String, setup: &Setup) -> Result<(), AllocError>
    ensures { IfOk result (λ u. AddsLines out.old (table_lines setup.now) out.new) }
{
    let first = setup.first();
    let ring = setup.ring();
    let tables = setup.tables();
    let base = setup.base();
    write!(
        out,
        "first {first}\nring {ring}\ntables {tables}\nbase 0x{base:x}\n"
    )
}

fn head(out: &mut String, setup: &Setup) -> Result<(), AllocError>
    ensures { IfOk result (λ u. AddsLines out.old (head_lines setup.now) out.new) }
{
    space_lines(out, setup)?;
    table_lines(out, setup)
}

fn region_line(out: &mut String, region: &Region) -> Result<(), AllocError>
    ensures { IfOk result (λ u. Adds out.old (line_text (OneRegion region.now)) out.new) }
{
    let base = region.base;
    let size = region.size;
    let kind = name_of_kind(region.kind);
    let gpi = gpi_name(region.gpi);
    write!(out, "region 0x{base:x} 0x{size:x} {kind} {gpi}\n")
}

fn region_lines(out: &mut String, regions: &[Region]) -> Result<(), AllocError>
    ensures { IfOk result (λ u. AddsLines out.old (map OneRegion regions.now) out.new) }
{
    for region in regions {
        region_line(out, region)?;
    }
    Ok(())
}

fn ask_line(out: &mut String, ask: &Ask) -> Result<(), AllocError>
    ensures { IfOk result (λ u. Adds out.old (line_text (OneAsk ask.now)) out.new) }
{
    match *ask {
        Ask::Delegate(pa, source) => call_line(out, "delegate", pa, source_name(source)),
        Ask::Undelegate(pa, source) => call_line(out, "undelegate", pa, source_name(source)),
        Ask::SmcDelegate(pa, world) => call_line(out, "smc delegate", pa, world_name(world)),
        Ask::SmcUndelegate(pa, world) => call_line(out, "smc undelegate", pa, world_name(world)),
    }
}

/// Appends a line of a word, an address and a name.
fn call_line(out: &mut String, word: &str, pa: u64, name: &str) -> Result<(), AllocError>
    ensures { IfOk result (λ u. Adds out.old
        (line (word.now ∷ address pa ∷ name.now ∷ [])) out.new) }
{
    write!(out, "{word} 0x{pa:x} {name}\n")
}

fn ask_lines(out: &mut String, asks: &[Ask]) -> Result<(), AllocError>
    ensures { IfOk result (λ u. AddsLines out.old (map OneAsk asks.now) out.new) }
{
    for ask in asks {
        ask_line(out, ask)?;
    }
    Ok(())
}

fn look_lines(out: &mut String, looks: &[Look]) -> Result<(), AllocError>
    ensures { IfOk result (λ u. AddsLines out.old (map OneLook looks.now) out.new) }
{
    for look in looks {
        call_line(out, "look", look.pa, space_name(look.space))?;
    }
    Ok(())
}

fn section(out: &mut String, script: &Script) -> Result<(), AllocError>
    ensures { IfOk result (λ u. AddsLines out.old (script_lines script.now) out.new) }
{
    match script {
        Script::Agent(asks) => {
            out.push_str("agent\n")?;
            ask_lines(out, asks.as_slice())
        }
        Script::Cpu(looks) => {
            out.push_str("cpu\n")?;
            look_lines(out, looks.as_slice())
        }
    }
}

fn sections(out: &mut String, scripts: &[Script]) -> Result<(), AllocError>
    ensures { IfOk result (λ u. AddsLines out.old (flat_map script_lines scripts.now) out.new) }
{
    for script in scripts {
        section(out, script)?;
    }
    Ok(())
}

fn slot_line(out: &mut String, slot: Slot) -> Result<(), AllocError>
    ensures { IfOk result (λ u. Adds out.old (line_text (OneSlot slot)) out.new) }
{
    match slot {
        Slot::Turn(caller, turns) => write!(out, "turn {caller} {turns}\n"),
        Slot::Round(turns, times) => write!(out, "round {turns} {times}\n"),
    }
}

fn slot_lines(out: &mut String, schedule: &[Slot]) -> Result<(), AllocError>
    ensures { IfOk result (λ u. AddsLines out.old (map OneSlot schedule.now) out.new) }
{
    for slot in schedule {
        slot_line(out, *slot)?;
    }
    Ok(())
}

/// The one text of a scenario: its lines in their order, each ended by a line feed.
///
/// # Errors
///
/// Memory ran out.
#[tactic(auto, using(crate::proofs::PrintLemmas::text_parts))]
pub fn print(alloc: Global, scenario: &Scenario) -> Result<Vec<u8>, AllocError>
    requires { WellFormed scenario.now }
    ensures { IfOk result (λ v. v.items ≡ text_of scenario.now) }
{
    let mut out = String::new(alloc);
    head(&mut out, &scenario.setup)?;
    region_lines(&mut out, scenario.regions.as_slice())?;
    sections(&mut out, scenario.scripts.as_slice())?;
    slot_lines(&mut out, scenario.schedule.as_slice())?;
    out.push_str("end\n")?;
    Ok(out.into_bytes())
}
