ghost use Rattle.std.specs.Prelude.{◌≡◌, OnOk, IfErr, None};
ghost use Rattle.gpt_descriptors.specs.Sizes.{IsSetup};
ghost use Rattle.scenario_text.specs.declared.scenario.TextError.TheVariants.{Memory};
ghost use Rattle.scenario_text.specs.InnerDrafts.{max_of, setup_with, setup_of, data_of, opened_of, taken, nothing_read, scenario_of, closed, with_ask, with_look};

use crate::line::Line;
use crate::scenario::{Ask, Look, Scenario, Script, Slot, TextError};
use crate::word::Setting;
use gpi_values::Listed;
use gpt_descriptors::{MaxBlock, Setup};
use region_plan::Region;
use std::alloc::Global;
use std::mem;

/// The fields of a setup, as far as they have been read.
#[derive(Clone, Copy, Debug)]
pub struct Head {
    pub gigabytes: u64,
    pub max: MaxBlock,
    pub lock_blocks: u64,
    pub first: u64,
    pub ring: u64,
    pub tables: u64,
    pub base: u64,
}

fn max_of(count: u64) -> MaxBlock
    ensures { result ≡ max_of count }
{
    match count {
        2 => MaxBlock::Two,
        32 => MaxBlock::ThirtyTwo,
        512 => MaxBlock::FiveTwelve,
        _ => MaxBlock::Zero,
    }
}

impl Head {
    fn set(&mut self, setting: Setting, value: u64)
        ensures { setup_of self.new ≡ setup_with (setup_of self.old) setting value }
    {
        match setting {
            Setting::Gpt => {}
            Setting::Space => self.gigabytes = value,
            Setting::Max => self.max = max_of(value),
            Setting::Locks => self.lock_blocks = value,
            Setting::First => self.first = value,
            Setting::Ring => self.ring = value,
            Setting::Tables => self.tables = value,
            Setting::Base => self.base = value,
        }
    }
}

/// The script that is being read.
#[derive(Debug, Drop)]
pub enum Open {
    Nothing,
    Agent(Vec<Ask>),
    Cpu(Vec<Look>),
}

/// A scenario as far as its lines have been read.
#[derive(Debug, Drop)]
pub struct Draft {
    pub head: Head,
    pub regions: Vec<Region>,
    pub scripts: Vec<Script>,
    pub opened: Open,
    pub schedule: Vec<Slot>,
}

/// A setup of fields that it may have.
fn setup(head: Head) -> Setup
    requires { IsSetup (setup_of head) }
    ensures { result ≡ setup_of head }
{
    let made = Setup::new(
        head.gigabytes,
        head.max,
        head.lock_blocks,
        head.first,
        head.ring,
        head.tables,
        head.base,
    );
    match made {
        Some(setup) => setup,
        None => unreachable!(),
    }
}

impl Open {
    /// Adds a call, where the script is an agent's.
    fn ask(&mut self, ask: Ask) -> Result<(), TextError>
        ensures taken { OnOk result (opened_of self.new ≡ with_ask (opened_of self.old) ask) }
        ensures memory { IfErr result (λ e. e ≡ Memory) }
    {
        if let Open::Agent(asks) = self {
            asks.push(ask)?;
        }
        Ok(())
    }

    /// Adds an access, where the script is a processor's.
    fn look(&mut self, look: Look) -> Result<(), TextError>
        ensures taken { OnOk result (opened_of self.new ≡ with_look (opened_of self.old) look) }
        ensures memory { IfErr result (λ e. e ≡ Memory) }
    {
        if let Open::Cpu(looks) = self {
            looks.push(look)?;
        }
        Ok(())
    }
}

impl Draft {
    /// Before the first line. Each field of the setup has some value that it may have.
    pub fn new(alloc: Global) -> Draft
        ensures { data_of result ≡ nothing_read }
    {
        Draft {
            head: Head {
                gigabytes: 4,
                max: MaxBlock::Zero,
                lock_blocks: 0,
                first: 0,
                ring: 1,
                tables: 0,
                base: 0,
            },
            regions: Vec::new(alloc),
            scripts: Vec::new(alloc),
            opened: Open::Nothing,
            schedule: Vec::new(alloc),
        }
    }

    /// Finishes the script that is being read, and begins the next one.
    fn open(&mut self, next: Open) -> Result<(), TextError>
        ensures taken { OnOk result (data_of self.new ≡ record (data_of self.old) {
          scripts = closed (data_of self.old).scripts (data_of self.old).opened;
          opened = opened_of next;
        }) }
        ensures memory { IfErr result (λ e. e ≡ Memory) }
    {
        match mem::replace(&mut self.opened, next) {
            Open::Nothing => {}
            Open::Agent(asks) => self.scripts.push(Script::Agent(Listed::new(asks)))?,
            Open::Cpu(looks) => self.scripts.push(Script::Cpu(Listed::new(looks)))?,
        }
        Ok(())
    }

    /// Finishes the script that is being read, if there is one.
    fn close(&mut self) -> Result<(), TextError>
        ensures taken { OnOk result (data_of self.new ≡ record (data_of self.old) {
          scripts = closed (data_of self.old).scripts (data_of self.old).opened;
          opened = None;
        }) }
        ensures memory { IfErr result (λ e. e ≡ Memory) }
    {
        if let Open::Nothing = self.opened {
            return Ok(());
        }
        self.open(Open::Nothing)
    }

    /// Adds what a line says.
    pub fn take(&mut self, alloc: Global, line: Line) -> Result<(), TextError>
        ensures taken { OnOk result (data_of self.new ≡ taken (data_of self.old) line) }
        ensures memory { IfErr result (λ e. e ≡ Memory) }
    {
        match line {
            Line::OneSetting(setting, value) => self.head.set(setting, value),
            Line::OneRegion(region) => self.regions.push(region)?,
            Line::NewAgent => self.open(Open::Agent(Vec::new(alloc)))?,
            Line::NewCpu => self.open(Open::Cpu(Vec::new(alloc)))?,
            Line::OneAsk(ask) => self.opened.ask(ask)?,
            Line::OneLook(look) => self.opened.look(look)?,
            Line::OneSlot(slot) => {
                self.close()?;
                self.schedule.push(slot)?;
            }
            Line::End => self.close()?,
        }
        Ok(())
    }

    /// The scenario, once the last line has been taken.
    pub fn finish(self) -> Scenario
        requires { IsSetup (setup_of self.head) }
        ensures { result ≡ scenario_of (data_of self) }
    {
        let Draft {
            head,
            regions,
            scripts,
            opened: _,
            schedule,
        } = self;
        Scenario {
            setup: setup(head),
            regions: Listed::new(regions),
            scripts: Listed::new(scripts),
            schedule: Listed::new(schedule),
        }
    }
}
