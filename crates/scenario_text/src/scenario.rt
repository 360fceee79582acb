ghost use Rattle.std.specs.Prelude.{◌≡◌};
ghost use Rattle.scenario_text.specs.declared.scenario.TextError.TheVariants.{Memory};
ghost use Rattle.scenario_text.specs.Faults.{fault_of};

use gpi_values::{Listed, Source, Space, World};
use gpt_descriptors::Setup;
use line_text::RowFault;
use region_plan::Region;
use std::alloc::AllocFailed;

/// A setup, its regions, the callers in their order and a schedule of their turns.
#[derive(Debug, Drop)]
pub struct Scenario {
    pub setup: Setup,
    pub regions: Listed<Region>,
    pub scripts: Listed<Script>,
    pub schedule: Listed<Slot>,
}

/// What one caller does: an agent's calls, or a processor's accesses, in their order.
#[derive(Debug, Drop)]
pub enum Script {
    Agent(Listed<Ask>),
    Cpu(Listed<Look>),
}

/// A call of an agent: a byte address, and the source or, for a monitor call, the security state
/// that makes it.
#[derive(Clone, Copy, Debug, PartialEq, Eq)]
pub enum Ask {
    Delegate(u64, Source),
    Undelegate(u64, Source),
    SmcDelegate(u64, World),
    SmcUndelegate(u64, World),
}

/// An access of a processor: a byte address in the protected space, and the space of the access.
#[derive(Clone, Copy, Debug, PartialEq, Eq)]
pub struct Look {
    pub pa: u64,
    pub space: Space,
}

/// A line of the schedule. `Turn`: the caller, counted from 0, and how many turns it has, 1 to
/// 20,000,000. `Round`: turns of each caller in order, and how many times, both 1 to 20,000,000.
#[derive(Clone, Copy, Debug, PartialEq, Eq)]
pub enum Slot {
    Turn(u32, u32),
    Round(u32, u32),
}

/// What is wrong with the first bad line of a text. The first that holds, in this order, is
/// reported: `End`, `After`, `Word`, `Limit` of callers, `Fields`, `Number` or `Value`, `Limit` of
/// turns.
#[derive(Clone, Copy, Debug, PartialEq, Eq)]
pub enum Fault {
    /// The first field isn't a word that may come here.
    Word,
    /// The number of fields is wrong, or a field is empty.
    Fields,
    /// A field should be a count or an address and isn't spelled as one.
    Number,
    /// A field is spelled rightly and isn't in its range, or isn't one of its names.
    Value,
    /// The input ends before this line's line feed, and the `end` line hasn't come.
    End,
    /// A byte comes after the `end` line.
    After,
    /// The line is the 33rd caller, or by it the turns pass 20,000,000.
    Limit,
}

impl From<RowFault> for Fault {
    ghost from_gives = { λ row e. e ≡ fault_of row };

    fn from(fault: RowFault) -> Fault {
        match fault {
            RowFault::Fields => Fault::Fields,
            RowFault::Number => Fault::Number,
            RowFault::Value => Fault::Value,
        }
    }
}

/// Why a text has no scenario.
#[derive(Clone, Copy, Debug, PartialEq, Eq)]
pub enum TextError {
    /// The first bad line, counted from 1, and its fault.
    Line(u64, Fault),
    /// Memory is exhausted.
    Memory,
}

impl<T: Drop> From<AllocFailed<T>> for TextError {
    ghost from_gives = { λ _ e. e ≡ Memory };

    fn from(_e: AllocFailed<T>) -> TextError {
        TextError::Memory
    }
}
