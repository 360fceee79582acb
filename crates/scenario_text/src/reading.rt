ghost use Rattle.std.specs.Prelude.{◌≡◌};
ghost use Rattle.line_text.specs.Lines.{fields_in};
ghost use Rattle.line_text.specs.InnerRows.{fields_left, FitsPrefix};
ghost use Rattle.scenario_text.specs.Faults.{is_caller, kinds_of};
ghost use Rattle.scenario_text.specs.Spelling.{IsSlot};
ghost use Rattle.scenario_text.specs.InnerReading.{InLimits, in_turns, line_with, monitor_call, read_word, read_line};

use crate::context::{Context, Place, may_come};
use crate::forming::{CALLER_LIMIT, TURN_LIMIT, turns_in};
use crate::kinds::values_of;
use crate::line::Line;
use crate::scenario::{Ask, Fault, Look, Slot};
use crate::word::{Word, word_of_field};
use gpi_values::{Gpi, Source, Space, World};
use line_text::cut;
use region_plan::{Kind, Region};

static KINDS: [Kind; 2] = [Kind::Block, Kind::Granule];

static GPIS: [Gpi; 6] = [
    Gpi::NoAccess,
    Gpi::Secure,
    Gpi::NonSecure,
    Gpi::Root,
    Gpi::Realm,
    Gpi::Any,
];

static SPACES: [Space; 4] = [Space::Secure, Space::NonSecure, Space::Root, Space::Realm];

static SOURCES: [Source; 2] = [Source::Realm, Source::Secure];

static WORLDS: [World; 3] = [World::Realm, World::Secure, World::NonSecure];

fn monitor_call(verb: u64, pa: u64, world: World) -> Ask
    ensures { result ≡ monitor_call verb pa world }
{
    if verb == 0 {
        Ask::SmcDelegate(pa, world)
    } else {
        Ask::SmcUndelegate(pa, world)
    }
}

/// A line of the schedule, if its turns have room.
fn slot(context: Context, slot: Slot) -> Result<Line, Fault>
    requires limits { InLimits context }
    requires slot { IsSlot context.callers slot }
    ensures { result ≡ in_turns context (Line.OneSlot slot) }
{
    if context.turns + turns_in(context.callers, slot) > TURN_LIMIT {
        return Err(Fault::Limit);
    }
    Ok(Line::OneSlot(slot))
}

/// What a line of this word says by its values, if its turns have room.
fn line_with(context: Context, word: Word, values: [u64; 4]) -> Result<Line, Fault>
    requires limits { InLimits context }
    requires fits { FitsPrefix (kinds_of context word) values }
    ensures { result ≡ in_turns context (line_with word values) }
{
    let [first, second, third, fourth] = values;
    match word {
        Word::Setting(setting) => Ok(Line::OneSetting(setting, first)),
        Word::Region => Ok(Line::OneRegion(Region {
            base: first,
            size: second,
            kind: KINDS[third as usize],
            gpi: GPIS[fourth as usize],
        })),
        Word::Agent => Ok(Line::NewAgent),
        Word::Delegate => {
            let source = SOURCES[second as usize];
            Ok(Line::OneAsk(Ask::Delegate(first, source)))
        }
        Word::Undelegate => {
            let source = SOURCES[second as usize];
            Ok(Line::OneAsk(Ask::Undelegate(first, source)))
        }
        Word::Smc => {
            let world = WORLDS[third as usize];
            Ok(Line::OneAsk(monitor_call(first, second, world)))
        }
        Word::Cpu => Ok(Line::NewCpu),
        Word::Look => {
            let space = SPACES[second as usize];
            Ok(Line::OneLook(Look { pa: first, space }))
        }
        Word::Turn => slot(context, Slot::Turn(first as u32, second as u32)),
        Word::Round => slot(context, Slot::Round(first as u32, second as u32)),
        Word::End => Ok(Line::End),
    }
}

fn is_caller(word: Word) -> bool
    ensures { result ≡ is_caller word }
{
    matches!(word, Word::Agent | Word::Cpu)
}

/// What a line of this word says, with the fields after the word.
#[tactic(auto, unfolding(crate::specs::InnerReading::read_word))]
fn line_of_word(context: Context, word: Word, rest: Option<&[u8]>) -> Result<Line, Fault>
    requires { InLimits context }
    ensures { result ≡ read_word context word (fields_left rest.entry) }
{
    if is_caller(word) && context.callers >= CALLER_LIMIT as u64 {
        return Err(Fault::Limit);
    }
    match values_of(context, word, rest) {
        Ok(values) => line_with(context, word, values),
        Err(fault) => Err(Fault::from(fault)),
    }
}

/// What a line says, without its line feed, or its fault.
#[tactic(auto, unfolding(crate::specs::InnerReading::read_line))]
pub fn line_of(context: Context, line: &[u8]) -> Result<Line, Fault>
    requires { InLimits context }
    ensures { result ≡ read_line context (fields_in line.now) }
{
    if matches!(context.place, Place::Ended) {
        return Err(Fault::After);
    }
    let (first, rest) = cut(line, b' ');
    match word_of_field(first) {
        Some(word) if may_come(context.place, word) => line_of_word(context, word, rest),
        _ => Err(Fault::Word),
    }
}
