ghost use Rattle.std.specs.Prelude.{◌≡◌, ◌+◌};
ghost use Rattle.scenario_text.specs.Faults.{may_follow, may_come, head_index, head_place};
ghost use Rattle.scenario_text.specs.InnerReading.{InLimits, Next, place_after, after};

use crate::forming::turns_in;
use crate::line::Line;
use crate::word::{Setting, Word};

/// The place of the next line.
#[derive(Clone, Copy, Debug, PartialEq, Eq)]
pub enum Place {
    /// Line k of the head, counted from 0.
    Head(u64),
    /// After the head, before the first section.
    Regions,
    /// In an agent's section.
    InAgent,
    /// In a processor's section.
    InCpu,
    /// After the first line of the schedule.
    Schedule,
    /// After the end line.
    Ended,
}

/// A place, and what the lines before it say that later lines are held against.
#[derive(Clone, Copy, Debug, PartialEq, Eq)]
pub struct Context {
    pub place: Place,
    pub gigabytes: u64,
    pub callers: u64,
    pub turns: u64,
}

/// Whether a section, the schedule or the end may begin with this word.
fn follows(word: Word) -> bool
    ensures { result ≡ may_follow word }
{
    match word {
        Word::Agent | Word::Cpu | Word::Turn | Word::Round | Word::End => true,
        _ => false,
    }
}

/// The place of a setting in the head, counted from 0.
fn head_index(setting: Setting) -> u64
    ensures { result ≡ head_index setting }
{
    match setting {
        Setting::Gpt => 0,
        Setting::Space => 1,
        Setting::Max => 2,
        Setting::Locks => 3,
        Setting::First => 4,
        Setting::Ring => 5,
        Setting::Tables => 6,
        Setting::Base => 7,
    }
}

fn in_head(place: u64, word: Word) -> bool
    ensures { result ≡ may_come (Place.Head place) word }
{
    match word {
        Word::Setting(setting) => head_index(setting) == place,
        _ => false,
    }
}

/// Whether a line that begins with this word may come here.
pub fn may_come(place: Place, word: Word) -> bool
    ensures { result ≡ may_come place word }
{
    match place {
        Place::Head(k) => in_head(k, word),
        Place::Regions => matches!(word, Word::Region) || follows(word),
        Place::InAgent => {
            matches!(word, Word::Delegate | Word::Undelegate | Word::Smc) || follows(word)
        }
        Place::InCpu => matches!(word, Word::Look) || follows(word),
        Place::Schedule => matches!(word, Word::Turn | Word::Round | Word::End),
        Place::Ended => false,
    }
}

/// The place after this setting.
fn place_in_head(setting: Setting) -> Place
    ensures { result ≡ head_place (head_index setting + 1) }
{
    match setting {
        Setting::Base => Place::Regions,
        _ => Place::Head(head_index(setting) + 1),
    }
}

/// The place after a line.
fn place_after(line: Line) -> Place
    ensures { result ≡ place_after line }
{
    match line {
        Line::OneSetting(setting, _) => place_in_head(setting),
        Line::OneRegion(_) => Place::Regions,
        Line::NewAgent | Line::OneAsk(_) => Place::InAgent,
        Line::NewCpu | Line::OneLook(_) => Place::InCpu,
        Line::OneSlot(_) => Place::Schedule,
        Line::End => Place::Ended,
    }
}

impl Context {
    /// The context of the first line.
    pub const START: Context = Context {
        place: Place::Head(0),
        gigabytes: 0,
        callers: 0,
        turns: 0,
    };

    /// The context of the line after this one.
    pub fn after(self, line: Line) -> Context
        requires limits { InLimits self }
        requires next { Next self line }
        ensures { result ≡ after self line }
    {
        let mut next = self;
        next.place = place_after(line);
        match line {
            Line::OneSetting(Setting::Space, gigabytes) => next.gigabytes = gigabytes,
            Line::NewAgent | Line::NewCpu => next.callers += 1,
            Line::OneSlot(slot) => next.turns += turns_in(self.callers, slot),
            _ => {}
        }
        next
    }
}
