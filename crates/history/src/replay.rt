ghost use Rattle.std.specs.Prelude.{◌≡◌, ◌↔◌, ◌<◌, IsTrue, IfOk, OnOk, OnErr, Contains, length};
ghost use Rattle.gpt_descriptors.specs.Sizes.{small_granule};
ghost use Rattle.history.specs.declared.call.Task.{Task};
ghost use Rattle.history.specs.declared.call.Answer.{Answer};
ghost use Rattle.history.specs.Entries.{granule_in};
ghost use Rattle.history.specs.States.{start, is_open, without, after_change, after_entry};
ghost use Rattle.history.specs.Legality.{IsLegal, RestsWith, StateAllows};

use crate::call::{Answer, Task};
use crate::entry::Entry;
use crate::judging::{call_allows, granule_of};
use gpi_values::Gpi;
use gpt_descriptors::small_granule;
use region_plan::RunMap;
use std::alloc::{AllocError, Global};
use std::marker::Model;

/// The state that a history leaves: a map from granule to GPI, and for each change that isn't
/// complete its granule and the former GPI.
#[derive(Debug, Drop)]
pub struct Replay {
    map: RunMap,
    opened: Vec<(u64, Gpi)>,
}

impl Model for Replay {
    ghost use Rattle.history.specs.States.{State};

    ghost Value = { State };

    ghost view = { λ r. record { map = r.map; opened = r.opened.items } };
}

/// Takes the pairs of a granule away.
fn close(opened: &mut Vec<(u64, Gpi)>, granule: u64)
    ensures { opened.new.items ≡ without granule opened.old.items }
{
    let mut at = 0;
    while at < opened.len() {
        if opened[at].0 == granule {
            opened.remove(at);
        } else {
            at += 1;
        }
    }
}

impl Replay {
    /// The state before the first entry: this map, and nothing open.
    pub fn new(alloc: Global, map: RunMap) -> Result<Replay, AllocError>
        ensures { IfOk result (λ r. r ≡ start map) }
    {
        Ok(Replay {
            map,
            opened: Vec::new(alloc),
        })
    }

    /// The map.
    pub fn map(&self) -> &RunMap
        ensures { result.now ≡ self.now.map }
    {
        &self.map
    }

    /// The changes that aren't complete: their granules and the former GPIs.
    pub fn opened(&self) -> &[(u64, Gpi)]
        ensures { result.now ≡ self.now.opened }
    {
        self.opened.as_slice()
    }

    /// Whether a change of this granule isn't complete.
    fn is_open(&self, granule: u64) -> bool
        ensures { result ≡ is_open self.now granule }
    {
        self.opened.iter().any(|pair| pair.0 == granule)
    }

    /// Whether this is the former GPI of a change of this granule that isn't complete.
    fn was(&self, granule: u64, gpi: Gpi) -> bool
        ensures { IsTrue result ↔ Contains self.now.opened (granule, gpi) }
    {
        self.opened
            .iter()
            .any(|pair| pair.0 == granule && pair.1 == gpi)
    }

    /// Whether the map gives the granule this GPI, and no change of it is open.
    fn rests_with(&self, granule: u64, gpi: Gpi) -> bool
        requires { granule < length self.now.map }
        ensures { IsTrue result ↔ RestsWith self.now granule gpi }
    {
        self.map.get(granule) == gpi && !self.is_open(granule)
    }

    /// Whether the state allows the entry, whose granule is one of the map's.
    fn allows(&self, entry: &Entry) -> bool
        requires { granule_in entry.now < length self.now.map }
        ensures { IsTrue result ↔ StateAllows self.now entry.now }
    {
        match *entry {
            Entry::Refused { granule, found, .. } => self.rests_with(granule, found),
            Entry::Changed { granule, from, .. } => self.rests_with(granule, from),
            Entry::Settled { granule, .. } => self.is_open(granule),
            Entry::Looked { granule, gpi, .. } => {
                self.map.get(granule) == gpi || self.was(granule, gpi)
            }
        }
    }

    /// Changes a granule of the map and opens it. A refusal changes nothing.
    fn change(&mut self, granule: u64, from: Gpi, to: Gpi) -> Result<(), AllocError>
        requires { granule < length self.old.map }
        ensures ok { OnOk result (self.new ≡ after_change self.old granule from to) }
        ensures err { OnErr result (self.new ≡ self.old) }
    {
        self.opened.push((granule, from))?;
        if let Err(error) = self.map.set(granule, to) {
            self.opened.pop();
            return Err(error);
        }
        Ok(())
    }

    /// Whether the entry is legal in this state, for the task and the answer of its call.
    pub fn legal(&self, entry: &Entry, task: Task, answer: Answer) -> bool
        ensures { IsTrue result ↔ IsLegal small_granule self.now task answer entry.now }
    {
        granule_of(task) == Some(entry.granule())
            && entry.granule() < self.map.size()
            && self.allows(entry)
            && call_allows(task, answer, entry)
    }

    /// Goes to the state after an entry that is legal for some task and answer. A refusal changes
    /// nothing.
    pub fn apply(&mut self, entry: &Entry) -> Result<(), AllocError>
        requires { (task : Task) × (answer : Answer)
            × IsLegal small_granule self.old task answer entry.now }
        ensures ok { OnOk result (self.new ≡ after_entry self.old entry.now) }
        ensures err { OnErr result (self.new ≡ self.old) }
    {
        match *entry {
            Entry::Changed {
                granule,
                from,
                to,
                ..
            } => self.change(granule, from, to),
            Entry::Settled { granule, .. } => {
                close(&mut self.opened, granule);
                Ok(())
            }
            Entry::Refused { .. } | Entry::Looked { .. } => Ok(()),
        }
    }
}
