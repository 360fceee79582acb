ghost use Rattle.std.specs.Prelude.{◌≡◌, ◌<◌, ◌≤◌, length, replicate, false};
ghost use Rattle.std.specs.List.{All, flat_map};
ghost use Rattle.core_machine.specs.InnerMachine.{HasInvariant, after_turn, after_turns};
ghost use Rattle.core_machine.specs.InnerPlay.{NamesCaller};
ghost use Rattle.core_machine.specs.Scenarios.{round_turns, rounds_of, slot_turns};

use crate::machine::Machine;
use scenario_text::Slot;
use shared_words::Words;

impl<W: Words> Machine<W> {
    /// Turns of a caller, at most this number: those of a run of its stores, or one, and how many
    /// they were. Where they were none, a turn changes nothing.
    fn stride(&mut self, caller: usize, most: u32) -> u32
        requires caller { caller < length self.old.callers }
        requires invariant { HasInvariant self.old }
        requires some { 0 < most }
        ensures turns { self.new ≡ after_turns self.old (replicate result caller) }
        ensures most { result ≤ most }
        ensures still { result ≡ 0 → after_turn self.old caller ≡ self.old }
    {
        if self.stores(caller) {
            return self.run(caller, most);
        }
        let made = self.go(caller, most);
        if made > 0 {
            made
        } else if self.step(caller) {
            1
        } else {
            0
        }
    }

    /// This number of turns of one caller, and whether they may have changed anything. It stops at
    /// a turn that changes nothing, since no later one does.
    fn turns(&mut self, caller: usize, count: u32) -> bool
        requires caller { caller < length self.old.callers }
        requires invariant { HasInvariant self.old }
        ensures turns { self.new ≡ after_turns self.old (replicate count caller) }
        ensures still { result ≡ false → self.new ≡ self.old }
    {
        let mut made = 0;
        while made < count {
            let turns = self.stride(caller, count - made);
            if turns == 0 {
                return made > 0;
            }
            made += turns;
        }
        made > 0
    }

    /// The turns of one caller in a round, as `turns` makes them; one has a short way.
    #[inline(always)]
    fn part(&mut self, caller: usize, count: u32) -> bool
        requires caller { caller < length self.old.callers }
        requires invariant { HasInvariant self.old }
        ensures turns { self.new ≡ after_turns self.old (replicate count caller) }
        ensures still { result ≡ false → self.new ≡ self.old }
    {
        if count == 1 {
            self.step(caller)
        } else {
            self.turns(caller, count)
        }
    }

    /// This number of turns of each caller in order, and whether they may have changed anything.
    fn round(&mut self, count: u32) -> bool
        requires { HasInvariant self.old }
        ensures turns { self.new
            ≡ after_turns self.old (round_turns (length self.old.callers) count) }
        ensures still { result ≡ false → self.new ≡ self.old }
    {
        let mut changed = false;
        for caller in 0..self.callers().len() {
            changed |= self.part(caller, count);
        }
        changed
    }

    /// This number of rounds. It stops at a round that changes nothing, since no later one does.
    fn rounds(&mut self, count: u32, times: u32)
        requires { HasInvariant self.old }
        ensures { self.new
            ≡ after_turns self.old (rounds_of (length self.old.callers) count times) }
    {
        for _ in 0..times {
            if !self.round(count) {
                return;
            }
        }
    }

    /// The turns of a line of the schedule, which names one of the callers.
    fn slot(&mut self, slot: Slot)
        requires names { NamesCaller (length self.old.callers) slot }
        requires invariant { HasInvariant self.old }
        ensures { self.new ≡ after_turns self.old (slot_turns (length self.old.callers) slot) }
    {
        match slot {
            Slot::Turn(caller, count) => {
                self.turns(caller as usize, count);
            }
            Slot::Round(count, times) => self.rounds(count, times),
        }
    }

    /// The turns of a schedule.
    pub fn schedule(&mut self, schedule: &[Slot])
        requires names { All (NamesCaller (length self.old.callers)) schedule.now }
        requires invariant { HasInvariant self.old }
        ensures { self.new
            ≡ after_turns self.old (flat_map (slot_turns (length self.old.callers)) schedule.now) }
    {
        for slot in schedule {
            self.slot(*slot);
        }
    }
}
