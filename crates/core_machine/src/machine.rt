ghost use Rattle.std.specs.Prelude.{◌≡◌, ◌<◌, ◌≤◌, ℕ, List, [], ◌++◌, length, slice_get, replicate, IsTrue};
ghost use Rattle.std.specs.Prelude.{Some, false};
ghost use Rattle.std.specs.List.{All};
ghost use Rattle.gpi_values.specs.declared.gpi.Gpi.{Gpi};
ghost use Rattle.core_machine.specs.InnerInvariant.{NumbersDiffer};
ghost use Rattle.core_machine.specs.InnerOpening.{IsFresh, AreStarting};
ghost use Rattle.core_machine.specs.declared.caller.Caller.{Caller as TheCaller};
ghost use Rattle.core_machine.specs.InnerCallers.{StoresNext};
ghost use Rattle.core_machine.specs.InnerMachine.{InvariantFor, HasInvariant, KeepsInvariant};
ghost use Rattle.core_machine.specs.InnerMachine.{after_turn, after_turns, turn_entries, trace_of};
ghost use Rattle.core_machine.specs.InnerMachine.{MachineData, machine_of};
ghost use Rattle.core_machine.specs.Trace.{history_of};
ghost use Rattle.delegate_ops.specs.InnerAgents.{fresh};

use crate::caller::Caller;
use gpt_descriptors::Geometry;
use shared_words::Words;
use std::marker::Model;

/// Callers and the words that they share. Its turns are single acts, on one thread.
#[derive(Debug, Drop)]
pub struct Machine<W: Words> {
    geometry: Geometry,
    callers: Vec<Caller>,
    words: W,
}

impl<W: Words> Model for Machine<W> {
    ghost Value = { MachineData };

    ghost view = { λ m. machine_of m.geometry m.callers.items (W.words m.words) };
}

impl<W: Words> Machine<W> {
    /// A machine before the first act: the callers were made with this geometry and have made no
    /// act, no two processors among them have one number, all shared words are there, no lock is
    /// held, the tables among them mean a map and their words are its canonical ones, duty words and
    /// lines are 0, and each generation is the first one. It has the invariant with the empty
    /// history from that map.
    pub fn new(geometry: Geometry, callers: Vec<Caller>, words: W) -> Machine<W>
        requires fresh { All (IsFresh geometry) callers.items }
        requires numbers { NumbersDiffer callers.items }
        requires starting { (first : List Gpi) × AreStarting geometry first (W.words words) }
        ensures machine { result ≡ machine_of geometry callers.items (W.words words) }
        ensures invariant { (first : List Gpi) → AreStarting geometry first (W.words words)
            → InvariantFor first result [] }
    {
        Machine {
            geometry,
            callers,
            words,
        }
    }

    /// A turn of a caller, and whether it may have changed anything: it has not where the caller
    /// has no act, or had waited and waits again.
    #[inline(always)]
    pub fn step(&mut self, caller: usize) -> bool
        requires caller { caller < length self.old.callers }
        requires invariant { HasInvariant self.old }
        ensures turn { self.new ≡ after_turn self.old caller }
        ensures invariant { KeepsInvariant self.old self.new (turn_entries self.old caller) }
        ensures still { result ≡ false → self.new ≡ self.old }
    {
        self.callers[caller].turn(&mut self.words)
    }

    /// One act of a caller, nothing where it has none. Where the machine had the invariant with a
    /// history, it has it with that history and the entries of that act.
    pub fn turn(&mut self, caller: usize)
        requires caller { caller < length self.old.callers }
        requires invariant { HasInvariant self.old }
        ensures turn { self.new ≡ after_turn self.old caller }
        ensures invariant { KeepsInvariant self.old self.new (turn_entries self.old caller) }
    {
        self.step(caller);
    }

    /// Turns of a caller that it makes in one go, at most this number, and how many they were: those of
    /// an agent up to a wait after a wait or a store of a splitting or of merging; and of a processor
    /// that begins an access, all of it where a kept walk decides it. They may be none.
    #[inline(always)]
    pub fn go(&mut self, caller: usize, most: u32) -> u32
        requires caller { caller < length self.old.callers }
        requires invariant { HasInvariant self.old }
        ensures turns { self.new ≡ after_turns self.old (replicate result caller) }
        ensures most { result ≤ most }
    {
        self.callers[caller].go(&mut self.words, most)
    }

    /// Whether the next act of a caller is a store of a splitting or of merging.
    #[tactic(auto, using(crate::proofs::StoreLemmas::stores_here))]
    pub fn stores(&self, caller: usize) -> bool
        requires { caller < length self.now.callers }
        ensures { IsTrue result → (x : TheCaller) → slice_get self.now.callers caller ≡ Some x
            → StoresNext x }
    {
        self.callers[caller].stores()
    }

    /// Turns of a caller in which it makes a run of stores, at most this number, and how many they
    /// were: not none where its next act is a store of a splitting or of merging. They are as good as
    /// the same number of single turns.
    pub fn run(&mut self, caller: usize, most: u32) -> u32
        requires caller { caller < length self.old.callers }
        requires invariant { HasInvariant self.old }
        ensures turns { self.new ≡ after_turns self.old (replicate result caller) }
        ensures invariant { KeepsInvariant self.old self.new
            (history_of (trace_of self.old (replicate result caller))) }
        ensures most { result ≤ most }
        ensures some { (x : TheCaller) → slice_get self.old.callers caller ≡ Some x → 0 < most
            → StoresNext x → 0 < result }
    {
        let run = self.callers[caller].take_run(most as usize);
        if run.count == 0 {
            return 0;
        }
        self.words.fill(run);
        run.count as u32
    }

    /// The geometry of the shared words.
    pub fn geometry(&self) -> Geometry
        ensures { result ≡ self.now.geometry }
    {
        self.geometry
    }

    /// The callers.
    pub fn callers(&self) -> &[Caller]
        ensures { result.now ≡ self.now.callers }
    {
        self.callers.as_slice()
    }

    /// The callers and the words as they stand.
    pub fn into_parts(self) -> (Vec<Caller>, W)
        ensures callers { result.0.items ≡ self.callers }
        ensures words { W.words result.1 ≡ self.words }
    {
        let Machine { callers, words, .. } = self;
        (callers, words)
    }
}
