ghost use Rattle.std.specs.Prelude.{◌≡◌, ℕ, ◌+◌, ◌^◌, ◌<◌, ◌≤◌, IsSome, IsTrue, false};
ghost use Rattle.shared_words.specs.Next.{old_by, words_after, MayBeMade};
ghost use Rattle.delegate_ops.specs.InnerAgents.{IsStill};
ghost use Rattle.core_machine.specs.InnerCallers.{caller_next, caller_took, caller_waits, MayTake};
ghost use Rattle.core_machine.specs.InnerCallers.{caller_answers, caller_left};
ghost use Rattle.core_machine.specs.InnerCallers.{caller_stored, AreNext, StoresNext, turned, MayTurn};

use delegate_ops::Agent;
use history::Answer;
use processor::Cpu;
use shared_words::{Act, StoreRun, Words};
use std::alloc::Global;

/// One that acts on the shared words: an agent, or a processor.
#[derive(Debug, Drop)]
pub enum Caller {
    Agent(Agent),
    Cpu(Cpu),
}

impl Caller {
    /// The next act, or `None` where it has none.
    pub fn next(&self) -> Option<Act>
        ensures { result ≡ caller_next self.now }
    {
        match self {
            Caller::Agent(agent) => agent.next(),
            Caller::Cpu(cpu) => cpu.next(),
        }
    }

    /// Takes note that the next act was made and answered `old`.
    pub fn took(&mut self, old: u64)
        requires next { IsSome (caller_next self.old) }
        requires readable { MayTake self.old old }
        ensures { self.new ≡ caller_took self.old old }
    {
        match self {
            Caller::Agent(agent) => agent.took(old),
            Caller::Cpu(cpu) => cpu.took(old),
        }
    }

    /// The next act, made on the words, if there is one. Whether it may have changed anything: it
    /// has not where there is none, or the caller had waited and waits again.
    #[inline(always)]
    pub fn turn<W: Words>(&mut self, words: &mut W) -> bool
        requires place { MayBeMade (caller_next self.old) (W.words words.old) }
        requires readable { MayTake self.old (old_by (caller_next self.old) (W.words words.old)) }
        ensures words { W.words words.new
            ≡ words_after (caller_next self.old) (W.words words.old) }
        ensures after { self.new
            ≡ caller_took self.old (old_by (caller_next self.old) (W.words words.old)) }
        ensures still { result ≡ false
            → IsStill (caller_next self.old) (caller_waits self.old) (caller_waits self.new) }
    {
        match self {
            Caller::Agent(agent) => agent.turn(words),
            Caller::Cpu(cpu) => cpu.turn(words),
        }
    }

    /// Its next acts, at most this number, made on the words in one go, and how many they were: those
    /// of an agent up to a wait after a wait or a store of a splitting or of merging; and of a processor
    /// that begins an access, all of it where a kept walk decides it. They may be none.
    #[inline(always)]
    pub fn go<W: Words>(&mut self, words: &mut W, most: u32) -> u32
        requires { (n : ℕ) → n < most → MayTurn (turned n (self.old, W.words words.old)) }
        ensures turned { (self.new, W.words words.new) ≡ turned result (self.old, W.words words.old) }
        ensures most { result ≤ most }
    {
        match self {
            Caller::Agent(agent) => agent.go(words, most),
            Caller::Cpu(cpu) => cpu.look(words, most),
        }
    }

    /// Whether the next act is a store of a splitting or of merging.
    pub fn stores(&self) -> bool
        ensures { IsTrue result → StoresNext self.now }
    {
        match self {
            Caller::Agent(agent) => agent.stores(),
            Caller::Cpu(_) => false,
        }
    }

    /// Its next stores of one value at places one after another, at most this number, as one run.
    /// The caller goes on as after them, and the words are still to be stored. The run isn't
    /// empty where the next act is a store of a splitting or of merging, and this number isn't 0.
    #[tactic(auto, using(crate::proofs::StoreLemmas::caller_runs))]
    pub fn take_run(&mut self, most: usize) -> StoreRun
        ensures next { AreNext result self.old }
        ensures after { self.new ≡ caller_stored result.count self.old }
        ensures most { result.count ≤ most }
        ensures some { 0 < most → StoresNext self.old → 0 < result.count }
        ensures room { result.first + result.count < 2 ^ 64 }
    {
        match self {
            Caller::Agent(agent) => agent.take_run(most),
            Caller::Cpu(_) => StoreRun::empty(),
        }
    }

    /// Whether the last act was a lock that wasn't free, or a load of a duty word that wasn't 0.
    pub fn waits(&self) -> bool
        ensures { result ≡ caller_waits self.now }
    {
        match self {
            Caller::Agent(agent) => agent.waits(),
            Caller::Cpu(_) => false,
        }
    }

    /// The answers so far, in the order of the calls.
    pub fn answers(&self) -> &[Answer]
        ensures { result.now ≡ caller_answers self.now }
    {
        match self {
            Caller::Agent(agent) => agent.answers(),
            Caller::Cpu(cpu) => cpu.answers(),
        }
    }

    /// The answers, in the order of the calls. They are moved, not copied.
    pub fn into_answers(self, alloc: Global) -> Vec<Answer>
        ensures { result.items ≡ caller_answers self }
    {
        match self {
            Caller::Agent(agent) => agent.into_answers(),
            Caller::Cpu(cpu) => cpu.into_answers(),
        }
    }

    /// The number of calls without an answer.
    pub fn left(&self) -> u64
        ensures { result ≡ caller_left self.now }
    {
        match self {
            Caller::Agent(agent) => agent.left(),
            Caller::Cpu(cpu) => cpu.left(),
        }
    }
}
