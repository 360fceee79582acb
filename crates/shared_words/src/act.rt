ghost use Rattle.std.specs.Prelude.{◌≡◌, ℕ, ◌+◌, ◌^◌, ◌<◌, ◌≤◌, List, length};
ghost use Rattle.shared_words.specs.Acts.{place_in, answer_of, after_act, after_stores};

/// One atomic operation on one shared word, which it names by its place.
#[derive(Clone, Copy, Debug, PartialEq, Eq)]
pub enum Act {
    /// Reads the word.
    Load(usize),
    /// Writes this value.
    Store(usize, u64),
    /// Sets the bits that this value has.
    Or(usize, u64),
    /// Clears the bits that this value hasn't.
    And(usize, u64),
}

/// A run of stores: one value at `count` places, one after another from `first` on.
#[derive(Clone, Copy, Debug, PartialEq, Eq)]
pub struct StoreRun {
    pub first: usize,
    pub count: usize,
    pub value: u64,
}

impl StoreRun {
    /// A run of no store.
    pub fn empty() -> StoreRun
        ensures { result ≡ record { first = 0; count = 0; value = 0 } }
    {
        StoreRun {
            first: 0,
            count: 0,
            value: 0,
        }
    }
}

/// A list of shared words.
pub trait Words {
    ghost words: { Self → List ℕ };

    /// Makes one act on the word at its place, and on no other. It answers the word's value before
    /// the act, and 0 for a store. It can't be refused.
    fn apply(&mut self, act: Act) -> u64
        requires { place_in act < length (words self.old) }
        ensures answer { result ≡ answer_of act (words self.old) }
        ensures after { words self.new ≡ after_act act (words self.old) };

    /// Makes the stores of a run, in their order.
    #[tactic(auto, using(crate::proofs::StoreLemmas::run_steps))]
    fn fill(&mut self, run: StoreRun)
        requires room { run.first + run.count < 2 ^ 64 }
        requires within { run.first + run.count ≤ length (words self.old) }
        ensures { words self.new ≡ after_stores run run.count (words self.old) }
    {
        for number in 0..run.count {
            self.apply(Act::Store(run.first + number, run.value));
        }
    }
}
