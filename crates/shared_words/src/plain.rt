ghost use Rattle.std.specs.Prelude.{◌≡◌, ◌+◌, ◌^◌, ◌<◌, ◌≤◌, List, length, replicate, IfOk};
ghost use Rattle.gpt_descriptors.specs.Places.{l1_words, word_count};
ghost use Rattle.shared_words.specs.Acts.{place_in, answer_of, after_act, after_stores};
ghost use Rattle.shared_words.specs.Start.{start_words};

use crate::act::{Act, StoreRun, Words};
use gpt_descriptors::Geometry;
use std::alloc::{AllocError, Global};
use std::marker::Model;

/// Shared words of one thread, a plain list.
#[derive(Debug, Drop)]
pub struct PlainWords {
    words: Vec<u64>,
}

impl Model for PlainWords {
    ghost use Rattle.std.specs.Prelude.{ℕ, List};

    ghost Value = { List ℕ };

    ghost view = { λ w. w.words.items };
}

impl PlainWords {
    /// The words before the first act: lock, duty and line words are 0, generations are the setup's
    /// first one, and the L1 words are these, as many as the geometry has.
    pub fn new(alloc: Global, geometry: &Geometry, l1: &[u64]) -> Result<PlainWords, AllocError>
        requires { length l1.now ≡ l1_words geometry.now }
        ensures words { IfOk result (λ w. w ≡ start_words geometry.now l1.now) }
        ensures count { IfOk result (λ w. length w ≡ word_count geometry.now) }
    {
        let setup = geometry.setup();
        let mut words = Vec::with_capacity(alloc, geometry.words())?;
        words.resize(2, 0)?;
        words.resize(2 + 546 * setup.gigabytes() as usize, setup.first())?;
        words.resize(words.len() + geometry.cpus() as usize, 0)?;
        words.extend_from_slice(l1)?;
        words.resize(geometry.words(), 0)?;
        Ok(PlainWords { words })
    }

    /// Lends the words.
    pub fn words(&self) -> &[u64]
        ensures { result.now ≡ self.now }
    {
        self.words.as_slice()
    }

    /// Gives the words.
    pub fn into_words(self) -> Vec<u64>
        ensures { result.items ≡ self }
    {
        let PlainWords { words } = self;
        words
    }
}

/// Stores this value at each of these words.
fn store_all(words: &mut [u64], value: u64)
    ensures { words.new ≡ replicate (length words.old) value }
{
    words.fill(value);
}

/// Makes the stores of a run on these words.
#[tactic(auto, using(crate::proofs::StoreLemmas::stores_filled))]
fn store_run(words: &mut [u64], run: StoreRun)
    requires room { run.first + run.count < 2 ^ 64 }
    requires within { run.first + run.count ≤ length words.old }
    ensures { words.new ≡ after_stores run run.count words.old }
{
    store_all(&mut words[run.first..run.first + run.count], run.value);
}

impl Words for PlainWords {
    ghost words = { λ w. w };

    fn apply(&mut self, act: Act) -> u64 {
        match act {
            Act::Load(place) => self.words[place],
            Act::Store(place, value) => {
                self.words[place] = value;
                0
            }
            Act::Or(place, value) => {
                let old = self.words[place];
                self.words[place] = old | value;
                old
            }
            Act::And(place, value) => {
                let old = self.words[place];
                self.words[place] = old & value;
                old
            }
        }
    }

    fn fill(&mut self, run: StoreRun) {
        store_run(self.words.as_mut_slice(), run);
    }
}
