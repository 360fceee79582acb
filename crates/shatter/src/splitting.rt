ghost use Rattle.std.specs.Prelude.{◌≡◌, ◌+◌, ◌-◌, ◌*◌, ◌/◌, ◌^◌, ◌<◌, ◌≤◌, ◌==◌, ℕ, not, nat_lt, IsSome, Some, None, if◌then◌else◌};
ghost use Rattle.shatter.specs.Splitting.{split_word, started, started_at, next_store, advanced, advanced_by, AreNext};

use gpt_descriptors::{Gpi, L1Entry, Size, encode_l1, granules_of};
use shared_words::{Act, StoreRun};
use std::marker::Model;

/// The splitting of a contiguous block, store by store, whatever number of words the block and 2 MB
/// have.
#[derive(Clone, Copy, Debug, PartialEq, Eq)]
pub struct Splitting {
    first: usize,
    own: usize,
    gpi: Gpi,
    made: usize,
    words: usize,
    two: usize,
    thirty_two: usize,
    /// The first words of the 2 MB and of the 32 MB of the granule, counted from that of the block.
    two_start: usize,
    thirty_two_start: usize,
}

impl Model for Splitting {
    ghost use Rattle.std.specs.Prelude.{◌≡◌, ◌+◌, ◌*◌, ◌/◌, ◌^◌, ◌<◌, ◌≤◌};
    ghost use Rattle.shatter.specs.Splitting.{SplittingData};

    ghost Value = { SplittingData };

    ghost view = { λ d. record {
      first = d.first;
      own = d.own;
      gpi = d.gpi;
      made = d.made;
      words = d.words;
      two = d.two;
    } };

    ghost invariant = { λ d. (d.made ≤ d.words) × (d.first + d.words < 2 ^ 64) × (0 < d.two)
        × (d.thirty_two ≡ 16 * d.two) × (d.two_start ≡ d.own / d.two * d.two)
        × (d.thirty_two_start ≡ d.own / d.thirty_two * d.thirty_two) };

    ghost inverse = { λ d. record {
      first = d.first;
      own = d.own;
      gpi = d.gpi;
      made = d.made;
      words = d.words;
      two = d.two;
      thirty_two = 16 * d.two;
      two_start = d.own / d.two * d.two;
      thirty_two_start = d.own / (16 * d.two) * (16 * d.two);
    } };
}

/// Whether word `j` is one of the `n` words from this start on, the block of another word.
#[tactic(auto, using(crate::proofs::WordLemmas::in_block))]
fn is_in_block(j: usize, start: usize, n: usize) -> bool
    requires { 0 < n }
    ensures { (own : ℕ) → start ≡ own / n * n → result ≡ (j / n == own / n) }
{
    start <= j && j - start < n
}

/// The number of words from word `j` on that are all in the `n` words from this start on, the block
/// of another word, or all outside them. It isn't above that number.
fn alike(j: usize, start: usize, n: usize) -> usize
    requires { 0 < n }
    ensures value { (own k : ℕ) → start ≡ own / n * n → k < result
        → ((j + k) / n == own / n) ≡ (j / n == own / n) }
    ensures some { 0 < result }
{
    if j < start {
        start - j
    } else if j - start < n {
        n - (j - start)
    } else {
        usize::MAX
    }
}

impl Splitting {
    /// The splitting of a block of this GPI before its first store. `first` is the place of the
    /// block's first word, and `own` the word of the granule that is to be changed, counted from
    /// it; the block has `words` words and 2 MB have `two`.
    pub fn new(first: usize, own: usize, gpi: Gpi, words: usize, two: usize) -> Splitting
        requires own { own < words }
        requires room { first + words < 2 ^ 64 }
        requires two { (0 < two) × (16 * two < 2 ^ 64) }
        ensures { result ≡ started first own gpi words two }
    {
        let thirty_two = 16 * two;
        Splitting {
            first,
            own,
            gpi,
            made: 0,
            words,
            two,
            thirty_two,
            two_start: own / two * two,
            thirty_two_start: own / thirty_two * thirty_two,
        }
    }

    /// The word that the next store writes.
    fn word(&self) -> u64
        ensures { result ≡ split_word self.now.two self.now.own self.now.gpi self.now.made }
    {
        if is_in_block(self.made, self.two_start, self.two) {
            granules_of(self.gpi)
        } else if is_in_block(self.made, self.thirty_two_start, self.thirty_two) {
            encode_l1(L1Entry::Contig(Size::Two, self.gpi))
        } else {
            encode_l1(L1Entry::Contig(Size::ThirtyTwo, self.gpi))
        }
    }

    /// The next store, or `None` exactly after as many stores as the block has words.
    pub fn next(&self) -> Option<Act>
        ensures { result ≡ next_store self.now }
    {
        if self.made < self.words {
            Some(Act::Store(self.first + self.made, self.word()))
        } else {
            None
        }
    }

    /// The next store was made.
    pub fn advance(&mut self)
        requires { IsSome (next_store self.old) }
        ensures { self.new ≡ advanced self.old }
    {
        self.made += 1;
    }

    /// The number of next stores of one value, at most this number.
    fn run_length(&self, most: usize) -> usize
        ensures stores { (k : ℕ) → k < result
            → split_word self.now.two self.now.own self.now.gpi (self.now.made + k)
            ≡ split_word self.now.two self.now.own self.now.gpi self.now.made }
        ensures within { self.now.made + result ≤ self.now.words }
        ensures most { result ≤ most }
        ensures some { 0 < most → self.now.made < self.now.words → 0 < result }
    {
        let two = alike(self.made, self.two_start, self.two);
        let thirty_two = alike(self.made, self.thirty_two_start, self.thirty_two);
        let left = self.words - self.made;
        most.min(left).min(two).min(thirty_two)
    }

    /// The next stores of one value, at most this number, as one run. It goes on as after them; they
    /// are still to be made. The run is empty only after the last store, or where this number is 0.
    pub fn take_run(&mut self, most: usize) -> StoreRun
        ensures next { AreNext result self.old }
        ensures after { self.new ≡ advanced_by result.count self.old }
        ensures most { result.count ≤ most }
        ensures some { 0 < most → IsSome (next_store self.old) → 0 < result.count }
        ensures room { result.first + result.count < 2 ^ 64 }
    {
        let run = StoreRun {
            first: self.first + self.made,
            count: self.run_length(most),
            value: self.word(),
        };
        self.made += run.count;
        run
    }

    /// The GPI of the block.
    pub fn gpi(&self) -> Gpi
        ensures { result ≡ self.now.gpi }
    {
        self.gpi
    }

    /// Whether all stores were made.
    pub fn is_over(&self) -> bool
        ensures { result ≡ not (nat_lt self.now.made self.now.words) }
    {
        self.made >= self.words
    }

    /// The splitting that `new` makes, after this number of stores. It is `None` exactly where the
    /// block hasn't as many words.
    pub fn at(
        first: usize,
        own: usize,
        gpi: Gpi,
        words: usize,
        two: usize,
        made: u64,
    ) -> Option<Splitting>
        requires own { own < words }
        requires room { first + words < 2 ^ 64 }
        requires two { (0 < two) × (16 * two < 2 ^ 64) }
        ensures { result ≡ (if nat_lt words made then None
            else Some (started_at first own gpi words two made)) }
    {
        let made = made as usize;
        if words < made {
            return None;
        }
        let mut splitting = Splitting::new(first, own, gpi, words, two);
        splitting.made = made;
        Some(splitting)
    }

    /// The number of stores that were made.
    pub fn made(&self) -> u64
        ensures { result ≡ self.now.made }
    {
        self.made as u64
    }
}
