ghost use Rattle.std.specs.Prelude.{◌≡◌, ◌+◌, ◌*◌, ◌/◌, ◌%◌, ◌^◌, ◌<◌, ◌≤◌, IsSome, IfSome, None, IsTrue, ◌↔◌};
ghost use Rattle.gpt_descriptors.specs.Sizes.{space_bytes};
ghost use Rattle.gpt_descriptors.specs.Places.{IsGeometry, l1_index_of, l1_place_of};
ghost use Rattle.table_meaning.specs.Fusing.{block_words, loads_of, load_at, store_at};
ghost use Rattle.fuse.specs.Merging.{next_of, took_of, stored_by, outcome_of, fuse_of, fuse_at, has_acts, AreNext, IsStoring};
ghost use Rattle.fuse.specs.Merging.{IsCounted};
ghost use Rattle.gpt_descriptors.specs.Sizes.{words_of};
ghost use Rattle.gpt_descriptors.specs.declared.size.Size.TheVariants as size;

use crate::outcome::Fused;
use crate::step::{begun, beside, block_words, is_counted, loaded, stored, stored_to};
use gpt_descriptors::{Geometry, Gpi, L1Entry, MaxBlock, Size, encode_l1, equal_gpi};
use shared_words::{Act, StoreRun};
use std::marker::Model;
use table_meaning::Fusing;

/// Merging around one L1 word, a load or a store at a time. It takes no memory.
#[derive(Clone, Copy, Debug, PartialEq, Eq)]
pub struct Fuse {
    first: usize,
    own: usize,
    two: usize,
    max: MaxBlock,
    gpi: Gpi,
    step: Fusing,
    /// Words of 32 MB.
    thirty_two: usize,
    /// The places of the first words of the 2 MB, the 32 MB and the 512 MB of the granule.
    two_start: usize,
    thirty_two_start: usize,
    five_twelve_start: usize,
    /// The numbers of its 2 MB in its 32 MB, and of those in its 512 MB, 0 to 15.
    two_number: usize,
    thirty_two_number: usize,
}

impl Model for Fuse {
    ghost use Rattle.std.specs.Prelude.{◌≡◌, ◌+◌, ◌*◌, ◌/◌, ◌%◌};
    ghost use Rattle.fuse.specs.Merging.{FuseData, IsFuse};

    ghost Value = { FuseData };

    ghost view = { λ d. record {
      first = d.first;
      own = d.own;
      two = d.two;
      max = d.max;
      gpi = d.gpi;
      step = d.step;
    } };

    ghost invariant = { λ d. IsFuse d.first d.own d.two d.step × (d.thirty_two ≡ 16 * d.two)
        × (d.two_start ≡ d.first + d.own / d.two * d.two)
        × (d.thirty_two_start ≡ d.first + d.own / (16 * d.two) * (16 * d.two))
        × (d.five_twelve_start ≡ d.first + d.own / (16 * (16 * d.two)) * (16 * (16 * d.two)))
        × (d.two_number ≡ d.own / d.two % 16) × (d.thirty_two_number ≡ d.own / (16 * d.two) % 16) };

    ghost inverse = { λ d. record {
      first = d.first;
      own = d.own;
      two = d.two;
      max = d.max;
      gpi = d.gpi;
      step = d.step;
      thirty_two = 16 * d.two;
      two_start = d.first + d.own / d.two * d.two;
      thirty_two_start = d.first + d.own / (16 * d.two) * (16 * d.two);
      five_twelve_start = d.first + d.own / (16 * (16 * d.two)) * (16 * (16 * d.two));
      two_number = d.own / d.two % 16;
      thirty_two_number = d.own / (16 * d.two) % 16;
    } };
}

/// The first word of the block of `n` words around a word.
fn block_start(own: usize, n: usize) -> usize
    requires { 0 < n }
    ensures value { result ≡ own / n * n }
    ensures range { result ≤ own }
{
    own / n * n
}

impl Fuse {
    /// Merging around the L1 word of an address, before its first act. `word` is what the caller
    /// wrote there last.
    pub fn new(geometry: &Geometry, pa: u64, word: u64) -> Fuse
        requires inside { pa < space_bytes geometry.now.setup }
        requires table { IsSome (l1_place_of geometry.now pa) }
        ensures { IfSome (l1_index_of geometry.now pa) (λ i. result ≡ fuse_of geometry.now i word) }
    {
        let gpi = equal_gpi(word);
        let setup = geometry.setup();
        let max = setup.max();
        let first = geometry.first_l1_word();
        let own = index_of(geometry, pa);
        let two = setup.words_of(Size::Two) as usize;
        let thirty_two = 16 * two;
        Fuse {
            first,
            own,
            two,
            max,
            gpi: gpi.unwrap_or(Gpi::NoAccess),
            step: begun(max, gpi),
            thirty_two,
            two_start: first + block_start(own, two),
            thirty_two_start: first + block_start(own, thirty_two),
            five_twelve_start: first + block_start(own, 16 * thirty_two),
            two_number: own / two % 16,
            thirty_two_number: own / thirty_two % 16,
        }
    }

    /// The place of load `k` of the test of a size.
    fn load_place(&self, size: Size, k: usize) -> usize
        requires { k < loads_of self.now.two size }
        ensures { result ≡ self.now.first + load_at self.now.two self.now.own size k }
    {
        match size {
            Size::Two => self.two_start + k,
            Size::ThirtyTwo => self.thirty_two_start + beside(self.two_number, k) * self.two,
            Size::FiveTwelve => {
                self.five_twelve_start + beside(self.thirty_two_number, k) * self.thirty_two
            }
        }
    }

    /// The place of store `k` of a block of a size.
    fn store_place(&self, size: Size, k: usize) -> usize
        requires { k < block_words self.now.two size }
        ensures { result ≡ self.now.first + store_at self.now.two self.now.own size k }
    {
        match size {
            Size::Two => self.two_start + k,
            Size::ThirtyTwo => self.thirty_two_start + k,
            Size::FiveTwelve => self.five_twelve_start + k,
        }
    }

    /// The next act, a test load or a store, or `None` exactly where merging has ended.
    pub fn next(&self) -> Option<Act>
        ensures { result ≡ next_of self.now }
    {
        match self.step {
            Fusing::Testing(size, k) => Some(Act::Load(self.load_place(size, k))),
            Fusing::Storing(size, k) => {
                let word = encode_l1(L1Entry::Contig(size, self.gpi));
                Some(Act::Store(self.store_place(size, k), word))
            }
            Fusing::Ended(_) => None,
        }
    }

    /// The next act was made, and answered `old`.
    pub fn took(&mut self, old: u64)
        requires { IsSome (next_of self.old) }
        ensures { self.new ≡ took_of self.old old }
    {
        self.step = match self.step {
            Fusing::Testing(size, k) => loaded(self.two, self.max, self.gpi, size, k, old),
            Fusing::Storing(size, k) => stored(self.two, size, k),
            Fusing::Ended(size) => Fusing::Ended(size),
        };
    }

    /// Whether the next act is a store.
    pub fn stores(&self) -> bool
        ensures { IsTrue result → IsStoring self.now.step }
    {
        matches!(self.step, Fusing::Storing(..))
    }

    /// The next stores, at most this number, as one run. It goes on as after them; they are still to
    /// be made. The run is empty only where the next act isn't a store, or where this number is 0.
    #[tactic(auto, using(crate::proofs::RunLemmas::stored_none))]
    pub fn take_run(&mut self, most: usize) -> StoreRun
        ensures next { AreNext result self.old }
        ensures after { self.new ≡ stored_by result.count self.old }
        ensures most { result.count ≤ most }
        ensures some { 0 < most → IsStoring self.old.step → 0 < result.count }
        ensures room { result.first + result.count < 2 ^ 64 }
    {
        let Fusing::Storing(size, k) = self.step else {
            return StoreRun::empty();
        };
        let run = StoreRun {
            first: self.store_place(size, k),
            count: most.min(block_words(self.two, size) - k),
            value: encode_l1(L1Entry::Contig(size, self.gpi)),
        };
        self.step = stored_to(self.two, size, k + run.count);
        run
    }

    /// What merging has done. `No` comes exactly where no contiguous size is permitted, the word
    /// that merging began with hasn't sixteen equal GPIs, or a word that the test of 2 MB loaded
    /// differs from it; else it is the largest size whose tests all passed.
    pub fn outcome(&self) -> Fused
        requires { next_of self.now ≡ None }
        ensures { result ≡ outcome_of self.now }
    {
        match self.step {
            Fusing::Ended(Some(size)) => Fused::To(size),
            _ => Fused::No,
        }
    }
}

impl Fuse {
    /// Merging around the L1 word of an address, of granules of this GPI, at this step. It is `None`
    /// exactly where the step has no load or store of its number.
    pub fn at(geometry: &Geometry, pa: u64, gpi: Gpi, step: Fusing) -> Option<Fuse>
        requires inside { pa < space_bytes geometry.now.setup }
        requires table { IsSome (l1_place_of geometry.now pa) }
        ensures value { IfSome result (λ f. IfSome (l1_index_of geometry.now pa)
            (λ i. f ≡ fuse_at geometry.now i gpi step)) }
        ensures some { IsSome result ↔ IsCounted (words_of geometry.now.setup size.Two) step }
    {
        let mut fuse = Fuse::new(geometry, pa, 0);
        if !is_counted(fuse.two, step) {
            return None;
        }
        fuse.gpi = gpi;
        fuse.step = step;
        Some(fuse)
    }

    /// The test, the stores or the end at which merging is.
    pub fn step(&self) -> Fusing
        ensures { result ≡ self.now.step }
    {
        self.step
    }

    /// The GPI of the granules around which it is.
    pub fn gpi(&self) -> Gpi
        ensures { result ≡ self.now.gpi }
    {
        self.gpi
    }
}

/// Whether merging around a word has any act: a contiguous size is permitted, and the word has
/// sixteen equal GPIs.
pub fn has_acts(max: MaxBlock, word: u64) -> bool
    ensures { result ≡ has_acts max word }
{
    max.permits(Size::Two) && equal_gpi(word).is_some()
}

/// The number of the L1 word of an address among the L1 words.
fn index_of(geometry: &Geometry, pa: u64) -> usize
    requires geometry { IsGeometry geometry.now }
    requires inside { pa < space_bytes geometry.now.setup }
    requires table { IsSome (l1_place_of geometry.now pa) }
    ensures value { IfSome (l1_index_of geometry.now pa) (λ i. result ≡ i) }
    ensures range { result < 262144 }
{
    match geometry.l1_place(pa) {
        Some(place) => place - geometry.first_l1_word(),
        None => unreachable!(),
    }
}
