ghost use Rattle.std.specs.Prelude.{◌≡◌, ◌+◌, ◌^◌, ◌<◌, IsSome};
ghost use Rattle.shatter.specs.Splitting.{started, next_store, advanced};

use crate::splitting::Splitting;
use gpt_descriptors::Gpi;
use shared_words::Act;
use std::marker::Model;

/// Words of 2 MB with granules of 4 KB.
const TWO_WORDS: usize = 32;

/// The splitting of a contiguous block of `N` words with granules of 4 KB: 32, 512 or 8,192 for 2,
/// 32 and 512 MB.
#[derive(Clone, Copy, Debug, PartialEq, Eq)]
pub struct Shatter<const N: usize> {
    splitting: Splitting,
}

impl<const N: usize> Model for Shatter<N> {
    ghost use Rattle.std.specs.Prelude.{◌≡◌};
    ghost use Rattle.shatter.specs.Splitting.{SplittingData};

    ghost Value = { SplittingData };

    ghost view = { λ d. d.splitting };

    ghost invariant = { λ d. (d.splitting.words ≡ N) × (d.splitting.two ≡ 32) };

    ghost inverse = { λ d. record { splitting = d } };
}

impl<const N: usize> Shatter<N> {
    /// The splitting of a block of this GPI before its first store. `first` is the place of the
    /// block's first word, and `own`, below `N`, the word of the granule that is to be changed,
    /// counted from it.
    pub fn new(first: usize, own: usize, gpi: Gpi) -> Shatter<N>
        requires own { own < N }
        requires room { first + N < 2 ^ 64 }
        ensures { result ≡ started first own gpi N 32 }
    {
        Shatter {
            splitting: Splitting::new(first, own, gpi, N, TWO_WORDS),
        }
    }

    /// The next store, or `None` exactly after `N` stores.
    pub fn next(&self) -> Option<Act>
        ensures next { result ≡ next_store self.now }
        ensures words { self.now.words ≡ N }
    {
        self.splitting.next()
    }

    /// The next store was made.
    pub fn advance(&mut self)
        requires { IsSome (next_store self.old) }
        ensures { self.new ≡ advanced self.old }
    {
        self.splitting.advance();
    }
}
