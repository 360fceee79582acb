ghost use Rattle.std.specs.Prelude.{◌≡◌, true};
ghost use Rattle.walk_cache.specs.Rings.{reach_bytes, first_around, covers_from, covers};

use gpt_descriptors::{Reach, Size};

/// A walk of a level 1 table that was kept: how far the entry of its L1 word reaches, the first
/// byte address that this covers, the word, and the generation that tags it.
#[derive(Clone, Copy, Debug, PartialEq, Eq)]
pub struct Walk {
    pub reach: Reach,
    pub first: u64,
    pub word: u64,
    pub tag: u64,
}

/// The bytes that an L1 entry of this reach covers: its sixteen granules of 4 KB, or a contiguous
/// block (DDI 0487, GPT level 1 descriptors, field Contig).
pub fn reach_bytes(reach: Reach) -> u64
    ensures { result ≡ reach_bytes reach }
{
    match reach {
        Reach::Word => 16 * 4096,
        Reach::Two => Size::Two.bytes(),
        Reach::ThirtyTwo => Size::ThirtyTwo.bytes(),
        Reach::FiveTwelve => Size::FiveTwelve.bytes(),
    }
}

/// Whether a byte address is one of those of this reach, from this first one on.
pub fn covers_from(reach: Reach, first: u64, pa: u64) -> bool
    ensures { result ≡ covers_from reach first pa }
{
    first <= pa && pa - first < reach_bytes(reach)
}

impl Walk {
    /// The walk around a byte address that has loaded this word, of this reach, under this
    /// generation. It covers the aligned bytes of the reach.
    pub fn around(reach: Reach, pa: u64, word: u64, tag: u64) -> Walk
        ensures walk { result ≡ record {
          reach = reach;
          first = first_around reach pa;
          word = word;
          tag = tag;
        } }
        ensures covered { covers result pa ≡ true }
    {
        Walk {
            reach,
            first: pa / reach_bytes(reach) * reach_bytes(reach),
            word,
            tag,
        }
    }

    /// Whether the walk covers this byte address.
    pub fn covers(&self, pa: u64) -> bool
        ensures { result ≡ covers self.now pa }
    {
        covers_from(self.reach, self.first, pa)
    }
}
