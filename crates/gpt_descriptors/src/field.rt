ghost use Rattle.std.specs.Prelude.{◌≡◌, ◌≢◌, ◌<◌, IsSome, IfSome, IfNone, Some};
ghost use Rattle.gpi_values.specs.Values.{gpi_with};
ghost use Rattle.gpt_descriptors.specs.Entries.{l1_entry, word_gpi, word_reach};
ghost use Rattle.gpt_descriptors.specs.Fields.{with_field, granules_of, equal_gpi, is_granules};

use crate::size::Reach;
use gpi_values::{Gpi, gpi_of};

/// A granules word with one of its fields, from 0 to 15, replaced by a four-bit value.
pub fn with_field(word: u64, place: u64, value: u64) -> u64
    requires place { place < 16 }
    requires value { value < 16 }
    ensures { result ≡ with_field word place value }
{
    let low = 4 * place;
    let above = (word >> low) / 16;
    let below = word % (1 << low);
    ((above * 16 + value) << low) + below
}

/// The word of sixteen granules of this GPI (TF-A `GPT_BUILD_L1_DESC`).
#[tactic(auto, unfolding(crate::specs::Entries::packed))]
pub fn granules_of(gpi: Gpi) -> u64
    ensures { result ≡ granules_of gpi }
{
    match gpi {
        Gpi::NoAccess => 0,
        Gpi::Secure => 0x8888_8888_8888_8888,
        Gpi::NonSecure => 0x9999_9999_9999_9999,
        Gpi::Root => 0xaaaa_aaaa_aaaa_aaaa,
        Gpi::Realm => 0xbbbb_bbbb_bbbb_bbbb,
        Gpi::Any => 0xffff_ffff_ffff_ffff,
    }
}

/// The GPI of a word of sixteen equal ones, or `None` exactly where the word isn't that of sixteen
/// granules of one GPI.
#[tactic(auto, using(crate::proofs::PackedLemmas::lowest_field))]
pub fn equal_gpi(word: u64) -> Option<Gpi>
    ensures found { IfSome result (λ gpi. word ≡ granules_of gpi) }
    ensures none { IfNone result ((gpi : Gpi) → word ≢ granules_of gpi) }
    ensures exact { result ≡ equal_gpi word }
{
    let gpi = gpi_of(word % 16)?;
    if word == granules_of(gpi) {
        Some(gpi)
    } else {
        None
    }
}

/// Whether a word that is a level 1 descriptor is one of granules: its lowest four bits aren't the
/// type of contiguous descriptors (TF-A `GPT_L1_TYPE_CONT_DESC`).
#[tactic(auto, using(crate::proofs::FieldEntryLemmas::granules_type))]
pub fn is_granules(word: u64) -> bool
    requires { IsSome (l1_entry word) }
    ensures { result ≡ is_granules word }
{
    word % 16 != 1
}

/// The GPI with this value, which is one.
fn known_gpi(value: u64) -> Gpi
    requires { IsSome (gpi_with value) }
    ensures { Some result ≡ gpi_with value }
{
    match gpi_of(value) {
        Some(gpi) => gpi,
        None => unreachable!(),
    }
}

/// The GPI that a word which is a level 1 descriptor gives the granule at this place, 0 to 15. It
/// reads that field alone.
pub fn l1_field(word: u64, place: u64) -> Gpi
    requires descriptor { IsSome (l1_entry word) }
    requires place { place < 16 }
    ensures { Some result ≡ word_gpi word place }
{
    if is_granules(word) {
        known_gpi((word >> (4 * place)) % 16)
    } else {
        known_gpi(word / 16 % 16)
    }
}

/// How far the entry of a word that is a level 1 descriptor reaches: over its sixteen granules, or
/// over the block of its size (DDI 0487, GPT level 1 descriptors, field Contig).
pub fn word_reach(word: u64) -> Reach
    requires descriptor { IsSome (l1_entry word) }
    ensures { Some result ≡ word_reach word }
{
    if is_granules(word) {
        return Reach::Word;
    }
    match word / 256 {
        1 => Reach::Two,
        2 => Reach::ThirtyTwo,
        _ => Reach::FiveTwelve,
    }
}
