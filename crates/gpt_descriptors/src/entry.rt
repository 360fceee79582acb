ghost use Rattle.std.specs.Prelude.{◌≡◌, ◌≢◌, ◌<◌, ◌%◌, ◌*◌, ◌+◌, ◌^◌, IfSome, IfNone, IsNone, ◌↔◌, Some};
ghost use Rattle.gpt_descriptors.specs.Entries.{IsL0, IsL1, l0_word, l1_word, l0_entry, l1_entry, contiguous_entry, size_with, size_code, knows_all, word_gpi, entry_gpi};
ghost use Rattle.gpt_descriptors.specs.Sizes.{reach_with};

use crate::size::{Reach, Size};
use gpi_values::{Gpi, gpi_of, nibble};

/// An entry of the level 0 table (DDI 0487, GPT level 0 descriptors).
#[derive(Clone, Copy, Debug, PartialEq, Eq)]
pub enum L0Entry {
    /// A block of 1 GB of one GPI: TF-A `GPT_L0_TYPE_BLK_DESC`.
    Block(Gpi),
    /// The byte address of an L1 table: TF-A `GPT_L0_TYPE_TBL_DESC`.
    Table(u64),
}

/// An entry of a level 1 table (DDI 0487, GPT level 1 descriptors).
#[derive(Clone, Copy, Debug, PartialEq, Eq)]
pub enum L1Entry {
    /// The sixteen GPI fields of a granules descriptor, the first granule lowest.
    Granules(u64),
    /// A contiguous block of one GPI: TF-A `GPT_L1_TYPE_CONT_DESC`.
    Contig(Size, Gpi),
}

fn block_entry(word: u64) -> Option<L0Entry>
    requires { word % 16 ≡ 1 }
    ensures { result ≡ l0_entry word }
{
    if word >= 256 {
        return None;
    }
    match gpi_of(word / 16) {
        Some(gpi) => Some(L0Entry::Block(gpi)),
        None => None,
    }
}

/// The level 0 entry of a descriptor, or `None` exactly where the word is no level 0 descriptor
/// (DDI 0487, GPT level 0 descriptors).
pub fn decode_l0(word: u64) -> Option<L0Entry>
    ensures found { IfSome result (λ entry. IsL0 entry × (word ≡ l0_word entry)) }
    ensures none { IfNone result ((entry : L0Entry) → IsL0 entry → word ≢ l0_word entry) }
    ensures exact { result ≡ l0_entry word }
{
    if word % 16 == 1 {
        block_entry(word)
    } else if word % 4096 == 3 && word < 1 << 52 {
        Some(L0Entry::Table(word - 3))
    } else {
        None
    }
}

/// The descriptor of a level 0 entry. A table address is a multiple of 4,096 below 2^52; that it is
/// aligned to the size of its table too is a rule of `l0_good`.
pub fn encode_l0(entry: L0Entry) -> u64
    requires { IsL0 entry }
    ensures word { result ≡ l0_word entry }
    ensures decoded { l0_entry result ≡ Some entry }
{
    match entry {
        L0Entry::Block(gpi) => 1 + 16 * nibble(gpi),
        L0Entry::Table(address) => 3 + address,
    }
}

/// The lowest bit of each of the sixteen fields of a word.
const LOWEST_BITS: u64 = 0x1111_1111_1111_1111;

/// Whether all sixteen fields are GPIs, by the bits of all fields at once. No GPI are 0b0001 to
/// 0b0111, which have a lower bit without bit 3, and 0b1100 to 0b1110, which have bit 2 without
/// both below it.
fn knows_all_fields(word: u64) -> bool
    ensures { result ≡ knows_all word }
{
    let (one, two, three) = (word >> 1, word >> 2, word >> 3);
    let without_top = (word | one | two) & !three;
    let without_low = two & !(word & one);
    (without_top | without_low) & LOWEST_BITS == 0
}

fn size_of_code(code: u64) -> Option<Size>
    ensures { result ≡ size_with code }
{
    match code {
        1 => Some(Size::Two),
        2 => Some(Size::ThirtyTwo),
        3 => Some(Size::FiveTwelve),
        _ => None,
    }
}

fn contiguous(word: u64) -> Option<L1Entry>
    ensures { result ≡ contiguous_entry word }
{
    let gpi = gpi_of(word / 16 % 16)?;
    let size = size_of_code(word / 256)?;
    Some(L1Entry::Contig(size, gpi))
}

/// The level 1 entry of a descriptor, or `None` exactly where the word is no level 1 descriptor
/// (DDI 0487, GPT level 1 descriptors).
#[tactic(auto, using(crate::proofs::EntryLemmas::knows_each))]
pub fn decode_l1(word: u64) -> Option<L1Entry>
    ensures found { IfSome result (λ entry. IsL1 entry × (word ≡ l1_word entry)) }
    ensures none { IfNone result ((entry : L1Entry) → IsL1 entry → word ≢ l1_word entry) }
    ensures exact { result ≡ l1_entry word }
{
    if word % 16 == 1 {
        contiguous(word)
    } else if knows_all_fields(word) {
        Some(L1Entry::Granules(word))
    } else {
        None
    }
}

/// The descriptor of a level 1 entry. Each field of a granules word is a known GPI.
#[tactic(auto, using(crate::proofs::EntryLemmas::granules_entry))]
pub fn encode_l1(entry: L1Entry) -> u64
    requires { IsL1 entry }
    ensures word { result ≡ l1_word entry }
    ensures decoded { l1_entry result ≡ Some entry }
{
    match entry {
        L1Entry::Granules(word) => word,
        L1Entry::Contig(size, gpi) => {
            let code = match size {
                Size::Two => 1,
                Size::ThirtyTwo => 2,
                Size::FiveTwelve => 3,
            };
            1 + 16 * nibble(gpi) + 256 * code
        }
    }
}

/// The GPI that an L1 word gives the granule at this place, 0 to 15. `None` exactly where the word
/// is no level 1 descriptor.
pub fn gpi_at(word: u64, place: u64) -> Option<Gpi>
    requires { place < 16 }
    ensures value { result ≡ word_gpi word place }
    ensures none { IsNone result ↔ IsNone (l1_entry word) }
{
    match decode_l1(word)? {
        L1Entry::Granules(fields) => gpi_of((fields >> (4 * place)) % 16),
        L1Entry::Contig(_, gpi) => Some(gpi),
    }
}

/// How far an entry reaches.
pub fn reach_of(entry: L1Entry) -> Reach
    ensures { result ≡ reach_with entry }
{
    match entry {
        L1Entry::Granules(_) => Reach::Word,
        L1Entry::Contig(Size::Two, _) => Reach::Two,
        L1Entry::Contig(Size::ThirtyTwo, _) => Reach::ThirtyTwo,
        L1Entry::Contig(Size::FiveTwelve, _) => Reach::FiveTwelve,
    }
}
