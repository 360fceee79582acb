ghost use Rattle.std.specs.Prelude.{◌≡◌, ◌+◌, ◌*◌, ◌/◌, ◌^◌, ◌<◌, IsTrue, ◌↔◌};
ghost use Rattle.table_meaning.specs.Fusing.{block_words, loads_of, beside, needed_word, test_or_store, passed, failed, loaded, stored, begun};
ghost use Rattle.fuse.specs.Merging.{IsCounted};
ghost use Rattle.fuse.specs.InnerRuns.{stored_to};

use gpt_descriptors::{Gpi, L1Entry, MaxBlock, Size, encode_l1, granules_of};
use table_meaning::Fusing;

/// Words of a block, where 2 MB have `two`.
pub fn block_words(two: usize, size: Size) -> usize
    requires { 16 * (16 * two) < 2 ^ 64 }
    ensures { result ≡ block_words two size }
{
    match size {
        Size::Two => two,
        Size::ThirtyTwo => 16 * two,
        Size::FiveTwelve => 16 * (16 * two),
    }
}

/// Loads of the test of a size: each word of the 2 MB, the first word of each of the fifteen other
/// blocks.
fn loads_of(two: usize, size: Size) -> usize
    ensures { result ≡ loads_of two size }
{
    match size {
        Size::Two => two,
        Size::ThirtyTwo | Size::FiveTwelve => 15,
    }
}

/// Number `k` of fifteen among sixteen, without number `j`.
pub fn beside(j: usize, k: usize) -> usize
    requires { k < 15 }
    ensures value { result ≡ beside j k }
    ensures range { result < 16 }
{
    if k < j { k } else { k + 1 }
}

/// What each load of the test of a size must answer.
fn needed_word(gpi: Gpi, size: Size) -> u64
    ensures { result ≡ needed_word gpi size }
{
    match size {
        Size::Two => granules_of(gpi),
        Size::ThirtyTwo => encode_l1(L1Entry::Contig(Size::Two, gpi)),
        Size::FiveTwelve => encode_l1(L1Entry::Contig(Size::ThirtyTwo, gpi)),
    }
}

/// Before the first load around a word of sixteen granules of this GPI, if the word is one.
pub fn begun(max: MaxBlock, gpi: Option<Gpi>) -> Fusing
    ensures { result ≡ begun max gpi }
{
    match gpi {
        Some(_) if max.permits(Size::Two) => Fusing::Testing(Size::Two, 0),
        _ => Fusing::Ended(None),
    }
}

/// The test of this size, where it is permitted, else the stores of the size before it.
fn test_or_store(max: MaxBlock, size: Size, before: Size) -> Fusing
    ensures { result ≡ test_or_store max size before }
{
    if max.permits(size) {
        Fusing::Testing(size, 0)
    } else {
        Fusing::Storing(before, 0)
    }
}

/// After the last load of a test that passed.
fn passed(max: MaxBlock, size: Size) -> Fusing
    ensures { result ≡ passed max size }
{
    match size {
        Size::Two => test_or_store(max, Size::ThirtyTwo, Size::Two),
        Size::ThirtyTwo => test_or_store(max, Size::FiveTwelve, Size::ThirtyTwo),
        Size::FiveTwelve => Fusing::Storing(Size::FiveTwelve, 0),
    }
}

/// After a load that differs.
fn failed(size: Size) -> Fusing
    ensures { result ≡ failed size }
{
    match size {
        Size::Two => Fusing::Ended(None),
        Size::ThirtyTwo => Fusing::Storing(Size::Two, 0),
        Size::FiveTwelve => Fusing::Storing(Size::ThirtyTwo, 0),
    }
}

/// After load `k` of the test of a size, which answered `word`.
pub fn loaded(two: usize, max: MaxBlock, gpi: Gpi, size: Size, k: usize, word: u64) -> Fusing
    requires { k < loads_of two size }
    ensures { result ≡ loaded two max gpi size k word }
{
    if word != needed_word(gpi, size) {
        failed(size)
    } else if k + 1 == loads_of(two, size) {
        passed(max, size)
    } else {
        Fusing::Testing(size, k + 1)
    }
}

/// After the first `made` stores of a block of a size.
pub fn stored_to(two: usize, size: Size, made: usize) -> Fusing
    requires { 16 * (16 * two) < 2 ^ 64 }
    ensures { result ≡ stored_to two size made }
{
    if made == block_words(two, size) {
        Fusing::Ended(Some(size))
    } else {
        Fusing::Storing(size, made)
    }
}

/// After store `k` of a block of a size.
pub fn stored(two: usize, size: Size, k: usize) -> Fusing
    requires room { 16 * (16 * two) < 2 ^ 64 }
    requires within { k < block_words two size }
    ensures { result ≡ stored two size k }
{
    stored_to(two, size, k + 1)
}

/// Whether a step has a load or a store of its number, where 2 MB have `two` words.
pub fn is_counted(two: usize, step: Fusing) -> bool
    requires { 16 * (16 * two) < 2 ^ 64 }
    ensures { IsTrue result ↔ IsCounted two step }
{
    match step {
        Fusing::Testing(size, k) => k < loads_of(two, size),
        Fusing::Storing(size, k) => k < block_words(two, size),
        Fusing::Ended(_) => true,
    }
}
