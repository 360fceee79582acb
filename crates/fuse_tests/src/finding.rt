ghost use Rattle.std.specs.Prelude.{◌≡◌, ◌≢◌, ◌*◌, ◌/◌, ◌^◌, ◌<◌, ℕ, true, false, IfSome, IfNone, slice_index};
ghost use Rattle.gpt_descriptors.specs.Sizes.{words_of, is_permitted};
ghost use Rattle.table_meaning.specs.Merging.{PassesThirtyTwo, PassesFiveTwelve, StopsThirtyTwo, StopsFiveTwelve, Finds};
ghost use Rattle.fuse_tests.specs.Finding.{FindsAbove};

use gpi_values::Gpi;
use gpt_descriptors::{L1Entry, Setup, Size, encode_l1, equal_gpi};

/// Word `w` of a table, 0 beyond its end.
fn word_in(table: &[u64], w: usize) -> u64
    ensures { result ≡ slice_index table.now w }
{
    if w < table.len() { table[w] } else { 0 }
}

/// A word of the block of `n` words around word `own` that differs from it.
fn stops_two(table: &[u64], own: usize, n: usize) -> Option<usize>
    requires { (0 < n) × (n < 2 ^ 20) × (own < 2 ^ 40) }
    ensures some { IfSome result (λ w.
        (w / n ≡ own / n) × (slice_index table.now w ≢ slice_index table.now own)) }
    ensures none { IfNone result ((w : ℕ)
        → w / n ≡ own / n → slice_index table.now w ≡ slice_index table.now own) }
{
    let start = own / n * n;
    for k in 0..n {
        if word_in(table, start + k) != word_in(table, own) {
            return Some(start + k);
        }
    }
    None
}

/// Of the sixteen blocks of `n` words around block `row`, another one whose first word isn't the
/// needed one.
fn stops_beside(table: &[u64], row: usize, n: usize, needed: u64) -> Option<usize>
    requires { (n < 2 ^ 20) × (row < 2 ^ 40) }
    ensures some { IfSome result (λ q.
        (q / 16 ≡ row / 16) × (q ≢ row) × (slice_index table.now (q * n) ≢ needed)) }
    ensures none { IfNone result ((q : ℕ)
        → q / 16 ≡ row / 16 → q ≢ row → slice_index table.now (q * n) ≡ needed) }
{
    let start = row / 16 * 16;
    for k in 0..16 {
        let q = start + k;
        if q != row && word_in(table, q * n) != needed {
            return Some(q);
        }
    }
    None
}

/// Whether the test of 32 MB stops.
fn stops_thirty_two(setup: &Setup, table: &[u64], own: usize, gpi: Gpi) -> bool
    requires { own < 2 ^ 40 }
    ensures yes { result ≡ true → StopsThirtyTwo setup.now (λ w. slice_index table.now w) own gpi }
    ensures no { result ≡ false → PassesThirtyTwo setup.now (λ w. slice_index table.now w) own gpi }
{
    let two = setup.words_of(Size::Two) as usize;
    let needed = encode_l1(L1Entry::Contig(Size::Two, gpi));
    match stops_beside(table, own / two, two, needed) {
        Some(_) => true,
        None => false,
    }
}

/// Whether the test of 512 MB stops.
fn stops_five_twelve(setup: &Setup, table: &[u64], own: usize, gpi: Gpi) -> bool
    requires { own < 2 ^ 40 }
    ensures yes { result ≡ true → StopsFiveTwelve setup.now (λ w. slice_index table.now w) own gpi }
    ensures no { result ≡ false
        → PassesFiveTwelve setup.now (λ w. slice_index table.now w) own gpi }
{
    let thirty_two = setup.words_of(Size::ThirtyTwo) as usize;
    let needed = encode_l1(L1Entry::Contig(Size::ThirtyTwo, gpi));
    match stops_beside(table, own / thirty_two, thirty_two, needed) {
        Some(_) => true,
        None => false,
    }
}

/// The largest size whose tests pass, where that of 2 MB does.
fn size_above(setup: &Setup, table: &[u64], own: usize, gpi: Gpi) -> Size
    requires { own < 2 ^ 40 }
    ensures { FindsAbove setup.now (λ w. slice_index table.now w) own gpi result }
{
    if !setup.max().permits(Size::ThirtyTwo) {
        return Size::Two;
    }
    if stops_thirty_two(setup, table, own, gpi) {
        return Size::Two;
    }
    if !setup.max().permits(Size::FiveTwelve) {
        return Size::ThirtyTwo;
    }
    if stops_five_twelve(setup, table, own, gpi) {
        Size::ThirtyTwo
    } else {
        Size::FiveTwelve
    }
}

/// The size that merging finds around word `own` of a table, by its definition.
pub fn find_size(setup: &Setup, table: &[u64], own: usize) -> Option<Size>
    requires { own < 2 ^ 40 }
    ensures { Finds setup.now (λ w. slice_index table.now w) own result }
{
    if !setup.max().permits(Size::Two) {
        return None;
    }
    let gpi = equal_gpi(word_in(table, own))?;
    match stops_two(table, own, setup.words_of(Size::Two) as usize) {
        Some(_) => None,
        None => Some(size_above(setup, table, own, gpi)),
    }
}
