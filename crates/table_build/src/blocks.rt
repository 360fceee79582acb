ghost use Rattle.std.specs.Prelude.{◌≡◌, ◌+◌, ◌-◌, ◌*◌, ◌/◌, ◌<◌, ◌≤◌, ◌^◌, ◌++◌, IfOk, OnOk, IfSome, is_some, replicate, false};
ghost use Rattle.gpi_values.specs.Values.{value_of};
ghost use Rattle.gpt_descriptors.specs.declared.size.Size.TheVariants as sizes;
ghost use Rattle.gpt_descriptors.specs.Sizes.{space_words};
ghost use Rattle.gpt_descriptors.specs.Entries.{packed};
ghost use Rattle.region_plan.specs.Regions.{region_map};
ghost use Rattle.table_build.specs.Built.{granules_words, table_of};
ghost use Rattle.table_build.specs.InnerReading.{IsAt};
ghost use Rattle.table_build.specs.InnerBlocks.{IsInside, is_one_entry, first_gpi, entry_words, block_words, block_granules, IsAtBlock, IsAtTable};

use crate::cursor::Cursor;
use gpi_values::nibble;
use gpt_descriptors::{Gpi, L1Entry, Size, encode_l1};
use region_plan::Plan;
use std::alloc::AllocError;

/// The one GPI of block `b` of this size, where the block may be one entry.
fn block_gpi(cursor: &mut Cursor<'_>, plan: &Plan, size: Size, b: u64) -> Option<Gpi>
    requires range { b < 2 ^ 20 }
    requires inside { IsInside plan.now size b }
    requires at { IsAtBlock plan.now size b cursor.old }
    ensures exact { is_some result ≡ is_one_entry plan.now size b }
    ensures gpi { IfSome result (λ gpi. gpi ≡ first_gpi plan.now size b) }
    ensures at { IsAtBlock plan.now size b cursor.new }
{
    let setup = plan.setup();
    if !setup.max().permits(size) {
        return None;
    }
    let words = setup.words_of(size);
    let first = 16 * (b * words);
    let (gpi, end) = cursor.run_of(first);
    if end < first + 16 * words {
        return None;
    }
    Some(gpi)
}

/// Appends the same word `count` times.
fn push_words(out: &mut Vec<u64>, word: u64, count: u64) -> Result<(), AllocError>
    requires { count ≤ 2 ^ 40 }
    ensures { OnOk result (out.new.items ≡ out.old.items ++ replicate count word) }
{
    let count = out.len() + count as usize;
    out.resize(count, word)
}

/// Appends block `b` of this size as one entry.
fn push_entry(
    out: &mut Vec<u64>,
    plan: &Plan,
    size: Size,
    b: u64,
    gpi: Gpi,
) -> Result<(), AllocError>
    requires { gpi ≡ first_gpi plan.now size b }
    ensures { OnOk result (out.new.items ≡ out.old.items ++ entry_words plan.now size b) }
{
    let word = encode_l1(L1Entry::Contig(size, gpi));
    push_words(out, word, plan.setup().words_of(size))
}

/// The granules word of word number `w`: the GPIs of its sixteen granules, the first one lowest.
fn mixed_word(plan: &Plan, w: u64) -> u64
    requires range { w < 2 ^ 40 }
    requires inside { w < space_words plan.now.setup }
    ensures { result ≡ packed (region_map plan.now.setup plan.now.regions) (16 * w) 16 }
{
    let mut word = 0u64;
    for step in 0..16 {
        word = 16 * word + nibble(plan.map().get(16 * w + (15 - step)));
    }
    word
}

/// The granules word of sixteen granules of one GPI.
fn uniform_word(gpi: Gpi) -> u64
    ensures { result ≡ value_of gpi * 1229782938247303441 }
{
    nibble(gpi) * 0x1111_1111_1111_1111
}

/// Appends granules words from word `w` on and at most up to word `end`: those that the run of the
/// first granule covers, or one word in which runs end. Answers the word after them.
fn push_some(
    out: &mut Vec<u64>,
    cursor: &mut Cursor<'_>,
    plan: &Plan,
    w: u64,
    end: u64,
) -> Result<u64, AllocError>
    requires some { w < end }
    requires range { end ≤ 2 ^ 40 }
    requires inside { end ≤ space_words plan.now.setup }
    requires at { IsAt plan.now.setup plan.now.regions w cursor.old }
    ensures more { IfOk result (λ v. w < v) }
    ensures inside { IfOk result (λ v. v ≤ end) }
    ensures words { IfOk result (λ v. out.new.items
        ≡ out.old.items ++ granules_words plan.now.setup plan.now.regions w (v - w)) }
    ensures at { IfOk result (λ v. IsAt plan.now.setup plan.now.regions v cursor.new) }
{
    let (gpi, run_end) = cursor.run_of(16 * w);
    let covered = end.min(run_end / 16);
    if covered <= w {
        out.push(mixed_word(plan, w))?;
        return Ok(w + 1);
    }
    push_words(out, uniform_word(gpi), covered - w)?;
    Ok(covered)
}

/// Appends the granules words of block `b` of 2 MB.
fn push_granules(
    out: &mut Vec<u64>,
    cursor: &mut Cursor<'_>,
    plan: &Plan,
    b: u64,
) -> Result<(), AllocError>
    requires range { b < 2 ^ 20 }
    requires inside { IsInside plan.now sizes.Two b }
    requires at { IsAtBlock plan.now sizes.Two b cursor.old }
    ensures words { OnOk result
        (out.new.items ≡ out.old.items ++ block_granules plan.now sizes.Two b) }
    ensures at { OnOk result (IsAtBlock plan.now sizes.Two (b + 1) cursor.new) }
{
    let words = plan.setup().words_of(Size::Two);
    let end = (b + 1) * words;
    let mut w = b * words;
    while w < end {
        w = push_some(out, cursor, plan, w, end)?;
    }
    Ok(())
}

/// Appends block `b` of 2 MB, of which no larger block may be one entry.
fn push_two(
    out: &mut Vec<u64>,
    cursor: &mut Cursor<'_>,
    plan: &Plan,
    b: u64,
) -> Result<(), AllocError>
    requires range { b < 2 ^ 20 }
    requires largest { is_one_entry plan.now sizes.FiveTwelve (b / 16 / 16) ≡ false }
    requires larger { is_one_entry plan.now sizes.ThirtyTwo (b / 16) ≡ false }
    requires inside { IsInside plan.now sizes.Two b }
    requires at { IsAtBlock plan.now sizes.Two b cursor.old }
    ensures words { OnOk result
        (out.new.items ≡ out.old.items ++ block_words plan.now sizes.Two b) }
    ensures at { OnOk result (IsAtBlock plan.now sizes.Two (b + 1) cursor.new) }
{
    match block_gpi(cursor, plan, Size::Two, b) {
        Some(gpi) => push_entry(out, plan, Size::Two, b, gpi),
        None => push_granules(out, cursor, plan, b),
    }
}

/// Appends the sixteen blocks of 2 MB of block `b` of 32 MB, which may not be one entry.
fn push_twos(
    out: &mut Vec<u64>,
    cursor: &mut Cursor<'_>,
    plan: &Plan,
    b: u64,
) -> Result<(), AllocError>
    requires range { b < 2 ^ 16 }
    requires largest { is_one_entry plan.now sizes.FiveTwelve (b / 16) ≡ false }
    requires larger { is_one_entry plan.now sizes.ThirtyTwo b ≡ false }
    requires inside { IsInside plan.now sizes.ThirtyTwo b }
    requires at { IsAtBlock plan.now sizes.ThirtyTwo b cursor.old }
    ensures words { OnOk result
        (out.new.items ≡ out.old.items ++ block_words plan.now sizes.ThirtyTwo b) }
    ensures at { OnOk result (IsAtBlock plan.now sizes.ThirtyTwo (b + 1) cursor.new) }
{
    for k in 0..16 {
        push_two(out, cursor, plan, 16 * b + k)?;
    }
    Ok(())
}

/// Appends block `b` of 32 MB, of which no larger block may be one entry.
fn push_thirty_two(
    out: &mut Vec<u64>,
    cursor: &mut Cursor<'_>,
    plan: &Plan,
    b: u64,
) -> Result<(), AllocError>
    requires range { b < 2 ^ 16 }
    requires larger { is_one_entry plan.now sizes.FiveTwelve (b / 16) ≡ false }
    requires inside { IsInside plan.now sizes.ThirtyTwo b }
    requires at { IsAtBlock plan.now sizes.ThirtyTwo b cursor.old }
    ensures words { OnOk result
        (out.new.items ≡ out.old.items ++ block_words plan.now sizes.ThirtyTwo b) }
    ensures at { OnOk result (IsAtBlock plan.now sizes.ThirtyTwo (b + 1) cursor.new) }
{
    match block_gpi(cursor, plan, Size::ThirtyTwo, b) {
        Some(gpi) => push_entry(out, plan, Size::ThirtyTwo, b, gpi),
        None => push_twos(out, cursor, plan, b),
    }
}

/// Appends the sixteen blocks of 32 MB of block `b` of 512 MB, which may not be one entry.
fn push_thirty_twos(
    out: &mut Vec<u64>,
    cursor: &mut Cursor<'_>,
    plan: &Plan,
    b: u64,
) -> Result<(), AllocError>
    requires range { b < 2 ^ 12 }
    requires larger { is_one_entry plan.now sizes.FiveTwelve b ≡ false }
    requires inside { IsInside plan.now sizes.FiveTwelve b }
    requires at { IsAtBlock plan.now sizes.FiveTwelve b cursor.old }
    ensures words { OnOk result
        (out.new.items ≡ out.old.items ++ block_words plan.now sizes.FiveTwelve b) }
    ensures at { OnOk result (IsAtBlock plan.now sizes.FiveTwelve (b + 1) cursor.new) }
{
    for k in 0..16 {
        push_thirty_two(out, cursor, plan, 16 * b + k)?;
    }
    Ok(())
}

/// Appends block `b` of 512 MB.
fn push_five_twelve(
    out: &mut Vec<u64>,
    cursor: &mut Cursor<'_>,
    plan: &Plan,
    b: u64,
) -> Result<(), AllocError>
    requires range { b < 2 ^ 12 }
    requires inside { IsInside plan.now sizes.FiveTwelve b }
    requires at { IsAtBlock plan.now sizes.FiveTwelve b cursor.old }
    ensures words { OnOk result
        (out.new.items ≡ out.old.items ++ block_words plan.now sizes.FiveTwelve b) }
    ensures at { OnOk result (IsAtBlock plan.now sizes.FiveTwelve (b + 1) cursor.new) }
{
    match block_gpi(cursor, plan, Size::FiveTwelve, b) {
        Some(gpi) => push_entry(out, plan, Size::FiveTwelve, b, gpi),
        None => push_thirty_twos(out, cursor, plan, b),
    }
}

/// Appends the level 1 table of gigabyte `q`.
pub fn push_table(
    out: &mut Vec<u64>,
    cursor: &mut Cursor<'_>,
    plan: &Plan,
    q: u64,
) -> Result<(), AllocError>
    requires range { q < 64 }
    requires inside { q < plan.now.setup.gigabytes }
    requires at { IsAtTable plan.now q cursor.old }
    ensures words { OnOk result
        (out.new.items ≡ out.old.items ++ table_of plan.now.setup plan.now.regions q) }
    ensures at { OnOk result (IsAtTable plan.now (q + 1) cursor.new) }
{
    push_five_twelve(out, cursor, plan, 2 * q)?;
    push_five_twelve(out, cursor, plan, 2 * q + 1)
}
