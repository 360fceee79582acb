ghost use Rattle.std.specs.Prelude.{◌≡◌, ◌+◌, ◌*◌, ◌/◌, ◌<◌, ◌≤◌, ◌^◌, OnOk, Some, length};
ghost use Rattle.gpt_descriptors.specs.Sizes.{region_bytes, table_words};
ghost use Rattle.gpt_descriptors.specs.Places.{Generation, blocks_in_region, line_place_of, place_of, word_count, table_part};
ghost use Rattle.report_text.specs.RunText.{held_line, tables_part_text, generations_text, lines_text, state_text};
ghost use Rattle.report_text.specs.RunParts.{changed_line, set_line, set_lines, word_lines, gigabyte_text, held_upto};
ghost use Rattle.report_text.specs.InnerAdding.{Adds};

use crate::answers::name_of_size;
use crate::level::Level;
use crate::tables::{push_runs, push_tables};
use alias_clean::is_resident;
use gpi_values::{Space, space_name};
use gpt_descriptors::{Geometry, REGION_BYTES, Size};
use std::alloc::AllocError;

/// The bits of the two lock words.
const LOCKS: u64 = 128;

/// The granules of a line word, each with four bits.
const GRANULES: u64 = 16;

/// Appends the line of a lock, where it is held.
fn push_lock(out: &mut String, words: &[u64], lock: u64) -> Result<(), AllocError>
    requires { lock / 64 < length words.now }
    ensures { OnOk result (Adds out.old (held_line words.now lock) out.new) }
{
    if (words[(lock / 64) as usize] >> (lock % 64)) % 2 == 1 {
        write!(out, "held {lock}\n")?;
    }
    Ok(())
}

/// Appends the lines of the locks that are held, among the first ones.
fn push_locks(out: &mut String, words: &[u64], locks: u64) -> Result<(), AllocError>
    requires { locks ≤ 64 * length words.now }
    ensures { OnOk result (Adds out.old (held_upto words.now locks) out.new) }
{
    for lock in 0..locks {
        push_lock(out, words, lock)?;
    }
    Ok(())
}

/// The words of the L1 tables, which stand before as many line words.
pub fn words_of_tables<'a>(geometry: &Geometry, words: &'a [u64]) -> &'a [u64]
    requires { length words.now ≡ word_count geometry.now }
    ensures value { result.now ≡ table_part geometry.now words.now }
    ensures length { length result.now ≡ geometry.now.l1_tables * table_words geometry.now.setup }
{
    let count = (geometry.l1_tables() * geometry.setup().table_words()) as usize;
    let start = words.len() - 2 * count;
    let from = &words[start..];
    &from[..count]
}

/// Appends the lines of the tables.
fn push_table_part(out: &mut String, geometry: &Geometry, words: &[u64]) -> Result<(), AllocError>
    requires { length words.now ≡ word_count geometry.now }
    ensures { OnOk result (Adds out.old (tables_part_text geometry.now words.now) out.new) }
{
    let size = geometry.setup().table_words() as usize;
    let tables = geometry.l1_tables() as usize;
    push_runs(out, Level::Zero, geometry.l0())?;
    push_tables(out, size, words_of_tables(geometry, words), tables)
}

/// The place of the first generation of this size, and how many there are.
pub fn generations_of(geometry: &Geometry, size: Size) -> (u64, u64)
    ensures start { result.0 ≡ place_of geometry.now (Generation size 0) }
    ensures count { result.1 ≡ blocks_in_region size * geometry.now.setup.gigabytes }
    ensures small { (result.0 ≤ 40000) × (result.1 ≤ 40000) }
{
    let gigabytes = geometry.setup().gigabytes();
    match size {
        Size::Two => (2, 512 * gigabytes),
        Size::ThirtyTwo => (2 + 512 * gigabytes, 32 * gigabytes),
        Size::FiveTwelve => (2 + 544 * gigabytes, 2 * gigabytes),
    }
}

/// Appends the line of a generation, where it isn't the first one.
fn push_generation(
    out: &mut String,
    size: Size,
    block: u64,
    value: u64,
    first: u64,
) -> Result<(), AllocError>
    ensures { OnOk result (Adds out.old (changed_line size block value first) out.new) }
{
    if value == first {
        return Ok(());
    }
    let size = name_of_size(size);
    write!(out, "gen {size} {block} {value}\n")
}

/// Appends the lines of the generations of this size that have changed.
fn push_generations(
    out: &mut String,
    geometry: &Geometry,
    words: &[u64],
    size: Size,
) -> Result<(), AllocError>
    requires { length words.now ≡ word_count geometry.now }
    ensures { OnOk result (Adds out.old (generations_text geometry.now words.now size) out.new) }
{
    let first = geometry.setup().first();
    let (start, count) = generations_of(geometry, size);
    for block in 0..count {
        let value = words[(start + block) as usize];
        push_generation(out, size, block, value, first)?;
    }
    Ok(())
}

/// Appends the line of a granule of a line word and a space, where it is resident.
fn push_line(
    out: &mut String,
    address: u64,
    word: u64,
    granule: u64,
    space: Space,
) -> Result<(), AllocError>
    requires { granule < 16 }
    ensures { OnOk result (Adds out.old (set_line address word granule space) out.new) }
{
    if is_resident(word, granule, space) {
        let space = space_name(space);
        write!(out, "line 0x{address:x} {space}\n")?;
    }
    Ok(())
}

/// Appends the resident lines of a granule of a line word, by space.
fn push_granule(out: &mut String, address: u64, word: u64, granule: u64) -> Result<(), AllocError>
    requires { granule < 16 }
    ensures { OnOk result (Adds out.old (set_lines address word granule) out.new) }
{
    push_line(out, address, word, granule, Space::Secure)?;
    push_line(out, address, word, granule, Space::NonSecure)?;
    push_line(out, address, word, granule, Space::Root)?;
    push_line(out, address, word, granule, Space::Realm)
}

/// Appends the resident lines of the first granules of a line word, the first of which has this
/// number.
fn push_granules(
    out: &mut String,
    bytes: u64,
    word: u64,
    first: u64,
    granules: u64,
) -> Result<(), AllocError>
    requires granules { granules ≤ 16 }
    requires space { first + granules < 2 ^ 40 }
    requires bytes { bytes ≤ 65536 }
    ensures { OnOk result (Adds out.old (word_lines bytes word first granules) out.new) }
{
    for k in 0..granules {
        push_granule(out, (first + k) * bytes, word, k)?;
    }
    Ok(())
}

/// Appends the resident lines of a line word, whose first granule has this number.
fn push_word(out: &mut String, bytes: u64, word: u64, first: u64) -> Result<(), AllocError>
    requires space { first + 16 < 2 ^ 40 }
    requires bytes { bytes ≤ 65536 }
    ensures { OnOk result (Adds out.old (word_lines bytes word first 16) out.new) }
{
    if word == 0 {
        return Ok(());
    }
    push_granules(out, bytes, word, first, GRANULES)
}

/// Appends the resident lines of a gigabyte with a table, whose line words stand from this place
/// on.
fn push_table_lines(
    out: &mut String,
    geometry: &Geometry,
    words: &[u64],
    gigabyte: u64,
    start: usize,
) -> Result<(), AllocError>
    requires words { length words.now ≡ word_count geometry.now }
    requires inside { gigabyte < geometry.now.setup.gigabytes }
    requires place { line_place_of geometry.now (gigabyte * region_bytes) ≡ Some start }
    ensures { OnOk result (Adds out.old (gigabyte_text geometry.now words.now gigabyte) out.new) }
{
    let setup = geometry.setup();
    let size = setup.table_words();
    let bytes = setup.granule_bytes();
    for k in 0..size {
        let word = words[start + k as usize];
        push_word(out, bytes, word, GRANULES * (gigabyte * size + k))?;
    }
    Ok(())
}

/// Appends the resident lines of a gigabyte, none where it has a block.
fn push_gigabyte(
    out: &mut String,
    geometry: &Geometry,
    words: &[u64],
    gigabyte: u64,
) -> Result<(), AllocError>
    requires words { length words.now ≡ word_count geometry.now }
    requires inside { gigabyte < geometry.now.setup.gigabytes }
    requires small { gigabyte < 64 }
    ensures { OnOk result (Adds out.old (gigabyte_text geometry.now words.now gigabyte) out.new) }
{
    match geometry.line_place(gigabyte * REGION_BYTES) {
        Some(start) => push_table_lines(out, geometry, words, gigabyte, start),
        None => Ok(()),
    }
}

/// Appends the resident lines, by granule and then by space.
fn push_lines(out: &mut String, geometry: &Geometry, words: &[u64]) -> Result<(), AllocError>
    requires { length words.now ≡ word_count geometry.now }
    ensures { OnOk result (Adds out.old (lines_text geometry.now words.now) out.new) }
{
    for gigabyte in 0..geometry.setup().gigabytes() {
        push_gigabyte(out, geometry, words, gigabyte)?;
    }
    Ok(())
}

/// Appends the state that the shared words show.
pub fn push_state(out: &mut String, geometry: &Geometry, words: &[u64]) -> Result<(), AllocError>
    requires { length words.now ≡ word_count geometry.now }
    ensures { OnOk result (Adds out.old (state_text geometry.now words.now) out.new) }
{
    push_locks(out, words, LOCKS)?;
    push_table_part(out, geometry, words)?;
    push_generations(out, geometry, words, Size::Two)?;
    push_generations(out, geometry, words, Size::ThirtyTwo)?;
    push_generations(out, geometry, words, Size::FiveTwelve)?;
    push_lines(out, geometry, words)
}
