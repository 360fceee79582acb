ghost use Rattle.std.specs.Prelude.{◌≡◌, IfSome};
ghost use Rattle.gpi_values.specs.Values.{value_of, gpi_with};
ghost use Rattle.gpt_descriptors.specs.Entries.{IsL0, IsL1, l0_entry, l1_entry, l0_word, l1_word};
ghost use Rattle.gpt_rme_c.specs.Codes.{done_or, written, bad_data, bad_word};
ghost use Rattle.gpt_rme_c.specs.Descriptors.{l0_parts, l0_with, l1_parts, l1_with, granules_in, contig_with};
ghost use Rattle.gpt_rme_c.specs.Descriptors.{gpi_code, gpi_found, field_code, field_written};
ghost use Rattle.gpt_rme_c.specs.Descriptors.{space_with, permission};

use crate::codes::{BAD_DATA, BAD_WORD, DONE};
use crate::numbers::{contig_of, size_of, space_of};
use gpi_values::{gpi_of, nibble, permits};
use gpt_descriptors::{
    L0Entry, L1Entry, decode_l0, decode_l1, encode_l0, encode_l1, gpi_at, is_granules, with_field,
};

/// A level 0 entry in numbers: `struct gpt_rme_l0`.
#[repr(C)]
#[derive(Clone, Copy, Debug, PartialEq, Eq)]
pub struct L0Parts {
    /// 0 for a block, 1 for a table.
    pub table: u32,
    /// The value of a block's GPI; 0 for a table.
    pub gpi: u32,
    /// The byte address of the L1 table, a multiple of 4,096 below 2^52; 0 for a block.
    pub address: u64,
}

/// A level 1 entry in numbers: `struct gpt_rme_l1`.
#[repr(C)]
#[derive(Clone, Copy, Debug, PartialEq, Eq)]
pub struct L1Parts {
    /// 0 for granules, else the field Contig: 1 for 2 MB, 2 for 32 MB, 3 for 512 MB.
    pub contig: u32,
    /// The value of a contiguous block's GPI; 0 for granules.
    pub gpi: u32,
    /// The sixteen GPIs of granules, the first one in bits 3:0; 0 for a contiguous block.
    pub fields: u64,
}

fn parts_of_l0(entry: L0Entry) -> L0Parts
    ensures { result ≡ l0_parts entry }
{
    match entry {
        L0Entry::Block(gpi) => L0Parts {
            table: 0,
            gpi: nibble(gpi) as u32,
            address: 0,
        },
        L0Entry::Table(address) => L0Parts {
            table: 1,
            gpi: 0,
            address,
        },
    }
}

fn l0_of(parts: &L0Parts) -> Option<L0Entry>
    ensures exact { result ≡ l0_with parts.now }
    ensures entry { IfSome result IsL0 }
{
    match parts.table {
        0 if parts.address == 0 => match gpi_of(parts.gpi as u64) {
            Some(gpi) => Some(L0Entry::Block(gpi)),
            None => None,
        },
        1 if parts.gpi == 0 && parts.address % 4096 == 0 && parts.address < 1 << 52 => {
            Some(L0Entry::Table(parts.address))
        }
        _ => None,
    }
}

fn parts_of_l1(entry: L1Entry) -> L1Parts
    ensures { result ≡ l1_parts entry }
{
    match entry {
        L1Entry::Granules(fields) => L1Parts {
            contig: 0,
            gpi: 0,
            fields,
        },
        L1Entry::Contig(size, gpi) => L1Parts {
            contig: contig_of(size),
            gpi: nibble(gpi) as u32,
            fields: 0,
        },
    }
}

/// The entry of a word, where it is one of granules.
fn granules(word: u64) -> Option<L1Entry>
    ensures exact { result ≡ granules_in (l1_entry word) }
    ensures entry { IfSome result IsL1 }
{
    match decode_l1(word) {
        Some(L1Entry::Granules(fields)) => Some(L1Entry::Granules(fields)),
        Some(L1Entry::Contig(..)) | None => None,
    }
}

fn contiguous(parts: &L1Parts) -> Option<L1Entry>
    ensures exact { result ≡ contig_with parts.now }
    ensures entry { IfSome result IsL1 }
{
    let gpi = gpi_of(parts.gpi as u64)?;
    let size = size_of(parts.contig)?;
    Some(L1Entry::Contig(size, gpi))
}

fn l1_of(parts: &L1Parts) -> Option<L1Entry>
    ensures exact { result ≡ l1_with parts.now }
    ensures entry { IfSome result IsL1 }
{
    if parts.contig == 0 {
        if parts.gpi == 0 {
            granules(parts.fields)
        } else {
            None
        }
    } else if parts.fields == 0 {
        contiguous(parts)
    } else {
        None
    }
}

/// Decodes a level 0 descriptor (DDI 0487, GPT level 0 descriptors). `DONE` exactly where the word
/// is one, else `BAD_WORD`.
#[unsafe(no_mangle)]
pub extern "C" fn gpt_rme_l0_decode(word: u64, out: &mut L0Parts) -> i32
    ensures code { result ≡ done_or bad_word (l0_entry word) }
    ensures out { out.new ≡ written l0_parts out.old (l0_entry word) }
{
    match decode_l0(word) {
        Some(entry) => {
            *out = parts_of_l0(entry);
            DONE
        }
        None => BAD_WORD,
    }
}

/// Encodes a level 0 entry. `DONE` exactly where the numbers are those of one, else `BAD_DATA`.
#[unsafe(no_mangle)]
pub extern "C" fn gpt_rme_l0_encode(parts: &L0Parts, word: &mut u64) -> i32
    ensures code { result ≡ done_or bad_data (l0_with parts.now) }
    ensures word { word.new ≡ written l0_word word.old (l0_with parts.now) }
{
    match l0_of(parts) {
        Some(entry) => {
            *word = encode_l0(entry);
            DONE
        }
        None => BAD_DATA,
    }
}

/// Decodes a level 1 descriptor (DDI 0487, GPT level 1 descriptors). `DONE` exactly where the word
/// is one, else `BAD_WORD`.
#[unsafe(no_mangle)]
pub extern "C" fn gpt_rme_l1_decode(word: u64, out: &mut L1Parts) -> i32
    ensures code { result ≡ done_or bad_word (l1_entry word) }
    ensures out { out.new ≡ written l1_parts out.old (l1_entry word) }
{
    match decode_l1(word) {
        Some(entry) => {
            *out = parts_of_l1(entry);
            DONE
        }
        None => BAD_WORD,
    }
}

/// Encodes a level 1 entry. `DONE` exactly where the numbers are those of one, else `BAD_DATA`.
#[unsafe(no_mangle)]
pub extern "C" fn gpt_rme_l1_encode(parts: &L1Parts, word: &mut u64) -> i32
    ensures code { result ≡ done_or bad_data (l1_with parts.now) }
    ensures word { word.new ≡ written l1_word word.old (l1_with parts.now) }
{
    match l1_of(parts) {
        Some(entry) => {
            *word = encode_l1(entry);
            DONE
        }
        None => BAD_DATA,
    }
}

/// The value of the GPI that a level 1 word gives the granule at this place, 0 to 15. `BAD_DATA`
/// exactly where the place is another, else `BAD_WORD` exactly where the word is no descriptor.
#[unsafe(no_mangle)]
pub extern "C" fn gpt_rme_l1_gpi_at(word: u64, place: u32, gpi: &mut u32) -> i32
    ensures code { result ≡ gpi_code word place }
    ensures gpi { gpi.new ≡ written value_of gpi.old (gpi_found word place) }
{
    if place >= 16 {
        return BAD_DATA;
    }
    match gpi_at(word, place as u64) {
        Some(found) => {
            *gpi = nibble(found) as u32;
            DONE
        }
        None => BAD_WORD,
    }
}

/// A granules word with the GPI of one granule, at a place from 0 to 15, replaced. `BAD_DATA`
/// exactly where the place is another or the value is no GPI's, else `BAD_WORD` exactly where the
/// word isn't a granules descriptor.
#[unsafe(no_mangle)]
pub extern "C" fn gpt_rme_l1_with_field(word: u64, place: u32, gpi: u32, out: &mut u64) -> i32
    ensures code { result ≡ field_code word place (gpi_with gpi) }
    ensures out { out.new ≡ field_written out.old word place (gpi_with gpi) }
{
    let Some(gpi) = gpi_of(gpi as u64) else {
        return BAD_DATA;
    };
    if place >= 16 {
        return BAD_DATA;
    }
    match decode_l1(word) {
        Some(L1Entry::Granules(fields)) => {
            *out = with_field(fields, place as u64, nibble(gpi));
            DONE
        }
        Some(L1Entry::Contig(..)) | None => BAD_WORD,
    }
}

/// Whether a granule with this GPI may be accessed in this space (DDI 0487, granule protection
/// checks): 1 where it may, 0 where it may not. `BAD_DATA` exactly where a number is none of a GPI
/// or a space.
#[unsafe(no_mangle)]
pub extern "C" fn gpt_rme_permits(gpi: u32, space: u32) -> i32
    ensures { result ≡ permission (gpi_with gpi) (space_with space) }
{
    match (gpi_of(gpi as u64), space_of(space)) {
        (Some(gpi), Some(space)) => { if permits(gpi, space) { 1 } else { 0 } }
        _ => BAD_DATA,
    }
}
