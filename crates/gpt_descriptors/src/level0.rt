ghost use Rattle.std.specs.Prelude.{◌≡◌, ◌≤◌};
ghost use Rattle.gpt_descriptors.specs.Level0.{is_l0_good, is_entry_good, is_table, table_count};
ghost use Rattle.gpt_descriptors.specs.Entries.{l0_entry};

use crate::entry::{L0Entry, decode_l0};
use crate::setting::Setup;

/// Whether this L0 word may follow `k` table entries.
fn entry_good(setup: &Setup, k: u64, word: u64) -> bool
    requires { k ≤ 64 }
    ensures { result ≡ is_entry_good setup.now k (l0_entry word) }
{
    match decode_l0(word) {
        None => false,
        Some(L0Entry::Block(_)) => true,
        Some(L0Entry::Table(address)) => table_good(setup, k, address),
    }
}

/// Whether a table at this address may be the one after `k` others.
fn table_good(setup: &Setup, k: u64, address: u64) -> bool
    requires { k ≤ 64 }
    ensures { result ≡ is_entry_good setup.now k (Some (L0Entry.Table address)) }
{
    let bytes = 8 * setup.table_words();
    if k >= setup.tables() || address % bytes != 0 || address > (1 << 52) - bytes {
        return false;
    }
    let before = k * bytes;
    before <= address && address - before == setup.base()
}

/// Whether this word is the descriptor of an L1 table.
pub fn is_table_word(word: u64) -> bool
    ensures { result ≡ is_table word }
{
    matches!(decode_l0(word), Some(L0Entry::Table(_)))
}

/// The number of tables among these L0 words.
pub fn count_tables(l0: &[u64]) -> usize
    ensures { result ≡ table_count l0.now }
{
    l0.iter().filter(|word| is_table_word(**word)).count()
}

/// Whether these are the L0 words of a protected space with this setup: there are `gigabytes` of
/// them, each is a descriptor, the k-th table entry counted from 0 names the k-th table from the
/// base, there are at most `tables` of them, and each table is aligned to its size and ends at or
/// below 2^52.
pub fn l0_good(setup: &Setup, l0: &[u64]) -> bool
    ensures { result ≡ is_l0_good setup.now l0.now }
{
    if l0.len() as u64 != setup.gigabytes() {
        return false;
    }
    let mut tables = 0;
    for &word in l0 {
        if !entry_good(setup, tables, word) {
            return false;
        }
        if is_table_word(word) {
            tables += 1;
        }
    }
    true
}
