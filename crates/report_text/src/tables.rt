ghost use Rattle.std.specs.Prelude.{◌≡◌, ℕ, ◌+◌, ◌*◌, ◌≤◌, ◌∷◌, IfOk, OnOk, length, drop, slice_index};
ghost use Rattle.report_text.specs.Runs.{run_of, runs_from, AreRunsMaximal};
ghost use Rattle.report_text.specs.TablesText.{run_line, runs_text, tables_text, report_of_tables};
ghost use Rattle.report_text.specs.InnerAdding.{Adds};

use crate::level::Level;
use gpt_descriptors::count_tables;
use std::alloc::{AllocError, Global};
use table_build::Tables;

/// Appends the line of a run.
fn push_run(
    out: &mut String,
    level: Level,
    first: u64,
    count: u64,
    word: u64,
) -> Result<(), AllocError>
    ensures { OnOk result (Adds out.old (run_line level (run_of first count word)) out.new) }
{
    match level {
        Level::Zero => write!(out, "l0 {first} {count} 0x{word:x}\n")?,
        Level::One(table) => write!(out, "l1 {table} {first} {count} 0x{word:x}\n")?,
    }
    Ok(())
}

/// How many words from the first one on are equal to it.
fn equal_words(words: &[u64]) -> usize
    requires { 1 ≤ length words.now }
    ensures low { 1 ≤ result }
    ensures high { result ≤ length words.now }
    ensures run { (first : ℕ) → runs_from first words.now
        ≡ run_of first result (slice_index words.now 0)
        ∷ runs_from (first + result) (drop result words.now) }
{
    let word = words[0];
    let mut count = 1;
    while count < words.len() {
        if words[count] != word {
            return count;
        }
        count += 1;
    }
    count
}

/// Appends the lines of the maximal runs of these words.
pub fn push_runs(out: &mut String, level: Level, words: &[u64]) -> Result<(), AllocError>
    ensures { OnOk result (Adds out.old (runs_text level words.now) out.new) }
{
    let mut at = 0;
    while at < words.len() {
        let count = equal_words(&words[at..]);
        push_run(out, level, at as u64, count as u64, words[at])?;
        at += count;
    }
    Ok(())
}

/// Appends the lines of `tables` level 1 tables of `size` words each.
pub fn push_tables(
    out: &mut String,
    size: usize,
    words: &[u64],
    tables: usize,
) -> Result<(), AllocError>
    requires { length words.now ≡ tables * size }
    ensures { OnOk result (Adds out.old (tables_text size words.now 0 tables) out.new) }
{
    for k in 0..tables {
        let table = &words[k * size..];
        push_runs(out, Level::One(k as u64), &table[..size])?;
    }
    Ok(())
}

/// The text of tables: the level 0 words and the words of each level 1 table, as maximal runs.
#[tactic(auto, using(crate::proofs::RunLemmas::runs_are_maximal), unfolding(crate::specs::TablesText::report_of_tables))]
pub fn tables_report(alloc: Global, tables: &Tables) -> Result<Vec<u8>, AllocError>
    ensures text { IfOk result (λ text. text.items ≡ report_of_tables tables.now) }
    ensures runs { AreRunsMaximal }
{
    let mut out = String::new(alloc);
    out.push_str("report 1 tables\n")?;
    push_runs(&mut out, Level::Zero, tables.l0())?;
    let size = tables.setup().table_words() as usize;
    push_tables(&mut out, size, tables.l1(), count_tables(tables.l0()))?;
    out.push_str("end\n")?;
    Ok(out.into_bytes())
}
