ghost use Rattle.std.specs.Prelude.{◌≡◌, ◌+◌, ◌*◌, ◌<◌, ◌≤◌, ◌^◌, ◌++◌, IfOk, IfErr, OnOk, false, if◌then◌else◌};
ghost use Rattle.gpt_descriptors.specs.Sizes.{table_bytes};
ghost use Rattle.gpt_descriptors.specs.Entries.{l0_word};
ghost use Rattle.region_plan.specs.Regions.{region_l0, region_entry, needs_table, tables_below};
ghost use Rattle.table_build.specs.Built.{region_l1, tables_of, is_bad_base};
ghost use Rattle.table_build.specs.InnerBlocks.{needed_words, IsAtTable};
ghost use Rattle.table_build.specs.Outcome.{IsBadBase};

use crate::blocks::push_table;
use crate::cursor::Cursor;
use crate::tables::Tables;
use gpt_descriptors::{L0Entry, encode_l0};
use region_plan::{Plan, Setup};
use std::alloc::{AllocError, Global};

/// Why tables can't be built.
#[derive(Clone, Copy, Debug, PartialEq, Eq)]
pub enum BuildError {
    /// This base isn't a multiple of a table's bytes, or the last table ends above 2^52.
    BadBase(u64),
    /// Memory ran out.
    Memory,
}

impl From<AllocError> for BuildError {
    ghost use Rattle.std.specs.Prelude.{◌≡◌};
    ghost use Rattle.table_build.specs.declared.building.BuildError.TheVariants.{Memory};

    ghost from_gives = { λ _ e. e ≡ Memory };

    fn from(_error: AllocError) -> BuildError {
        BuildError::Memory
    }
}

/// Whether the tables can't stand at this base.
#[tactic(auto, unfolding(crate::specs::Built::is_bad_base))]
fn bad_base(plan: &Plan, base: u64) -> bool
    requires { base ≡ plan.now.setup.base }
    ensures { result ≡ is_bad_base plan.now.setup plan.now.regions }
{
    let bytes = 8 * plan.setup().table_words();
    let top = (1 << 52) - plan.need() * bytes;
    base % bytes != 0 || base > top
}

/// The address of the table after `k` others.
fn table_address(setup: &Setup, before: u64) -> u64
    requires { setup.now.base + before * table_bytes setup.now ≤ 2 ^ 52 }
    ensures { result ≡ setup.now.base + before * table_bytes setup.now }
{
    setup.base() + before * (8 * setup.table_words())
}

/// The level 0 word of gigabyte `q`, below which this number of gigabytes need a table.
fn entry_word(plan: &Plan, q: u64, before: u64) -> u64
    requires good { is_bad_base plan.now.setup plan.now.regions ≡ false }
    requires range { q < plan.now.setup.gigabytes }
    requires low { q < 64 }
    requires before { before ≡ tables_below plan.now.regions q }
    ensures { result ≡ l0_word (region_entry plan.now.setup plan.now.regions q) }
{
    if plan.needs_table(q) {
        encode_l0(L0Entry::Table(table_address(plan.setup(), before)))
    } else {
        encode_l0(L0Entry::Block(plan.block_gpi(q)))
    }
}

/// One where gigabyte `q` needs a table, else none.
fn tables_at(plan: &Plan, q: u64) -> u64
    requires { q < 64 }
    ensures count { result ≡ (if needs_table plan.now.regions q then 1 else 0) }
    ensures bound { result ≤ 1 }
{
    if plan.needs_table(q) { 1 } else { 0 }
}

/// The level 0 words.
fn level0(alloc: Global, plan: &Plan) -> Result<Vec<u64>, AllocError>
    requires { is_bad_base plan.now.setup plan.now.regions ≡ false }
    ensures { IfOk result (λ v. v.items ≡ region_l0 plan.now.setup plan.now.regions) }
{
    let mut words = Vec::with_capacity(alloc, plan.setup().gigabytes() as usize)?;
    let mut before = 0;
    for q in 0..plan.setup().gigabytes() {
        words.push(entry_word(plan, q, before))?;
        before += tables_at(plan, q);
    }
    Ok(words)
}

/// Appends the table of gigabyte `q` where it needs one.
fn push_needed(
    words: &mut Vec<u64>,
    cursor: &mut Cursor<'_>,
    plan: &Plan,
    q: u64,
) -> Result<(), AllocError>
    requires range { q < 64 }
    requires inside { q < plan.now.setup.gigabytes }
    requires at { IsAtTable plan.now q cursor.old }
    ensures words { OnOk result (words.new.items ≡ words.old.items ++ needed_words plan.now q) }
    ensures at { OnOk result (IsAtTable plan.now (q + 1) cursor.new) }
{
    if plan.needs_table(q) {
        push_table(words, cursor, plan, q)
    } else {
        Ok(())
    }
}

/// The level 1 words of all tables.
fn level1(alloc: Global, plan: &Plan) -> Result<Vec<u64>, AllocError>
    ensures { IfOk result (λ v. v.items ≡ region_l1 plan.now.setup plan.now.regions) }
{
    let room = plan.need() * plan.setup().table_words();
    let mut words = Vec::with_capacity(alloc, room as usize)?;
    let mut cursor = Cursor::new(plan.map());
    for q in 0..plan.setup().gigabytes() {
        push_needed(&mut words, &mut cursor, plan, q)?;
    }
    Ok(words)
}

/// The canonical tables of the plan's region map, whose level 1 tables stand one after another from
/// `l1_base` on, which is the setup's base, a byte address.
pub fn build(alloc: Global, plan: &Plan, l1_base: u64) -> Result<Tables, BuildError>
    requires { l1_base ≡ plan.now.setup.base }
    ensures built { IfOk result (λ tables. tables ≡ tables_of plan.now.setup plan.now.regions) }
    ensures good { OnOk result (is_bad_base plan.now.setup plan.now.regions ≡ false) }
    ensures bad { IfErr result
        (λ e. IsBadBase e l1_base (is_bad_base plan.now.setup plan.now.regions)) }
{
    if bad_base(plan, l1_base) {
        return Err(BuildError::BadBase(l1_base));
    }
    let l0 = level0(alloc, plan)?;
    let l1 = level1(alloc, plan)?;
    Ok(Tables::new(*plan.setup(), l0, l1))
}
