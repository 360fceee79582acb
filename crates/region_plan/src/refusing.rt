ghost use Rattle.std.specs.Prelude.{◌≡◌, ℕ, ◌+◌, ◌*◌, ◌/◌, ◌<◌, ◌≤◌, ◌^◌, IfSome, IfNone, Some, position, length, ◌&&◌, false, slice_index_or};
ghost use Rattle.std.specs.List.{list_any};
ghost use Rattle.gpt_descriptors.specs.Sizes.{granule_bytes};
ghost use Rattle.region_plan.specs.Regions.{is_granule_kind, touches, needs_table, tables_needed, tables_below, first_granule, granule_count};
ghost use Rattle.region_plan.specs.Refusals.{is_unaligned, is_outside, is_no_block, do_share, first_overlap, ArePlaced, refusal};

use crate::region::{Kind, Region};
use gpt_descriptors::{REGION_BYTES, Setup};
use std::alloc::AllocError;

/// The most regions of a list.
const REGION_LIMIT: usize = 256;

/// Why a list of regions is refused: the first rule that fails, at its least index, counted from 0.
#[derive(Clone, Copy, Debug, PartialEq, Eq)]
pub enum PlanError {
    /// There is no region.
    Empty,
    /// There are more than 256 regions.
    TooMany,
    /// Base or size isn't a multiple of the granule, or the size is 0.
    Unaligned(u32),
    /// The region ends above the protected space.
    Outside(u32),
    /// The kind is `Block`, and base or size isn't a multiple of 1 GB.
    NotBlock(u32),
    /// These two regions share a granule.
    Overlap(u32, u32),
    /// So many 1 GB regions need an L1 table, more than the setup has.
    NoTables(u64),
    /// Memory ran out.
    Memory,
}

impl From<AllocError> for PlanError {
    ghost use Rattle.std.specs.Prelude.{◌≡◌};
    ghost use Rattle.region_plan.specs.declared.refusing.PlanError.TheVariants.{Memory};

    ghost from_gives = { λ _ e. e ≡ Memory };

    fn from(_error: AllocError) -> PlanError {
        PlanError::Memory
    }
}

fn unaligned(setup: &Setup, region: &Region) -> bool
    ensures { result ≡ is_unaligned setup.now region.now }
{
    let granule = setup.granule_bytes();
    region.base % granule != 0 || region.size % granule != 0 || region.size == 0
}

fn first_unaligned(setup: &Setup, regions: &[Region]) -> Option<usize>
    ensures first { result ≡ position (is_unaligned setup.now) regions.now }
    ensures bound { IfSome result (λ i. i < length regions.now) }
{
    regions.iter().position(|region| unaligned(setup, region))
}

fn outside(setup: &Setup, region: &Region) -> bool
    ensures { result ≡ is_outside setup.now region.now }
{
    let space = setup.gigabytes() * REGION_BYTES;
    region.base > space || region.size > space - region.base
}

fn first_outside(setup: &Setup, regions: &[Region]) -> Option<usize>
    ensures first { result ≡ position (is_outside setup.now) regions.now }
    ensures bound { IfSome result (λ i. i < length regions.now) }
{
    regions.iter().position(|region| outside(setup, region))
}

fn is_granule(kind: Kind) -> bool
    ensures { result ≡ is_granule_kind kind }
{
    match kind {
        Kind::Granule => true,
        Kind::Block => false,
    }
}

fn no_block(region: &Region) -> bool
    ensures { result ≡ is_no_block region.now }
{
    !is_granule(region.kind) && (region.base % REGION_BYTES != 0 || region.size % REGION_BYTES != 0)
}

fn first_no_block(regions: &[Region]) -> Option<usize>
    ensures first { result ≡ position is_no_block regions.now }
    ensures bound { IfSome result (λ i. i < length regions.now) }
{
    regions.iter().position(|region| no_block(region))
}

fn share(setup: &Setup, a: &Region, b: &Region) -> bool
    ensures { result ≡ do_share setup.now a.now b.now }
{
    let granule = setup.granule_bytes();
    let (a_first, a_count) = (a.base / granule, a.size / granule);
    let (b_first, b_count) = (b.base / granule, b.size / granule);
    a_first < b_first + b_count && b_first < a_first + a_count
}

fn first_sharing(setup: &Setup, region: &Region, others: &[Region]) -> Option<usize>
    ensures first { result ≡ position (do_share setup.now region.now) others.now }
    ensures bound { IfSome result (λ i. i < length others.now) }
{
    others.iter().position(|other| share(setup, region, other))
}

/// The first two regions that share a granule: the least index, then the least index after it.
pub fn overlap(setup: &Setup, regions: &[Region]) -> Option<(u32, u32)>
    requires { length regions.now ≤ REGION_LIMIT }
    ensures { result ≡ first_overlap setup.now 0 regions.now }
{
    for i in 0..regions.len() {
        match first_sharing(setup, &regions[i], &regions[i + 1..]) {
            Some(k) => return Some((i as u32, (i + 1 + k) as u32)),
            None => {}
        }
    }
    None
}

/// Whether the region has bytes of gigabyte `q`.
pub fn is_touched(q: u64, region: &Region) -> bool
    requires { q < 64 }
    ensures { result ≡ touches q region.now }
{
    let start = q * REGION_BYTES;
    region.base < start + REGION_BYTES && (start < region.base || start - region.base < region.size)
}

fn is_tabled(q: u64, region: &Region) -> bool
    requires { q < 64 }
    ensures { result ≡ (is_granule_kind region.now.kind && touches q region.now) }
{
    is_granule(region.kind) && is_touched(q, region)
}

/// Whether gigabyte `q` needs an L1 table.
pub fn is_table_needed(regions: &[Region], q: u64) -> bool
    requires { q < 64 }
    ensures { result ≡ needs_table regions.now q }
{
    regions.iter().any(|region| is_tabled(q, region))
}

/// Whether each gigabyte needs an L1 table.
pub fn tabled_gigabytes(regions: &[Region]) -> [bool; 64]
    ensures { (q : ℕ) → q < 64 → slice_index_or result q false ≡ needs_table regions.now q }
{
    let mut tabled = [false; 64];
    for q in 0..64 {
        tabled[q] = is_table_needed(regions, q as u64);
    }
    tabled
}

/// How many gigabytes of the protected space need an L1 table, of those that do.
#[tactic(auto, using(crate::proofs::PlanLemmas::table_steps))]
pub fn count_tables(setup: &Setup, regions: &[Region], tabled: &[bool; 64]) -> u64
    requires { (q : ℕ) → q < 64 → slice_index_or tabled.now q false ≡ needs_table regions.now q }
    ensures count { result ≡ tables_needed setup.now regions.now }
    ensures bound { result ≤ 64 }
{
    let mut need = 0;
    for q in 0..setup.gigabytes() {
        if tabled[q as usize] {
            need += 1;
        }
    }
    need
}

/// The first rule before that on overlaps that refuses these regions, if one does.
#[tactic(auto, unfolding(crate::specs::Refusals::refusal))]
pub fn first_misplaced(setup: &Setup, regions: &[Region]) -> Option<PlanError>
    ensures refused { IfSome result (λ e. refusal setup.now regions.now ≡ Some e) }
    ensures placed { IfNone result (ArePlaced setup.now regions.now) }
{
    if regions.is_empty() {
        return Some(PlanError::Empty);
    }
    if regions.len() > REGION_LIMIT {
        return Some(PlanError::TooMany);
    }
    if let Some(i) = first_unaligned(setup, regions) {
        return Some(PlanError::Unaligned(i as u32));
    }
    if let Some(i) = first_outside(setup, regions) {
        return Some(PlanError::Outside(i as u32));
    }
    if let Some(i) = first_no_block(regions) {
        return Some(PlanError::NotBlock(i as u32));
    }
    None
}
