ghost use Rattle.std.specs.Prelude.{◌≡◌, ℕ, ◌+◌, ◌-◌, ◌*◌, ◌/◌, ◌<◌, ◌≤◌, ◌^◌, None, IfSome, is_some};
ghost use Rattle.std.specs.List.{find};
ghost use Rattle.gpt_descriptors.specs.Sizes.{words_of};
ghost use Rattle.gpt_descriptors.specs.Entries.{packed};
ghost use Rattle.gpt_descriptors.specs.Canonical.{one_gpi, is_one_block, canonical_word};
ghost use Rattle.region_plan.specs.Regions.{is_in, gpi_or_any, region_map};

use gpi_values::nibble;
use gpt_descriptors::{Gpi, L1Entry, Setup, Size, encode_l1};
use region_plan::Region;

fn holds(setup: &Setup, granule: u64, region: &Region) -> bool
    ensures { result ≡ is_in setup.now granule region.now }
{
    let bytes = setup.granule_bytes();
    let first = region.base / bytes;
    first <= granule && granule < first + region.size / bytes
}

fn region_of(setup: &Setup, regions: &[Region], granule: u64) -> Option<Region>
    ensures { result ≡ find (is_in setup.now granule) regions.now }
{
    regions
        .iter()
        .copied()
        .find(|region| holds(setup, granule, region))
}

fn gpi_of_region(region: Option<Region>) -> Gpi
    ensures { result ≡ gpi_or_any region }
{
    match region {
        Some(region) => region.gpi,
        None => Gpi::Any,
    }
}

/// The GPI of a granule in the region map, asked of each region.
#[tactic(auto, unfolding(region_plan::specs::Regions::region_map))]
pub fn granule_gpi(setup: &Setup, regions: &[Region], granule: u64) -> Gpi
    ensures { result ≡ region_map setup.now regions.now granule }
{
    gpi_of_region(region_of(setup, regions, granule))
}

/// The first granule after this one at which the region begins or ends, at most `next`.
fn next_edge(setup: &Setup, region: &Region, granule: u64, next: u64) -> u64
    requires { granule < next }
    ensures ahead { granule < result }
    ensures bound { result ≤ next }
    ensures same { (k : ℕ) → granule ≤ k → k < result
        → is_in setup.now k region.now ≡ is_in setup.now granule region.now }
{
    let bytes = setup.granule_bytes();
    let first = region.base / bytes;
    let after = first + region.size / bytes;
    if granule < first {
        next.min(first)
    } else if granule < after {
        next.min(after)
    } else {
        next
    }
}

/// Where the run of granules that starts with this one ends: at the next granule at which a region
/// begins or ends, at most at `end`.
fn run_end(setup: &Setup, regions: &[Region], granule: u64, end: u64) -> u64
    requires { granule < end }
    ensures ahead { granule < result }
    ensures bound { result ≤ end }
    ensures same { (k : ℕ) → granule ≤ k → k < result
        → region_map setup.now regions.now k ≡ region_map setup.now regions.now granule }
{
    let mut next = end;
    for region in regions {
        next = next_edge(setup, region, granule, next);
    }
    next
}

/// The one GPI of the granules from `first` up to `end`.
fn common_gpi(setup: &Setup, regions: &[Region], first: u64, end: u64) -> Option<Gpi>
    requires { first ≤ end }
    ensures one { IfSome result (λ gpi. gpi ≡ region_map setup.now regions.now first) }
    ensures exact { is_some result
        ≡ one_gpi (region_map setup.now regions.now) first (end - first) }
{
    let gpi = granule_gpi(setup, regions, first);
    let mut at = first;
    while at < end {
        if nibble(granule_gpi(setup, regions, at)) != nibble(gpi) {
            return None;
        }
        at = run_end(setup, regions, at, end);
    }
    Some(gpi)
}

/// Whether the block of this size around word `w` may be one entry.
#[tactic(auto, unfolding(gpt_descriptors::specs::Canonical::is_one_block))]
fn is_block(setup: &Setup, regions: &[Region], size: Size, w: u64) -> bool
    requires { w < 2 ^ 40 }
    ensures { result
        ≡ is_one_block setup.now (region_map setup.now regions.now) size
        (w / words_of setup.now size) }
{
    let words = setup.words_of(size);
    let first = 16 * (w / words * words);
    setup.max().permits(size) && common_gpi(setup, regions, first, first + 16 * words).is_some()
}

/// The granules word of word number `w`: the GPIs of its sixteen granules, the first one lowest.
fn granules_word(setup: &Setup, regions: &[Region], w: u64) -> u64
    requires { w < 2 ^ 40 }
    ensures { result ≡ packed (region_map setup.now regions.now) (16 * w) 16 }
{
    let mut word = 0u64;
    for step in 0..16 {
        word = 16 * word + nibble(granule_gpi(setup, regions, 16 * w + (15 - step)));
    }
    word
}

/// The canonical word of the region map at word number `w`, asked by itself.
#[tactic(auto, using(crate::proofs::PlainLemmas::choices))]
pub fn plain_word(setup: &Setup, regions: &[Region], w: u64) -> u64
    requires { w < 2 ^ 40 }
    ensures { result ≡ canonical_word setup.now (region_map setup.now regions.now) None w }
{
    let gpi = granule_gpi(setup, regions, 16 * w);
    if is_block(setup, regions, Size::FiveTwelve, w) {
        encode_l1(L1Entry::Contig(Size::FiveTwelve, gpi))
    } else if is_block(setup, regions, Size::ThirtyTwo, w) {
        encode_l1(L1Entry::Contig(Size::ThirtyTwo, gpi))
    } else if is_block(setup, regions, Size::Two, w) {
        encode_l1(L1Entry::Contig(Size::Two, gpi))
    } else {
        granules_word(setup, regions, w)
    }
}
