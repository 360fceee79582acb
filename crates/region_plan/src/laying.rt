ghost use Rattle.std.specs.Prelude.{◌≡◌, ℕ, ◌+◌, ◌<◌, ◌≤◌, Bool, false, IfOk, IfErr, OnOk, IfSome, OnSome, Some, None, IsPermutation};
ghost use Rattle.gpt_descriptors.specs.Sizes.{space_granules};
ghost use Rattle.region_plan.specs.Regions.{region_gpis, first_granule, granule_count};
ghost use Rattle.region_plan.specs.Refusals.{is_outside, first_overlap, ArePlaced};

use crate::refusing::overlap;
use crate::region::Region;
use crate::run_map::{RunMap, add_granules};
use gpt_descriptors::{Gpi, Setup};
use std::alloc::{AllocError, Global};

/// How many granules the protected space has.
fn space_granules(setup: &Setup) -> u64
    ensures value { result ≡ space_granules setup.now }
    ensures range { result ≤ 16777216 }
{
    16 * (setup.gigabytes() * setup.table_words())
}

/// The first granule of a region, and the one after its last.
fn granules_of(setup: &Setup, region: &Region) -> (u64, u64)
    requires { is_outside setup.now region.now ≡ false }
    ensures first { result.0 ≡ first_granule setup.now region.now }
    ensures end { result.1
        ≡ first_granule setup.now region.now + granule_count setup.now region.now }
    ensures low { result.0 ≤ result.1 }
    ensures high { result.1 ≤ space_granules setup.now }
{
    let bytes = setup.granule_bytes();
    let first = region.base / bytes;
    (first, first + region.size / bytes)
}

/// The regions in the order of their bases.
fn sorted(alloc: Global, regions: &[Region]) -> Result<Vec<Region>, AllocError>
    ensures { IfOk result (λ v. IsPermutation regions.now v.items) }
{
    let mut sorted = Vec::from_slice(alloc, regions)?;
    sorted.sort_unstable_by_key(|region| region.base);
    Ok(sorted)
}

/// The region map as runs, where no two regions share a granule.
fn lay(alloc: Global, setup: &Setup, regions: &[Region]) -> Result<Option<RunMap>, AllocError>
    requires { ArePlaced setup.now regions.now }
    ensures apart { IfOk result
        (λ found. OnSome found (first_overlap setup.now 0 regions.now ≡ None)) }
    ensures map { IfOk result (λ found. IfSome found (λ m. m ≡ region_gpis setup.now regions.now)) }
{
    let size = space_granules(setup);
    let sorted = sorted(alloc, regions)?;
    let mut runs = Vec::with_capacity(alloc, 2 * regions.len() + 1)?;
    let mut at = 0;
    for region in &sorted {
        let (first, end) = granules_of(setup, region);
        if first < at {
            return Ok(None);
        }
        add_granules(&mut runs, at, first, Gpi::Any)?;
        add_granules(&mut runs, first, end, region.gpi)?;
        at = end;
    }
    add_granules(&mut runs, at, size, Gpi::Any)?;
    Ok(Some(RunMap::of_runs(size, runs)))
}

/// The region map as runs, `None` where memory ran out, or the first two regions that share a
/// granule.
pub fn laid_map(
    alloc: Global,
    setup: &Setup,
    regions: &[Region],
) -> Result<Option<RunMap>, (u32, u32)>
    requires { ArePlaced setup.now regions.now }
    ensures apart { OnOk result (first_overlap setup.now 0 regions.now ≡ None) }
    ensures map { IfOk result (λ found. IfSome found (λ m. m ≡ region_gpis setup.now regions.now)) }
    ensures shared { IfErr result (λ pair. first_overlap setup.now 0 regions.now ≡ Some pair) }
{
    if let Ok(Some(map)) = lay(alloc, setup, regions) {
        return Ok(Some(map));
    }
    match overlap(setup, regions) {
        Some(pair) => Err(pair),
        None => Ok(None),
    }
}
