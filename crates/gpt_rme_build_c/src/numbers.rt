ghost use Rattle.std.specs.Prelude.{◌≡◌, IfOk, map};
ghost use Rattle.std.specs.List.{list_all};
ghost use Rattle.gpt_rme_build_c.specs.Numbers.{max_with, in_range, setup_with, kind_as, gpi_as, is_region, region_as};

use gpi_values::gpi_of;
use gpt_descriptors::{Gpi, MOST_TABLES, MaxBlock, Setup, is_space_size};
use region_plan::{Kind, Region};
use std::alloc::{AllocError, Global};

/// What tables are built for, in numbers: `struct gpt_rme_setup`.
#[repr(C)]
#[derive(Clone, Copy, Debug)]
pub struct SetupNumbers {
    /// Gigabytes of the protected space, 4 or 64.
    pub gigabytes: u64,
    /// The largest contiguous size that is used, in MB: 0 for none, 2, 32 or 512.
    pub max: u64,
    /// L1 tables that there is memory for, at most 16.
    pub tables: u64,
    /// The byte address of the first L1 table.
    pub base: u64,
}

/// A region in numbers: `struct gpt_rme_region`.
#[repr(C)]
#[derive(Clone, Copy, Debug)]
pub struct RegionNumbers {
    /// Its first byte address.
    pub base: u64,
    /// Its bytes.
    pub size: u64,
    /// 0 for L0 blocks, 1 for granules.
    pub kind: u32,
    /// The value of its GPI.
    pub gpi: u32,
}

fn max_of(megabytes: u64) -> Option<MaxBlock>
    ensures { result ≡ max_with megabytes }
{
    match megabytes {
        0 => Some(MaxBlock::Zero),
        2 => Some(MaxBlock::Two),
        32 => Some(MaxBlock::ThirtyTwo),
        512 => Some(MaxBlock::FiveTwelve),
        _ => None,
    }
}

fn is_in_range(setup: &SetupNumbers) -> bool
    ensures { result ≡ in_range setup.now }
{
    is_space_size(setup.gigabytes) && setup.tables <= MOST_TABLES
}

/// The setup of these numbers.
pub fn setup_of(setup: &SetupNumbers) -> Option<Setup>
    ensures { result ≡ setup_with setup.now }
{
    if !is_in_range(setup) {
        return None;
    }
    let max = max_of(setup.max)?;
    Setup::new(setup.gigabytes, max, 0, 0, 1, setup.tables, setup.base)
}

fn kind_of(number: u32) -> Kind
    ensures { result ≡ kind_as number }
{
    if number == 0 {
        Kind::Block
    } else {
        Kind::Granule
    }
}

fn gpi_in(value: u32) -> Gpi
    ensures { result ≡ gpi_as value }
{
    match gpi_of(value as u64) {
        Some(gpi) => gpi,
        None => Gpi::Any,
    }
}

fn is_one(region: &RegionNumbers) -> bool
    ensures { result ≡ is_region region.now }
{
    region.kind <= 1 && gpi_of(region.gpi as u64).is_some()
}

fn region_of(region: &RegionNumbers) -> Region
    ensures { result ≡ region_as region.now }
{
    Region {
        base: region.base,
        size: region.size,
        kind: kind_of(region.kind),
        gpi: gpi_in(region.gpi),
    }
}

/// Whether all numbers of these regions stand for something.
pub fn are_regions(regions: &[RegionNumbers]) -> bool
    ensures { result ≡ list_all is_region regions.now }
{
    regions.iter().all(|region| is_one(region))
}

/// The regions of these numbers.
pub fn regions_of(alloc: Global, regions: &[RegionNumbers]) -> Result<Vec<Region>, AllocError>
    ensures { IfOk result (λ v. v.items ≡ map region_as regions.now) }
{
    regions
        .iter()
        .map(|region| region_of(region))
        .collect(alloc)
}
