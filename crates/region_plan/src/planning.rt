ghost use Rattle.std.specs.Prelude.{◌≡◌, ◌/◌, ◌<◌, ◌≤◌, IfOk, IfErr, OnOk, None, Some, ◌⊎◌};
ghost use Rattle.std.specs.List.{find};
ghost use Rattle.gpt_descriptors.specs.Sizes.{granule_bytes, space_bytes};
ghost use Rattle.region_plan.specs.Regions.{gpi_or_any, region_gpis, region_map, needs_table, tables_needed, touches};
ghost use Rattle.region_plan.specs.Refusals.{refusal};
ghost use Rattle.region_plan.specs.Outcome.{IsRefusal};

use crate::laying::laid_map;
use crate::refusing::{PlanError, count_tables, first_misplaced, is_touched, tabled_gigabytes};
use crate::region::Region;
use crate::run_map::RunMap;
use gpt_descriptors::{Gpi, Setup};
use std::alloc::Global;
use std::marker::Model;

/// A list of regions that no rule refuses, with the setup that it was held against. It keeps the
/// region map and which gigabytes need an L1 table.
#[derive(Debug, Drop)]
pub struct Plan {
    setup: Setup,
    regions: Vec<Region>,
    map: RunMap,
    tabled: [bool; 64],
    need: u64,
}

impl Model for Plan {
    ghost use Rattle.region_plan.specs.PlanData.{PlanData};

    ghost Value = { PlanData };

    ghost view = { λ a. record { setup = a.setup; regions = a.regions.items } };

    ghost use Rattle.region_plan.specs.PlanData.{PlanKeeps};

    ghost invariant = { λ a. PlanKeeps a.setup a.regions.items a.map a.tabled a.need };
}

fn region_in(regions: &[Region], q: u64) -> Option<Region>
    requires { q < 64 }
    ensures { result ≡ find (touches q) regions.now }
{
    regions.iter().copied().find(|region| is_touched(q, region))
}

fn gpi_of_region(region: Option<Region>) -> Gpi
    ensures { result ≡ gpi_or_any region }
{
    match region {
        Some(region) => region.gpi,
        None => Gpi::Any,
    }
}

impl Plan {
    /// Holds the regions against the setup: the plan, or the first rule that refuses them. Each
    /// region's base and size are bytes; indices count from 0. At most 256 regions are accepted.
    /// Want of memory is answered only where no rule refuses them.
    pub fn plan(alloc: Global, regions: &[Region], setup: &Setup) -> Result<Plan, PlanError>
        ensures plan { IfOk result (λ p. p ≡ record { setup = setup.now; regions = regions.now }) }
        ensures accepted { OnOk result (refusal setup.now regions.now ≡ None) }
        ensures refused { IfErr result (λ e. IsRefusal e (refusal setup.now regions.now)) }
        ensures given { IfErr result (λ e.
            (refusal setup.now regions.now ≡ None) ⊎ (refusal setup.now regions.now ≡ Some e)) }
    {
        match first_misplaced(setup, regions) {
            Some(error) => return Err(error),
            None => {}
        }
        let map = match laid_map(alloc, setup, regions) {
            Ok(map) => map,
            Err(pair) => return Err(PlanError::Overlap(pair.0, pair.1)),
        };
        let tabled = tabled_gigabytes(regions);
        let need = count_tables(setup, regions, &tabled);
        if need > setup.tables() {
            return Err(PlanError::NoTables(need));
        }
        let Some(map) = map else {
            return Err(PlanError::Memory);
        };
        Ok(Plan {
            setup: *setup,
            regions: Vec::from_slice(alloc, regions)?,
            map,
            tabled,
            need,
        })
    }

    /// The setup that the regions were held against.
    pub fn setup(&self) -> &Setup
        ensures setup { result.now ≡ self.now.setup }
        ensures accepted { refusal self.now.setup self.now.regions ≡ None }
    {
        &self.setup
    }

    /// How many gigabytes need an L1 table: at most as many as the setup has tables.
    #[tactic(auto, using(crate::proofs::PlanLemmas::accepted_tables))]
    pub fn need(&self) -> u64
        ensures count { result ≡ tables_needed self.now.setup self.now.regions }
        ensures bound { result ≤ 64 }
        ensures few { result ≤ self.now.setup.tables }
    {
        self.need
    }

    /// Whether gigabyte `q` needs an L1 table.
    pub fn needs_table(&self, q: u64) -> bool
        requires { q < 64 }
        ensures { result ≡ needs_table self.now.regions q }
    {
        self.tabled[q as usize]
    }

    /// The GPI of the region that gigabyte `q` belongs to, any access where there is none.
    pub fn block_gpi(&self, q: u64) -> Gpi
        requires { q < 64 }
        ensures { result ≡ gpi_or_any (find (touches q) self.now.regions) }
    {
        gpi_of_region(region_in(&self.regions, q))
    }

    /// The GPI of the granule of a byte address in the protected space. A granule outside every
    /// region is any access.
    pub fn gpi(&self, pa: u64) -> Gpi
        requires { pa < space_bytes self.now.setup }
        ensures { result
            ≡ region_map self.now.setup self.now.regions (pa / granule_bytes self.now.setup) }
    {
        self.map.get(pa / self.setup.granule_bytes())
    }

    /// The region map, over the granules of the protected space.
    pub fn map(&self) -> &RunMap
        ensures { result.now ≡ region_gpis self.now.setup self.now.regions }
    {
        &self.map
    }
}
