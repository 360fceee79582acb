ghost use Rattle.std.specs.Prelude.{◌≡◌, ◌<◌, ◌≤◌, IfOk, length};

use crate::plain::{granule_gpi, plain_word};
use gpt_descriptors::{Gpi, MaxBlock, Setup};
use region_plan::{Kind, Plan, Region, Run, RunMap};
use std::alloc::{AllocError, Global};
use std::process::Abort;
use std::test::Fail;
use table_build::build;

/// Numbers that look random, the same ones in every run.
#[derive(Drop)]
struct Random {
    state: u64,
}

impl Random {
    fn below(&mut self, limit: u64) -> u64
        requires { 0 < limit }
        ensures { result < limit }
    {
        self.state = self
            .state
            .wrapping_mul(6364136223846793005)
            .wrapping_add(1442695040888963407);
        (self.state >> 33) % limit
    }

    fn gpi(&mut self) -> Gpi {
        match self.below(3) {
            0 => Gpi::Realm,
            1 => Gpi::Secure,
            _ => Gpi::NonSecure,
        }
    }

    fn shuffle(&mut self, regions: &mut [Region]) {
        for i in 0..regions.len() {
            let j = self.below(regions.len() as u64) as usize;
            regions.swap(i, j);
        }
    }

    /// How many granules a region has, of those that there is room for.
    fn count(&mut self, room: u64) -> u64 {
        match self.below(4) {
            0 => room.min(1),
            1 => room.min(512),
            2 => room.min(self.below(100_000).saturating_add(1)),
            _ => room,
        }
    }
}

/// One region in each of the `parts` equal parts of 4 GB, in a mixed order. Some fill their part,
/// so that neighbours of one GPI are one run.
fn random_regions(alloc: Global, random: &mut Random, parts: u64) -> Result<Vec<Region>, AllocError>
    requires low { 0 < parts }
    requires high { parts ≤ 64 }
{
    let part = (0x10_0000 / parts).max(1);
    let mut regions = Vec::new(alloc);
    for i in 0..parts {
        let skipped = match random.below(2) {
            0 => 0,
            _ => random.below(part),
        };
        let granules = random.count(part.saturating_sub(skipped));
        regions.push(Region {
            base: i
                .wrapping_mul(part)
                .wrapping_add(skipped)
                .wrapping_mul(0x1000),
            size: granules.wrapping_mul(0x1000),
            kind: Kind::Granule,
            gpi: random.gpi(),
        })?;
    }
    random.shuffle(&mut regions);
    Ok(regions)
}

fn setup_with(rt: &impl Abort, max: MaxBlock) -> Setup {
    Setup::new(4, max, 1, 0, 8, 4, 0x8000_0000).expect(rt, "four tables")
}

/// The map against the regions, granule by granule.
fn map_is_alike(rt: &(impl Abort + Print), map: &RunMap, setup: &Setup, regions: &[Region]) {
    let parts = map.parts();
    let mut seen = 0usize;
    let mut before = None;
    for granule in 0..map.size() {
        let want = granule_gpi(setup, regions, granule);
        assert_eq!(rt; map.get(granule), want, "at {granule}");
        if before != Some(want) {
            let run = Run {
                first: granule,
                gpi: want,
            };
            assert_eq!(rt; parts.get(seen).copied(), Some(run));
            seen = seen.wrapping_add(1);
        }
        before = Some(want);
    }
    assert_eq!(rt; parts.len(), seen);
}

#[test]
fn maps_of_random_regions_are_those_of_each_granule(rt: HostRuntime) -> Result<(), Fail> {
    let mut random = Random { state: 1 };
    for parts in [1, 2, 3, 7, 16, 33] {
        let setup = setup_with(&rt, MaxBlock::FiveTwelve);
        let regions = random_regions(rt.alloc(), &mut random, parts)?;
        let plan = Plan::plan(rt.alloc(), &regions, &setup)?;
        map_is_alike(&rt, plan.map(), &setup, &regions);
        map_is_alike(&rt, &RunMap::of(rt.alloc(), &plan)?, &setup, &regions);
    }
    Ok(())
}

/// The words of a table against those that are asked one by one, from word `first` on.
fn words_are_alike(
    rt: &(impl Abort + Print),
    words: &[u64],
    setup: &Setup,
    regions: &[Region],
    first: u64,
)
    requires { first < 4194304 }
{
    let mut at = 0usize;
    for w in first..first + 16384 {
        let want = plain_word(setup, regions, w);
        assert_eq!(rt; words.get(at).copied(), Some(want), "at {w}");
        at = at.wrapping_add(1);
    }
}

/// The tables of these regions, one after another.
fn tables_are_alike(rt: &(impl Abort + Print), words: &[u64], plan: &Plan, regions: &[Region]) {
    let mut rest = words;
    for q in 0..4 {
        if plan.needs_table(q) {
            let (table, later) = rest.split_at(rest.len().min(16384));
            words_are_alike(rt, table, plan.setup(), regions, 16384 * q);
            rest = later;
        }
    }
    assert!(rt; rest.is_empty());
}

#[test]
fn tables_of_random_regions_have_the_words_that_are_asked_one_by_one(
    rt: HostRuntime,
) -> Result<(), Fail> {
    let mut random = Random { state: 2 };
    let sizes = [
        MaxBlock::Zero,
        MaxBlock::Two,
        MaxBlock::ThirtyTwo,
        MaxBlock::FiveTwelve,
    ];
    for parts in [1, 3, 8, 33] {
        let regions = random_regions(rt.alloc(), &mut random, parts)?;
        for max in sizes {
            let plan = Plan::plan(rt.alloc(), &regions, &setup_with(&rt, max))?;
            let tables = build(rt.alloc(), &plan, plan.setup().base())?;
            tables_are_alike(&rt, tables.l1(), &plan, &regions);
        }
    }
    Ok(())
}

/// The maximal runs of a map against its granules, one by one.
fn runs_are_alike(rt: &(impl Abort + Print), parts: &[Run], granules: &[Gpi]) {
    let mut seen = 0usize;
    let mut before = None;
    let mut first = 0u64;
    for &gpi in granules {
        if before != Some(gpi) {
            assert_eq!(rt; parts.get(seen).copied(), Some(Run { first, gpi }));
            seen = seen.wrapping_add(1);
        }
        before = Some(gpi);
        first = first.wrapping_add(1);
    }
    assert_eq!(rt; parts.len(), seen);
}

#[test]
fn runs_follow_random_changes_of_granules(rt: HostRuntime) -> Result<(), Fail> {
    let mut random = Random { state: 3 };
    let mut map = RunMap::new(rt.alloc(), 40)?;
    let mut granules = vec![in rt.alloc(); Gpi::Any; 40]?;
    for _ in 0..5000 {
        let granule = random.below(40);
        let gpi = random.gpi();
        if granule < map.size() {
            map.set(granule, gpi)?;
        }
        if let Some(place) = granules.get_mut(granule as usize) {
            *place = gpi;
        }
        runs_are_alike(&rt, map.parts(), &granules);
    }
    Ok(())
}
