ghost use Rattle.std.specs.Prelude.{◌≡◌, ◌*◌, ◌<◌, IfOk, length};
ghost use Rattle.gpt_descriptors.specs.declared.size.MaxBlock.TheVariants as most;

use region_plan::*;
use std::alloc::{AllocError, Global};
use std::process::Abort;
use std::test::Fail;

/// A setup of 4 GB with this number of tables.
fn setup_with(rt: &impl Abort, tables: u64) -> Setup
    ensures { result ≡ record {
      gigabytes = 4;
      max = most.FiveTwelve;
      lock_blocks = 1;
      first = 0;
      ring = 8;
      tables = tables;
      base = 2147483648;
    } }
{
    Setup::new(4, MaxBlock::FiveTwelve, 1, 0, 8, tables, 0x8000_0000).expect(rt, "tables in range")
}

fn granules(base: u64, size: u64) -> Region {
    Region {
        base,
        size,
        kind: Kind::Granule,
        gpi: Gpi::Realm,
    }
}

fn block(base: u64, size: u64) -> Region {
    Region {
        base,
        size,
        kind: Kind::Block,
        gpi: Gpi::Root,
    }
}

/// `count` regions of one granule, each `step` bytes after the one before.
fn many(alloc: Global, count: u64, step: u64) -> Result<Vec<Region>, AllocError>
    requires { count * step < 18446744073709551616 }
{
    let mut regions = Vec::new(alloc);
    for i in 0..count {
        regions.push(granules(i * step, 0x1000))?;
    }
    Ok(regions)
}

/// What plans regions over a setup of 4 GB with one table.
#[derive(Drop)]
struct Planner {
    alloc: Global,
    setup: Setup,
}

impl Planner {
    fn refusal(&self, regions: &[Region]) -> Option<PlanError> {
        Plan::plan(self.alloc, regions, &self.setup).err()
    }
}

fn one_table(rt: &impl Abort, alloc: Global) -> Planner {
    Planner {
        alloc,
        setup: setup_with(rt, 1),
    }
}

#[test]
fn each_rule_refuses_at_its_least_index(rt: HostRuntime) {
    let planner = one_table(&rt, rt.alloc());
    let good = granules(0, 0x1000);
    assert_eq!(rt; planner.refusal(&[]), Some(PlanError::Empty));
    let unaligned = [
        granules(0x800, 0x1000),
        granules(0x1000, 0x800),
        granules(0x1000, 0),
    ];
    for region in unaligned {
        assert_eq!(rt;
            planner.refusal(&[region, region]),
            Some(PlanError::Unaligned(0))
        );
        assert_eq!(rt;
            planner.refusal(&[good, region]),
            Some(PlanError::Unaligned(1))
        );
    }
    // The last three end at 2^64 and above, where a sum of 64 bits would begin again at 0.
    let outside = [
        granules(0xffff_f000, 0x2000),
        granules(0x1_0000_0000, 0x1000),
        granules(0x1000, 0x1_0000_0000),
        granules(0xffff_ffff_ffff_f000, 0x1000),
        granules(0xffff_ffff_ffff_f000, 0x2000),
        granules(0x1000, 0xffff_ffff_ffff_f000),
    ];
    for region in outside {
        assert_eq!(rt;
            planner.refusal(&[region, region]),
            Some(PlanError::Outside(0))
        );
        assert_eq!(rt;
            planner.refusal(&[good, region]),
            Some(PlanError::Outside(1))
        );
    }
    let no_block = [
        block(0, 0x2000_0000),
        block(0x1000, 0x4000_0000),
        block(0x4000_0000, 0x4000_1000),
    ];
    for region in no_block {
        assert_eq!(rt;
            planner.refusal(&[region, region]),
            Some(PlanError::NotBlock(0))
        );
        assert_eq!(rt;
            planner.refusal(&[good, region]),
            Some(PlanError::NotBlock(1))
        );
    }
    assert_eq!(rt;
        planner.refusal(&[granules(0, 0x8000_0000)]),
        Some(PlanError::NoTables(2))
    );
    assert_eq!(rt;
        planner.refusal(&[good, granules(0xffff_f000, 0x1000)]),
        Some(PlanError::NoTables(2))
    );
}

#[test]
fn overlaps_are_told_by_the_least_pair(rt: HostRuntime) {
    let planner = one_table(&rt, rt.alloc());
    let one = granules(0x4000, 0x2000);
    assert_eq!(rt;
        planner.refusal(&[granules(0, 0x2000), granules(0x1000, 0x1000)]),
        Some(PlanError::Overlap(0, 1))
    );
    assert_eq!(rt;
        planner.refusal(&[granules(0x5000, 0x1000), one]),
        Some(PlanError::Overlap(0, 1))
    );
    // The pair of the second and third is nearer, but that of the first and last comes first.
    let crossed = [
        granules(0, 0x1000),
        one,
        granules(0x5000, 0x1000),
        granules(0, 0x3000),
    ];
    assert_eq!(rt; planner.refusal(&crossed), Some(PlanError::Overlap(0, 3)));
    let two = [
        granules(0x8000, 0x1000),
        one,
        granules(0x5000, 0x2000),
        granules(0x4000, 0x1000),
    ];
    assert_eq!(rt; planner.refusal(&two), Some(PlanError::Overlap(1, 2)));
    assert_eq!(rt;
        planner.refusal(&[block(0, 0x4000_0000), granules(0x3fff_f000, 0x1000)]),
        Some(PlanError::Overlap(0, 1))
    );
    // Neighbours share no granule.
    assert_eq!(rt;
        planner.refusal(&[granules(0x3000, 0x1000), one, granules(0x6000, 0x1000)]),
        None
    );
    assert_eq!(rt;
        planner.refusal(&[
            granules(0x3fff_f000, 0x1000),
            block(0x4000_0000, 0x4000_0000)
        ]),
        None
    );
}

#[test]
fn the_first_of_two_rules_is_told(rt: HostRuntime) -> Result<(), Fail> {
    let planner = one_table(&rt, rt.alloc());
    let good = granules(0, 0x1000);
    let alike = many(rt.alloc(), 257, 0)?;
    assert_eq!(rt; planner.refusal(&alike), Some(PlanError::TooMany));
    let alike = many(rt.alloc(), 256, 0)?;
    assert_eq!(rt; planner.refusal(&alike), Some(PlanError::Overlap(0, 1)));
    assert_eq!(rt;
        planner.refusal(&[granules(0xffff_f000, 0x2000), granules(0x800, 0x1000)]),
        Some(PlanError::Unaligned(1))
    );
    assert_eq!(rt;
        planner.refusal(&[block(0, 0x2000_0000), granules(0x1_0000_0000, 0x1000)]),
        Some(PlanError::Outside(1))
    );
    assert_eq!(rt;
        planner.refusal(&[good, good, block(0x4000_0000, 0x1000)]),
        Some(PlanError::NotBlock(2))
    );
    assert_eq!(rt;
        planner.refusal(&[granules(0, 0x8000_0000), granules(0x1000, 0x1000)]),
        Some(PlanError::Overlap(0, 1))
    );
    Ok(())
}

#[test]
fn accepted_are_1_to_256_regions_up_to_the_end_of_space(rt: HostRuntime) -> Result<(), Fail> {
    let planner = one_table(&rt, rt.alloc());
    let setup = setup_with(&rt, 1);
    let most = many(rt.alloc(), 256, 0x2000)?;
    assert_eq!(rt; Plan::plan(rt.alloc(), &most, &setup)?.need(), 1);
    let beyond = many(rt.alloc(), 257, 0x2000)?;
    assert_eq!(rt; planner.refusal(&beyond), Some(PlanError::TooMany));
    // The regions, the tables that there are, and those that the regions need.
    let last = granules(0xffff_f000, 0x1000);
    assert_eq!(rt; Plan::plan(rt.alloc(), &[last], &setup)?.need(), 1);
    let across = granules(0x3fff_f000, 0x2000);
    assert_eq!(rt;
        Plan::plan(rt.alloc(), &[across], &setup_with(&rt, 2))?.need(),
        2
    );
    let all = granules(0, 0x1_0000_0000);
    assert_eq!(rt;
        Plan::plan(rt.alloc(), &[all], &setup_with(&rt, 4))?.need(),
        4
    );
    let blocks = block(0, 0x1_0000_0000);
    assert_eq!(rt;
        Plan::plan(rt.alloc(), &[blocks], &setup_with(&rt, 0))?.need(),
        0
    );
    Ok(())
}

/// Two granules of Realm from 0x1000 on, and Root in the second gigabyte.
fn small_plan(rt: &impl Abort, alloc: Global) -> Result<Plan, PlanError>
    ensures { IfOk result (λ plan. plan.setup.gigabytes ≡ 4) }
{
    let regions = [granules(0x1000, 0x2000), block(0x4000_0000, 0x4000_0000)];
    Plan::plan(alloc, &regions, &setup_with(rt, 1))
}

/// The map of the small plan.
#[tactic(auto, unfolding(gpt_descriptors::specs::Sizes::table_words, gpt_descriptors::specs::Sizes::word_bytes, gpt_descriptors::specs::Sizes::granule_bytes))]
fn small_map(alloc: Global, plan: &Plan) -> Result<RunMap, AllocError>
    requires { plan.now.setup.gigabytes ≡ 4 }
    ensures { IfOk result (λ map. length map ≡ 1048576) }
{
    RunMap::of(alloc, plan)
}

#[test]
fn the_map_has_each_region_and_any_beside_it(rt: HostRuntime) -> Result<(), Fail> {
    let plan = small_plan(&rt, rt.alloc())?;
    let map = small_map(rt.alloc(), &plan)?;
    let table = [
        (0, Gpi::Any),
        (0x1, Gpi::Realm),
        (0x2, Gpi::Realm),
        (0x3, Gpi::Any),
        (0x3_ffff, Gpi::Any),
        (0x4_0000, Gpi::Root),
        (0x7_ffff, Gpi::Root),
        (0x8_0000, Gpi::Any),
        (0xf_ffff, Gpi::Any),
    ];
    for (granule, want) in table {
        assert!(rt; granule < 0x10_0000);
        assert_eq!(rt; plan.gpi(0x1000 * granule), want, "at {granule}");
        assert_eq!(rt; plan.gpi(0x1000 * granule + 0xfff), want, "at {granule}");
        assert_eq!(rt; map.get(granule), want, "at {granule}");
    }
    Ok(())
}

#[test]
fn gigabytes_and_runs_of_one_gpi(rt: HostRuntime) -> Result<(), Fail> {
    let plan = small_plan(&rt, rt.alloc())?;
    assert_eq!(rt; plan.setup().gigabytes(), 4);
    let gigabytes = [
        (0, true, Gpi::Realm),
        (1, false, Gpi::Root),
        (2, false, Gpi::Any),
        (3, false, Gpi::Any),
    ];
    for (q, tabled, gpi) in gigabytes {
        assert!(rt; q < 4);
        assert_eq!(rt; plan.needs_table(q), tabled, "at {q}");
        assert_eq!(rt; plan.block_gpi(q), gpi, "at {q}");
    }
    Ok(())
}

fn run(first: u64, gpi: Gpi) -> Run {
    Run { first, gpi }
}

#[test]
fn parts_are_the_longest_runs(rt: HostRuntime) -> Result<(), Fail> {
    let plan = small_plan(&rt, rt.alloc())?;
    let want = [
        run(0, Gpi::Any),
        run(1, Gpi::Realm),
        run(3, Gpi::Any),
        run(0x4_0000, Gpi::Root),
        run(0x8_0000, Gpi::Any),
    ];
    assert_eq!(rt; plan.map().parts(), want.as_slice());
    assert_eq!(rt; RunMap::of(rt.alloc(), &plan)?.parts(), want.as_slice());
    // Neighbours of one GPI, listed from the last to the first, up to the end of the space.
    let regions = [
        granules(0xffff_f000, 0x1000),
        granules(0x8000_0000, 0x7fff_f000),
        granules(0x7fff_0000, 0x1_0000),
    ];
    let plan = Plan::plan(rt.alloc(), &regions, &setup_with(&rt, 3))?;
    let want = [run(0, Gpi::Any), run(0x7_fff0, Gpi::Realm)];
    assert_eq!(rt; plan.map().parts(), want.as_slice());
    assert_eq!(rt; RunMap::new(rt.alloc(), 0)?.parts(), [].as_slice());
    assert_eq!(rt;
        RunMap::new(rt.alloc(), 3)?.parts(),
        [run(0, Gpi::Any)].as_slice()
    );
    Ok(())
}

/// Sets a granule of a map that has it.
fn set_in(map: &mut RunMap, granule: u64, gpi: Gpi) -> Result<(), AllocError> {
    if granule < map.size() {
        map.set(granule, gpi)?;
    }
    Ok(())
}

/// Any access on 0 to 3, Realm on 4 and 5, Root on 6, Realm on 7 to 9.
fn four_runs(alloc: Global) -> Result<RunMap, AllocError> {
    let mut map = RunMap::new(alloc, 10)?;
    for granule in 4..10 {
        set_in(&mut map, granule, Gpi::Realm)?;
    }
    set_in(&mut map, 6, Gpi::Root)?;
    Ok(map)
}

/// The runs that the four become where a granule is set.
fn set_gives(
    rt: &(impl Abort + Print),
    alloc: Global,
    granule: u64,
    gpi: Gpi,
    want: &[Run],
) -> Result<(), AllocError> {
    let mut map = four_runs(alloc)?;
    set_in(&mut map, granule, gpi)?;
    assert_eq!(rt; map.parts(), want, "at {granule}");
    Ok(())
}

#[test]
fn a_set_granule_parts_a_run_or_joins_its_neighbours(rt: HostRuntime) -> Result<(), Fail> {
    let alloc = rt.alloc();
    let (any, realm, root) = (run(0, Gpi::Any), run(4, Gpi::Realm), run(6, Gpi::Root));
    let last = run(7, Gpi::Realm);
    // As it is, and in the middle of a run.
    set_gives(&rt, alloc, 0, Gpi::Any, &[any, realm, root, last])?;
    let parted = [any, realm, root, last, run(8, Gpi::Any), run(9, Gpi::Realm)];
    set_gives(&rt, alloc, 8, Gpi::Any, &parted)?;
    // At the first granule of a run.
    let parted = [run(0, Gpi::Root), run(1, Gpi::Any), realm, root, last];
    set_gives(&rt, alloc, 0, Gpi::Root, &parted)?;
    set_gives(
        &rt,
        alloc,
        4,
        Gpi::Any,
        &[any, run(5, Gpi::Realm), root, last],
    )?;
    let parted = [any, run(4, Gpi::Root), run(5, Gpi::Realm), root, last];
    set_gives(&rt, alloc, 4, Gpi::Root, &parted)?;
    // At the last one.
    set_gives(
        &rt,
        alloc,
        3,
        Gpi::Realm,
        &[any, run(3, Gpi::Realm), root, last],
    )?;
    set_gives(
        &rt,
        alloc,
        5,
        Gpi::Root,
        &[any, realm, run(5, Gpi::Root), last],
    )?;
    set_gives(
        &rt,
        alloc,
        9,
        Gpi::Root,
        &[any, realm, root, last, run(9, Gpi::Root)],
    )?;
    // At the only one.
    set_gives(&rt, alloc, 6, Gpi::Realm, &[any, realm])?;
    set_gives(
        &rt,
        alloc,
        6,
        Gpi::Any,
        &[any, realm, run(6, Gpi::Any), last],
    )?;
    Ok(())
}

#[test]
fn a_granule_is_set_alone(rt: HostRuntime) -> Result<(), Fail> {
    let mut map = RunMap::new(rt.alloc(), 4)?;
    map.set(1, Gpi::Secure)?;
    map.set(3, Gpi::NoAccess)?;
    map.set(1, Gpi::NonSecure)?;
    assert_eq!(rt; map.get(0), Gpi::Any);
    assert_eq!(rt; map.get(1), Gpi::NonSecure);
    assert_eq!(rt; map.get(2), Gpi::Any);
    assert_eq!(rt; map.get(3), Gpi::NoAccess);

    let mut map = small_map(rt.alloc(), &small_plan(&rt, rt.alloc())?)?;
    map.set(2, Gpi::NonSecure)?;
    assert_eq!(rt; map.get(1), Gpi::Realm);
    assert_eq!(rt; map.get(2), Gpi::NonSecure);
    assert_eq!(rt; map.get(3), Gpi::Any);
    Ok(())
}
