use gpt_descriptors::{MaxBlock, Setup};
use scenario_text::{Listed, Look, Scenario, Script, Slot, Space, well_formed};
use std::alloc::Global;
use std::test::Fail;

const LAST: u64 = 0xffff_ffff;

/// Agents beside one processor, the last of its accesses to 4 GB, a schedule, and whether it is
/// good.
const CASES: [(u64, u64, [Slot; 2], bool); 18] = [
    // Accesses are in the space.
    (1, LAST, [Slot::Turn(0, 1), Slot::Turn(1, 1)], true),
    (1, LAST + 1, [Slot::Turn(0, 1), Slot::Turn(1, 1)], false),
    (1, u64::MAX, [Slot::Turn(0, 1), Slot::Turn(1, 1)], false),
    // Callers are few.
    (31, 0, [Slot::Turn(0, 1), Slot::Turn(31, 1)], true),
    (32, 0, [Slot::Turn(0, 1), Slot::Turn(31, 1)], false),
    // The schedule is in its range.
    (1, 0, [Slot::Turn(0, 1), Slot::Turn(2, 1)], false),
    (1, 0, [Slot::Turn(0, 0), Slot::Turn(1, 1)], false),
    (1, 0, [Slot::Turn(0, 19_999_999), Slot::Turn(1, 1)], true),
    (1, 0, [Slot::Turn(0, 20_000_000), Slot::Turn(1, 1)], false),
    (1, 0, [Slot::Turn(0, 20_000_001), Slot::Turn(1, 1)], false),
    (1, 0, [Slot::Turn(0, 1), Slot::Round(1, 1)], true),
    (1, 0, [Slot::Turn(0, 1), Slot::Round(0, 1)], false),
    (1, 0, [Slot::Turn(0, 1), Slot::Round(1, 0)], false),
    (1, 0, [Slot::Turn(0, 2), Slot::Round(3_333_333, 3)], true),
    (1, 0, [Slot::Turn(0, 3), Slot::Round(3_333_333, 3)], false),
    (0, 0, [Slot::Turn(0, 1), Slot::Round(1, 19_999_999)], true),
    (
        1,
        0,
        [Slot::Turn(0, 1), Slot::Round(20_000_000, 20_000_000)],
        false,
    ),
    (
        1,
        0,
        [
            Slot::Round(u32::MAX, u32::MAX),
            Slot::Round(u32::MAX, u32::MAX),
        ],
        false,
    ),
];

/// A processor with two accesses, and agents without a call.
fn callers(alloc: Global, agents: u64, pa: u64) -> Result<Vec<Script>, Fail> {
    let mut looks = Vec::new(alloc);
    for pa in [0, pa] {
        looks.push(Look {
            pa,
            space: Space::Realm,
        })?;
    }
    let mut scripts = Vec::new(alloc);
    scripts.push(Script::Cpu(Listed::new(looks)))?;
    for _ in 0..agents {
        scripts.push(Script::Agent(Listed::new(Vec::new(alloc))))?;
    }
    Ok(scripts)
}

/// A scenario of 4 GB.
fn small(alloc: Global, agents: u64, pa: u64, schedule: &[Slot]) -> Result<Scenario, Fail> {
    let setup = Setup::new(4, MaxBlock::Zero, 1, 0, 8, 1, 0x8000_0000).ok_or("setup")?;
    Ok(Scenario {
        setup,
        regions: Listed::new(Vec::new(alloc)),
        scripts: Listed::new(callers(alloc, agents, pa)?),
        schedule: Listed::new(schedule.to_vec(alloc)?),
    })
}

#[test]
fn good_scenarios_are_kept_from_others(rt: HostRuntime) -> Result<(), Fail> {
    for (agents, pa, schedule, want) in CASES.iter() {
        let scenario = small(rt.alloc(), *agents, *pa, schedule.as_slice())?;
        assert_eq!(rt;
            well_formed(&scenario),
            *want,
            "{agents} {pa:#x} {schedule:?}"
        );
    }
    Ok(())
}
