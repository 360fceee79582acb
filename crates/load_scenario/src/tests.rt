use crate::load_scenario;
use gpt_descriptors::MaxBlock;
use region_plan::{Gpi, Kind, Region};
use scenario_text::{Ask, Look, Scenario, Script, Slot, Source, Space};
use std::test::Fail;

/// The number of a scenario, an agent and one of its calls, both counted from 0, and the call.
const ASKS: [(u32, usize, usize, Ask); 14] = [
    (0, 0, 0, Ask::Undelegate(0xe060_1000, Source::Realm)),
    (0, 0, 1, Ask::Delegate(0x20_0000, Source::Realm)),
    (0, 0, 2, Ask::Delegate(0x2040_0000, Source::Realm)),
    (0, 0, 49, Ask::Undelegate(0xc000_0000, Source::Realm)),
    (0, 1, 0, Ask::Undelegate(0x20_0000, Source::Secure)),
    (0, 1, 1, Ask::Undelegate(0xe060_3000, Source::Secure)),
    (0, 1, 49, Ask::Undelegate(0x2000, Source::Secure)),
    (u32::MAX, 0, 0, Ask::Delegate(0xe060_1000, Source::Realm)),
    (u32::MAX, 0, 1, Ask::Undelegate(0x8020_1000, Source::Realm)),
    (u32::MAX, 0, 2, Ask::Undelegate(0x40_2000, Source::Realm)),
    (u32::MAX, 0, 49, Ask::Undelegate(0xe060_1000, Source::Realm)),
    (u32::MAX, 1, 0, Ask::Undelegate(0x2000_2000, Source::Secure)),
    (u32::MAX, 1, 1, Ask::Delegate(0xe060_3000, Source::Secure)),
    (u32::MAX, 1, 49, Ask::Delegate(0x20_1000, Source::Secure)),
];

/// The number of a scenario, a processor, counted from 0 with the agents, one of its accesses,
/// counted from 0, and the access: its address and its space.
const LOOKS: [(u32, usize, usize, u64, Space); 22] = [
    (0, 2, 0, 0xa000_3000, Space::Realm),
    (0, 2, 1, 0x8060_0000, Space::Secure),
    (0, 2, 2, 0x4040_3000, Space::Realm),
    (0, 2, 3, 0xe000_2000, Space::Root),
    (0, 2, 399, 0x2040_3000, Space::Realm),
    (0, 3, 0, 0x20_0000, Space::Realm),
    (0, 3, 399, 0x6000_1000, Space::Realm),
    (0, 4, 0, 0xa040_2000, Space::NonSecure),
    (0, 4, 399, 0xe000_3000, Space::Root),
    (0, 5, 0, 0xe020_0000, Space::Secure),
    (0, 5, 399, 0x4020_3000, Space::Root),
    (u32::MAX, 2, 0, 0x3000, Space::Root),
    (u32::MAX, 2, 1, 0xa040_2000, Space::Root),
    (u32::MAX, 2, 2, 0x20_1000, Space::Root),
    (u32::MAX, 2, 3, 0x8040_0000, Space::Realm),
    (u32::MAX, 2, 399, 0x4000_1000, Space::Secure),
    (u32::MAX, 3, 0, 0x4060_0000, Space::NonSecure),
    (u32::MAX, 3, 399, 0x2000, Space::Secure),
    (u32::MAX, 4, 0, 0xc060_3000, Space::Secure),
    (u32::MAX, 4, 399, 0x6020_3000, Space::Root),
    (u32::MAX, 5, 0, 0x2040_0000, Space::Secure),
    (u32::MAX, 5, 399, 0x4060_3000, Space::Realm),
];

/// A call of an agent of a scenario.
fn ask(scenario: &Scenario, caller: usize, call: usize) -> Result<Ask, Fail> {
    match scenario.scripts.as_slice().get(caller) {
        Some(Script::Agent(asks)) => Ok(*asks.as_slice().get(call).ok_or("no such call")?),
        _ => Err("no such agent")?,
    }
}

/// An access of a processor of a scenario.
fn look(scenario: &Scenario, caller: usize, call: usize) -> Result<Look, Fail> {
    match scenario.scripts.as_slice().get(caller) {
        Some(Script::Cpu(looks)) => Ok(*looks.as_slice().get(call).ok_or("no such access")?),
        _ => Err("no such processor")?,
    }
}

#[test]
fn calls_are_those_worked_out_beside_the_code(rt: HostRuntime) -> Result<(), Fail> {
    for (number, caller, call, want) in ASKS {
        let scenario = load_scenario(rt.alloc(), number)?;
        let found = ask(&scenario, caller, call)?;
        assert_eq!(rt; found, want, "call {call} of agent {caller} of {number}");
    }
    Ok(())
}

#[test]
fn accesses_are_those_worked_out_beside_the_code(rt: HostRuntime) -> Result<(), Fail> {
    for (number, caller, call, pa, space) in LOOKS {
        let scenario = load_scenario(rt.alloc(), number)?;
        let found = look(&scenario, caller, call)?;
        assert_eq!(rt;
            found,
            Look { pa, space },
            "access {call} of processor {caller} of {number}"
        );
    }
    Ok(())
}

/// How many calls a script has, and whether it is an agent's.
fn calls(script: &Script) -> (usize, bool) {
    match script {
        Script::Agent(asks) => (asks.as_slice().len(), true),
        Script::Cpu(looks) => (looks.as_slice().len(), false),
    }
}

#[test]
fn callers_are_two_agents_and_four_processors(rt: HostRuntime) -> Result<(), Fail> {
    let scenario = load_scenario(rt.alloc(), 7)?;
    let mut counts = Vec::new(rt.alloc());
    for script in scenario.scripts.as_slice() {
        counts.push(calls(script))?;
    }
    let want = [
        (50, true),
        (50, true),
        (400, false),
        (400, false),
        (400, false),
        (400, false),
    ];
    assert_eq!(rt; counts.as_slice(), want.as_slice());
    Ok(())
}

#[test]
fn setup_regions_and_schedule_are_always_the_same(rt: HostRuntime) -> Result<(), Fail> {
    for number in [0, 1, u32::MAX] {
        let scenario = load_scenario(rt.alloc(), number)?;
        let setup = scenario.setup;
        assert_eq!(rt; setup.gigabytes(), 4);
        assert_eq!(rt; setup.max(), MaxBlock::FiveTwelve);
        assert_eq!(rt; setup.lock_blocks(), 1);
        assert_eq!(rt; setup.first(), 0);
        assert_eq!(rt; setup.ring(), 8);
        assert_eq!(rt; setup.tables(), 4);
        assert_eq!(rt; setup.base(), 0x8000_0000);
        let all = Region {
            base: 0,
            size: 1 << 32,
            kind: Kind::Granule,
            gpi: Gpi::NonSecure,
        };
        assert_eq!(rt; scenario.regions.as_slice(), [all].as_slice());
        assert_eq!(rt;
            scenario.schedule.as_slice(),
            [Slot::Round(64, 32_000)].as_slice()
        );
    }
    Ok(())
}
