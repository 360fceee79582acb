use scenario_text::{parse, print, well_formed};
use std::alloc::Global;
use std::test::Fail;

/// Texts with each kind of line, each with what is read from it.
const TEXTS: [(&str, &str); 4] = [
    (SMALL, SMALL_READ),
    (WIDE, WIDE_READ),
    (BARE, BARE_READ),
    (DELEGATES_BETWEEN_LOOKS, DELEGATES_BETWEEN_LOOKS_READ),
];

const SMALL: &str = "\
gpt 1
space 4
max 512
locks 1
first 7
ring 8
tables 3
base 0xc0000000
region 0x0 0x40000000 granule secure
agent
delegate 0x40000000 realm
undelegate 0x40001000 secure
smc delegate 0x1000 nonsecure
smc undelegate 0x2000 realm
cpu
look 0xffffffff root
turn 0 5
round 2 3
end
";

const SMALL_READ: &str = "\
Scenario { setup: Setup { gigabytes: 4, max: FiveTwelve, lock_blocks: 1, first: 7, ring: 8, \
tables: 3, base: 3221225472 }, regions: Listed { items: [Region { base: 0, size: 1073741824, \
kind: Granule, gpi: Secure }] }, scripts: Listed { items: [Agent(Listed { items: \
[Delegate(1073741824, Realm), Undelegate(1073745920, Secure), SmcDelegate(4096, NonSecure), \
SmcUndelegate(8192, Realm)] }), Cpu(Listed { items: [Look { pa: 4294967295, space: Root }] })] \
}, schedule: Listed { items: [Turn(0, 5), Round(2, 3)] } }";

const WIDE: &str = "\
gpt 1
space 64
max 32
locks 8
first 9223372036854775807
ring 64
tables 16
base 0xffffffffffffffff
region 0x0 0x40000000 block none
region 0x40000000 0x10000 granule nonsecure
cpu
look 0xfffffffff realm
look 0x0 nonsecure
agent
delegate 0x0 realm
undelegate 0xabcdef secure
smc delegate 0x10000 nonsecure
smc undelegate 0xffffffffffffffff realm
turn 1 20
round 3 2
end
";

const WIDE_READ: &str = "\
Scenario { setup: Setup { gigabytes: 64, max: ThirtyTwo, lock_blocks: 8, first: \
9223372036854775807, ring: 64, tables: 16, base: 18446744073709551615 }, regions: Listed { \
items: [Region { base: 0, size: 1073741824, kind: Block, gpi: NoAccess }, Region { base: \
1073741824, size: 65536, kind: Granule, gpi: NonSecure }] }, scripts: Listed { items: \
[Cpu(Listed { items: [Look { pa: 68719476735, space: Realm }, Look { pa: 0, space: NonSecure }] \
}), Agent(Listed { items: [Delegate(0, Realm), Undelegate(11259375, Secure), SmcDelegate(65536, \
NonSecure), SmcUndelegate(18446744073709551615, Realm)] })] }, schedule: Listed { items: \
[Turn(1, 20), Round(3, 2)] } }";

const BARE: &str = "\
gpt 1
space 4
max 0
locks 0
first 0
ring 1
tables 0
base 0x0
end
";

const BARE_READ: &str = "\
Scenario { setup: Setup { gigabytes: 4, max: Zero, lock_blocks: 0, first: 0, ring: 1, tables: 0, \
base: 0 }, regions: Listed { items: [] }, scripts: Listed { items: [] }, schedule: Listed { \
items: [] } }";

/// Two delegates, each between accesses to another granule of its block and to a granule of its
/// own.
const DELEGATES_BETWEEN_LOOKS: &str = "\
gpt 1
space 4
max 512
locks 1
first 0
ring 8
tables 1
base 0x80000000
region 0x0 0x40000000 granule nonsecure
agent
delegate 0x10000000 realm
delegate 0x10200000 realm
cpu
look 0x0 nonsecure
look 0x0 nonsecure
look 0x10001000 nonsecure
look 0x10001000 nonsecure
turn 1 8
turn 0 8205
turn 1 18
turn 0 45
turn 1 4
end
";

const DELEGATES_BETWEEN_LOOKS_READ: &str = "\
Scenario { setup: Setup { gigabytes: 4, max: FiveTwelve, lock_blocks: 1, first: 0, ring: 8, \
tables: 1, base: 2147483648 }, regions: Listed { items: [Region { base: 0, size: 1073741824, \
kind: Granule, gpi: NonSecure }] }, scripts: Listed { items: [Agent(Listed { items: \
[Delegate(268435456, Realm), Delegate(270532608, Realm)] }), Cpu(Listed { items: [Look { pa: 0, \
space: NonSecure }, Look { pa: 0, space: NonSecure }, Look { pa: 268439552, space: NonSecure }, \
Look { pa: 268439552, space: NonSecure }] })] }, schedule: Listed { items: [Turn(1, 8), Turn(0, \
8205), Turn(1, 18), Turn(0, 45), Turn(1, 4)] } }";

/// What is read from a text, and how it is printed again.
fn again(alloc: Global, text: &str) -> Result<(String, Vec<u8>), Fail> {
    let scenario = parse(alloc, text.as_bytes())
        .ok()
        .ok_or("the text is good")?;
    let read = format!(in alloc; "{scenario:?}")?;
    if well_formed(&scenario) {
        Ok((read, print(alloc, &scenario)?))
    } else {
        Ok((read, Vec::new(alloc)))
    }
}

#[test]
fn texts_are_read_and_printed_again(rt: HostRuntime) -> Result<(), Fail> {
    for (text, want) in TEXTS.iter() {
        let (read, printed) = again(rt.alloc(), text)?;
        assert_eq!(rt; read.as_str(), *want);
        assert_eq!(rt; printed.as_slice(), text.as_bytes());
    }
    Ok(())
}
