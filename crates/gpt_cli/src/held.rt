use crate::top::top;
use gpt_io::{MemorySink, MemorySource};
use race_run::Gate;
use std::hint;
use std::sync::atomic::{AtomicBool, Ordering};
use std::test::Fail;

/// An agent that splits 512 MB, and a processor with accesses elsewhere in it.
const APART: &[u8] =
    b"gpt 1\nspace 4\nmax 512\nlocks 1\nfirst 0\nring 8\ntables 1\nbase 0x80000000\n\
region 0x0 0x40000000 granule nonsecure\nagent\ndelegate 0x200000 realm\ncpu\n\
look 0x20000000 nonsecure\nlook 0x20000000 nonsecure\nlook 0x20000000 nonsecure\nend\n";

const APART_REPORT: &[u8] = b"report 1 race\n0.0 done 1 1 1\n\
1.0 granted nonsecure 1 cold 512m 0 0\n1.1 granted nonsecure 1 hit 512m 0\n\
1.2 granted nonsecure 1 hit 512m 0\nl0 0 1 0x80000003\nl0 1 3 0xf1\nl1 0 0 32 0x191\n\
l1 0 32 1 0x999999999999999b\nl1 0 33 31 0x9999999999999999\nl1 0 64 448 0x191\n\
l1 0 512 7680 0x291\nl1 0 8192 8192 0x391\ngen 2m 1 1\ngen 32m 0 1\ngen 512m 0 1\n\
line 0x20000000 nonsecure\nend\n";

/// An agent, and a processor with an access at its granule.
const TOGETHER: &[u8] =
    b"gpt 1\nspace 4\nmax 0\nlocks 1\nfirst 0\nring 8\ntables 1\nbase 0x80000000\n\
region 0x0 0x40000000 granule nonsecure\nagent\ndelegate 0x200000 realm\ncpu\n\
look 0x200000 nonsecure\nend\n";

const TOGETHER_REPORT: &[u8] = b"report 1 race\n0.0 done 1 1 1\n\
1.0 granted nonsecure 1 cold 64k 0 1\nl0 0 1 0x80000003\nl0 1 3 0xf1\n\
l1 0 0 32 0x9999999999999999\nl1 0 32 1 0x999999999999999b\n\
l1 0 33 16351 0x9999999999999999\ngen 2m 1 1\ngen 32m 0 1\ngen 512m 0 1\nend\n";

/// How often a caller that is held looks whether it may go on, before it gives up.
const MOST_LOOKS: u32 = 100_000_000;

/// A call of the gate, with its numbers.
#[derive(Clone, Copy, PartialEq, Eq)]
enum Moment {
    Before(u32, u32),
    Between(u32, u32),
}

/// A caller is held at the first moment until the second has come.
#[derive(Drop)]
struct Hold {
    at: Moment,
    until: Moment,
    come: AtomicBool,
}

impl Hold {
    fn new(at: Moment, until: Moment) -> Hold {
        Hold {
            at,
            until,
            come: AtomicBool::new(false),
        }
    }

    /// Whether the moment came while this waited for it.
    fn waits(&self) -> bool {
        for _ in 0..MOST_LOOKS {
            if self.come.load(Ordering::SeqCst) {
                return true;
            }
            hint::spin_loop();
        }
        false
    }
}

/// Two holds, and whether one of them gave up.
#[derive(Drop)]
struct Holds {
    first: Hold,
    second: Hold,
    gave_up: AtomicBool,
}

impl Holds {
    fn new(first: Hold, second: Hold) -> Holds {
        Holds {
            first,
            second,
            gave_up: AtomicBool::new(false),
        }
    }

    fn come(&self, moment: Moment) {
        for hold in [&self.first, &self.second] {
            if hold.until == moment {
                hold.come.store(true, Ordering::SeqCst);
            }
        }
        for hold in [&self.first, &self.second] {
            if hold.at == moment && !hold.waits() {
                self.gave_up.store(true, Ordering::SeqCst);
            }
        }
    }
}

impl Gate for Holds {
    fn before(&self, caller: u32, call: u32) {
        self.come(Moment::Before(caller, call));
    }

    fn between(&self, caller: u32, act: u32) {
        self.come(Moment::Between(caller, act));
    }
}

/// The processor begins once the agent has made its first act, and the agent goes on once the processor
/// begins its third call. One caller after the other, in either order, gives up.
#[test]
fn callers_run_beside_each_other(rt: HostRuntime) -> Result<(), Fail> {
    let alloc = rt.alloc();
    let gate = Holds::new(
        Hold::new(Moment::Before(1, 0), Moment::Between(0, 1)),
        Hold::new(Moment::Between(0, 1), Moment::Before(1, 2)),
    );
    let mut source = MemorySource::new(APART.to_vec(alloc)?, Vec::new(alloc));
    let mut sink = MemorySink::new(alloc, 4096, APART_REPORT.len(), Vec::new(alloc))?;
    let status = top(&rt, alloc, &["race"], &mut source, &mut sink, &gate);
    assert_eq!(rt; status, 0);
    assert_eq!(rt; sink.taken(), APART_REPORT);
    assert!(rt; !gate.gave_up.load(Ordering::SeqCst));
    Ok(())
}

/// The agent begins once the processor has made five acts of its access, the last of them its deciding load;
/// and the processor goes on once the agent has made a hundred acts, most of them at its barrier.
#[test]
fn a_barrier_waits_for_an_access_under_way(rt: HostRuntime) -> Result<(), Fail> {
    let alloc = rt.alloc();
    let gate = Holds::new(
        Hold::new(Moment::Before(0, 0), Moment::Between(1, 5)),
        Hold::new(Moment::Between(1, 5), Moment::Between(0, 100)),
    );
    let mut source = MemorySource::new(TOGETHER.to_vec(alloc)?, Vec::new(alloc));
    let mut sink = MemorySink::new(alloc, 4096, TOGETHER_REPORT.len(), Vec::new(alloc))?;
    let status = top(&rt, alloc, &["race"], &mut source, &mut sink, &gate);
    assert_eq!(rt; status, 0);
    assert_eq!(rt; sink.taken(), TOGETHER_REPORT);
    assert!(rt; !gate.gave_up.load(Ordering::SeqCst));
    Ok(())
}
