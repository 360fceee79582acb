ghost use Rattle.std.specs.Prelude.{◌≡◌, ◌<◌, ◌≤◌, ◌==◌, not, nat_lt, Some, None, if◌then◌else◌};
ghost use Rattle.invalidate.specs.Barrier.{begun, begun_at, next_load, after_load};

use gpt_descriptors::Geometry;
use shared_words::Act;
use std::marker::Model;

/// A barrier, load by load: it passes the processors in their order, each where a load of its duty
/// word has answered 0. It stands in the place of the DSB that waits until a TLB invalidation is
/// complete on all PEs (DDI 0487, completion of TLB maintenance instructions).
#[derive(Clone, Copy, Debug, PartialEq, Eq)]
pub struct Barrier {
    passed: u32,
    cpus: u32,
}

impl Model for Barrier {
    ghost use Rattle.std.specs.Prelude.{◌≤◌};
    ghost use Rattle.invalidate.specs.Barrier.{BarrierData};

    ghost Value = { BarrierData };

    ghost view = { λ b. record { passed = b.passed; cpus = b.cpus } };

    ghost invariant = { λ b. b.passed ≤ b.cpus };

    ghost inverse = { λ d. record { passed = d.passed; cpus = d.cpus } };
}

impl Barrier {
    /// A barrier over this number of processors before its first load.
    pub fn new(cpus: u32) -> Barrier
        ensures { result ≡ begun cpus }
    {
        Barrier { passed: 0, cpus }
    }

    /// Whether every processor is passed.
    pub fn is_over(&self) -> bool
        ensures { result ≡ not (nat_lt self.now.passed self.now.cpus) }
    {
        self.passed >= self.cpus
    }

    /// The load of the next processor's duty word, or `None` exactly after the last one. The
    /// geometry has at least as many processors as the barrier.
    pub fn next(&self, geometry: &Geometry) -> Option<Act>
        requires cpus { self.now.cpus ≤ geometry.now.cpus }
        ensures { result ≡ next_load geometry.now self.now }
    {
        if self.is_over() {
            None
        } else {
            Some(Act::Load(geometry.duty_place(self.passed)))
        }
    }

    /// Takes note that the next load was made and answered `old`: whether its processor is passed,
    /// exactly where that is 0. Else the load is to be made again.
    pub fn took(&mut self, old: u64) -> bool
        requires next { self.old.passed < self.old.cpus }
        ensures passed { result ≡ (old == 0) }
        ensures after { self.new ≡ after_load self.old old }
    {
        let passed = old == 0;
        if passed {
            self.passed += 1;
        }
        passed
    }

    /// A barrier over this number of processors that has passed the first `passed` of them.
    /// It is `None` exactly where there are fewer processors.
    pub fn at(cpus: u32, passed: u32) -> Option<Barrier>
        ensures { result ≡ (if nat_lt cpus passed then None else Some (begun_at cpus passed)) }
    {
        if cpus < passed {
            None
        } else {
            Some(Barrier { passed, cpus })
        }
    }

    /// The number of processors that it has passed.
    pub fn passed(&self) -> u32
        ensures { result ≡ self.now.passed }
    {
        self.passed
    }
}
