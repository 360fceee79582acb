ghost use Rattle.std.specs.Prelude.{◌≡◌, ℕ, ◌<◌, length};
ghost use Rattle.gpi_values.specs.declared.gpi.Gpi.{Gpi};
ghost use Rattle.region_plan.specs.Runs.{AreMaximalRuns};
ghost use Rattle.table_build.specs.InnerReading.{HasBegun, NextIsAfter, Reads, IsRunFrom};

use gpt_descriptors::Gpi;
use region_plan::{Run, RunMap};

/// Goes once over the runs of a map, in rising order: the run in hand and those after it, and how
/// many granules the map has.
#[derive(Drop)]
pub struct Cursor<'a> {
    rest: &'a [Run],
    size: u64,
}

/// The runs from that of a granule on.
fn skip(rest: &[Run], granule: u64) -> &[Run]
    requires { HasBegun granule rest.now }
    ensures begun { HasBegun granule result.now }
    ensures next { NextIsAfter granule result.now }
    ensures reads { (m : ℕ → Gpi) (size : ℕ)
        → Reads m granule size rest.now → Reads m granule size result.now }
{
    let mut at = 0;
    while at + 1 < rest.len() && rest[at + 1].first <= granule {
        at += 1;
    }
    &rest[at..]
}

impl<'a> Cursor<'a> {
    /// Before the first granule of a map.
    pub fn new(map: &'a RunMap) -> Self
        ensures runs { AreMaximalRuns map.now result.rest.now }
        ensures size { result.size ≡ length map.now }
    {
        Cursor {
            rest: map.parts(),
            size: map.size(),
        }
    }

    /// Goes on to the run of a granule: its GPI, and the granule after its last.
    pub fn run_of(&mut self, granule: u64) -> (Gpi, u64)
        requires { HasBegun granule self.old.rest.now }
        ensures size { self.new.size ≡ self.old.size }
        ensures reads { (m : ℕ → Gpi) → Reads m granule self.old.size self.old.rest.now
            → Reads m granule self.old.size self.new.rest.now }
        ensures run { (m : ℕ → Gpi) → Reads m granule self.old.size self.old.rest.now
            → granule < self.old.size → IsRunFrom m granule self.old.size result.0 result.1 }
    {
        self.rest = skip(self.rest, granule);
        match self.rest {
            [] => (Gpi::Any, self.size),
            [run] => (run.gpi, self.size),
            [run, next, ..] => (run.gpi, next.first),
        }
    }
}
