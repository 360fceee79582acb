ghost use Rattle.std.specs.Prelude.{◌≡◌, ◌≢◌, ◌↔◌, ℕ, ◌+◌, ◌<◌, ◌≤◌, ◌++◌, List, IsTrue, IfOk, OnOk, OnErr, Some, None, length, replicate, take, drop, slice_get, slice_set, vec_len, vec_capacity};
ghost use Rattle.std.specs.List.{insert};
ghost use Rattle.gpi_values.specs.declared.gpi.Gpi.{Gpi};
ghost use Rattle.gpt_descriptors.specs.Sizes.{space_granules};
ghost use Rattle.region_plan.specs.Regions.{region_gpis};
ghost use Rattle.region_plan.specs.Runs.{AreApart, AreRuns, AreMaximalRuns, runs_map};
ghost use Rattle.region_plan.specs.InnerRuns.{IsRunAt, Covers, Follows, Leads, Reaches, then_one, last_gpi, begin_of, BeginsWith};

use crate::planning::Plan;
use gpt_descriptors::Gpi;
use std::alloc::{AllocError, Global};
use std::marker::Model;

/// Granules of one GPI in a row: from this granule up to the one at which the next run begins, or
/// up to the end of the map.
#[derive(Clone, Copy, Debug, PartialEq, Eq)]
pub struct Run {
    pub first: u64,
    pub gpi: Gpi,
}

/// A map from granule to GPI, over the granules from 0 up to its size, kept as its maximal runs.
#[derive(Debug, Drop)]
pub struct RunMap {
    size: u64,
    runs: Vec<Run>,
}

impl Model for RunMap {
    ghost use Rattle.std.specs.Prelude.{List};
    ghost use Rattle.gpi_values.specs.declared.gpi.Gpi.{Gpi};
    ghost use Rattle.region_plan.specs.Runs.{AreRuns, runs_map};

    ghost Value = { List Gpi };

    ghost view = { λ a. runs_map a.size a.runs.items };

    ghost invariant = { λ a. AreRuns a.size a.runs.items };
}

/// Which run has the granule: the last one that begins at it or before it.
fn run_at(runs: &[Run], granule: u64) -> usize
    requires { (size : ℕ) × AreRuns size runs.now × (granule < size) }
    ensures { IsRunAt granule runs.now result }
{
    runs.partition_point(|run| run.first <= granule) - 1
}

/// Whether the last run has this GPI.
fn ends_with(runs: &[Run], gpi: Gpi) -> bool
    ensures { IsTrue result ↔ (last_gpi None runs.now ≡ Some gpi) }
{
    match runs.last() {
        Some(run) => run.gpi == gpi,
        None => false,
    }
}

/// Whether the first run has this GPI.
fn begins_with(runs: &[Run], gpi: Gpi) -> bool
    ensures { IsTrue result ↔ BeginsWith gpi runs.now }
{
    match runs {
        [] => false,
        [run, ..] => run.gpi == gpi,
    }
}

/// Where the runs begin, `end` where there is none.
fn begin_of(runs: &[Run], end: u64) -> u64
    ensures { result ≡ begin_of end runs.now }
{
    match runs {
        [] => end,
        [run, ..] => run.first,
    }
}

/// Adds the granules from `at` up to `end`, with one GPI.
pub fn add_granules(runs: &mut Vec<Run>, at: u64, end: u64, gpi: Gpi) -> Result<(), AllocError>
    requires { at ≤ end }
    ensures { OnOk result ((f : ℕ → Gpi)
        → Covers at f runs.old.items → Covers end (then_one at f gpi) runs.new.items) }
{
    if at == end {
        return Ok(());
    }
    if ends_with(runs, gpi) {
        return Ok(());
    }
    runs.push(Run { first: at, gpi })?;
    Ok(())
}

/// Puts a run in a place that there is room for.
fn insert_run(runs: &mut Vec<Run>, at: usize, run: Run)
    requires place { at ≤ vec_len runs.old }
    requires room { vec_len runs.old < vec_capacity runs.old }
    ensures items { runs.new.items ≡ insert runs.old.items at run }
    ensures len { vec_len runs.new ≡ vec_len runs.old + 1 }
    ensures capacity { vec_capacity runs.old ≤ vec_capacity runs.new }
{
    let _ = runs.insert(at, run);
}

/// Parts the granules after one whose GPI changes from it, or joins them to it where they have its
/// new GPI. The runs from `next` on are those that begin after it.
fn part_after(runs: &mut Vec<Run>, next: usize, granule: u64, own: Gpi, new: Gpi, size: u64)
    requires place { next ≤ vec_len runs.old }
    requires room { vec_len runs.old < vec_capacity runs.old }
    requires inside { granule < size }
    requires other { own ≢ new }
    requires apart { AreApart (granule + 1) (Some own) size (drop next runs.old.items) }
    ensures before { take next runs.new.items ≡ take next runs.old.items }
    ensures follows { Follows granule size own new
        (drop next runs.old.items) (drop next runs.new.items) }
    ensures len { vec_len runs.new ≤ vec_len runs.old + 1 }
    ensures place { next ≤ vec_len runs.new }
    ensures capacity { vec_capacity runs.old ≤ vec_capacity runs.new }
{
    if granule + 1 < begin_of(&runs[next..], size) {
        let run = Run {
            first: granule + 1,
            gpi: own,
        };
        insert_run(runs, next, run);
    } else if begins_with(&runs[next..], new) {
        runs.remove(next);
    }
}

/// Sets the last granule of run `at` and those before it: the granule gets a run of its own, or
/// goes on with the run before it where that has the GPI.
fn set_last(runs: &mut Vec<Run>, at: usize, granule: u64, gpi: Gpi)
    requires place { at < vec_len runs.old }
    requires room { vec_len runs.old < vec_capacity runs.old }
    requires own { Reaches granule gpi (take (at + 1) runs.old.items) }
    ensures { (leading : List Run) × (runs.new.items ≡ leading ++ drop (at + 1) runs.old.items)
        × Leads granule gpi (take (at + 1) runs.old.items) leading }
{
    if runs[at].first < granule {
        insert_run(
            runs,
            at + 1,
            Run {
                first: granule,
                gpi,
            },
        );
    } else if ends_with(&runs[..at], gpi) {
        runs.remove(at);
    } else {
        runs[at].gpi = gpi;
    }
}

impl RunMap {
    /// The map of this number of granules that these runs give.
    pub(crate) fn of_runs(size: u64, runs: Vec<Run>) -> RunMap
        requires { AreRuns size runs.items }
        ensures { result ≡ runs_map size runs.items }
    {
        RunMap { size, runs }
    }

    /// A map of this number of granules, with any access everywhere.
    pub fn new(alloc: Global, granules: u64) -> Result<RunMap, AllocError>
        ensures { IfOk result (λ m. m ≡ replicate granules Gpi.Any) }
    {
        let mut runs = Vec::new(alloc);
        add_granules(&mut runs, 0, granules, Gpi::Any)?;
        Ok(RunMap {
            size: granules,
            runs,
        })
    }

    /// The region map of a plan, over the granules of its protected space.
    pub fn of(alloc: Global, plan: &Plan) -> Result<RunMap, AllocError>
        ensures map { IfOk result (λ m. m ≡ region_gpis plan.now.setup plan.now.regions) }
        ensures size { IfOk result (λ m. length m ≡ space_granules plan.now.setup) }
    {
        plan.map().copy(alloc)
    }

    /// The same map.
    fn copy(&self, alloc: Global) -> Result<RunMap, AllocError>
        ensures { IfOk result (λ m. m ≡ self.now) }
    {
        Ok(RunMap {
            size: self.size,
            runs: Vec::from_slice(alloc, &self.runs)?,
        })
    }

    /// How many granules the map has.
    pub fn size(&self) -> u64
        ensures { result ≡ length self.now }
    {
        self.size
    }

    /// The maximal runs of equal GPI, in rising order.
    pub fn parts(&self) -> &[Run]
        ensures { AreMaximalRuns self.now result.now }
    {
        self.runs.as_slice()
    }

    /// The GPI of a granule below the size.
    pub fn get(&self, granule: u64) -> Gpi
        requires { granule < length self.now }
        ensures { slice_get self.now granule ≡ Some result }
    {
        self.runs[run_at(&self.runs, granule)].gpi
    }

    /// Sets the GPI of a granule below the size, and of no other. A refusal changes nothing.
    pub fn set(&mut self, granule: u64, gpi: Gpi) -> Result<(), AllocError>
        requires { granule < length self.old }
        ensures ok { OnOk result (self.new ≡ slice_set self.old granule gpi) }
        ensures err { OnErr result (self.new ≡ self.old) }
    {
        let at = run_at(&self.runs, granule);
        let own = self.runs[at].gpi;
        if own == gpi {
            return Ok(());
        }
        self.runs.reserve(2)?;
        part_after(&mut self.runs, at + 1, granule, own, gpi, self.size);
        set_last(&mut self.runs, at, granule, gpi);
        Ok(())
    }
}
