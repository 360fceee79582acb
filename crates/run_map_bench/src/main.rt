//! What a map kept as runs costs, for `bench/runs.sh`, which times it: `of` makes the region map of
//! 256 regions 1,000 times; `few` judges and applies 100,000 entries of changes of 64 granules;
//! `many` as many of granules that are all apart. It prints how many maps or entries were as they
//! should be.
#![tactic(auto)]

ghost use Rattle.std.specs.Prelude.{◌≤◌, ◌<◌, IfOk};

use gpi_values::{Gpi, Source};
use gpt_descriptors::{Generations, MaxBlock, Setup};
use history::{Answer, Entry, Replay, Task};
use region_plan::{Kind, Plan, Region, RunMap};
use std::alloc::{AllocError, Global};
use std::env;
use std::process::ExitCode;

/// 128 regions of one Realm granule, 128 MB apart, each with 64 MB of Non-secure granules after it.
fn regions(alloc: Global) -> Result<Vec<Region>, AllocError> {
    let mut regions = Vec::new(alloc);
    for i in 0..128u64 {
        regions.push(Region {
            base: i * 0x800_0000,
            size: 0x1000,
            kind: Kind::Granule,
            gpi: Gpi::Realm,
        })?;
        regions.push(Region {
            base: i * 0x800_0000 + 0x1000,
            size: 0x400_0000,
            kind: Kind::Granule,
            gpi: Gpi::NonSecure,
        })?;
    }
    Ok(regions)
}

fn plan(alloc: Global) -> Result<Option<Plan>, AllocError> {
    let regions = regions(alloc)?;
    match Setup::new(64, MaxBlock::FiveTwelve, 1, 0, 8, 16, 0x8000_0000) {
        None => Ok(None),
        Some(setup) => Ok(Plan::plan(alloc, regions.as_slice(), &setup).ok()),
    }
}

/// Applies the entry where it is legal, and says whether it is.
fn given(
    replay: &mut Replay,
    entry: &Entry,
    task: Task,
    answer: Answer,
) -> Result<bool, AllocError> {
    if !replay.legal(entry, task, answer) {
        return Ok(false);
    }
    replay.apply(entry)?;
    Ok(true)
}

const DONE: Answer = Answer::Done(Generations {
    two: 1,
    thirty_two: 1,
    five_twelve: 1,
});

/// The entries of one change of a granule: how many were legal.
fn change(
    replay: &mut Replay,
    granule: u64,
    task: Task,
    from: Gpi,
    to: Gpi,
) -> Result<u64, AllocError>
    ensures { IfOk result (λ n. n ≤ 2) }
{
    let changed = Entry::Changed {
        caller: 0,
        call: 0,
        granule,
        from,
        to,
    };
    let settled = Entry::Settled {
        caller: 0,
        call: 0,
        granule,
    };
    let first = given(replay, &changed, task, DONE)?;
    let last = given(replay, &settled, task, DONE)?;
    Ok(u64::from(first) + u64::from(last))
}

/// The n-th granule of those that are changed, two apart in each of 128 regions.
fn granule_of(n: u64) -> u64
    requires { n < 100000 }
    ensures { result < 16777216 }
{
    n % 128 * 0x8000 + 1 + n / 128 * 2
}

/// The region map of `regions`, 1,000 times: how many have all granules.
fn maps(alloc: Global, plan: &Plan) -> Result<u64, AllocError> {
    let mut whole = 0;
    for _ in 0..1000u64 {
        let map = RunMap::of(alloc, plan)?;
        if map.size() == 16777216 && whole < 1000 {
            whole += 1;
        }
    }
    Ok(whole)
}

/// Changes of `apart` granules, one after another, until there are 100,000 entries: how many were
/// legal.
fn entries(alloc: Global, plan: &Plan, apart: u64) -> Result<u64, AllocError>
    requires { (1 ≤ apart) × (apart ≤ 50000) }
{
    let mut replay = Replay::new(alloc, RunMap::of(alloc, plan)?)?;
    let mut legal = 0;
    for n in 0..50000u64 {
        let granule = granule_of(n % apart);
        let pa = granule * 0x1000;
        let made = match n / apart % 3 {
            0 => {
                let task = Task::Delegate(pa, Source::Realm);
                change(&mut replay, granule, task, Gpi::NonSecure, Gpi::Realm)?
            }
            1 => {
                let task = Task::Undelegate(pa, Source::Realm);
                change(&mut replay, granule, task, Gpi::Realm, Gpi::NoAccess)?
            }
            _ => {
                let task = Task::Undelegate(pa, Source::Realm);
                change(&mut replay, granule, task, Gpi::NoAccess, Gpi::NonSecure)?
            }
        };
        if legal < 1000000 {
            legal += made;
        }
    }
    Ok(legal)
}

/// The words after the program's name, none where they can't be read.
fn words(rt: &HostRuntime, alloc: Global) -> Result<Vec<String>, AllocError> {
    match env::args(rt) {
        Ok(words) => words.skip(1).collect(alloc),
        Err(_) => Ok(Vec::new(alloc)),
    }
}

fn run(rt: &HostRuntime, alloc: Global) -> Result<u64, AllocError> {
    let words = words(rt, alloc)?;
    let Some(plan) = plan(alloc)? else {
        return Ok(0);
    };
    match words.first() {
        Some(word) if word.as_str() == "of" => maps(alloc, &plan),
        Some(word) if word.as_str() == "few" => entries(alloc, &plan, 64),
        Some(word) if word.as_str() == "many" => entries(alloc, &plan, 50000),
        _ => Ok(0),
    }
}

fn main(rt: HostRuntime) -> ExitCode {
    let alloc = rt.alloc();
    match run(&rt, alloc) {
        Ok(count) => {
            let _ = println!(rt; "{count}");
            ExitCode::SUCCESS
        }
        Err(_) => ExitCode::FAILURE,
    }
}
