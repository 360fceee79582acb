ghost use Rattle.std.specs.Prelude.{◌≡◌, ◌≢◌, ◌≤◌, IfOk, IfErr, OnOk, None, length, map, true, false, if◌then◌else◌};
ghost use Rattle.std.specs.List.{list_all};
ghost use Rattle.region_plan.specs.Refusals.{refusal};
ghost use Rattle.table_build.specs.Built.{tables_of, is_bad_base};
ghost use Rattle.gpt_rme_build_c.specs.Numbers.{setup_with, is_region, region_as};
ghost use Rattle.gpt_rme_build_c.specs.Answers.{done, plan_verdict, fits, room_verdict, AnswersRegions};
ghost use Rattle.gpt_rme_build_c.specs.Answers.{IsCause, IsAnswered, laid, AreLaid, AreLaidFor};

use crate::numbers::{RegionNumbers, SetupNumbers, are_regions, regions_of, setup_of};
use gpt_descriptors::Setup;
use region_plan::{Plan, PlanError, Region};
use std::alloc::Global;
use table_build::{BuildError, Tables, build};

/// The two numbers beside a code: `struct gpt_rme_told`.
#[repr(C)]
#[derive(Clone, Copy, Debug, PartialEq, Eq)]
pub struct Told {
    pub first: u64,
    pub second: u64,
}

/// What is answered.
#[derive(Clone, Copy, Debug, PartialEq, Eq)]
pub struct Verdict {
    code: i32,
    told: Told,
}

fn says(code: i32, first: u64, second: u64) -> Verdict
    ensures { result ≡ record { code = code; told = record { first = first; second = second } } }
{
    Verdict {
        code,
        told: Told { first, second },
    }
}

fn refused(error: PlanError) -> Verdict
    ensures verdict { result ≡ plan_verdict error }
    ensures refused { result.code ≢ done }
{
    match error {
        PlanError::Empty => says(-10, 0, 0),
        PlanError::TooMany => says(-11, 0, 0),
        PlanError::Unaligned(index) => says(-12, index as u64, 0),
        PlanError::Outside(index) => says(-13, index as u64, 0),
        PlanError::NotBlock(index) => says(-14, index as u64, 0),
        PlanError::Overlap(first, second) => says(-15, first as u64, second as u64),
        PlanError::NoTables(need) => says(-16, need, 0),
        PlanError::Memory => says(-4, 0, 0),
    }
}

/// The tables of regions, or why there are none. Want of memory is answered where no rule refuses
/// them, or before one is known.
fn tables_for(alloc: Global, setup: &Setup, regions: &[Region]) -> Result<Tables, Verdict>
    ensures built { IfOk result (λ t. t ≡ tables_of setup.now regions.now) }
    ensures accepted { OnOk result (refusal setup.now regions.now ≡ None) }
    ensures good { OnOk result (is_bad_base setup.now regions.now ≡ false) }
    ensures cause { IfErr result (λ v. IsCause setup.now regions.now v) }
    ensures refused { IfErr result (λ v. v.code ≢ done) }
{
    let plan = match Plan::plan(alloc, regions, setup) {
        Ok(plan) => plan,
        Err(error) => return Err(refused(error)),
    };
    match build(alloc, &plan, setup.base()) {
        Ok(tables) => Ok(tables),
        Err(BuildError::BadBase(_)) => Err(says(-17, 0, 0)),
        Err(BuildError::Memory) => Err(says(-4, 0, 0)),
    }
}

/// Lays words at the beginning of an array.
fn lay(words: &[u64], out: &mut [u64])
    requires { length words.now ≤ length out.old }
    ensures words { out.new ≡ laid words.now out.old }
{
    out[..words.len()].copy_from_slice(words);
}

/// Lays tables into arrays, where they fit.
fn lay_tables(tables: &Tables, l0: &mut [u64], l1: &mut [u64]) -> Verdict
    ensures verdict { result
        ≡ room_verdict tables.now.l0 tables.now.l1 (length l0.old) (length l1.old) }
    ensures laid { result.code ≡ done
        → (l0.new ≡ laid tables.now.l0 l0.old) × (l1.new ≡ laid tables.now.l1 l1.old) }
    ensures kept { result.code ≢ done → (l0.new ≡ l0.old) × (l1.new ≡ l1.old) }
{
    let (words, more) = (tables.l0().len(), tables.l1().len());
    if words > l0.len() || more > l1.len() {
        return says(-5, words as u64, more as u64);
    }
    lay(tables.l0(), l0);
    lay(tables.l1(), l1);
    says(0, words as u64, more as u64)
}

/// Builds the tables of regions with a setup into arrays.
fn build_for(
    alloc: Global,
    setup: &Setup,
    numbers: &[RegionNumbers],
    l0: &mut [u64],
    l1: &mut [u64],
) -> Verdict
    requires { list_all is_region numbers.now ≡ true }
    ensures verdict { AnswersRegions setup.now numbers.now (length l0.old) (length l1.old) result }
    ensures built { result.code ≡ done
        → AreLaid setup.now (map region_as numbers.now) l0.old l1.old l0.new l1.new }
    ensures kept { result.code ≢ done → (l0.new ≡ l0.old) × (l1.new ≡ l1.old) }
{
    let Ok(regions) = regions_of(alloc, numbers) else {
        return says(-4, 0, 0);
    };
    match tables_for(alloc, setup, &regions) {
        Ok(tables) => lay_tables(&tables, l0, l1),
        Err(verdict) => verdict,
    }
}

fn build_by(
    alloc: Global,
    setup: &SetupNumbers,
    regions: &[RegionNumbers],
    l0: &mut [u64],
    l1: &mut [u64],
) -> Verdict
    ensures verdict { IsAnswered setup.now regions.now (length l0.old) (length l1.old) result }
    ensures built { result.code ≡ done
        → AreLaidFor (setup_with setup.now) (map region_as regions.now)
        l0.old l1.old l0.new l1.new }
    ensures kept { result.code ≢ done → (l0.new ≡ l0.old) × (l1.new ≡ l1.old) }
{
    match setup_of(setup) {
        Some(setup) if are_regions(regions) => build_for(alloc, &setup, regions, l0, l1),
        _ => says(-1, 0, 0),
    }
}

/// Builds the canonical tables of regions: one L0 word for each gigabyte, and the words of the L1
/// tables that are needed, one table after another, at the beginning of `l0` and of `l1`. The words
/// behind them stay.
///
/// 0: they are built, and `told` has their numbers of L0 and of L1 words. Else no word is written:
/// - -1: a number stands for nothing;
/// - -10: there are no regions; -11: there are more than 256;
/// - -12: a region's base or size isn't a multiple of the granule, or it is empty; -13: it ends above
///   the space; -14: it is of blocks, and not of whole gigabytes (`told.first` is its index);
/// - -15: two regions share a granule (`told` has both indices);
/// - -16: there are too few tables (`told.first` is how many are needed);
/// - -17: the base isn't a multiple of a table's bytes, or the last table ends above 2^52;
/// - -5: an array is too short (`told` has the numbers of words that are needed);
/// - -4: memory ran out, instead of what is answered with more of it.
///
/// The first of these causes is answered. What isn't told is 0.
#[unsafe(no_mangle)]
pub extern "C" fn gpt_rme_build(
    alloc: Global,
    setup: &SetupNumbers,
    regions: &[RegionNumbers],
    l0: &mut [u64],
    l1: &mut [u64],
    told: &mut Told,
) -> i32
    ensures verdict { IsAnswered setup.now regions.now (length l0.old) (length l1.old)
        (record { code = result; told = told.new }) }
    ensures built { result ≡ done
        → AreLaidFor (setup_with setup.now) (map region_as regions.now)
        l0.old l1.old l0.new l1.new }
    ensures kept { result ≢ done → (l0.new ≡ l0.old) × (l1.new ≡ l1.old) }
{
    let verdict = build_by(alloc, setup, regions, l0, l1);
    *told = verdict.told;
    verdict.code
}
