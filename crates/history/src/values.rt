ghost use Rattle.std.specs.Prelude.{◌≡◌, ℕ, ◌+◌, ◌≤◌, ◌↔◌, List, [], Some, slice_get, IsTrue, IfOk, Contains};
ghost use Rattle.gpi_values.specs.declared.gpi.Gpi.{Gpi};
ghost use Rattle.gpt_descriptors.specs.declared.size.Size.{Size};
ghost use Rattle.gpt_descriptors.specs.Sizes.{generation_last, small_granule};
ghost use Rattle.history.specs.declared.entry.Entry.{Entry};
ghost use Rattle.history.specs.Counts.{region_of};
ghost use Rattle.history.specs.Values.{SawAmong, is_change_around, value_after, values_after};
ghost use Rattle.history.specs.Stamps.{gpi_after, Gave, SawBetween};

use crate::entry::Entry;
use gpi_values::Gpi;
use gpt_descriptors::{Size, small_granule};
use std::alloc::{AllocError, Global};

/// Whether an access between the generations `lo` and `hi` of a region saw this GPI: one of those
/// that its granule had after the changes from number `lo` to number `hi + 1`, since the last of
/// them may be made and its generation not raised yet. `values` are the GPIs of the granule after
/// 0, 1, 2 .. changes of the region, and `first` is its generation before any change. `lo` is at
/// least `first`, and `hi` at most the last generation. Generations are in the place of the
/// invalidation of cached walks (DDI 0487, `TLBI PAALLOS` and `RPALOS`).
pub fn saw(values: &[Gpi], first: u64, lo: u64, hi: u64, gpi: Gpi) -> bool
    requires low { first ≤ lo }
    requires high { hi ≤ generation_last }
    ensures { IsTrue result ↔ SawAmong values.now first lo hi gpi }
{
    let start = (lo - first) as usize;
    let end = values.len().min((hi + 2).saturating_sub(first) as usize);
    start < end && has(&values[start..end], gpi)
}

/// Whether one of the values is this GPI.
fn has(values: &[Gpi], gpi: Gpi) -> bool
    ensures { IsTrue result ↔ Contains values.now gpi }
{
    values.contains(&gpi)
}

/// The region of a size around a granule.
fn region(size: Size, granule: u64) -> u64
    ensures { result ≡ region_of small_granule size granule }
{
    granule / (size.bytes() / small_granule())
}

/// Whether the entry changes a granule in the region of this size around a granule.
fn is_change_around(size: Size, granule: u64, entry: &Entry) -> bool
    ensures { result ≡ is_change_around small_granule size granule entry.now }
{
    matches!(entry, Entry::Changed { .. }) && region(size, entry.granule()) == region(size, granule)
}

/// The GPI of a granule after an entry, and before it.
fn value_after(granule: u64, gpi: Gpi, entry: &Entry) -> Gpi
    ensures { result ≡ value_after granule gpi entry.now }
{
    match *entry {
        Entry::Changed {
            granule: other,
            to,
            ..
        } if other == granule => to,
        _ => gpi,
    }
}

/// The GPIs of a granule after 0, 1, 2 .. changes of the region of this size around it, of the GPI
/// that it has before the first of the entries: the values that `saw` asks for.
pub fn values_after(
    alloc: Global,
    gpi: Gpi,
    granule: u64,
    size: Size,
    entries: &[Entry],
) -> Result<Vec<Gpi>, AllocError>
    ensures { IfOk result (λ values.
        values.items ≡ values_after small_granule size granule gpi entries.now) }
{
    let mut values = Vec::new(alloc);
    let mut now = gpi;
    for entry in entries {
        if is_change_around(size, granule, entry) {
            values.push(now)?;
        }
        now = value_after(granule, now, entry);
    }
    values.push(now)?;
    Ok(values)
}

/// The law of these values: the one after `n` changes is the GPI that change number `first + n`
/// gave in the history. So `saw` of them says whether an access between two generations saw a GPI
/// there.
pub fn values_mean_their_history()
    ensures each { (map : List Gpi) (first bytes granule : ℕ) (z : Size) (gpi : Gpi)
        (h : List Entry) (changes : ℕ) (value : Gpi) → gpi_after map [] granule ≡ Some gpi
        → (slice_get (values_after bytes z granule gpi h) changes ≡ Some value)
        ↔ Gave map first bytes granule z (first + changes) value h }
    ensures saw { (map : List Gpi) (first bytes granule : ℕ) (z : Size) (gpi : Gpi)
        (h : List Entry) (lo hi : ℕ) (value : Gpi) → gpi_after map [] granule ≡ Some gpi
        → SawAmong (values_after bytes z granule gpi h) first lo hi value
        ↔ SawBetween map first bytes granule z lo hi value h }
{}
