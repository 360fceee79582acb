ghost use Rattle.std.specs.Prelude.{◌≡◌, Some};
ghost use Rattle.gpt_descriptors.specs.Places.{word_count};
ghost use Rattle.gpt_rme_c.specs.Codes.{done_or, written, bad_data};
ghost use Rattle.gpt_rme_c.specs.Spaces.{max_with, in_range, setup_with, geometry_in, geometry_with};
ghost use Rattle.gpt_rme_c.specs.Spaces.{places_in, places_code, places_found};

use crate::codes::{BAD_ADDRESS, BAD_DATA, DONE};
use bit_locks::lock_of;
use gpt_descriptors::{
    Geometry, MOST_TABLES, MaxBlock, Setup, Size, is_lock_blocks, is_space_size, l0_good,
};

/// A protected space in numbers: `struct gpt_rme_space`.
#[repr(C)]
#[derive(Clone, Copy, Debug)]
pub struct Space {
    /// Gigabytes of the protected space, 4 or 64.
    pub gigabytes: u64,
    /// Blocks of 512 MB that one lock bit covers: 1, 2, 4 or 8, or 0 for one lock over all.
    pub lock_blocks: u64,
    /// L1 tables that there is memory for, at most 16.
    pub tables: u64,
    /// The byte address of the first L1 table.
    pub base: u64,
    /// The largest contiguous size that is used, in MB: 0 for none, 2, 32 or 512.
    pub max: u32,
    /// Processors, at most 32.
    pub cpus: u32,
    /// The L0 words, one for each gigabyte; those above aren't read.
    pub l0: [u64; 64],
}

/// The places of an address among the shared words, by which the acts of a transition are made:
/// `struct gpt_rme_places`. A place is an index of an array of 64-bit words.
#[repr(C)]
#[derive(Clone, Copy, Debug, PartialEq, Eq)]
pub struct PlaceNumbers {
    /// The word of its lock.
    pub lock: u64,
    /// The one bit of its lock in that word.
    pub mask: u64,
    /// Its L1 word.
    pub word: u64,
    /// The granule's field in that word, 0 to 15.
    pub field: u64,
    /// Its line word.
    pub line: u64,
    /// The generations of the 2, 32 and 512 MB around it.
    pub two: u64,
    pub thirty_two: u64,
    pub five_twelve: u64,
}

fn max_of(megabytes: u32) -> Option<MaxBlock>
    ensures { result ≡ max_with megabytes }
{
    match megabytes {
        0 => Some(MaxBlock::Zero),
        2 => Some(MaxBlock::Two),
        32 => Some(MaxBlock::ThirtyTwo),
        512 => Some(MaxBlock::FiveTwelve),
        _ => None,
    }
}

fn is_in_range(space: &Space) -> bool
    ensures { result ≡ in_range space.now }
{
    is_space_size(space.gigabytes)
        && is_lock_blocks(space.lock_blocks)
        && space.tables <= MOST_TABLES
}

fn setup_of(space: &Space) -> Option<Setup>
    ensures { result ≡ setup_with space.now }
{
    if !is_in_range(space) {
        return None;
    }
    let max = max_of(space.max)?;
    Setup::new(
        space.gigabytes,
        max,
        space.lock_blocks,
        0,
        1,
        space.tables,
        space.base,
    )
}

/// The geometry with a setup of this space.
fn geometry_by(space: &Space, setup: Setup) -> Option<Geometry>
    requires { setup_with space.now ≡ Some setup }
    ensures { result ≡ geometry_in space.now setup }
{
    let l0 = &space.l0[..space.gigabytes as usize];
    if space.cpus <= 32 && l0_good(&setup, l0) {
        Some(Geometry::new(setup, space.cpus, l0))
    } else {
        None
    }
}

#[tactic(auto, unfolding(crate::specs::Spaces::geometry_with))]
fn geometry_of(space: &Space) -> Option<Geometry>
    ensures { result ≡ geometry_with space.now }
{
    match setup_of(space) {
        Some(setup) => geometry_by(space, setup),
        None => None,
    }
}

fn places_of(geometry: &Geometry, pa: u64) -> Option<PlaceNumbers>
    ensures { result ≡ places_in geometry.now pa }
{
    if !geometry.inside(pa) {
        return None;
    }
    let word = geometry.l1_place(pa)?;
    let line = geometry.line_place(pa)?;
    let lock = lock_of(geometry, pa);
    Some(PlaceNumbers {
        lock: lock.place as u64,
        mask: lock.mask,
        word: word as u64,
        field: geometry.place_in_word(pa),
        line: line as u64,
        two: geometry.gen_place(Size::Two, pa) as u64,
        thirty_two: geometry.gen_place(Size::ThirtyTwo, pa) as u64,
        five_twelve: geometry.gen_place(Size::FiveTwelve, pa) as u64,
    })
}

/// The number of shared words of a space. `BAD_DATA` exactly where a number of the space is out of
/// range or its L0 words aren't a good table.
#[unsafe(no_mangle)]
pub extern "C" fn gpt_rme_word_count(space: &Space, count: &mut u64) -> i32
    ensures code { result ≡ done_or bad_data (geometry_with space.now) }
    ensures count { count.new ≡ written word_count count.old (geometry_with space.now) }
{
    match geometry_of(space) {
        Some(geometry) => {
            *count = geometry.words() as u64;
            DONE
        }
        None => BAD_DATA,
    }
}

/// The places of a byte address. `BAD_DATA` exactly where the space is refused as by
/// `gpt_rme_word_count`, else `BAD_ADDRESS` exactly where the address isn't in the space or its L0
/// entry is a block.
#[unsafe(no_mangle)]
pub extern "C" fn gpt_rme_places(space: &Space, pa: u64, out: &mut PlaceNumbers) -> i32
    ensures code { result ≡ places_code (geometry_with space.now) pa }
    ensures out { out.new ≡ written (λ p. p) out.old (places_found (geometry_with space.now) pa) }
{
    let Some(geometry) = geometry_of(space) else {
        return BAD_DATA;
    };
    match places_of(&geometry, pa) {
        Some(places) => {
            *out = places;
            DONE
        }
        None => BAD_ADDRESS,
    }
}
