ghost use Rattle.std.specs.Prelude.{◌≡◌, ◌<◌, ◌↔◌, IsTrue};
ghost use Rattle.gpt_descriptors.specs.Sizes.{space_bytes};
ghost use Rattle.gpt_descriptors.specs.Places.{Lock, IsWordName, place_of};
ghost use Rattle.bit_locks.specs.Locks.{lock_number, bit_with, take_act, release_act, IsFree};

use gpt_descriptors::{Geometry, Size};
use shared_words::Act;

/// A lock bit: the place of its shared word, and a mask with that bit alone.
#[derive(Clone, Copy, Debug, PartialEq, Eq)]
pub struct Bit {
    pub place: usize,
    pub mask: u64,
}

/// The lock bit of a byte address in the protected space: the first one where the setup has one
/// lock for all, else that of its blocks of 512 MB (TF-A `gpt_rme`, bitlocks).
pub fn lock_of(geometry: &Geometry, pa: u64) -> Bit
    requires { pa < space_bytes geometry.now.setup }
    ensures bit { result ≡ bit_with (lock_number geometry.now.setup pa) }
    ensures named { IsWordName geometry.now (Lock result.place) }
    ensures range { lock_number geometry.now.setup pa < 128 }
{
    let setup = geometry.setup();
    let number = match setup.lock_blocks() {
        0 => 0,
        blocks => pa / Size::FiveTwelve.bytes() / blocks,
    };
    Bit {
        place: (number / 64) as usize,
        mask: 1 << (number % 64),
    }
}

/// The act that takes a lock. It took it exactly where its answer `was_free`.
pub fn take(bit: Bit) -> Act
    ensures { result ≡ take_act bit }
{
    Act::Or(bit.place, bit.mask)
}

/// The act that releases a lock.
pub fn drop_act(bit: Bit) -> Act
    ensures { result ≡ release_act bit }
{
    Act::And(bit.place, !bit.mask)
}

/// Whether this lock word, as an act that takes the lock answered it, had the lock free.
pub fn was_free(bit: Bit, old: u64) -> bool
    ensures { IsTrue result ↔ IsFree bit old }
{
    old & bit.mask == 0
}
