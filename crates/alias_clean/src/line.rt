ghost use Rattle.std.specs.Prelude.{◌≡◌, ◌<◌, ◌↔◌, IsTrue, IsSome};
ghost use Rattle.gpt_descriptors.specs.Sizes.{space_bytes};
ghost use Rattle.gpt_descriptors.specs.Level0.{is_table};
ghost use Rattle.gpt_descriptors.specs.Places.{l0_word_of};
ghost use Rattle.alias_clean.specs.Lines.{space_bit, mask_of, is_resident, line_bits, touch_of, clean_of};

use gpi_values::Space;
use gpt_descriptors::Geometry;
use shared_words::Act;

/// The bit of a space among the four of a granule, 0 to 3.
fn space_bit(space: Space) -> u64
    ensures bit { result ≡ space_bit space }
    ensures range { result < 4 }
{
    match space {
        Space::Secure => 0,
        Space::NonSecure => 1,
        Space::Root => 2,
        Space::Realm => 3,
    }
}

/// The word that has the bit of a granule's place in its line word, 0 to 15, and of a space alone.
pub fn line_mask(place: u64, space: Space) -> u64
    requires { place < 16 }
    ensures { result ≡ mask_of place space }
{
    1 << (4 * place + space_bit(space))
}

/// The act by which an access of an address in the protected space makes its line resident, or
/// `None` exactly where the L0 entry of the address is a block.
pub fn touch(geometry: &Geometry, pa: u64, space: Space) -> Option<Act>
    requires inside { pa < space_bytes geometry.now.setup }
    ensures act { result ≡ touch_of geometry.now pa space }
    ensures table { IsSome result ↔ IsTrue (is_table (l0_word_of geometry.now pa)) }
{
    let mask = line_mask(geometry.place_in_word(pa), space);
    match geometry.line_place(pa) {
        Some(place) => Some(Act::Or(place, mask)),
        None => None,
    }
}

/// The act that cleans and invalidates the line of an address in the protected space, or `None`
/// exactly where the L0 entry of the address is a block.
pub fn clean(geometry: &Geometry, pa: u64, space: Space) -> Option<Act>
    requires inside { pa < space_bytes geometry.now.setup }
    ensures act { result ≡ clean_of geometry.now pa space }
    ensures table { IsSome result ↔ IsTrue (is_table (l0_word_of geometry.now pa)) }
{
    let mask = line_mask(geometry.place_in_word(pa), space);
    match geometry.line_place(pa) {
        Some(place) => Some(Act::And(place, !mask)),
        None => None,
    }
}

/// Whether the line of a granule's place, 0 to 15, and a space is resident, by their line word.
pub fn is_resident(word: u64, place: u64, space: Space) -> bool
    requires { place < 16 }
    ensures { result ≡ is_resident word place space }
{
    (word >> (4 * place + space_bit(space))) % 2 == 1
}

/// The bits of a granule's place, 0 to 15, in its line word: bit 0 for Secure, 1 for Non-secure, 2
/// for Root and 3 for Realm.
pub fn lines(word: u64, place: u64) -> u64
    requires { place < 16 }
    ensures bits { result ≡ line_bits word place }
    ensures range { result < 16 }
{
    (word >> (4 * place)) % 16
}
