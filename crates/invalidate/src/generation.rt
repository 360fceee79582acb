ghost use Rattle.std.specs.Prelude.{◌≡◌, ◌<◌};
ghost use Rattle.gpt_descriptors.specs.Sizes.{generation_last, space_bytes};
ghost use Rattle.invalidate.specs.Generations.{gen_load_of, gen_raise_of};

use gpt_descriptors::{Geometry, Size};
use shared_words::Act;

/// The act that loads the generation of the region of this size around a byte address in the
/// protected space.
pub fn gen_load(geometry: &Geometry, size: Size, pa: u64) -> Act
    requires inside { pa < space_bytes geometry.now.setup }
    ensures { result ≡ gen_load_of geometry.now size pa }
{
    Act::Load(geometry.gen_place(size, pa))
}

/// The act that raises this generation, which was loaded as `old`, below the last one, to one more.
pub fn gen_raise(geometry: &Geometry, size: Size, pa: u64, old: u64) -> Act
    requires inside { pa < space_bytes geometry.now.setup }
    requires room { old < generation_last }
    ensures { result ≡ gen_raise_of geometry.now size pa old }
{
    Act::Store(geometry.gen_place(size, pa), old + 1)
}
