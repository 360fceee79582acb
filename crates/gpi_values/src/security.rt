ghost use Rattle.std.specs.Prelude.{◌≡◌};
ghost use Rattle.gpi_values.specs.Values.{own_of};

use crate::gpi::Gpi;

/// The security state on whose behalf a granule is delegated or undelegated.
#[derive(Clone, Copy, Debug, PartialEq, Eq)]
pub enum Source {
    Realm,
    Secure,
}

/// The security state that makes a monitor call.
#[derive(Clone, Copy, Debug, PartialEq, Eq)]
pub enum World {
    Realm,
    Secure,
    NonSecure,
}

/// The GPI of a granule that belongs to this source.
pub fn own(source: Source) -> Gpi
    ensures { result ≡ own_of source }
{
    match source {
        Source::Realm => Gpi::Realm,
        Source::Secure => Gpi::Secure,
    }
}
