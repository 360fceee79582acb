ghost use Rattle.std.specs.Prelude.{◌≡◌, ◌≢◌, ◌⊎◌, ◌↔◌, IsTrue, IfSome, IfNone};
ghost use Rattle.gpi_values.specs.Values.{value_of, gpi_with, gpi_of_space, permits_of};

/// Granule protection information: which physical address spaces may access a granule (DDI 0487,
/// encodings of the GPI field).
#[derive(Clone, Copy, Debug, PartialEq, Eq)]
pub enum Gpi {
    /// 0b0000, no accesses permitted: `GPT_GPI_NO_ACCESS`.
    NoAccess,
    /// 0b1000, accesses to Secure physical address space only: `GPT_GPI_SECURE`.
    Secure,
    /// 0b1001, accesses to Non-secure physical address space only: `GPT_GPI_NS`.
    NonSecure,
    /// 0b1010, accesses to Root physical address space only: `GPT_GPI_ROOT`.
    Root,
    /// 0b1011, accesses to Realm physical address space only: `GPT_GPI_REALM`.
    Realm,
    /// 0b1111, all accesses permitted: `GPT_GPI_ANY`.
    Any,
}

/// A physical address space, the one that an access is made in.
#[derive(Clone, Copy, Debug, PartialEq, Eq)]
pub enum Space {
    Secure,
    NonSecure,
    Root,
    Realm,
}

/// The four-bit value of a GPI in a descriptor, 0 to 15 (DDI 0487, encodings of the GPI field).
pub fn nibble(gpi: Gpi) -> u64
    ensures { result ≡ value_of gpi }
{
    match gpi {
        Gpi::NoAccess => 0b0000,
        Gpi::Secure => 0b1000,
        Gpi::NonSecure => 0b1001,
        Gpi::Root => 0b1010,
        Gpi::Realm => 0b1011,
        Gpi::Any => 0b1111,
    }
}

/// The GPI with this value, or `None` exactly where no accepted GPI has it (DDI 0487, encodings of
/// the GPI field; the values that it reserves or gives to later extensions are refused).
pub fn gpi_of(value: u64) -> Option<Gpi>
    ensures found { IfSome result (λ gpi. value ≡ value_of gpi) }
    ensures none { IfNone result ((gpi : Gpi) → value ≢ value_of gpi) }
    ensures exact { result ≡ gpi_with value }
{
    match value {
        0b0000 => Some(Gpi::NoAccess),
        0b1000 => Some(Gpi::Secure),
        0b1001 => Some(Gpi::NonSecure),
        0b1010 => Some(Gpi::Root),
        0b1011 => Some(Gpi::Realm),
        0b1111 => Some(Gpi::Any),
        _ => None,
    }
}

/// Whether a granule with this GPI may be accessed in this space: where the GPI is any access or
/// that of the space (DDI 0487, granule protection checks).
pub fn permits(gpi: Gpi, space: Space) -> bool
    ensures meaning { IsTrue result ↔ ((gpi ≡ Gpi.Any) ⊎ (gpi ≡ gpi_of_space space)) }
    ensures exact { result ≡ permits_of gpi space }
{
    match (gpi, space) {
        (Gpi::Any, _)
        | (Gpi::Secure, Space::Secure)
        | (Gpi::NonSecure, Space::NonSecure)
        | (Gpi::Root, Space::Root)
        | (Gpi::Realm, Space::Realm) => true,
        _ => false,
    }
}
