ghost use Rattle.std.specs.Prelude.{◌≡◌};
ghost use Rattle.history.specs.Entries.{granule_in};

use gpi_values::{Gpi, Space};

/// An entry of a history, made by one act of one call of one caller, both counted from 0, on a
/// granule, by its number.
#[derive(Clone, Copy, Debug, PartialEq, Eq)]
pub enum Entry {
    /// A transition was refused: the granule had the GPI `found`.
    Refused {
        caller: u32,
        call: u32,
        granule: u64,
        found: Gpi,
    },
    /// The granule was changed.
    Changed {
        caller: u32,
        call: u32,
        granule: u64,
        from: Gpi,
        to: Gpi,
    },
    /// The change is complete: until the next one of the granule no access is decided by the former
    /// GPI.
    Settled {
        caller: u32,
        call: u32,
        granule: u64,
    },
    /// An access was decided by this GPI.
    Looked {
        caller: u32,
        call: u32,
        granule: u64,
        space: Space,
        gpi: Gpi,
        allowed: bool,
    },
}

impl Entry {
    /// The granule of the entry.
    pub fn granule(&self) -> u64
        ensures { result ≡ granule_in self.now }
    {
        match *self {
            Entry::Refused { granule, .. }
            | Entry::Changed { granule, .. }
            | Entry::Settled { granule, .. }
            | Entry::Looked { granule, .. } => granule,
        }
    }
}
