use gpi_values::{Gpi, Source, Space};
use gpt_descriptors::{Generations, Reach, Size};

/// What a call asks for, at a byte address.
#[derive(Clone, Copy, Debug, PartialEq, Eq)]
pub enum Task {
    /// The granule goes from Non-secure to the source (TF-A, `gpt_delegate_pas`).
    Delegate(u64, Source),
    /// The granule goes from the source back to Non-secure (TF-A, `gpt_undelegate_pas`).
    Undelegate(u64, Source),
    /// A call that isn't known to the monitor.
    Unknown,
    /// An access in this space.
    Look(u64, Space),
}

/// What a call is answered.
#[derive(Clone, Copy, Debug, PartialEq, Eq)]
pub enum Answer {
    /// The address isn't aligned to a granule, isn't in the protected space, or has an L0 block.
    Inval,
    /// The call isn't known.
    Unknown,
    /// The granule had this GPI, which isn't the needed one.
    Perm(Gpi),
    /// The generation of this size had this value, too near to the last one.
    Worn(Size, u64),
    /// The granule was changed; the generations around it after that.
    Done(Generations),
    /// An access was checked.
    Seen(Access),
}

/// A checked access: whether it was allowed, by which GPI, and at which level of the tables that
/// stood.
#[derive(Clone, Copy, Debug, PartialEq, Eq)]
pub struct Access {
    pub allowed: bool,
    pub gpi: Gpi,
    pub level: u8,
    pub via: Via,
}

/// A kept walk that covers the address of an access and wasn't used: its reach, its tag, and the
/// generation of its region, which was loaded as `at`.
#[derive(Clone, Copy, Debug, PartialEq, Eq)]
pub struct OldWalk {
    pub reach: Reach,
    pub tag: u64,
    pub at: u64,
}

/// How an access found its GPI. `lo`, `hi` and `at` are loaded generations, `tag` that of a kept
/// walk.
#[derive(Clone, Copy, Debug, PartialEq, Eq)]
pub enum Via {
    /// From an L0 block.
    Still,
    /// From a kept walk of this reach, whose tag was the generation `at`.
    Hit {
        reach: Reach,
        at: u64,
    },
    /// From a walk of this reach, between two loads of its generation. No kept walk covered the
    /// address.
    Cold {
        reach: Reach,
        lo: u64,
        hi: u64,
    },
    /// From a walk of the reach `then`, since the newest kept walk had a tag other than `at`. The
    /// reaches stand side by side, so that an answer takes 56 bytes.
    Missed {
        reach: Reach,
        then: Reach,
        tag: u64,
        at: u64,
        lo: u64,
        hi: u64,
    },
}
