use gpt_descriptors::Gpi;

/// How a region is described: as whole L0 blocks of 1 GB, or granule by granule through an L1
/// table.
#[derive(Clone, Copy, Debug, PartialEq, Eq)]
pub enum Kind {
    Block,
    Granule,
}

/// A region of the protected space with one GPI: the byte address of its base, and its size in
/// bytes.
#[derive(Clone, Copy, Debug, PartialEq, Eq)]
pub struct Region {
    pub base: u64,
    pub size: u64,
    pub kind: Kind,
    pub gpi: Gpi,
}
