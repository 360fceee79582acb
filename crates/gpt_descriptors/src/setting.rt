ghost use Rattle.std.specs.Prelude.{◌≡◌, ◌*◌, ◌<◌, ◌≤◌, ◌^◌, ◌↔◌, IsTrue, IsSome, IfSome};
ghost use Rattle.gpt_descriptors.specs.Sizes.{small_granule, IsSpaceSize, IsLockBlocks};

use crate::size::{GEN_LAST, MaxBlock, Size};
use std::marker::Model;

/// Bytes that one L0 entry covers: 1 GB, the field L0GPTSZ of GPCCR_EL3 at 30 bits.
pub const REGION_BYTES: u64 = 1 << 30;

/// The most walks that a processor may keep.
pub const MOST_WALKS: u64 = 64;

/// The most L1 tables that a setup may have.
pub const MOST_TABLES: u64 = 16;

/// Whether the protected space may have these gigabytes: 4 or 64 (two values of the field PPS of
/// GPCCR_EL3).
pub fn is_space_size(gigabytes: u64) -> bool
    ensures { IsTrue result ↔ IsSpaceSize gigabytes }
{
    matches!(gigabytes, 4 | 64)
}

/// Whether one lock bit may cover this number of blocks of 512 MB: 0 for one lock over all, 1, 2, 4
/// or 8 (TF-A `RME_GPT_BITLOCK_BLOCK`).
pub fn is_lock_blocks(blocks: u64) -> bool
    ensures { IsTrue result ↔ IsLockBlocks blocks }
{
    matches!(blocks, 0 | 1 | 2 | 4 | 8)
}

/// Bytes of a granule of 4 KB, the one value of the field PGS of GPCCR_EL3 in this profile.
pub fn small_granule() -> u64
    ensures value { result ≡ small_granule }
    ensures range { (4096 ≤ result) × (result ≤ 65536) }
{
    4096
}

/// The setup of a protected space.
#[derive(Clone, Copy, Debug)]
pub struct Setup {
    gigabytes: u64,
    max: MaxBlock,
    lock_blocks: u64,
    first: u64,
    ring: u64,
    tables: u64,
    base: u64,
}

impl Model for Setup {
    ghost use Rattle.gpt_descriptors.specs.Sizes.{SetupData, IsSetup};

    ghost Value = { SetupData };

    ghost view = { λ a. record {
      gigabytes = a.gigabytes;
      max = a.max;
      lock_blocks = a.lock_blocks;
      first = a.first;
      ring = a.ring;
      tables = a.tables;
      base = a.base;
    } };

    ghost invariant = { λ a. IsSetup (record {
      gigabytes = a.gigabytes;
      max = a.max;
      lock_blocks = a.lock_blocks;
      first = a.first;
      ring = a.ring;
      tables = a.tables;
      base = a.base;
    }) };

    ghost inverse = { λ s. record {
      gigabytes = s.gigabytes;
      max = s.max;
      lock_blocks = s.lock_blocks;
      first = s.first;
      ring = s.ring;
      tables = s.tables;
      base = s.base;
    } };
}

impl Setup {
    ghost use Rattle.gpt_descriptors.specs.Sizes.{SetupData, IsSetup, granule_bytes, word_bytes, words_of, table_words};

    /// A setup, or `None` exactly where a field is out of range.
    ///
    /// - `gigabytes`: the protected space (PPS), 4 or 64 GB.
    /// - `max`: the largest contiguous size that is used (TF-A `RME_GPT_MAX_BLOCK`).
    /// - `lock_blocks`: blocks of 512 MB that one lock bit covers (TF-A `RME_GPT_BITLOCK_BLOCK`):
    ///   1, 2, 4 or 8, or 0 for one lock.
    /// - `first`: the value of every generation at the start, at most `GEN_LAST`.
    /// - `ring`: walks that a processor keeps, 1 to `MOST_WALKS`.
    /// - `tables`: L1 tables that there is memory for, at most `MOST_TABLES`.
    /// - `base`: the address of the first L1 table, any.
    pub fn new(
        gigabytes: u64,
        max: MaxBlock,
        lock_blocks: u64,
        first: u64,
        ring: u64,
        tables: u64,
        base: u64,
    ) -> Option<Setup>
        ensures accepted { IsSome result ↔ IsSetup (record {
          gigabytes = gigabytes;
          max = max;
          lock_blocks = lock_blocks;
          first = first;
          ring = ring;
          tables = tables;
          base = base;
        }) }
        ensures kept { IfSome result (λ s. s ≡ record {
          gigabytes = gigabytes;
          max = max;
          lock_blocks = lock_blocks;
          first = first;
          ring = ring;
          tables = tables;
          base = base;
        }) }
    {
        let good = is_space_size(gigabytes)
            && is_lock_blocks(lock_blocks)
            && first <= GEN_LAST
            && 1 <= ring
            && ring <= MOST_WALKS
            && tables <= MOST_TABLES;
        if !good {
            return None;
        }
        Some(Setup {
            gigabytes,
            max,
            lock_blocks,
            first,
            ring,
            tables,
            base,
        })
    }

    /// Gigabytes of the protected space.
    pub fn gigabytes(&self) -> u64
        ensures value { result ≡ self.now.gigabytes }
        ensures range { IsSetup self.now }
    {
        self.gigabytes
    }

    /// The largest contiguous size that is used.
    pub fn max(&self) -> MaxBlock
        ensures { result ≡ self.now.max }
    {
        self.max
    }

    /// Blocks of 512 MB that one lock bit covers, 0 for one lock over all.
    pub fn lock_blocks(&self) -> u64
        ensures value { result ≡ self.now.lock_blocks }
        ensures range { IsSetup self.now }
    {
        self.lock_blocks
    }

    /// The value of every generation at the start.
    pub fn first(&self) -> u64
        ensures value { result ≡ self.now.first }
        ensures range { IsSetup self.now }
    {
        self.first
    }

    /// Walks that a processor keeps.
    pub fn ring(&self) -> u64
        ensures value { result ≡ self.now.ring }
        ensures range { IsSetup self.now }
    {
        self.ring
    }

    /// L1 tables that there is memory for.
    pub fn tables(&self) -> u64
        ensures value { result ≡ self.now.tables }
        ensures range { IsSetup self.now }
    {
        self.tables
    }

    /// The address of the first L1 table.
    pub fn base(&self) -> u64
        ensures value { result ≡ self.now.base }
        ensures range { result < 2 ^ 64 }
    {
        self.base
    }

    /// Bytes of a granule.
    #[tactic(auto, unfolding(crate::specs::Sizes::granule_bytes))]
    pub fn granule_bytes(&self) -> u64
        ensures value { result ≡ granule_bytes self.now }
        ensures range { (4096 ≤ result) × (result ≤ 65536) }
    {
        small_granule()
    }

    /// Bytes that an L1 word covers: sixteen granules.
    #[tactic(auto, unfolding(crate::specs::Sizes::granule_bytes, crate::specs::Sizes::word_bytes))]
    pub fn word_bytes(&self) -> u64
        ensures value { result ≡ word_bytes self.now }
        ensures range { (65536 ≤ result) × (result ≤ 1048576) }
    {
        16 * self.granule_bytes()
    }

    /// L1 words of a contiguous block.
    #[tactic(auto, unfolding(crate::specs::Sizes::granule_bytes, crate::specs::Sizes::word_bytes, crate::specs::Sizes::words_of))]
    pub fn words_of(&self, size: Size) -> u64
        ensures value { result ≡ words_of self.now size }
        ensures range { (2 ≤ result) × (result ≤ 8192) }
    {
        size.bytes() / self.word_bytes()
    }

    /// L1 words of a table, which covers 1 GB.
    #[tactic(auto, unfolding(crate::specs::Sizes::granule_bytes, crate::specs::Sizes::word_bytes, crate::specs::Sizes::table_words))]
    pub fn table_words(&self) -> u64
        ensures value { result ≡ table_words self.now }
        ensures range { (1024 ≤ result) × (result ≤ 16384) }
    {
        REGION_BYTES / self.word_bytes()
    }
}
