ghost use Rattle.std.specs.Prelude.{◌≡◌, ◌≤◌, [], ◌∷◌, ◌++◌, List, IfOk, IfSome, IfNone, true, false};
ghost use Rattle.std.specs.List.{All};
ghost use Rattle.gpt_descriptors.specs.Sizes.{most_walks};
ghost use Rattle.walk_cache.specs.Rings.{covers, newest_of, last_of, noted, IsLastCovering};

use crate::walk::Walk;
use circular_buffer::HeapCircularBuffer;
use std::alloc::{AllocError, Global};
use std::marker::Model;

/// The ring of a processor's last walks: it keeps up to a number of them, from 1 to 64, and a walk
/// that is noted in a full ring drops the oldest.
#[derive(Debug, Drop)]
pub struct WalkCache {
    walks: HeapCircularBuffer<Walk>,
}

impl Model for WalkCache {
    ghost use Rattle.walk_cache.specs.Rings.{RingData, IsRing};

    ghost Value = { RingData };

    ghost view = { λ c. record { walks = c.walks.items; ring = c.walks.capacity } };

    ghost invariant = { λ c. IsRing
        (record { walks = c.walks.items; ring = c.walks.capacity }) };
}

/// The last of these walks that covers this byte address, if one does.
#[inline(always)]
fn newest_in(walks: &[Walk], pa: u64) -> Option<Walk>
    ensures { result ≡ newest_of walks.now pa }
{
    walks.iter().rev().copied().find(|walk| walk.covers(pa))
}

/// The last of these walks, in two parts, that covers this byte address, if one does.
#[tactic(auto, using(crate::proofs::RingLemmas::newest_of_parts))]
#[inline(always)]
fn newest_in_parts(older: &[Walk], newer: &[Walk], pa: u64) -> Option<Walk>
    ensures { result ≡ newest_of (older.now ++ newer.now) pa }
{
    match newest_in(newer, pa) {
        Some(walk) => Some(walk),
        None => newest_in(older, pa),
    }
}

impl WalkCache {
    /// An empty ring that keeps this number of walks, from 1 to 64.
    pub fn new(alloc: Global, ring: u64) -> Result<WalkCache, AllocError>
        requires low { 1 ≤ ring }
        requires high { ring ≤ most_walks }
        ensures { IfOk result (λ c. c ≡ record { walks = []; ring = ring }) }
    {
        Ok(WalkCache {
            walks: HeapCircularBuffer::with_capacity(alloc, ring as usize)?,
        })
    }

    /// The newest walk that covers this byte address, or `None` exactly where none covers it.
    #[tactic(auto, using(crate::proofs::RingLemmas::newest_facts))]
    #[inline(always)]
    pub fn newest(&self, pa: u64) -> Option<Walk>
        ensures newest { result ≡ newest_of self.now.walks pa }
        ensures found { IfSome result (λ walk. IsLastCovering self.now.walks pa walk) }
        ensures none { IfNone result (All (λ walk. covers walk pa ≡ false) self.now.walks) }
    {
        let (older, newer) = self.walks.as_slices();
        newest_in_parts(older, newer, pa)
    }

    /// Notes a walk, as the newest. Where the ring is full it drops the oldest.
    pub fn note(&mut self, walk: Walk)
        ensures noted { self.new
            ≡ record { walks = noted self.old.ring walk self.old.walks; ring = self.old.ring } }
        ensures last { self.new.walks
            ≡ last_of self.old.ring (self.old.walks ++ walk ∷ []) }
    {
        self.walks.push_back(walk);
    }
}
