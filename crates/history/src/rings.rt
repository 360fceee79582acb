ghost use Rattle.std.specs.Prelude.{◌≡◌, ◌↔◌, IsTrue};
ghost use Rattle.walk_cache.specs.Rings.{covers_from, newest_by, last_of};
ghost use Rattle.history.specs.Rings.{IsFoundBy, RingSays};

use crate::call::Via;
use gpt_descriptors::Reach;
use walk_cache::covers_from;

/// A walk that an answer names: how far its word reaches, the first byte address that it covers, and
/// the generation that tags it.
#[derive(Clone, Copy, Debug, PartialEq, Eq)]
pub struct Named {
    pub reach: Reach,
    pub first: u64,
    pub tag: u64,
}

impl Named {
    /// Whether the walk covers this byte address.
    fn covers(&self, pa: u64) -> bool
        ensures { result ≡ covers_from self.now.reach self.now.first pa }
    {
        covers_from(self.reach, self.first, pa)
    }
}

/// The last `ring` of these walks.
fn last_in(walks: &[Named], ring: u64) -> &[Named]
    ensures { result.now ≡ last_of ring walks.now }
{
    let dropped = (walks.len() as u64).saturating_sub(ring) as usize;
    &walks[dropped..]
}

/// The last of these walks that covers this byte address, if one does.
fn newest_in(walks: &[Named], pa: u64) -> Option<Named>
    ensures { result ≡ newest_by (λ walk. covers_from walk.reach walk.first pa) walks.now }
{
    walks.iter().rev().copied().find(|walk| walk.covers(pa))
}

/// Whether an access found its GPI so that has found this walk in its ring, or none.
fn is_found_by(newest: Option<Named>, via: &Via) -> bool
    ensures { IsTrue result ↔ IsFoundBy newest via.now }
{
    match (newest, *via) {
        (None, Via::Cold { .. }) => true,
        (Some(walk), Via::Hit { reach, at }) => reach == walk.reach && at == walk.tag,
        (Some(walk), Via::Missed { reach, tag, at, .. }) => {
            reach == walk.reach && tag == walk.tag && at != walk.tag
        }
        _ => false,
    }
}

/// Whether an access to a byte address found its GPI as a ring says that keeps the last `ring` of
/// these walks: all that the processor's earlier answers name, oldest first. Never of an L0 block.
pub fn ring_says(walks: &[Named], ring: u64, pa: u64, via: &Via) -> bool
    ensures { IsTrue result ↔ RingSays walks.now ring pa via.now }
{
    is_found_by(newest_in(last_in(walks, ring), pa), via)
}
