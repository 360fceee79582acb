ghost use Rattle.std.specs.Prelude.{◌≡◌, ℕ, ◌-◌, ◌≤◌, List, [], ◌++◌, length, Some, if◌then◌else◌};
ghost use Rattle.walk_cache.specs.declared.walk.Walk.{Walk};
ghost use Rattle.walk_cache.specs.Rings.{covers, newest_of, last_of, noted, all_noted};

/// The law of rings: walks that are noted one after another leave the last ones, as many as the
/// ring keeps, of all that it ever had; and after a note the newest that covers an address is the
/// noted walk where it covers it, else the newest of those that the ring still has.
#[tactic(auto, using(crate::proofs::RingLemmas::ring_laws))]
pub fn rings_keep_the_last_walks()
    ensures kept { (ring : ℕ) (later walks : List Walk) → 1 ≤ ring → length walks ≤ ring
        → all_noted ring later walks ≡ last_of ring (walks ++ later) }
    ensures newest { (ring : ℕ) (walk : Walk) (walks : List Walk) (pa : ℕ)
        → 1 ≤ ring → length walks ≤ ring
        → newest_of (noted ring walk walks) pa
        ≡ (if covers walk pa then Some walk else newest_of (last_of (ring - 1) walks) pa) }
{}
