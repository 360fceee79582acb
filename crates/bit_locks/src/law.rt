ghost use Rattle.std.specs.Prelude.{◌≡◌, ℕ, ◌/◌, ◌<◌, ◌↔◌, List, length, slice_index};
ghost use Rattle.std.specs.Prelude.{◌==◌, if◌then◌else◌};
ghost use Rattle.shared_words.specs.Acts.{after_act};
ghost use Rattle.bit_locks.specs.Locks.{bit_with, take_act, release_act, IsFree, lock_bit};

/// The law of the locks: taking one sets its bit and no other lock's, releasing it clears its bit
/// and no other lock's, and its word shows it free exactly where its bit is clear.
pub fn a_lock_is_one_bit()
    ensures taken { (words : List ℕ) (n m : ℕ) → n / 64 < length words
        → lock_bit (after_act (take_act (bit_with n)) words) m
        ≡ (if m == n then 1 else lock_bit words m) }
    ensures released { (words : List ℕ) (n m : ℕ) → n / 64 < length words
        → lock_bit (after_act (release_act (bit_with n)) words) m
        ≡ (if m == n then 0 else lock_bit words m) }
    ensures free { (words : List ℕ) (n : ℕ)
        → IsFree (bit_with n) (slice_index words (n / 64)) ↔ (lock_bit words n ≡ 0) }
{}
