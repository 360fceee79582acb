ghost use Rattle.std.specs.Prelude.{◌≡◌, ℕ, List, [], ◌∷◌, ◌++◌, None, false};
ghost use Rattle.std.specs.List.{All};
ghost use Rattle.history.specs.declared.call.Task.{Task};
ghost use Rattle.history.specs.declared.call.Answer.{Answer};
ghost use Rattle.history.specs.Legality.{is_done};
ghost use Rattle.history.specs.Events.{CallEvent, plain};
ghost use Rattle.gpt_descriptors.specs.Places.{GeometryData};
ghost use Rattle.bit_locks.specs.Locks.{release_act};
ghost use Rattle.delegate_ops.specs.Deciding.{idle_answer};
ghost use Rattle.delegate_ops.specs.Script.{lock_bit_of, IsCall};
ghost use Rattle.delegate_ops.specs.Quiet.{IsQuiet};

/// The law of refused calls: a call with an answer other than done loads its own L1 word and its
/// own three generations alone, and writes no word but its lock's. Each answered call with acts
/// releases its lock last.
pub fn refused_calls_change_nothing()
    ensures quiet { (g : GeometryData) (c n : ℕ) (t : Task) (answer : Answer)
        (events : List CallEvent)
        → IsCall g c n t (idle_answer g t) answer events → is_done answer ≡ false
        → All (λ e. IsQuiet g t e.act) events }
    ensures unlocks { (g : GeometryData) (c n : ℕ) (t : Task) (answer : Answer)
        (events : List CallEvent)
        → IsCall g c n t (idle_answer g t) answer events → idle_answer g t ≡ None
        → (before : List CallEvent) × (left : ℕ)
        × (events ≡ before ++ plain (release_act (lock_bit_of g t)) left ∷ []) }
{}
