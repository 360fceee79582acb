ghost use Rattle.std.specs.Prelude.{◌≡◌, ◌≢◌, ◌⊎◌, ◌≤◌, ◌<◌, ℕ, List, [], ◌∷◌, ◌++◌, Some, true, length};
ghost use Rattle.gpi_values.specs.declared.gpi.Space.{Space};
ghost use Rattle.shared_words.specs.declared.act.Act.{Act};
ghost use Rattle.shared_words.specs.Acts.{place_in, written};
ghost use Rattle.history.specs.declared.call.Task.{Task};
ghost use Rattle.history.specs.declared.call.Answer.{Answer};
ghost use Rattle.history.specs.Events.{CallEvent};
ghost use Rattle.history.specs.Rings.{AreRinged};
ghost use Rattle.walk_cache.specs.declared.walk.Walk.{Walk};
ghost use Rattle.gpt_descriptors.specs.Places.{GeometryData, IsGeometry, WordName, IsWordName};
ghost use Rattle.gpt_descriptors.specs.Places.{Duty, place_of, word_count};
ghost use Rattle.std.specs.List.{All};
ghost use Rattle.alias_clean.specs.Lines.{touch_of};
ghost use Rattle.processor.specs.Accesses.{IsAccess};
ghost use Rattle.processor.specs.Script.{IsCall, IsUnderWay, Follows};
ghost use Rattle.processor.specs.InnerCpus.{CpuData, IsCpu, IsReadable, fresh, task_of, has_ended};
ghost use Rattle.processor.specs.InnerCpus.{next_of, took_of, duty_at};
ghost use Rattle.processor.specs.InnerEntries.{made_at, own_entries};
ghost use Rattle.processor.specs.InnerScript.{HasWalked};

/// The law of the script: processor `p` that is caller `c` follows its script from its beginning,
/// and each next act takes it one event further, with the entries that the script says. Where it
/// has no next act, each access is answered.
pub fn processors_follow_their_script()
    ensures start { (g : GeometryData) (p : ℕ) (tasks : List Task) (c : ℕ)
        → HasWalked c (fresh g p tasks) [] }
    ensures step { (c : ℕ) (q : CpuData) (events : List CallEvent) (next : Act) (old : ℕ)
        → IsCpu q → HasWalked c q events → IsReadable q.stage old → next_of q ≡ Some next
        → HasWalked c (took_of q old) (events ++ record {
          act = next;
          old = old;
          made = made_at q.geometry c (length q.answers) q.stage (task_of q) old;
        } ∷ []) }
    ensures follows { (c : ℕ) (q : CpuData) (events : List CallEvent)
        → IsCpu q → HasWalked c q events
        → Follows q.geometry q.number c q.tasks q.answers events }
    ensures ended { (q : CpuData) → IsCpu q → has_ended q ≡ true
        → length q.answers ≡ length q.tasks }
{}

/// The entries of a processor that is caller `c`: none at its beginning, and with each next act
/// those that the act makes are added. Those of its answered accesses are the ones of its answers.
pub fn processors_make_their_entries()
    ensures start { (g : GeometryData) (p : ℕ) (tasks : List Task) (c : ℕ)
        → own_entries c (fresh g p tasks) ≡ [] }
    ensures step { (c d : ℕ) (q : CpuData) (events : List CallEvent) (next : Act) (old : ℕ)
        → HasWalked d q events → next_of q ≡ Some next
        → own_entries c (took_of q old) ≡ own_entries c q
        ++ made_at q.geometry c (length q.answers) q.stage (task_of q) old }
{}

/// An access makes at most nine acts, and less than nine before it is answered.
pub fn accesses_make_nine_acts()
    ensures answered { (g : GeometryData) (p c n : ℕ) (t : Task) (kept : List Walk) (given : Answer)
        (later : List Walk) (events : List CallEvent)
        → IsCall g p c n t kept given later events → length events ≤ 9 }
    ensures under_way { (g : GeometryData) (p c n : ℕ) (t : Task) (kept : List Walk)
        (events : List CallEvent) → IsUnderWay g p c n t kept events → length events < 9 }
{}

/// The answers of a processor are those of a ring: each access was decided as the newest kept walk
/// that covers its address says, of the last walks that its earlier answers name. Whoever follows
/// the script answers so.
pub fn processors_answer_by_their_rings()
    ensures walked { (c : ℕ) (q : CpuData) (events : List CallEvent) → HasWalked c q events
        → AreRinged q.geometry.setup.ring [] q.tasks q.answers }
    ensures follows { (g : GeometryData) (p c : ℕ) (tasks : List Task) (answers : List Answer)
        (events : List CallEvent) → Follows g p c tasks answers events
        → AreRinged g.setup.ring [] tasks answers }
{}

/// What is known of a processor by how it was made alone, whatever its acts are answered: an act
/// keeps its geometry, its number and its tasks; its next act is made on one of the shared words, and
/// is a load, or on its own duty word, which is 1 from the first act of an access to the last, or
/// makes the line of its access resident.
pub fn processors_keep_to_their_words()
    ensures start { (g : GeometryData) (p : ℕ) (tasks : List Task) → IsGeometry g → p < g.cpus
        → All (IsAccess g) tasks → IsCpu (fresh g p tasks) }
    ensures kept { (q : CpuData) (old : ℕ) → IsCpu q → IsCpu (took_of q old) }
    ensures same { (q : CpuData) (old : ℕ) → ((took_of q old).geometry ≡ q.geometry)
        × ((took_of q old).number ≡ q.number) × ((took_of q old).tasks ≡ q.tasks) }
    ensures named { (q : CpuData) (next : Act) → IsCpu q → next_of q ≡ Some next
        → (n : WordName) × IsWordName q.geometry n × (place_in next ≡ place_of q.geometry n) }
    ensures below { (q : CpuData) (next : Act) → IsCpu q → next_of q ≡ Some next
        → place_in next < word_count q.geometry }
    ensures writes { (q : CpuData) (next : Act) → IsCpu q → next_of q ≡ Some next
        → (next ≡ Act.Load (place_in next))
        ⊎ ((place_in next ≡ place_of q.geometry (Duty q.number))
        ⊎ ((pa : ℕ) × (space : Space) × (task_of q ≡ Some (Task.Look pa space))
        × (touch_of q.geometry pa space ≡ Some next))) }
    ensures duty { (q : CpuData) (next : Act) (old : ℕ) → IsCpu q → next_of q ≡ Some next
        → place_in next ≡ place_of q.geometry (Duty q.number)
        → written next (duty_at q.stage) ≡ duty_at (took_of q old).stage }
    ensures other { (q : CpuData) (next : Act) (old : ℕ) → next_of q ≡ Some next
        → place_in next ≢ place_of q.geometry (Duty q.number)
        → duty_at (took_of q old).stage ≡ duty_at q.stage }
{}
