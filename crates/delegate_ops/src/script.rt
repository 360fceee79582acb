ghost use Rattle.std.specs.Prelude.{◌≡◌, ℕ, List, [], ◌∷◌, ◌++◌, Some, true, length};
ghost use Rattle.shared_words.specs.declared.act.Act.{Act};
ghost use Rattle.history.specs.declared.call.Task.{Task};
ghost use Rattle.history.specs.Events.{CallEvent};
ghost use Rattle.gpt_descriptors.specs.Places.{GeometryData};
ghost use Rattle.delegate_ops.specs.InnerAgents.{AgentData, IsAgent, fresh, task_of, next_of, took_of, has_ended};
ghost use Rattle.delegate_ops.specs.Script.{Follows};
ghost use Rattle.delegate_ops.specs.InnerScript.{HasWalked};
ghost use Rattle.delegate_ops.specs.InnerEntries.{made_at};

/// The law of the script: an agent that is caller `c` follows its script from its beginning, and
/// each next act, whatever it answers, takes it one event further, with the entries that the script
/// says. Where it has no next act, each task is answered.
pub fn agents_follow_their_script()
    ensures start { (g : GeometryData) (tasks : List Task) (c : ℕ)
        → HasWalked c (fresh g tasks) [] }
    ensures step { (c : ℕ) (a : AgentData) (events : List CallEvent) (next : Act) (old : ℕ)
        → IsAgent a → HasWalked c a events → next_of a ≡ Some next
        → HasWalked c (took_of a old) (events ++ record {
          act = next;
          old = old;
          made = made_at a.geometry c (length a.answers) a.stage (task_of a) old;
        } ∷ []) }
    ensures follows { (c : ℕ) (a : AgentData) (events : List CallEvent)
        → IsAgent a → HasWalked c a events → Follows a.geometry c a.tasks a.answers events }
    ensures ended { (c : ℕ) (a : AgentData) (events : List CallEvent)
        → IsAgent a → HasWalked c a events → has_ended a ≡ true
        → length a.answers ≡ length a.tasks }
{}
