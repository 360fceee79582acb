ghost use Rattle.std.specs.Prelude.{◌≡◌, ℕ, List, ◌++◌, ◌∷◌, Bool, false, Some, slice_get};
ghost use Rattle.std.specs.List.{list_any};
ghost use Rattle.gpi_values.specs.declared.gpi.Gpi.{Gpi};
ghost use Rattle.gpi_values.specs.declared.gpi.Space.{Space};
ghost use Rattle.gpi_values.specs.Values.{permits_of};
ghost use Rattle.history.specs.declared.call.Task.{Task};
ghost use Rattle.history.specs.declared.call.Answer.{Answer};
ghost use Rattle.history.specs.declared.entry.Entry.{Entry};
ghost use Rattle.history.specs.Entries.{changes_granule};
ghost use Rattle.history.specs.States.{State, state_after};
ghost use Rattle.history.specs.Calls.{IsLegalHistory};

/// The law of completion: in a legal history, an access after the completion of a change of its
/// granule, and before the next change of it, has the map's GPI and is allowed by it alone. So it
/// is never granted by the former space.
pub fn settled_means_final()
    ensures { (bytes : ℕ) (tasks : List (List Task)) (answers : List (List Answer)) (s : State)
        (before between after : List Entry) (c k granule other call : ℕ)
        (space : Space) (gpi : Gpi) (allowed : Bool)
        → IsLegalHistory bytes tasks answers s (before ++ (Entry.Settled c k granule
        ∷ (between ++ Entry.Looked other call granule space gpi allowed ∷ after)))
        → list_any (changes_granule granule) between ≡ false
        → (slice_get (state_after s (before ++ Entry.Settled c k granule ∷ between)).map granule
        ≡ Some gpi) × (allowed ≡ permits_of gpi space) }
{}
