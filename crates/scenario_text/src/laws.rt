//! What is true of all texts.

ghost use Rattle.std.specs.Prelude.{◌≡◌, ℕ, List, None};
ghost use Rattle.scenario_text.specs.declared.scenario.Scenario.{Scenario};
ghost use Rattle.scenario_text.specs.Spelling.{WellFormed, text_of};
ghost use Rattle.scenario_text.specs.Faults.{first_bad};

/// A text without a bad line is that of a scenario, a scenario's text has no bad line, and no two
/// scenarios have one text.
pub fn texts_are_exact()
    ensures read { (bytes : List ℕ) → first_bad bytes ≡ None
        → (s : Scenario) × WellFormed s × (bytes ≡ text_of s) }
    ensures good { (s : Scenario) → WellFormed s → first_bad (text_of s) ≡ None }
    ensures one { (s t : Scenario) → WellFormed s → WellFormed t → text_of s ≡ text_of t → s ≡ t }
{}
