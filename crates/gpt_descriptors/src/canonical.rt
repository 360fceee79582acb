ghost use Rattle.std.specs.Prelude.{◌≡◌, ◌<◌, ◌*◌, ◌+◌, ℕ, Option, Some};
ghost use Rattle.gpi_values.specs.declared.gpi.Gpi.{Gpi};
ghost use Rattle.gpt_descriptors.specs.declared.entry.L1Entry.{L1Entry};
ghost use Rattle.gpt_descriptors.specs.Sizes.{SetupData};
ghost use Rattle.gpt_descriptors.specs.Entries.{l1_entry, word_gpi};
ghost use Rattle.gpt_descriptors.specs.Canonical.{canonical_word, CoversEqual};

/// The law of canonical words: each gives each of its granules the GPI of the map, and where it is
/// contiguous every granule of its aligned block has its GPI. So canonical tables mean their map,
/// and their contiguous entries cover equal granules.
pub fn canonical_words_mean_their_map()
    ensures meaning { (s : SetupData) (m : ℕ → Gpi) (apart : Option ℕ) (w i : ℕ) → i < 16
        → word_gpi (canonical_word s m apart w) i ≡ Some (m (16 * w + i)) }
    ensures covers { (s : SetupData) (m : ℕ → Gpi) (apart : Option ℕ) (w : ℕ) (e : L1Entry)
        → l1_entry (canonical_word s m apart w) ≡ Some e → CoversEqual s m w e }
{}
