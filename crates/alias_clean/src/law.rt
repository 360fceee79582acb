ghost use Rattle.std.specs.Prelude.{◌≡◌, ℕ, ◌<◌, ◌==◌, ◌||◌, ◌&&◌, not, Some};
ghost use Rattle.std.specs.Int.{bit_at};
ghost use Rattle.gpi_values.specs.declared.gpi.Space.{Space};
ghost use Rattle.gpt_descriptors.specs.Sizes.{place_in_word};
ghost use Rattle.gpt_descriptors.specs.Places.{GeometryData};
ghost use Rattle.shared_words.specs.declared.act.Act.{Act};
ghost use Rattle.shared_words.specs.Acts.{written};
ghost use Rattle.alias_clean.specs.Lines.{space_bit, is_resident, line_bits, is_line, touch_of, clean_of};

/// The law of lines: a touch makes one line resident and a clean makes one line not resident, each
/// that of its own granule and space; every other line of the word is as before. The bits of a
/// place say which of its lines are resident.
pub fn acts_mark_one_line()
    ensures touched { (g : GeometryData) (pa : ℕ) (s : Space) (touch : Act) (word k : ℕ) (t : Space)
        → k < 16 → touch_of g pa s ≡ Some touch
        → is_resident (written touch word) k t
        ≡ (is_line (place_in_word g.setup pa) s k t || is_resident word k t) }
    ensures cleaned { (g : GeometryData) (pa : ℕ) (s : Space) (clean : Act) (word k : ℕ) (t : Space)
        → k < 16 → clean_of g pa s ≡ Some clean
        → is_resident (written clean word) k t
        ≡ (not (is_line (place_in_word g.setup pa) s k t) && is_resident word k t) }
    ensures shown { (word k : ℕ) (t : Space) → k < 16
        → is_resident word k t ≡ (bit_at (line_bits word k) (space_bit t) == 1) }
{}
