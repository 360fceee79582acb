ghost use Rattle.std.specs.Prelude.{◌≡◌, ◌<◌, ◌*◌, ℕ, List, Some};
ghost use Rattle.gpt_descriptors.specs.Sizes.{SetupData, table_words};
ghost use Rattle.gpt_descriptors.specs.Level0.{table_count, l1_index};
ghost use Rattle.gpt_descriptors.specs.Places.{GeometryData, IsGeometry, WordName, IsWordName, place_of, word_count};

/// The law of the places: each named word has a place of its own below the number of words, and
/// two L1 words of the protected space that have one place are one word, within the tables.
pub fn places_are_distinct()
    ensures below { (g : GeometryData) (n : WordName) → IsGeometry g → IsWordName g n
        → place_of g n < word_count g }
    ensures distinct { (g : GeometryData) (a b : WordName) → IsGeometry g → IsWordName g a
        → IsWordName g b → place_of g a ≡ place_of g b → a ≡ b }
    ensures one_word { (s : SetupData) (words : List ℕ) (v w i : ℕ)
        → l1_index s words v ≡ Some i → l1_index s words w ≡ Some i → v ≡ w }
    ensures in_tables { (s : SetupData) (words : List ℕ) (w i : ℕ)
        → l1_index s words w ≡ Some i → i < table_count words * table_words s }
{}
