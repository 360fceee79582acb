ghost use Rattle.std.specs.Prelude.{◌≡◌, ℕ, List, Some, length, slice_get};
ghost use Rattle.gpt_descriptors.specs.Places.{GeometryData, WordName, IsWordName, place_of, l1_words, word_count};
ghost use Rattle.shared_words.specs.Start.{start_words, start_word};

/// The law of the starting words: there are as many as the geometry says, and each named word is
/// at its place.
pub fn start_words_are_named()
    ensures count { (g : GeometryData) (l1 : List ℕ)
        → length l1 ≡ l1_words g → length (start_words g l1) ≡ word_count g }
    ensures named { (g : GeometryData) (l1 : List ℕ) (n : WordName)
        → length l1 ≡ l1_words g → IsWordName g n
        → slice_get (start_words g l1) (place_of g n) ≡ Some (start_word g l1 n) }
{}
