// The names of stores.
ghost use Rattle.std.specs.Prelude.{◌↔◌, IsTrue, Any};
ghost use Rattle.region_words.specs.Stores.{IsId, is_path_mark};

// What means something in a path.
const PATH_MARKS: [u8; 9] = *b"\\/:*?\"<>|";

/// Whether a word is the ID of a store.
pub fn is_id(word: &[u8]) -> bool
    ensures { IsTrue result ↔ IsId word.now }
{
    !word.is_empty()
        && word.len() <= 200
        && std::str::from_utf8(word).is_ok()
        && !word.ends_with(b".crc")
        && !has_path_mark(word)
}

fn has_path_mark(word: &[u8]) -> bool
    ensures { IsTrue result ↔ Any (λ b. IsTrue (is_path_mark b)) word.now }
{
    word.iter().any(|b| PATH_MARKS.contains(b))
}
