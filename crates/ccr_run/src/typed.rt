//! What stands among the words that are typed.
ghost use Rattle.std.specs.Prelude.{◌≡◌, map, option_map, slice_get, string_bytes};
ghost use Rattle.ccr_run.specs.Typed as spec;

/// The word at a place, if there is one.
pub fn word_at(words: &[String], at: usize) -> Option<&str>
    ensures { option_map (λ word. word.now) result ≡ slice_get (map string_bytes words.now) at }
{
    match words.get(at) {
        Some(word) => Some(word.as_str()),
        None => None,
    }
}

/// Whether a word is an option.
pub fn is_option(word: &str) -> bool
    ensures { result ≡ spec.is_option word.now }
{
    match word.as_bytes().first() {
        Some(first) => *first == b'-',
        None => false,
    }
}

/// Whether a word is one of these.
pub fn has_word(words: &[String], word: &str) -> bool
    ensures { result ≡ spec.has_word word.now (map string_bytes words.now) }
{
    for each in words {
        if each.as_str() == word {
            return true;
        }
    }
    false
}

/// Whether one of these words begins with the name of an option.
pub fn has_option(words: &[String], option: &str) -> bool
    ensures { result ≡ spec.has_option option.now (map string_bytes words.now) }
{
    for word in words {
        if word.as_bytes().starts_with(option.as_bytes()) {
            return true;
        }
    }
    false
}
