ghost use Rattle.std.specs.Prelude.{◌≡◌, [], map, slice_get, string_bytes, unwrap_or};
ghost use Rattle.std.specs.List.{count_by};
ghost use Rattle.rm_words.specs.Words.{are_names, has_flags, is_unknown, names, stands_once, times_said};
ghost use Rattle.rm_types.specs.Texts.{is_flag};

/// Whether a word begins with `-`.
pub(crate) fn is_flag(word: &str) -> bool
    ensures { result ≡ is_flag word.now }
{
    match word.as_bytes() {
        [first, ..] => *first == b'-',
        [] => false,
    }
}

/// How many of the words begin with `-`.
fn flags(words: &[String]) -> usize
    ensures { result ≡ count_by is_flag (map string_bytes words.now) }
{
    words.iter().filter(|word| is_flag(word.as_str())).count()
}

/// Whether no word begins with `-`.
pub fn are_names(words: &[String]) -> bool
    ensures { result ≡ are_names (map string_bytes words.now) }
{
    flags(words) == 0
}

/// Whether a word begins with `-` and is none of the two flags.
pub(crate) fn is_unknown(word: &str) -> bool
    ensures { result ≡ is_unknown word.now }
{
    is_flag(word) && word != "--file" && word != "--moves"
}

/// How often a word stands among the words.
fn times(word: &str, words: &[String]) -> usize
    ensures { result ≡ times_said word.now (map string_bytes words.now) }
{
    words.iter().filter(|one| one.as_str() == word).count()
}

/// Whether a word stands once at most.
pub(crate) fn stands_once(word: &str, words: &[String]) -> bool
    ensures { result ≡ stands_once word.now (map string_bytes words.now) }
{
    times(word, words) < 2
}

/// How many other flags there are among the words.
fn unknowns(words: &[String]) -> usize
    ensures { result ≡ count_by is_unknown (map string_bytes words.now) }
{
    words
        .iter()
        .filter(|word| is_unknown(word.as_str()))
        .count()
}

/// Whether no flag is unknown, and each stands once at most.
pub(crate) fn has_flags(words: &[String]) -> bool
    ensures { result ≡ has_flags (map string_bytes words.now) }
{
    unknowns(words) == 0 && stands_once("--file", words) && stands_once("--moves", words)
}

/// The word at a place among those that name something, for the texts about a call; empty where there is none.
pub fn name_at(words: &[String], place: usize) -> &str
    ensures { result.now ≡ unwrap_or (slice_get (names (map string_bytes words.now)) place) [] }
{
    words
        .iter()
        .map(|word| word.as_str())
        .filter(|word| !is_flag(word))
        .nth(place)
        .unwrap_or("")
}
