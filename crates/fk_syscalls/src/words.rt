//! Words with one slash between each two, read from a place on. Where there is no place, no word is left.

ghost use Rattle.std.specs.Prelude.{◌≡◌, ◌≤◌, ◌∷◌, Some, length, nat_eq};
ghost use Rattle.std.specs.List.{position};
ghost use Rattle.fk_syscalls.specs.Words.{words_from, IsPlace, IsBehindSlash, AreWords, behind_first};

/// Where the first slash stands.
fn first_slash(bytes: &[u8]) -> Option<usize>
    ensures { result ≡ position (λ b. nat_eq b 47) bytes.now }
{
    bytes.iter().position(|b| *b == b'/')
}

/// The word at a place, and the place of the word behind it, if there is one.
pub(crate) fn word_at(words: &[u8], place: usize) -> (&[u8], Option<usize>)
    requires { place ≤ length words.now }
    ensures words { words_from words.now (Some place) ≡ result.0.now ∷ words_from words.now result.1 }
    ensures place { IsPlace words.now result.1 }
    ensures behind { IsBehindSlash words.now place result.1 }
{
    let rest = &words[place..];
    match first_slash(rest) {
        Some(len) => (&rest[..len], Some(place + len + 1)),
        None => (rest, None),
    }
}

/// The place of the word behind that at a place, if there is one.
pub(crate) fn next_place(words: &[u8], at: Option<usize>) -> Option<usize>
    requires { AreWords words.now at }
    ensures words { words_from words.now result ≡ behind_first (words_from words.now at) }
    ensures left { AreWords words.now result }
{
    match at {
        Some(place) => word_at(words, place).1,
        None => None,
    }
}
