//! What a line is, by its words.

ghost use Rattle.std.specs.Prelude.{◌≡◌, ◌==◌, ◌&&◌, codes, bytes_eq, length, map};
ghost use Rattle.fw_expand.specs.Expanding as expanding;

/// The kinds of lines.
#[derive(Clone, Copy, Debug, PartialEq, Eq)]
pub(crate) enum Kind {
    /// A line that is given as it is.
    Ordinary,
    /// `forget`.
    Forget,
    /// `evict all`.
    EvictAll,
    /// `evict PATH`.
    EvictPath,
    /// `call list PATH all` or `call listplus PATH all`.
    ListAll,
}

/// Whether a word is made of bytes from 33 to 126.
pub(crate) fn is_text(word: &[u8]) -> bool
    ensures { result ≡ expanding.is_text word.now }
{
    for byte in word {
        if *byte < 33 || 126 < *byte {
            return false;
        }
    }
    true
}

/// Whether a word begins with a slash.
fn begins_with_slash(word: &[u8]) -> bool
    ensures { result ≡ expanding.begins_with_slash word.now }
{
    matches!(word, [b'/', ..])
}

/// Whether the words are `forget` alone.
fn is_forget(words: &[&[u8]]) -> bool
    ensures { let words = map (λ word. word.now) words.now in
        result ≡ (length words == 1 && bytes_eq (expanding.word_at words 0) (codes "forget")) }
{
    match words {
        [first] => *first == b"forget".as_slice(),
        _ => false,
    }
}

/// Whether the words are `evict` and another.
fn is_evict(words: &[&[u8]]) -> bool
    ensures { result ≡ expanding.is_evict (map (λ word. word.now) words.now) }
{
    match words {
        [first, _] => *first == b"evict".as_slice(),
        _ => false,
    }
}

/// Whether the words are `evict all`.
fn is_evict_all(words: &[&[u8]]) -> bool
    ensures { let words = map (λ word. word.now) words.now in
        result ≡ (expanding.is_evict words && bytes_eq (expanding.word_at words 1) (codes "all")) }
{
    match words {
        [_, second] => is_evict(words) && *second == b"all".as_slice(),
        _ => false,
    }
}

/// Whether the words are `evict` and a path.
fn is_evict_path(words: &[&[u8]]) -> bool
    ensures { result ≡ expanding.is_evict_path (map (λ word. word.now) words.now) }
{
    match words {
        [_, path] => is_evict(words) && begins_with_slash(path) && is_text(path),
        _ => false,
    }
}

/// Whether a call lists a directory.
fn is_list(word: &[u8]) -> bool
    ensures { result ≡ expanding.is_list word.now }
{
    word == b"list".as_slice() || word == b"listplus".as_slice()
}

/// Whether the words list a directory to its end.
fn is_list_all(words: &[&[u8]]) -> bool
    ensures { result ≡ expanding.is_list_all (map (λ word. word.now) words.now) }
{
    match words {
        [call, list, _, all] => {
            *call == b"call".as_slice() && is_list(list) && *all == b"all".as_slice()
        }
        _ => false,
    }
}

/// What a line is. Directories are listed to their end in scripts of calls alone.
pub(crate) fn kind_of(is_of_calls: bool, words: &[&[u8]]) -> Kind
    ensures { result ≡ expanding.kind_of is_of_calls (map (λ word. word.now) words.now) }
{
    if is_forget(words) {
        return Kind::Forget;
    }
    if is_evict_all(words) {
        return Kind::EvictAll;
    }
    if is_evict_path(words) {
        return Kind::EvictPath;
    }
    if is_of_calls && is_list_all(words) {
        Kind::ListAll
    } else {
        Kind::Ordinary
    }
}
