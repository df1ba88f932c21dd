//! Calls that have names.

ghost use Rattle.std.specs.Prelude.{◌≡◌};
ghost use Rattle.fw_call_names.specs.Naming as naming;
ghost use Rattle.fw_call_names.specs.CallNames.{names_of};

use std::alloc::Allocator;

/// The number of no call.
pub(crate) const NO_CALL: u64 = 0;

/// A call that has a name.
#[derive(Drop)]
pub(crate) struct CallName<A: Allocator> {
    pub(crate) name: Vec<u8, A>,
    pub(crate) number: u64,
}

/// Whether a word is a name: it begins with a letter.
pub(crate) fn is_name(word: &[u8]) -> bool
    ensures { result ≡ naming.is_name word.now }
{
    matches!(word, [b'a'..=b'z' | b'A'..=b'Z', ..])
}

/// The number of the newest call with this name.
pub(crate) fn number_of<A: Allocator>(names: &[CallName<A>], word: &[u8]) -> Option<u64>
    ensures { result ≡ naming.number_of (names_of names.now) word.now }
{
    let mut number = None;
    for call in names {
        if call.name.as_slice() == word {
            number = Some(call.number);
        }
    }
    number
}
