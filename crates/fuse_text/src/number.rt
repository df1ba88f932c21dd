//! Numbers as words.

ghost use Rattle.std.specs.Prelude.{◌≡◌, ◌<◌, ◌^◌, ◌≤◌, ◌↔◌, ◌⊎◌, ℕ, IfSome, IfNone};
ghost use Rattle.std.specs.Prelude.{IsTrue, Some, decimal, length, slice_index};
ghost use Rattle.std.specs.Str.Parse.{AllDigits, digits_value};

/// Whether a word is empty, or begins with a zero before another byte.
fn has_needless_start(word: &[u8]) -> bool
    ensures { IsTrue result ↔ ((length word.now ≡ 0) ⊎ ((slice_index word.now 0 ≡ 48) × (1 < length word.now))) }
{
    matches!(word, [] | [b'0', _, ..])
}

/// The number that the digits of a word write, in one pass.
fn value_of_digits(word: &[u8]) -> Option<u64>
    ensures value { IfSome result (λ n. AllDigits 10 word.now × (n ≡ digits_value 10 word.now)) }
    ensures fits { IfSome result (λ n. n < 2 ^ 64) }
    ensures none { IfNone result (AllDigits 10 word.now → 2 ^ 64 ≤ digits_value 10 word.now) }
{
    let mut number: u64 = 0;
    for byte in word {
        if *byte < b'0' || b'9' < *byte {
            return None;
        }
        let digit = u64::from(*byte - b'0');
        number = number.checked_mul(10)?.checked_add(digit)?;
    }
    Some(number)
}

/// The number that a word writes: decimal, below 2^64, with no sign and no leading zero.
pub fn read_number(word: &[u8]) -> Option<u64>
    ensures value { IfSome result (λ n. word.now ≡ decimal n) }
    ensures each { (n : ℕ) → n < 2 ^ 64 → word.now ≡ decimal n → result ≡ Some n }
{
    if has_needless_start(word) {
        return None;
    }
    value_of_digits(word)
}
