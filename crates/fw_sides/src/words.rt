//! Words of a line.

ghost use Rattle.std.specs.Prelude.{◌≡◌, IfSome, Some, option_copied};
ghost use Rattle.fw_sides.specs.Splits.{with_rest};

/// The first word of a line, and what follows the space behind it, if there is one.
pub(crate) fn first_word(line: &[u8]) -> (&[u8], Option<&[u8]>)
    ensures { line.now ≡ with_rest result.0.now (option_copied result.1) }
{
    match line.iter().position(|byte| *byte == b' ') {
        Some(place) => (&line[..place], Some(&line[place + 1..])),
        None => (line, None),
    }
}

/// The two words of a text, each of a byte or more, if it has two.
pub(crate) fn two_words(text: Option<&[u8]>) -> Option<(&[u8], &[u8])>
    ensures { IfSome result (λ words. option_copied text.entry ≡ Some (with_rest words.0.now (Some words.1.now))) }
{
    let (first, second) = first_word(text?);
    let second = second?;
    if first.is_empty() || second.is_empty() || second.contains(&b' ') {
        return None;
    }
    Some((first, second))
}
