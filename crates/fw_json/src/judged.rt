//! The lines that the judge of sessions prints.

ghost use Rattle.std.specs.Prelude.{◌≡◌, ◌≤◌, MatchOption, None, Some, drop, length};
ghost use Rattle.fw_json.specs.Objects as table;

use crate::field::is_number;
use fuse_text::split_at;

/// What such a line says first.
#[derive(Clone, Copy)]
pub(crate) struct Judged<'a> {
    /// The number of the frame.
    pub number: &'a [u8],
    /// Whose fault it is, or `warning`.
    pub party: &'a [u8],
}

/// Whether a text is a space and a party.
fn is_party_behind_space(text: &[u8]) -> bool
    ensures { result ≡ table.is_party text.now }
{
    text == b" kernel".as_slice()
        || text == b" server".as_slice()
        || text == b" device".as_slice()
        || text == b" warning".as_slice()
}

/// What is left of a text behind its first bytes.
fn behind(text: &[u8], count: usize) -> &[u8]
    requires { count ≤ length text.now }
    ensures { result.now ≡ drop count text.now }
{
    &text[count..]
}

/// The number and the party, from what stands before the first two colons of a line.
fn judged_in<'a>(frame: &'a [u8], party: &'a [u8]) -> Option<Judged<'a>>
    ensures { MatchOption result (table.judged_in frame.entry.now party.entry.now ≡ None)
        (λ judged. table.judged_in frame.entry.now party.entry.now ≡ Some (judged.number.now, judged.party.now)) }
{
    if !frame.starts_with(b"frame ") {
        return None;
    }
    let number = behind(frame, 6);
    if !is_number(number) {
        return None;
    }
    if !is_party_behind_space(party) {
        return None;
    }
    Some(Judged {
        number,
        party: behind(party, 1),
    })
}

/// The number and the party of a line `frame N: PARTY: ..`.
pub(crate) fn read_judged(line: &[u8]) -> Option<Judged<'_>>
    ensures { MatchOption result (table.judged_of line.now ≡ None)
        (λ judged. table.judged_of line.now ≡ Some (judged.number.now, judged.party.now)) }
{
    let (frame, rest) = split_at(line, b':');
    let (party, rest) = split_at(rest?, b':');
    let (_rule, _rest) = split_at(rest?, b':');
    judged_in(frame, party)
}
