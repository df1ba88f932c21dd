//! The object of a line.

ghost use Rattle.std.specs.Prelude.{◌≡◌, ◌++◌, ◌∷◌, OnOk, IfOk, codes, option_copied};
ghost use Rattle.fuse_text.specs.Words.{words_left, words_of};
ghost use Rattle.fw_json.specs.Asked as asked_table;
ghost use Rattle.fw_json.specs.Fields.{key_text, string_field};
ghost use Rattle.fw_json.specs.Objects as table;
ghost use Rattle.fw_json.specs.Putting.{PutsIf};

use crate::asked::{Asked, Called, read_asked, read_called};
use crate::event::Event;
use crate::field::{put_fields, put_key, put_string_field};
use crate::judged::{Judged, read_judged};
use crate::key::Key;
use crate::text::put;
use fuse_text::split_at;
use std::alloc::{AllocError, Allocator};

/// Puts what an object begins with.
fn put_head<A: Allocator>(
    text: &mut Vec<u8, A>,
    is_first: bool,
    event: &[u8],
) -> Result<(), AllocError>
    ensures { OnOk result (text.new.items ≡ text.old.items ++ table.head is_first event.now) }
{
    put(text, b"{\"event\":\"")?;
    put(text, event)?;
    put(text, b"\"")?;
    if is_first {
        put(text, b",\"schema\":1")?;
    }
    Ok(())
}

/// Puts the object of a line that has the words of an event. Says whether it has.
fn put_event<A: Allocator>(
    text: &mut Vec<u8, A>,
    is_first: bool,
    line: &[u8],
) -> Result<bool, AllocError>
    ensures { IfOk result (PutsIf text.old.items text.new.items (table.event_object is_first (words_of line.now))) }
{
    let (word, words) = split_at(line, b' ');
    let Some(event) = Event::of(word) else {
        return Ok(false);
    };
    put_head(text, is_first, word)?;
    if !put_fields(text, event.keys(), event.list_key(), words)? {
        return Ok(false);
    }
    put(text, b"}\n")?;
    Ok(true)
}

/// Puts an object that has the whole line.
fn put_whole<A: Allocator>(
    text: &mut Vec<u8, A>,
    is_first: bool,
    event: &[u8],
    line: &[u8],
) -> Result<(), AllocError>
    ensures { OnOk result (text.new.items ≡ text.old.items ++ table.whole_object is_first event.now line.now) }
{
    put_head(text, is_first, event)?;
    put_string_field(text, Key::Text, line)?;
    put(text, b"}\n")
}

/// Puts a key and a number last.
fn put_number_field<A: Allocator>(
    text: &mut Vec<u8, A>,
    key: Key,
    number: &[u8],
) -> Result<(), AllocError>
    ensures { OnOk result (text.new.items ≡ text.old.items ++ (key_text key ++ number.now)) }
{
    put_key(text, key)?;
    put(text, number)
}

/// Puts the number of a frame, and the line.
fn put_frame<A: Allocator>(
    text: &mut Vec<u8, A>,
    number: &[u8],
    line: &[u8],
) -> Result<(), AllocError>
    ensures { OnOk result (text.new.items ≡ text.old.items ++ table.frame_fields number.now line.now) }
{
    put_key(text, Key::Frame)?;
    put(text, number)?;
    put_string_field(text, Key::Text, line)
}

/// Puts the object of a warning.
fn put_warning<A: Allocator>(
    text: &mut Vec<u8, A>,
    is_first: bool,
    line: &[u8],
    number: &[u8],
) -> Result<(), AllocError>
    ensures { OnOk result (text.new.items
        ≡ text.old.items ++ table.object is_first (codes "warning") (table.frame_fields number.now line.now)) }
{
    put_head(text, is_first, b"warning")?;
    put_frame(text, number, line)?;
    put(text, b"}\n")
}

/// Puts a party, the number of a frame, and the line.
fn put_blame<A: Allocator>(
    text: &mut Vec<u8, A>,
    party: &[u8],
    number: &[u8],
    line: &[u8],
) -> Result<(), AllocError>
    ensures { OnOk result (text.new.items ≡ text.old.items ++ table.blame_fields party.now number.now line.now) }
{
    put_string_field(text, Key::Party, party)?;
    put_frame(text, number, line)
}

/// Puts the object of a fault that is a party's.
fn put_blamed<A: Allocator>(
    text: &mut Vec<u8, A>,
    is_first: bool,
    line: &[u8],
    number: &[u8],
    party: &[u8],
) -> Result<(), AllocError>
    ensures { OnOk result (text.new.items ≡ text.old.items ++ table.object is_first (codes "fault")
        (table.blame_fields party.now number.now line.now)) }
{
    put_head(text, is_first, b"fault")?;
    put_blame(text, party, number, line)?;
    put(text, b"}\n")
}

/// Puts the object of a line that the judge of sessions printed.
fn put_judged<A: Allocator>(
    text: &mut Vec<u8, A>,
    is_first: bool,
    line: &[u8],
    judged: Judged<'_>,
) -> Result<(), AllocError>
    ensures { OnOk result (text.new.items ≡ text.old.items
        ++ table.judged_object is_first line.now judged.entry.number.now judged.entry.party.now) }
{
    if judged.party == b"warning".as_slice() {
        put_warning(text, is_first, line, judged.number)
    } else {
        put_blamed(text, is_first, line, judged.number, judged.party)
    }
}

/// Whether a line says what a server did wrong.
fn is_fault(line: &[u8]) -> bool
    ensures { result ≡ table.is_fault line.now }
{
    line.starts_with(b"no reply's head")
        || line.starts_with(b"reply to nothing")
        || line.starts_with(b"second reply")
        || line.starts_with(b"body is not its request's")
        || line.starts_with(b"the root given for a name")
        || line.starts_with(b"node ")
        || line.starts_with(b"differs: ")
}

/// Whether a line says why a run ended before its script.
fn is_end(line: &[u8]) -> bool
    ensures { result ≡ table.is_end line.now }
{
    line.starts_with(b"no reply")
        || line.starts_with(b"server ended")
        || line.starts_with(b"device failed")
}

/// The event of a line that has no words of an event's own.
fn kind_word(line: &[u8]) -> &'static [u8]
    ensures { result.now ≡ table.kind_word line.now }
{
    if is_fault(line) {
        b"fault"
    } else if is_end(line) {
        b"end"
    } else {
        b"line"
    }
}

/// Puts the call that a request serves.
fn put_called<A: Allocator>(text: &mut Vec<u8, A>, called: Called<'_>) -> Result<(), AllocError>
    ensures { OnOk result (text.new.items
        ≡ text.old.items ++ asked_table.called_fields (Some (called.entry.call.now, called.entry.line.now))) }
{
    put_number_field(text, Key::Call, called.call)?;
    put_number_field(text, Key::Line, called.line)
}

/// Puts the call that a request serves by the words behind it, if they name one.
fn put_served<A: Allocator>(text: &mut Vec<u8, A>, words: Option<&[u8]>) -> Result<(), AllocError>
    ensures { OnOk result (text.new.items ≡ text.old.items
        ++ asked_table.called_fields (asked_table.called_words (words_left (option_copied words.entry)))) }
{
    match read_called(words) {
        Some(called) => put_called(text, called),
        None => Ok(()),
    }
}

/// Puts the opcode and the call of a request.
fn put_named<A: Allocator>(
    text: &mut Vec<u8, A>,
    opcode: &[u8],
    words: Option<&[u8]>,
) -> Result<(), AllocError>
    ensures { OnOk result (text.new.items ≡ text.old.items ++ (string_field Key.Opcode opcode.now
        ++ asked_table.called_fields (asked_table.called_words (words_left (option_copied words.entry))))) }
{
    put_string_field(text, Key::Opcode, opcode)?;
    put_served(text, words)
}

/// Puts a request.
fn put_request<A: Allocator>(text: &mut Vec<u8, A>, asked: Asked<'_>) -> Result<(), AllocError>
    ensures { OnOk result (text.new.items ≡ text.old.items ++ asked_table.asked_fields
        (Some (asked.entry.opcode.now, asked.entry.unique.now, words_left (option_copied asked.entry.rest)))) }
{
    put_number_field(text, Key::Unique, asked.unique)?;
    put_named(text, asked.opcode, asked.rest)
}

/// Puts the request that a line names, if it names one.
fn put_asked<A: Allocator>(text: &mut Vec<u8, A>, line: &[u8]) -> Result<(), AllocError>
    ensures { OnOk result (text.new.items
        ≡ text.old.items ++ asked_table.asked_fields (asked_table.asked_of line.now)) }
{
    match read_asked(line) {
        Some(asked) => put_request(text, asked),
        None => Ok(()),
    }
}

/// Puts the fields of a fault or an end.
fn put_finding_fields<A: Allocator>(text: &mut Vec<u8, A>, line: &[u8]) -> Result<(), AllocError>
    ensures { OnOk result (text.new.items ≡ text.old.items
        ++ (asked_table.asked_fields (asked_table.asked_of line.now) ++ string_field Key.Text line.now)) }
{
    put_asked(text, line)?;
    put_string_field(text, Key::Text, line)
}

/// Puts the object of a fault or an end.
fn put_finding<A: Allocator>(
    text: &mut Vec<u8, A>,
    is_first: bool,
    line: &[u8],
) -> Result<(), AllocError>
    ensures { OnOk result (text.new.items ≡ text.old.items ++ table.finding_object is_first line.now) }
{
    put_head(text, is_first, kind_word(line))?;
    put_finding_fields(text, line)?;
    put(text, b"}\n")
}

/// Puts the object of a line that has no words of an event's own, nor those of the judge of sessions.
fn put_kind<A: Allocator>(
    text: &mut Vec<u8, A>,
    is_first: bool,
    line: &[u8],
) -> Result<(), AllocError>
    ensures { OnOk result (text.new.items ≡ text.old.items ++ table.kind_object is_first line.now) }
{
    if is_fault(line) || is_end(line) {
        put_finding(text, is_first, line)
    } else {
        put_whole(text, is_first, kind_word(line), line)
    }
}

/// Puts the object of a line that has no words of an event's own.
fn put_other<A: Allocator>(
    text: &mut Vec<u8, A>,
    is_first: bool,
    line: &[u8],
) -> Result<(), AllocError>
    ensures { OnOk result (text.new.items ≡ text.old.items
        ++ table.other_object is_first line.now (table.judged_of line.now)) }
{
    match read_judged(line) {
        Some(judged) => put_judged(text, is_first, line, judged),
        None => put_kind(text, is_first, line),
    }
}

/// What a line of a comment says.
fn uncommented(line: &[u8]) -> &[u8]
    ensures { result.now ≡ table.uncommented line.now }
{
    if line.starts_with(b"# ") {
        &line[2..]
    } else {
        line
    }
}

/// Makes a text the object of a line, which has no line feed.
pub(crate) fn make_object<A: Allocator>(
    text: &mut Vec<u8, A>,
    is_first: bool,
    line: &[u8],
) -> Result<(), AllocError>
    ensures { OnOk result (text.new.items ≡ table.json_line is_first line.now) }
{
    let said = uncommented(line);
    text.clear();
    if put_event(text, is_first, said)? {
        return Ok(());
    }
    text.clear();
    put_other(text, is_first, said)
}
