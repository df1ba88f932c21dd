//! A script by which one is judged whose lines may stand for several.

ghost use Rattle.std.specs.Prelude.{◌≡◌, ◌≢◌, ◌++◌, ◌∷◌, [], IfOk, MatchOption, OnOk, flat_map};
ghost use Rattle.std.specs.List.{join_with_byte};
ghost use Rattle.fuse_text.specs.Lines.{lines_of};
ghost use Rattle.fw_expand.specs.Expanding.{is_of_calls as of_calls};
ghost use Rattle.fw_expand.specs.Scripts.{judged_line};
ghost use Rattle.fw_expand.specs.Scripts as scripts;

use crate::kind::{Kind, kind_of};
use crate::lines::is_of_calls;
use crate::parts::parts_of;
use crate::put::without_all;
use fw_drive::Form;
use fw_script::Lines;
use std::alloc::{AllocError, Allocator};

/// Puts the line by which a raw one is judged.
fn put_judged<A: Allocator>(kind: Kind, raw: &[u8], text: &mut Vec<u8, A>) -> Result<(), AllocError>
    ensures { OnOk result (text.new.items ≡ text.old.items ++ scripts.judged_as kind raw.now) }
{
    match kind {
        Kind::Ordinary => text.extend_from_slice(raw),
        Kind::ListAll => {
            text.extend_from_slice(without_all(raw))?;
            text.push(b'0')?;
            Ok(())
        }
        Kind::Forget | Kind::EvictAll | Kind::EvictPath => text.extend_from_slice(b"show"),
    }
}

/// Puts the line by which a raw one is judged, with a line feed.
fn put_line<A: Allocator + Copy>(
    alloc: A,
    is_of_calls: bool,
    raw: &[u8],
    text: &mut Vec<u8, A>,
) -> Result<(), AllocError>
    ensures { OnOk result (text.new.items ≡ text.old.items ++ judged_line is_of_calls raw.now ++ 10 ∷ []) }
{
    let words = parts_of(alloc, raw, b' ')?;
    put_judged(kind_of(is_of_calls, words.as_slice()), raw, text)?;
    text.push(b'\n')?;
    Ok(())
}

/// The lines by which those of a script are judged, each with a line feed.
fn put_all<A: Allocator + Copy>(
    alloc: A,
    is_of_calls: bool,
    script: &[u8],
) -> Result<Vec<u8, A>, AllocError>
    ensures { IfOk result (λ text. text.items
        ≡ flat_map (λ line. line ++ 10 ∷ []) (scripts.expandable_script is_of_calls script.now)) }
{
    let mut text = Vec::new(alloc);
    for raw in Lines::of(script) {
        put_line(alloc, is_of_calls, raw, &mut text)?;
    }
    Ok(text)
}

/// The text of the lines by which those of a script are judged.
fn make_expandable<A: Allocator + Copy>(
    alloc: A,
    is_of_calls: bool,
    script: &[u8],
) -> Result<Vec<u8, A>, AllocError>
    ensures { IfOk result (λ text. text.items ≡ join_with_byte 10 (scripts.expandable_script is_of_calls script.now)) }
{
    let mut text = put_all(alloc, is_of_calls, script)?;
    let _feed = text.pop();
    Ok(text)
}

/// A script with a good line in place of each that stands for several, if these are good themselves: `show`, and for a
/// directory that is listed to its end the first call of these. By this a script can be judged, line for line, before any
/// of it is run. None where it is the script itself.
///
/// # Errors
///
/// Out of memory.
pub fn expandable_script<A: Allocator + Copy>(
    alloc: A,
    form: Form,
    script: &[u8],
) -> Result<Option<Vec<u8, A>>, AllocError>
    ensures { let judged = scripts.expandable_script (of_calls form) script.now in
        IfOk result (λ made. MatchOption made (judged ≡ lines_of script.now)
        (λ text. (lines_of text.items ≡ judged) × (judged ≢ lines_of script.now))) }
{
    let text = make_expandable(alloc, is_of_calls(form), script)?;
    if text.as_slice() == script {
        Ok(None)
    } else {
        Ok(Some(text))
    }
}
