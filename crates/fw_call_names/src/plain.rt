//! A script without names, for one in which calls have names.

ghost use Rattle.std.specs.Prelude.{◌≡◌, ◌≢◌, ◌++◌, ◌∷◌, [], ℕ, IfOk, List, MatchOption, None, OnOk, Option, flat_map, option_to_list};
ghost use Rattle.std.specs.List.{join_with_byte};
ghost use Rattle.fuse_text.specs.Lines.{lines_of};
ghost use Rattle.fw_call_names.specs.CallNames.{begun_of, names_of};
ghost use Rattle.fw_call_names.specs.Naming.{Named, Names, given_line};
ghost use Rattle.fw_call_names.specs.PlainScripts as plain;
ghost use Rattle.fw_call_names.specs.PlainScripts.{BeginAlike};

use crate::lines::begin;
use crate::name::CallName;
use crate::named::make_given;
use fw_script::Lines;
use std::alloc::{AllocError, Allocator};

/// The number that each name stands for where no call is made.
const ANY_CALL: u64 = 1;

/// The call that a line began has its name.
fn keep<A: Allocator>(
    names: &mut Vec<CallName<A>, A>,
    begun: Option<CallName<A>>,
) -> Result<(), AllocError>
    ensures { OnOk result (names_of names.new.items ≡ names_of names.old.items ++ option_to_list (begun_of begun)) }
{
    if let Some(call) = begun {
        names.push(call)?;
    }
    Ok(())
}

/// Puts the line that stands for a raw one, with a line feed, and keeps the name that this gives.
fn put_plain<A: Allocator + Copy>(
    alloc: A,
    names: &mut Vec<CallName<A>, A>,
    raw: &[u8],
    text: &mut Vec<u8, A>,
) -> Result<(), AllocError>
    ensures text { OnOk result (text.new.items
        ≡ text.old.items ++ given_line (names_of names.old.items) raw.now ++ 10 ∷ []) }
    ensures names { OnOk result (names_of names.new.items ≡ plain.names_behind (names_of names.old.items) raw.now) }
{
    let mut line = Vec::new(alloc);
    let name = make_given(alloc, names.as_slice(), raw, &mut line)?;
    let begun = begin(alloc, name, ANY_CALL)?;
    keep(names, begun)?;
    text.extend_from_slice(line.as_slice())?;
    text.push(b'\n')?;
    Ok(())
}

/// The lines that stand for those of a script, each with a line feed.
fn put_all<A: Allocator + Copy>(alloc: A, script: &[u8]) -> Result<Vec<u8, A>, AllocError>
    ensures { IfOk result (λ text. text.items ≡ flat_map (λ line. line ++ 10 ∷ []) (plain.plain_script script.now)) }
{
    let mut names = Vec::new(alloc);
    let mut text = Vec::new(alloc);
    for raw in Lines::of(script) {
        put_plain(alloc, &mut names, raw, &mut text)?;
    }
    Ok(text)
}

/// The text of the lines that stand for those of a script.
fn make_plain<A: Allocator + Copy>(alloc: A, script: &[u8]) -> Result<Vec<u8, A>, AllocError>
    ensures { IfOk result (λ text. text.items ≡ join_with_byte 10 (plain.plain_script script.now)) }
{
    let mut text = put_all(alloc, script)?;
    let _feed = text.pop();
    Ok(text)
}

/// A script with the number 1 in place of each name that an earlier line gave to a call, and without what gave it: by this
/// a script with names can be judged, line for line, before any of it is run. None where it is the script itself.
///
/// # Errors
///
/// Out of memory.
pub fn plain_script<A: Allocator + Copy>(
    alloc: A,
    script: &[u8],
) -> Result<Option<Vec<u8, A>>, AllocError>
    ensures plain { IfOk result (λ made. MatchOption made (plain.plain_script script.now ≡ lines_of script.now)
        (λ text. (lines_of text.items ≡ plain.plain_script script.now)
        × (plain.plain_script script.now ≢ lines_of script.now))) }
    // Whatever numbers the calls of a run get, the lines that it is given are these, but for numbers.
    ensures alike { (raw rest given : List (List ℕ)) (names : Names) (begun : Option (List ℕ × ℕ)) →
        lines_of script.now ≡ raw ++ rest → Named [] None raw given names begun →
        BeginAlike (plain.plain_script script.now) given }
{
    let text = make_plain(alloc, script)?;
    if text.as_slice() == script {
        Ok(None)
    } else {
        Ok(Some(text))
    }
}
