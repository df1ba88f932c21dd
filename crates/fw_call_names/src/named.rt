//! The line that stands for one in which calls have names.

ghost use Rattle.std.specs.Prelude.{◌≡◌, IfOk, option_copied};
ghost use Rattle.fuse_text.specs.Words.{words_of};
ghost use Rattle.fw_call_names.specs.CallNames.{names_of};
ghost use Rattle.fw_call_names.specs.Naming.{given_line, name_in};

use crate::name::CallName;
use crate::numbered::make_line;
use crate::split::{split_name, words_of};
use std::alloc::{AllocError, Allocator};

/// Makes a text the line that stands for a raw one. Gives the name that this gives to its call, if it does.
pub(crate) fn make_given<'a, A: Allocator + Copy, B: Allocator>(
    alloc: A,
    names: &[CallName<A>],
    raw: &'a [u8],
    line: &mut Vec<u8, B>,
) -> Result<Option<&'a [u8]>, AllocError>
    ensures line { IfOk result (λ name. line.new.items ≡ given_line (names_of names.now) raw.now) }
    ensures name { IfOk result (λ name. option_copied name ≡ name_in (words_of raw.now)) }
{
    let words = words_of(alloc, raw)?;
    let (kept, name) = split_name(words.as_slice());
    make_line(line, names, kept)?;
    Ok(name)
}
