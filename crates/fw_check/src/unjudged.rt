//! The line that says why a session is not judged any more.

ghost use Rattle.std.specs.Prelude.{◌≡◌, ◌++◌, OnOk};
ghost use Rattle.fw_check.specs.Unjudged as words;

use crate::fault_line::put_number_of_line;
use crate::text::put;
use fuse_protocol::Unjudged;
use std::alloc::{AllocError, Allocator};

/// Why a session is not judged any more: INIT agreed on frames that cannot be read.
pub fn unjudged_words(why: Unjudged) -> &'static str
    ensures { result.now ≡ words.unjudged_words why }
{
    match why {
        Unjudged::Major => "a side speaks another major version than 7",
        Unjudged::Old => "the sides agreed below 7.9, where entries and attributes are shorter",
        Unjudged::New => "the sides agreed above 7.45, whose structs are not known",
        Unjudged::Contexts => {
            "security contexts follow names, and no frame says how long they are"
        }
    }
}

/// The line.
pub(crate) fn put_unjudged_line<A: Allocator>(
    text: &mut Vec<u8, A>,
    number: u64,
    why: Unjudged,
) -> Result<(), AllocError>
    ensures { OnOk result (text.new.items ≡ text.old.items ++ words.unjudged_line number why) }
{
    put_number_of_line(text, number)?;
    put(text, b"not judged from here on: ")?;
    put(text, unjudged_words(why).as_bytes())?;
    put(text, b"\n")
}
