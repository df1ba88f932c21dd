//! The line of a fault.

ghost use Rattle.std.specs.Prelude.{◌≡◌, ◌++◌, OnOk, codes, decimal};
ghost use Rattle.fuse_sessions.specs.Parties.{party_of};
ghost use Rattle.fw_check.specs.FaultWords as words;

use crate::act_words::put_act;
use crate::past::Past;
use crate::past_words::put_past;
use crate::text::{put, put_counted};
use crate::words::{fault_words, party_word};
use fuse_sessions::{Act, Fault};
use std::alloc::{AllocError, Allocator};

/// Whose fault it is, and the rule that is broken.
pub(crate) fn put_rule<A: Allocator>(text: &mut Vec<u8, A>, fault: Fault) -> Result<(), AllocError>
    ensures { OnOk result (text.new.items
        ≡ text.old.items ++ (words.party_word (party_of fault) ++ codes ": " ++ words.fault_words fault)) }
{
    put(text, party_word(fault.party()).as_bytes())?;
    put(text, b": ")?;
    put(text, fault_words(fault).as_bytes())
}

/// The number of a line, and a colon.
pub(crate) fn put_number_of_line<A: Allocator>(
    text: &mut Vec<u8, A>,
    number: u64,
) -> Result<(), AllocError>
    ensures { OnOk result (text.new.items ≡ text.old.items ++ (codes "line " ++ decimal number ++ codes ": ")) }
{
    put_counted(text, b"line", number)?;
    put(text, b": ")
}

/// The line of a fault, with what is remembered of the lines before.
pub(crate) fn put_fault_line<A: Allocator>(
    text: &mut Vec<u8, A>,
    number: u64,
    past: &Past<A>,
    act: Act,
    fault: Fault,
) -> Result<(), AllocError>
    ensures { OnOk result (text.new.items ≡ text.old.items ++ words.fault_line number past.now.items act fault) }
{
    put_number_of_line(text, number)?;
    put_rule(text, fault)?;
    put_act(text, act)?;
    put_past(text, past, act)?;
    put(text, b"\n")
}
