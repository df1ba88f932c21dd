//! The lines of what is judged as it goes over a device.

ghost use Rattle.std.specs.Prelude.{◌≡◌, ◌++◌, OnOk, codes};
ghost use Rattle.fuse_sessions.specs.Parties.{party_of};
ghost use Rattle.fw_check.specs.FrameLines as words;

use crate::act_words::put_act;
use crate::fault_line::put_rule;
use crate::text::{put, put_counted};
use crate::unjudged::unjudged_words;
use fuse_protocol::Unjudged;
use fuse_sessions::{Act, Fault};
use std::alloc::{AllocError, Allocator};

/// The number of a frame, and a colon.
fn put_number_of_frame<A: Allocator>(text: &mut Vec<u8, A>, number: u64) -> Result<(), AllocError>
    ensures { OnOk result (text.new.items ≡ text.old.items ++ words.frame_number number) }
{
    put_counted(text, b"frame", number)?;
    put(text, b": ")
}

/// The line of a fault.
fn put_frame_fault<A: Allocator>(
    text: &mut Vec<u8, A>,
    number: u64,
    act: Act,
    fault: Fault,
) -> Result<(), AllocError>
    ensures { OnOk result (text.new.items ≡ text.old.items ++ words.frame_fault number act fault) }
{
    put_number_of_frame(text, number)?;
    put_rule(text, fault)?;
    put_act(text, act)?;
    put(text, b"\n")
}

/// The line of a verdict, where it is a fault.
fn put_frame_verdict<A: Allocator>(
    text: &mut Vec<u8, A>,
    number: u64,
    act: Act,
    verdict: Option<Fault>,
) -> Result<(), AllocError>
    ensures { OnOk result (text.new.items ≡ text.old.items ++ words.frame_verdict number act verdict) }
{
    match verdict {
        Some(fault) => put_frame_fault(text, number, act, fault),
        None => Ok(()),
    }
}

/// The lines of the faults of a frame's acts.
fn put_frame_faults<A: Allocator>(
    text: &mut Vec<u8, A>,
    number: u64,
    acts: &[Act],
    verdicts: &[Option<Fault>],
) -> Result<(), AllocError>
    ensures { OnOk result (text.new.items ≡ text.old.items ++ words.frame_faults number acts.now verdicts.now) }
{
    for place in 0..acts.len().min(verdicts.len()) {
        put_frame_verdict(text, number, acts[place], verdicts[place])?;
    }
    Ok(())
}

/// Why nothing is judged any more, where it is known from a frame on.
fn put_frame_leaving<A: Allocator>(
    text: &mut Vec<u8, A>,
    number: u64,
    before: Option<Unjudged>,
    after: Option<Unjudged>,
) -> Result<(), AllocError>
    ensures { OnOk result (text.new.items ≡ text.old.items ++ words.frame_leaving number before after) }
{
    let (None, Some(why)) = (before, after) else {
        return Ok(());
    };
    put_number_of_frame(text, number)?;
    put(text, b"not judged from here on: ")?;
    put(text, unjudged_words(why).as_bytes())?;
    put(text, b"\n")
}

/// Puts what is printed of a frame that goes over a device: a line for each fault and each warning of its acts, in the
/// words of a check but for `frame` and the frame's number; and why nothing is judged any more, where that is known from
/// this frame on.
///
/// # Errors
///
/// Out of memory: the text has a beginning of the lines.
pub fn put_frame_lines<A: Allocator>(
    text: &mut Vec<u8, A>,
    number: u64,
    before: Option<Unjudged>,
    after: Option<Unjudged>,
    acts: &[Act],
    verdicts: &[Option<Fault>],
) -> Result<(), AllocError>
    ensures { OnOk result (text.new.items
        ≡ text.old.items ++ words.frame_lines number before after acts.now verdicts.now) }
{
    put_frame_faults(text, number, acts, verdicts)?;
    put_frame_leaving(text, number, before, after)
}
