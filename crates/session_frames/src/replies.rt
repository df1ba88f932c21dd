//! The acts of what the server writes.

ghost use Rattle.std.specs.Prelude.{◌≡◌, ◌≤◌, ◌↔◌, [], ◌∷◌, ◌++◌, IsTrue, OnOk, length};
ghost use Rattle.std.specs.Option.{option_copied};
ghost use Rattle.fuse_protocol.specs.Table.{row_at};
ghost use Rattle.fuse_replies.specs.Replies.{IsFrame, answer_content};
ghost use Rattle.fuse_sessions.specs.declared.act.Act.TheVariants.{Faulty};
ghost use Rattle.fuse_sessions.specs.declared.fault.Fault.TheVariants.{BodyOfAnotherRequest};
ghost use Rattle.fuse_sessions.specs.Fits as fits;
ghost use Rattle.fuse_sessions.specs.Frames as words;
ghost use Rattle.fuse_sessions.specs.Sessions.{Session};
ghost use Rattle.fuse_sessions.specs.Waiting.{waits};

use crate::answers::write_answer;
use crate::entries::write_records;
use crate::fits::{fit_in, fit_of_another, fit_of_reply};
use crate::init::{learn_reply, write_init};
use crate::writing::write;
use fk_fields::{u32_at, u64_at};
use fuse_protocol::{MAX_FRAME, Opcode, RequestHead, row_of};
use fuse_replies::{Answer, EntryRecords, read_notification, read_reply};
use fuse_sessions::{Act, Asked, Fault, Fit, Known, Taken};
use std::alloc::{AllocError, Allocator};

/// -EAGAIN.
const AGAIN: u32 = u32::MAX - 10;

/// -EINTR.
const INTERRUPTED: u32 = u32::MAX - 3;

/// The code of FUSE_NOTIFY_RESEND.
const RESEND: u32 = 7;

/// -511, the lowest error.
const LOWEST: u32 = u32::MAX - 510;

/// Whether a frame has a whole header, and is as long as that says.
fn is_frame(bytes: &[u8]) -> bool
    ensures { IsTrue result ↔ IsFrame bytes.now }
{
    bytes.len() >= 16 && bytes.len() <= MAX_FRAME && u32_at(bytes, 0) as usize == bytes.len()
}

/// Whether a frame has a good header.
fn has_head(bytes: &[u8]) -> bool
    ensures { IsTrue result ↔ words.IsHead bytes.now }
{
    if !is_frame(bytes) {
        return false;
    }
    let error = u32_at(bytes, 4);
    u64_at(bytes, 8) == 0 || error == 0 || error >= LOWEST
}

/// Whether a notification asks for requests once more, and the device accepted it.
fn is_resend(bytes: &[u8], taken: Taken) -> bool
    requires { IsFrame bytes.now }
    ensures { result ≡ words.is_resend bytes.now taken }
{
    match taken {
        Taken::Accepted => u32_at(bytes, 4) == RESEND,
        _ => false,
    }
}

/// A notification.
fn write_notification<A: Allocator + Copy>(
    acts: &mut Vec<Act, A>,
    known: &mut Known,
    bytes: &[u8],
    taken: Taken,
) -> Result<(), AllocError>
    requires empty { acts.old.items ≡ [] }
    requires frame { IsFrame bytes.now }
    ensures { OnOk result (words.IsNotified known.old bytes.now taken acts.new.items known.new) }
{
    match read_notification(known.agreed, bytes) {
        Ok(_) if is_resend(bytes, taken) => {
            known.has_resent = true;
            write(acts, Act::Resends)
        }
        Ok(_) => Ok(()),
        Err(_) => write(acts, Act::Faulty(Fault::MalformedNotification)),
    }
}

/// The device accepts EINTR.
fn write_eintr<A: Allocator + Copy>(
    acts: &mut Vec<Act, A>,
    bytes: &[u8],
    taken: Taken,
) -> Result<(), AllocError>
    requires { IsFrame bytes.now }
    ensures { OnOk result (acts.new.items ≡ acts.old.items ++ words.eintr_acts bytes.now taken) }
{
    match taken {
        Taken::Accepted if u32_at(bytes, 4) == INTERRUPTED => {
            write(acts, Act::Interrupted(u64_at(bytes, 8)))
        }
        _ => Ok(()),
    }
}

/// The device takes a reply, and it replies.
fn write_replied<A: Allocator + Copy>(
    acts: &mut Vec<Act, A>,
    bytes: &[u8],
    taken: Taken,
    fit: Fit,
) -> Result<(), AllocError>
    requires { IsFrame bytes.now }
    ensures { OnOk result (acts.new.items ≡ acts.old.items ++ words.replied bytes.now taken fit) }
{
    write_eintr(acts, bytes, taken)?;
    let unique = u64_at(bytes, 8);
    let takes = Act::Takes { unique, taken, fit };
    write(acts, takes)?;
    write(acts, Act::Replies { unique, taken })
}

/// What a reply says, once the device has accepted it.
fn write_said<A: Allocator + Copy>(
    acts: &mut Vec<Act, A>,
    known: &Known,
    opcode: Opcode,
    asked: &Asked,
    taken: Taken,
    answer: &Answer<'_>,
) -> Result<(), AllocError>
    ensures { OnOk result (acts.new.items
        ≡ acts.old.items ++ words.said_acts known.now opcode asked.now taken (answer_content answer.now)) }
{
    match taken {
        Taken::Accepted => {
            write_init(acts, known.offered, answer)?;
            write_answer(acts, opcode, asked, answer)
        }
        _ => Ok(()),
    }
}

/// The entries of a listing with a bad name.
fn write_listed<A: Allocator + Copy>(
    acts: &mut Vec<Act, A>,
    opcode: Opcode,
    asked: &Asked,
    bytes: &[u8],
    taken: Taken,
) -> Result<(), AllocError>
    requires { IsFrame bytes.now }
    ensures { OnOk result (acts.new.items ≡ acts.old.items ++ words.listed_acts opcode asked.now taken bytes.now) }
{
    match (opcode, taken) {
        (Opcode::Readdirplus, Taken::Accepted) if u32_at(bytes, 4) == 0 => {
            let _offsets = write_records(acts, false, asked, EntryRecords::over(&bytes[16..]))?;
            Ok(())
        }
        _ => Ok(()),
    }
}

/// What is no reply to the request of an opcode that waits under its number.
fn write_another<A: Allocator + Copy>(
    acts: &mut Vec<Act, A>,
    opcode: Opcode,
    asked: &Asked,
    bytes: &[u8],
    taken: Taken,
) -> Result<(), AllocError>
    requires { IsFrame bytes.now }
    ensures { OnOk result (acts.new.items ≡ acts.old.items ++ (Faulty BodyOfAnotherRequest
        ∷ (words.replied bytes.now taken (fits.fit_of_another (fits.fit_in (row_at opcode).reply asked.now.asked bytes.now))
        ++ words.listed_acts opcode asked.now taken bytes.now))) }
{
    let fit = fit_in(row_of(opcode).reply, asked.asked, bytes);
    write(acts, Act::Faulty(Fault::BodyOfAnotherRequest))?;
    write_replied(acts, bytes, taken, fit_of_another(fit))?;
    write_listed(acts, opcode, asked, bytes, taken)
}

/// A reply to a request of an opcode that waits.
fn write_answered<A: Allocator + Copy>(
    acts: &mut Vec<Act, A>,
    known: &mut Known,
    opcode: Opcode,
    asked: &Asked,
    bytes: &[u8],
    taken: Taken,
) -> Result<(), AllocError>
    requires empty { acts.old.items ≡ [] }
    requires frame { IsFrame bytes.now }
    ensures { OnOk result (words.IsReplyOf known.old bytes.now taken opcode asked.now acts.new.items known.new) }
{
    let request = RequestHead {
        opcode,
        unique: u64_at(bytes, 8),
        nodeid: asked.nodeid,
        asked: asked.asked,
    };
    match &read_reply(known.agreed, &request, bytes) {
        Ok(reply) => {
            let fit = fit_of_reply(opcode, asked.asked, bytes);
            write_replied(acts, bytes, taken, fit)?;
            write_said(acts, known, opcode, asked, taken, &reply.answer)?;
            learn_reply(known, taken, &reply.answer);
            Ok(())
        }
        Err(_) => write_another(acts, opcode, asked, bytes, taken),
    }
}

/// A reply, by what waits under its number.
fn write_reply<A: Allocator + Copy>(
    acts: &mut Vec<Act, A>,
    known: &mut Known,
    asked: Option<&Asked>,
    bytes: &[u8],
    taken: Taken,
) -> Result<(), AllocError>
    requires empty { acts.old.items ≡ [] }
    requires frame { IsFrame bytes.now }
    ensures { OnOk result (words.IsReplyTo known.old bytes.now taken (option_copied asked.entry) acts.new.items known.new) }
{
    if let Some(asked) = asked
        && let Some(opcode) = asked.opcode
    {
        return write_answered(acts, known, opcode, asked, bytes, taken);
    }
    write_replied(acts, bytes, taken, Fit::MayFit)
}

/// What is written under a good header, by what waits under its number.
fn write_headed<A: Allocator + Copy>(
    acts: &mut Vec<Act, A>,
    known: &mut Known,
    asked: Option<&Asked>,
    bytes: &[u8],
    taken: Taken,
) -> Result<(), AllocError>
    requires empty { acts.old.items ≡ [] }
    requires frame { IsFrame bytes.now }
    ensures { OnOk result ((s : Session) → waits s (words.number_in bytes.now) ≡ option_copied asked.entry
        → words.IsHeaded known.old s bytes.now taken acts.new.items known.new) }
{
    let unique = u64_at(bytes, 8);
    if unique == 0 {
        return write_notification(acts, known, bytes, taken);
    }
    if unique % 2 == 1 && asked.is_none() {
        let replies = Act::RepliesToInterrupt {
            original: unique - 1,
            is_again: u32_at(bytes, 4) == AGAIN,
            taken,
        };
        return write(acts, replies);
    }
    write_reply(acts, known, asked, bytes, taken)
}

/// What the server writes, by what waits under its number. What it says of INIT is known from then on.
///
/// # Errors
///
/// Out of memory.
pub(crate) fn write_written<A: Allocator + Copy>(
    acts: &mut Vec<Act, A>,
    known: &mut Known,
    asked: Option<&Asked>,
    bytes: &[u8],
    taken: Taken,
) -> Result<(), AllocError>
    requires { acts.old.items ≡ [] }
    ensures { OnOk result ((s : Session)
        → (16 ≤ length bytes.now → waits s (words.number_in bytes.now) ≡ option_copied asked.entry)
        → words.IsWritten known.old s bytes.now taken acts.new.items known.new) }
{
    if has_head(bytes) {
        return write_headed(acts, known, asked, bytes, taken);
    }
    write(acts, Act::Faulty(Fault::MalformedReply))
}
