//! Frames as replies.

ghost use Rattle.std.specs.Prelude.{◌≡◌, ◌≢◌, ◌≤◌, ◌<◌, ◌+◌, ℕ, List, Option, Some, None};
ghost use Rattle.std.specs.Prelude.{length, OnOk, IfOk, IfErr, IsOkAnd, if◌then◌else◌};
ghost use Rattle.fk_wire.specs.Fields.{number_at};
ghost use Rattle.fk_wire.specs.Entries.{IsEntry, entry_content, entry_at as entry_content_at};
ghost use Rattle.fk_wire.specs.Replies.{ReplyMessage, SpellsReply, SpellsReplyAt, IsReplyBodyOf};
ghost use Rattle.fk_wire.specs.Replies.{headed, reply_message, states_15, decoded_reply};
ghost use Rattle.fk_wire.specs.ReplyFaults.{FillsReply, ReplyBodyFaultIs, ReplyFaultIs, ReplyFaultIsAt};
ghost use Rattle.fk_wire.specs.ReplyFaults.{IsReplyHead, IsReplyHeadFault};
ghost use Rattle.fk_wire.specs.declared.opcode.Opcode.{Opcode};
ghost use Rattle.fk_wire.specs.declared.opcode.Minor.{Minor};
ghost use Rattle.fk_wire.specs.declared.fault.WireFault.TheVariants.{Body as BodyFault};

use crate::entry::{Entry, attr_at, entry_at, is_timed};
use crate::fault::WireFault;
use crate::flags::offered;
use crate::limits::{MAX_FRAME, is_error_number};
use crate::opcode::{Minor, Opcode, reply_kind_at, served_minor};
use crate::records::Records;
use crate::records_plus::RecordsPlus;
use crate::reply::{Reply, ReplyBody, ReplyHead, ReplyKind};
use crate::writing_reply::error_word;
use fk_fields::{i32_at, u32_at, u64_at};

/// How long an INIT reply is that states this version.
pub(crate) fn init_size(major: u32, minor: u32) -> usize
    ensures { result ≡ (if states_15 major minor then 40 else 80) }
{
    if major == 7 && minor == 15 { 40 } else { 80 }
}

/// A frame of this many bytes.
fn reply_of_size(bytes: &[u8], size: usize) -> Result<(), WireFault>
    ensures ok { OnOk result (length bytes.now ≡ size) }
    ensures err { IfErr result (λ f. (f ≡ BodyFault) × (length bytes.now ≢ size)) }
{
    if bytes.len() == size {
        Ok(())
    } else {
        Err(WireFault::Body)
    }
}

/// The body of an INIT reply.
fn init_of(bytes: &[u8]) -> Result<ReplyBody<'_>, WireFault>
    ensures ok { IfOk result (IsReplyBodyOf ReplyKind.Init bytes.now) }
    ensures err { IfErr result (ReplyBodyFaultIs ReplyKind.Init bytes.now) }
{
    if bytes.len() != 40 && bytes.len() != 80 {
        return Err(WireFault::Body);
    }
    let major = u32_at(bytes, 16);
    let minor = u32_at(bytes, 20);
    if bytes.len() != init_size(major, minor) {
        return Err(WireFault::Body);
    }
    let flags = offered(u32_at(bytes, 28));
    Ok(ReplyBody::Init {
        major,
        minor,
        flags,
    })
}

/// The entry with which the body of a frame of this many bytes begins.
#[inline(always)]
fn first_entry(bytes: &[u8], size: usize) -> Result<Entry, WireFault>
    requires { 144 ≤ size }
    ensures ok { IfOk result (λ e. (length bytes.now ≡ size) × IsEntry (entry_content e)
        × (entry_content e ≡ entry_content_at 16 bytes.now)) }
    ensures err { IfErr result (λ f. (f ≡ BodyFault)
        × ((length bytes.now ≡ size) × (number_at 48 4 bytes.now ≤ 999999999) → ⊥)) }
{
    reply_of_size(bytes, size)?;
    let entry = entry_at(bytes, 16);
    if is_timed(&entry) {
        Ok(entry)
    } else {
        Err(WireFault::Body)
    }
}

/// The body of an entry's reply.
fn entry_of(bytes: &[u8]) -> Result<ReplyBody<'_>, WireFault>
    ensures ok { IfOk result (IsReplyBodyOf ReplyKind.Entry bytes.now) }
    ensures err { IfErr result (ReplyBodyFaultIs ReplyKind.Entry bytes.now) }
{
    let entry = first_entry(bytes, 144)?;
    Ok(ReplyBody::Entry { entry })
}

/// The body of a new open file's reply.
fn create_of(bytes: &[u8]) -> Result<ReplyBody<'_>, WireFault>
    ensures ok { IfOk result (IsReplyBodyOf ReplyKind.Create bytes.now) }
    ensures err { IfErr result (ReplyBodyFaultIs ReplyKind.Create bytes.now) }
{
    let entry = first_entry(bytes, 160)?;
    let fh = u64_at(bytes, 144);
    Ok(ReplyBody::Create { entry, fh })
}

/// The body of a reply with attributes.
fn attr_of(bytes: &[u8]) -> Result<ReplyBody<'_>, WireFault>
    ensures ok { IfOk result (IsReplyBodyOf ReplyKind.Attr bytes.now) }
    ensures err { IfErr result (ReplyBodyFaultIs ReplyKind.Attr bytes.now) }
{
    reply_of_size(bytes, 120)?;
    let attr = attr_at(bytes, 32);
    Ok(ReplyBody::Attr { attr })
}

/// The body of this kind.
fn body_of(kind: ReplyKind, bytes: &[u8]) -> Result<ReplyBody<'_>, WireFault>
    requires { 16 ≤ length bytes.now }
    ensures ok { IfOk result (IsReplyBodyOf kind bytes.now) }
    ensures err { IfErr result (ReplyBodyFaultIs kind bytes.now) }
{
    match kind {
        ReplyKind::Empty => {
            reply_of_size(bytes, 16)?;
            Ok(ReplyBody::Empty)
        }
        ReplyKind::Entry => entry_of(bytes),
        ReplyKind::Attr => attr_of(bytes),
        ReplyKind::Open => {
            reply_of_size(bytes, 32)?;
            let fh = u64_at(bytes, 16);
            Ok(ReplyBody::Open { fh })
        }
        ReplyKind::Bytes => Ok(ReplyBody::Bytes {
            bytes: &bytes[16..],
        }),
        ReplyKind::Write => {
            reply_of_size(bytes, 24)?;
            let size = u32_at(bytes, 16);
            Ok(ReplyBody::Write { size })
        }
        ReplyKind::Init => init_of(bytes),
        ReplyKind::Create => create_of(bytes),
        ReplyKind::Records => match Records::from_place(bytes, 16) {
            Ok(records) => Ok(ReplyBody::Records { records }),
            Err(fault) => Err(fault),
        },
        ReplyKind::RecordsPlus => match RecordsPlus::from_place(bytes, 16) {
            Ok(records) => Ok(ReplyBody::RecordsPlus { records }),
            Err(fault) => Err(fault),
        },
    }
}

/// The body of the reply that a frame with this head spells, without its contract's clause on what else it may spell.
#[inline(always)]
fn body_after(
    minor: Minor,
    head: ReplyHead,
    opcode: Opcode,
    bytes: &[u8],
) -> Result<ReplyBody<'_>, WireFault>
    requires { IsReplyHead bytes.now head }
    ensures ok { IfOk result (λ body. SpellsReplyAt minor opcode bytes.now (headed head body)) }
    ensures fault { IfErr result (ReplyFaultIsAt minor opcode bytes.now) }
{
    let Some(kind) = reply_kind_at(minor, opcode) else {
        return Err(WireFault::Opcode);
    };
    if bytes.len() > MAX_FRAME {
        return Err(WireFault::Body);
    }
    let kind = if error_word(head.error) == 0 {
        kind
    } else {
        ReplyKind::Empty
    };
    body_of(kind, bytes)
}

/// The reply that a frame spells, without its contract's clause on what else it may spell.
fn reply_of(minor: Minor, opcode: Opcode, bytes: &[u8]) -> Result<Reply<'_>, WireFault>
    ensures ok { IfOk result (λ r. SpellsReplyAt minor opcode bytes.now (reply_message r)) }
    ensures fault { IfErr result (ReplyFaultIsAt minor opcode bytes.now) }
{
    let head = ReplyHead::read(bytes)?;
    let body = body_after(minor, head, opcode, bytes)?;
    Ok(Reply {
        unique: head.unique,
        error: head.error,
        body,
    })
}

/// Reads the frame of a reply to a request of this opcode, of 7.31: its head, and the body after it.
///
/// A frame has up to 4,176 bytes. Copies nothing and takes no memory.
///
/// # Errors
///
/// The first of `Short`, `Length`, `ErrorRange`, `Opcode`, `Body` and `Name` that applies. `Opcode`
/// stands for an opcode that has no replies. Of a list of records all faults `Body` come before a
/// fault `Name`.
pub fn read_reply(opcode: Opcode, bytes: &[u8]) -> Result<Reply<'_>, WireFault>
    // What is read is spelled so.
    ensures ok { IfOk result (λ r. SpellsReply opcode bytes.now (reply_message r)) }
    // What is spelled so is read.
    ensures only { (t : ReplyMessage) → SpellsReply opcode bytes.now t → IsOkAnd result (λ r. reply_message r ≡ t) }
    // Else the fault is the first that applies.
    ensures fault { IfErr result (ReplyFaultIs opcode bytes.now) }
{
    read_reply_at(served_minor(), opcode, bytes)
}

/// Reads a reply frame of a minor version, as `read_reply` does.
///
/// # Errors
///
/// As `read_reply`; `Opcode` also for an opcode that the version does not know.
pub fn read_reply_at(minor: Minor, opcode: Opcode, bytes: &[u8]) -> Result<Reply<'_>, WireFault>
    ensures ok { IfOk result (λ r. SpellsReplyAt minor opcode bytes.now (reply_message r)) }
    ensures only { (t : ReplyMessage) → SpellsReplyAt minor opcode bytes.now t
        → IsOkAnd result (λ r. reply_message r ≡ t) }
    ensures fault { IfErr result (ReplyFaultIsAt minor opcode bytes.now) }
{
    reply_of(minor, opcode, bytes)
}

impl ReplyHead {
    /// Reads the head of a reply frame, to be handed to `read_reply_body`.
    ///
    /// # Errors
    ///
    /// As `read_reply_head`.
    pub fn read(bytes: &[u8]) -> Result<ReplyHead, WireFault>
        ensures ok { IfOk result (IsReplyHead bytes.now) }
        ensures fault { (minor : Minor) (o : Opcode) → IfErr result
            (λ f. ReplyFaultIsAt minor o bytes.now f × IsReplyHeadFault f) }
    {
        if bytes.len() < 16 {
            return Err(WireFault::Short);
        }
        if u32_at(bytes, 0) as usize != bytes.len() {
            return Err(WireFault::Length);
        }
        let error = i32_at(bytes, 4);
        if !is_error_number(error) {
            return Err(WireFault::ErrorRange);
        }
        let unique = u64_at(bytes, 8);
        Ok(ReplyHead { error, unique })
    }
}

/// Reads the error, 0 or a negated error number down to -511, and the unique number of a reply frame:
/// `struct fuse_out_header`. Takes no memory.
///
/// # Errors
///
/// The first of `Short`, `Length` and `ErrorRange` that applies.
pub fn read_reply_head(bytes: &[u8]) -> Result<(i32, u64), WireFault>
    ensures ok { IfOk result (λ head. IsReplyHead bytes.now (record { error = head.0; unique = head.1 })) }
    ensures fault { (minor : Minor) (o : Opcode) → IfErr result
        (λ f. ReplyFaultIsAt minor o bytes.now f × IsReplyHeadFault f) }
{
    let head = ReplyHead::read(bytes)?;
    Ok((head.error, head.unique))
}

/// Reads the body of a reply frame of 7.31 whose head was read (`ReplyHead::read`): `read_reply` without
/// reading the head again.
///
/// # Errors
///
/// The first of `Opcode`, `Body` and `Name` that applies.
#[inline(always)]
pub fn read_reply_body(
    head: ReplyHead,
    opcode: Opcode,
    bytes: &[u8],
) -> Result<ReplyBody<'_>, WireFault>
    requires { IsReplyHead bytes.now head }
    ensures ok { IfOk result (λ body. SpellsReply opcode bytes.now (headed head body)) }
    ensures only { (t : ReplyMessage) → SpellsReply opcode bytes.now t → IsOkAnd result (λ body. headed head body ≡ t) }
    ensures fault { IfErr result (ReplyFaultIs opcode bytes.now) }
{
    body_after(served_minor(), head, opcode, bytes)
}

/// Every frame that spells a reply to an opcode spells one alone: the one that it decodes to.
pub fn spelled_reply_is_decoded()
    ensures { (minor : Minor) (o : Opcode) (bytes : List ℕ) (t : ReplyMessage) → SpellsReplyAt minor o bytes t
        → decoded_reply o bytes ≡ t }
{}
