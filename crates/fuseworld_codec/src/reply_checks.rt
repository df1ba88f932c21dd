//! Whether a reply has a spelling, and how long it is.

ghost use Rattle.std.specs.Prelude.{◌≡◌, ◌≢◌, ◌<◌, ◌+◌, ◌↔◌, IsTrue, IfOk, IfErr, IsOk, if◌then◌else◌};
ghost use Rattle.std.specs.Prelude.{List};
ghost use Rattle.std.specs.Int.{cast_unsigned, w32};
ghost use Rattle.fk_wire.specs.Fields.{sizes};
ghost use Rattle.fk_wire.specs.Entries.{IsEntry, entry_content};
ghost use Rattle.fk_wire.specs.Replies.{IsErrorNumber, IsReplyContent, kind_of_content, knows_kind, reply_body};
ghost use Rattle.fk_wire.specs.Replies.{IsAlone, plus_reply, reply_content, reply_message, states_15};
ghost use Rattle.fk_wire.specs.ReplyFaults.{FitsReply, ReplyRefusalIsAt};
ghost use Rattle.fk_wire.specs.Dirents.{DirentPlusContent, direntpluses};
ghost use Rattle.fuseworld_codec.specs.ReplyStructs.{HasReplySpelling};

use fk_wire::{Entry, MAX_FRAME, Minor, Reply, ReplyBody, WireFault};

/// Whether this is the error of a reply: 0, or a negated error number down to -511.
pub(crate) fn is_error_number(error: i32) -> bool
    ensures { IsTrue result ↔ IsErrorNumber error }
{
    -511 <= error && error <= 0
}

/// Whether the minor version knows an opcode whose replies have such a body: 7.15 has no READDIRPLUS.
fn is_known_body(version: Minor, body: &ReplyBody<'_>) -> bool
    ensures { IsTrue result ↔ IsTrue (knows_kind version (kind_of_content (reply_content body.now))) }
{
    match version {
        Minor::M31 => true,
        Minor::M15 => !matches!(body, ReplyBody::RecordsPlus { .. }),
    }
}

/// Whether the nanoseconds are less than a second.
#[tactic(auto, using(fk_wire::proofs::EntryFields::timed))]
fn is_timed(entry: &Entry) -> bool
    ensures { IsTrue result ↔ IsEntry (entry_content entry.now) }
{
    entry.entry_valid_nsec <= 999_999_999
}

/// Whether the nanoseconds of the entries are less than a second.
#[tactic(auto, using(fk_wire::proofs::RecordLists::pluses_are_timed))]
fn has_times(body: &ReplyBody<'_>) -> bool
    ensures { IsTrue result ↔ IsReplyContent (reply_content body.now) }
{
    match body {
        ReplyBody::Entry { entry } | ReplyBody::Create { entry, .. } => is_timed(entry),
        _ => true,
    }
}

/// How long an INIT reply is that states this version, but for its header.
pub(crate) fn init_size(major: u32, minor: u32) -> usize
    ensures { result ≡ (if states_15 major minor then 24 else 64) }
{
    if major == 7 && minor == 15 { 24 } else { 64 }
}

/// The error number as the header has it.
pub(crate) fn error_word(error: i32) -> u32
    ensures { result ≡ cast_unsigned w32 error }
{
    error.cast_unsigned()
}

/// How many bytes the body takes. Pairs of an entry and a record take `len` bytes.
#[tactic(auto, using(fk_wire::proofs::Spelled::sizes_of_entry))]
fn body_size(body: &ReplyBody<'_>, len: usize) -> usize
    requires { (ps : List DirentPlusContent) → reply_content body.now ≡ plus_reply ps → sizes (direntpluses ps) ≡ len }
    ensures { result ≡ sizes (reply_body (reply_content body.now)) }
{
    match body {
        ReplyBody::Empty => 0,
        ReplyBody::Entry { .. } => 128,
        ReplyBody::Attr { .. } => 104,
        ReplyBody::Open { .. } => 16,
        ReplyBody::Bytes { bytes } => bytes.len(),
        ReplyBody::Write { .. } => 8,
        ReplyBody::Init { major, minor, .. } => init_size(*major, *minor),
        ReplyBody::Create { .. } => 144,
        ReplyBody::Records { records } => records.byte_len(),
        ReplyBody::RecordsPlus { .. } => len,
    }
}

/// How long the frame of a reply is, which has a spelling at the minor version. Pairs of an entry and a record
/// take `len` bytes in it.
///
/// # Errors
///
/// The first of `ErrorRange`, `Opcode` and `Body` that applies.
pub(crate) fn frame_size(version: Minor, reply: &Reply<'_>, len: usize) -> Result<usize, WireFault>
    requires alone { IsAlone (reply_message reply.now) }
    requires pairs { (ps : List DirentPlusContent) → reply_content reply.now.body ≡ plus_reply ps
        → sizes (direntpluses ps) ≡ len }
    ensures size { IfOk result (λ n. n ≡ 16 + sizes (reply_body (reply_content reply.now.body))) }
    ensures error { IfOk result (λ n. IsErrorNumber reply.now.error) }
    ensures known { IfOk result (λ n. IsTrue (knows_kind version
        (kind_of_content (reply_content reply.now.body)))) }
    ensures fits { IfOk result (λ n. FitsReply (reply_message reply.now)) }
    ensures spelled { HasReplySpelling version (reply_message reply.now) → IsOk result }
    ensures fault { IfErr result (ReplyRefusalIsAt version (reply_message reply.now)) }
    ensures memory { IfErr result (λ f. f ≢ WireFault.Memory) }
{
    if !is_error_number(reply.error) {
        return Err(WireFault::ErrorRange);
    }
    if !is_known_body(version, &reply.body) {
        return Err(WireFault::Opcode);
    }
    if !has_times(&reply.body) {
        return Err(WireFault::Body);
    }
    let size = body_size(&reply.body, len);
    if size > MAX_FRAME - 16 {
        return Err(WireFault::Body);
    }
    Ok(16 + size)
}
