//! The reply that a struct of a C caller says.

ghost use Rattle.std.specs.Prelude.{◌≡◌, ◌≢◌, ◌<◌, ◌+◌, List, Some, IfOk, IfErr, Err, IsTrue, None, length, ◌↔◌};
ghost use Rattle.fk_wire.specs.Entries.{entry_content};
ghost use Rattle.fk_wire.specs.Fields.{sizes};
ghost use Rattle.fk_wire.specs.Opcodes.{reply_kind_of};
ghost use Rattle.fk_wire.specs.declared.opcode.Minor.{Minor};
ghost use Rattle.fk_wire.specs.Replies.{GoesWith, IsAlone, IsErrorNumber, ReplyContent, ReplyMessage};
ghost use Rattle.fk_wire.specs.Replies.{kind_of_content, plus_reply, reply_content, reply_kind, reply_message};
ghost use Rattle.fk_wire.specs.declared.opcode.Opcode.{Opcode};
ghost use Rattle.fk_wire.specs.Dirents.{DirentContent, DirentPlusContent, direntpluses};
ghost use Rattle.fk_wire.specs.Records.{AreRecords, AreRecordsPlus, pluses_in, records_in};
ghost use Rattle.fuseworld_codec.specs.ReplyStructs.{HasReplyPlace, LeadsBeyond, Replies, IsReplyStruct};
ghost use Rattle.fuseworld_codec.specs.ReplyStructs.{attr_said, bytes_said, entry_said, has_data};

use crate::layout::{FlatAttr, FlatEntry, FlatReply};
use crate::reply_checks::error_word;
use crate::request_message::part;
use crate::status::{BODY, OPCODE, PLACE};
use bitflags::Flags;
use fk_wire::{
    Attr, Entry, InitFlags, Minor, Opcode, Records, RecordsPlus, Reply, ReplyBody, is_known,
};

fn attr_of(attr: &FlatAttr) -> Attr
    ensures { result ≡ attr_said attr.now }
{
    Attr {
        ino: attr.ino,
        size: attr.size,
        mode: attr.mode,
        nlink: attr.nlink,
    }
}

fn entry_of(entry: &FlatEntry) -> Entry
    ensures { entry_content result ≡ entry_said entry.now }
{
    Entry {
        nodeid: entry.nodeid,
        generation: entry.generation,
        entry_valid: entry.entry_valid,
        entry_valid_nsec: entry.entry_valid_nsec,
        attr: attr_of(&entry.attr),
    }
}

/// The data.
fn data_of<'a>(r: &FlatReply, bytes: &'a [u8]) -> Result<&'a [u8], u32>
    ensures ok { IfOk result (λ d. d.now ≡ bytes_said r.now bytes.now) }
    ensures len { IfOk result (λ d. length d.now ≡ r.now.data_length) }
    ensures within { IfOk result (λ d. HasReplyPlace r.now bytes.now) }
    ensures err { IfErr result (λ e. (e ≡ 10) × (length bytes.now < r.now.data_offset + r.now.data_length)) }
{
    part(bytes, r.data_offset, r.data_length).ok_or(PLACE)
}

/// The records that the data are.
fn records_of<'a>(r: &FlatReply, bytes: &'a [u8]) -> Result<Records<'a>, u32>
    ensures ok { IfOk result (λ x. AreRecords 0 (bytes_said r.now bytes.now) (records_in x)) }
    ensures within { IfOk result (λ x. HasReplyPlace r.now bytes.now) }
    ensures beyond { IfErr result (λ e. e ≡ 10 → length bytes.now < r.now.data_offset + r.now.data_length) }
    ensures body { IfErr result (λ e. e ≢ 10 → (e ≡ 5) × HasReplyPlace r.now bytes.now
        × ((ds : List DirentContent) → AreRecords 0 (bytes_said r.now bytes.now) ds → ⊥)) }
{
    let data = data_of(r, bytes)?;
    Records::over(data).ok_or(BODY)
}

/// The pairs of an entry and a record that the data are.
#[tactic(auto, using(crate::proofs::Ends::reads_end))]
fn pairs_of<'a>(r: &FlatReply, bytes: &'a [u8]) -> Result<RecordsPlus<'a>, u32>
    ensures ok { IfOk result (λ x. AreRecordsPlus 0 (bytes_said r.now bytes.now) (pluses_in x)) }
    ensures len { IfOk result (λ x. sizes (direntpluses (pluses_in x)) ≡ r.now.data_length) }
    ensures within { IfOk result (λ x. HasReplyPlace r.now bytes.now) }
    ensures beyond { IfErr result (λ e. e ≡ 10 → length bytes.now < r.now.data_offset + r.now.data_length) }
    ensures body { IfErr result (λ e. e ≢ 10 → (e ≡ 5) × HasReplyPlace r.now bytes.now
        × ((ps : List DirentPlusContent) → AreRecordsPlus 0 (bytes_said r.now bytes.now) ps → ⊥)) }
{
    let data = data_of(r, bytes)?;
    RecordsPlus::over(data).ok_or(BODY)
}

/// What a struct without an error replies under this opcode.
fn body_of<'a>(opcode: Opcode, r: &FlatReply, bytes: &'a [u8]) -> Result<ReplyBody<'a>, u32>
    ensures ok { IfOk result (λ b. (reply_kind_of opcode ≡ Some (kind_of_content (reply_content b)))
        × Replies r.now bytes.now (reply_content b)) }
    ensures len { IfOk result (λ b. (ps : List DirentPlusContent) → reply_content b ≡ plus_reply ps
        → sizes (direntpluses ps) ≡ r.now.data_length) }
    ensures within { IfOk result (λ b. IsTrue (has_data opcode) → HasReplyPlace r.now bytes.now) }
    ensures beyond { IfErr result (λ e. e ≡ 10 → IsTrue (has_data opcode)
        × (length bytes.now < r.now.data_offset + r.now.data_length)) }
    ensures body { reply_kind_of opcode ≢ None → IfErr result (λ e. e ≢ 10 → (e ≡ 5)
        × HasReplyPlace r.now bytes.now) }
    ensures none { IfErr result (λ e. e ≢ 10 → (s : ReplyContent) → reply_kind_of opcode ≡ Some (kind_of_content s)
        → Replies r.now bytes.now s → ⊥) }
    ensures status { IfErr result (λ e. (e ≢ 0) × (e ≢ 7) × (e ≢ 9)) }
{
    Ok(match opcode {
        Opcode::Lookup | Opcode::Mkdir | Opcode::Link => ReplyBody::Entry {
            entry: entry_of(&r.entry),
        },
        Opcode::Getattr => ReplyBody::Attr {
            attr: attr_of(&r.entry.attr),
        },
        Opcode::Unlink | Opcode::Rmdir | Opcode::Rename | Opcode::Release | Opcode::Interrupt =>
            ReplyBody::Empty,
        Opcode::Open => ReplyBody::Open { fh: r.fh },
        Opcode::Read => ReplyBody::Bytes {
            bytes: data_of(r, bytes)?,
        },
        Opcode::Write => ReplyBody::Write { size: r.size },
        Opcode::Init => ReplyBody::Init {
            major: r.major,
            minor: r.minor,
            flags: InitFlags::from_bits_retain(r.flags),
        },
        Opcode::Readdir => ReplyBody::Records {
            records: records_of(r, bytes)?,
        },
        Opcode::Readdirplus => ReplyBody::RecordsPlus {
            records: pairs_of(r, bytes)?,
        },
        Opcode::Create => ReplyBody::Create {
            entry: entry_of(&r.entry),
            fh: r.fh,
        },
        Opcode::Forget | Opcode::BatchForget => return Err(OPCODE),
    })
}

/// Whether the minor version knows an opcode that has replies.
fn has_replies(version: Minor, opcode: Opcode) -> bool
    ensures { IsTrue result ↔ (reply_kind version opcode ≢ None) }
{
    is_known(version, opcode) && !matches!(opcode, Opcode::Forget | Opcode::BatchForget)
}

/// The reply to a request of this opcode that a struct says.
///
/// # Errors
///
/// 3 where the opcode has no replies at the minor version, 10 where the data lead beyond the bytes, and 5 where
/// they are no whole records with records' names.
pub(crate) fn reply_of<'a>(
    version: Minor,
    opcode: Opcode,
    r: &FlatReply,
    bytes: &'a [u8],
) -> Result<Reply<'a>, u32>
    requires { IsErrorNumber r.now.error }
    ensures ok { IfOk result (λ q. GoesWith version opcode (reply_message q)
        × IsReplyStruct r.now bytes.now (reply_message q)) }
    ensures alone { IfOk result (λ q. IsAlone (reply_message q)) }
    ensures len { IfOk result (λ q. (ps : List DirentPlusContent) → reply_content q.body ≡ plus_reply ps
        → sizes (direntpluses ps) ≡ r.now.data_length) }
    ensures within { IfOk result (λ q. LeadsBeyond opcode r.now bytes.now → ⊥) }
    ensures beyond { IfErr result (λ e. e ≡ 10 → LeadsBeyond opcode r.now bytes.now) }
    ensures body { reply_kind version opcode ≢ None → IfErr result (λ e. e ≢ 10 → (e ≡ 5)
        × (LeadsBeyond opcode r.now bytes.now → ⊥)) }
    ensures none { IfErr result (λ e. e ≢ 10 → (t : ReplyMessage) → GoesWith version opcode t
        → IsReplyStruct r.now bytes.now t → ⊥) }
    ensures status { IfErr result (λ e. (e ≢ 0) × (e ≢ 7) × (e ≢ 9)) }
    ensures unknown { reply_kind version opcode ≡ None → result ≡ Err 3 }
{
    if !has_replies(version, opcode) {
        return Err(OPCODE);
    }
    let (unique, error) = (r.unique, r.error);
    if error_word(error) != 0 {
        let body = ReplyBody::Empty;
        return Ok(Reply {
            unique,
            error,
            body,
        });
    }
    match body_of(opcode, r, bytes) {
        Ok(body) => Ok(Reply {
            unique,
            error,
            body,
        }),
        Err(status) => Err(status),
    }
}
