//! Which requests list a directory, and what a reply to OPENDIR says.

ghost use Rattle.std.specs.Prelude.{◌≡◌, ◌≤◌, ◌↔◌, IfSome, IfNone, IsTrue, false, length};
ghost use Rattle.fk_wire.specs.Replies.{ReplyMessage, SpellsReply};
ghost use Rattle.fk_wire.specs.Requests.{RequestMessage, Spells};
ghost use Rattle.fuse_frames.specs.DecodedReplies.{HasReplyHead, head_unique};
ghost use Rattle.fk_drive_frames.specs.Filling.{IsListing};
ghost use Rattle.fk_drive_frames.specs.OwnRequests.{GivesNothing, IsErrorSaid, SaysOfOpendir, first_opendir_unique};

use crate::own_requests::FIRST_OPENDIR_UNIQUE;
use fk_fields::u64_at;
use fk_wire::{
    Opcode, ReplyBody, ReplyHead, RequestBody, read_reply, read_reply_body, read_request,
};

/// ENOSYS and EIO, as error replies have them.
const ENOSYS: i32 = -38;

const EIO: i32 = -5;

/// What a reply to OPENDIR says.
#[derive(Clone, Copy, Debug, PartialEq, Eq)]
pub enum OpendirSaid {
    /// The directory is open, under this fh.
    Handle(u64),
    /// OPENDIR is not known: ENOSYS.
    NotKnown,
    /// Another error, as error replies have it.
    Failed(i32),
}

/// The node that a request frame lists, with READDIR or READDIRPLUS.
pub fn node_listed(frame: &[u8]) -> Option<u64>
    ensures some { IfSome result (λ node. (m : RequestMessage) × Spells frame.now m × (m.nodeid ≡ node)
        × IsListing m.content) }
    ensures none { IfNone result ((m : RequestMessage) → Spells frame.now m → IsListing m.content → ⊥) }
{
    match read_request(frame) {
        Ok(request) => match request.body {
            RequestBody::Readdir { .. } | RequestBody::Readdirplus { .. } => Some(request.nodeid),
            _ => None,
        },
        Err(_) => None,
    }
}

/// What the reply to the OPENDIR under a number says, if a frame is that. A frame that is no reply to OPENDIR counts as
/// EIO.
pub fn said_in(unique: u64, frame: &[u8]) -> Option<OpendirSaid>
    ensures said { IfSome result (SaysOfOpendir frame.now unique) }
    ensures number { IfSome result IsErrorSaid }
    ensures none { IfNone result (HasReplyHead frame.now → head_unique frame.now ≡ unique → ⊥) }
{
    let Ok(head) = ReplyHead::read(frame) else {
        return None;
    };
    if head.unique != unique {
        return None;
    }
    match read_reply_body(head, Opcode::Open, frame) {
        Ok(ReplyBody::Open { fh }) => Some(OpendirSaid::Handle(fh)),
        Ok(_) if head.error == ENOSYS => Some(OpendirSaid::NotKnown),
        Ok(_) => Some(OpendirSaid::Failed(head.error)),
        Err(_) => Some(OpendirSaid::Failed(EIO)),
    }
}

/// Whether a frame is a reply to OPENDIR.
pub fn is_opendir_reply(frame: &[u8]) -> bool
    ensures reply { IsTrue result → (reply : ReplyMessage) × SpellsReply Opcode.Open frame.now reply }
    ensures none { result ≡ false → GivesNothing frame.now }
{
    match read_reply(Opcode::Open, frame) {
        Ok(_) => true,
        Err(_) => false,
    }
}

/// Whether a frame names a request that is not the kernel's, OPENDIR or RELEASEDIR, whatever else it is.
pub fn has_opendir_unique(frame: &[u8]) -> bool
    ensures { IsTrue result ↔ ((16 ≤ length frame.now) × (first_opendir_unique ≤ head_unique frame.now)) }
{
    frame.len() >= 16 && u64_at(frame, 8) >= FIRST_OPENDIR_UNIQUE
}

/// Whether a frame names a request under a number, whatever else it is.
pub fn is_under(unique: u64, frame: &[u8]) -> bool
    ensures { IsTrue result ↔ ((16 ≤ length frame.now) × (head_unique frame.now ≡ unique)) }
{
    frame.len() >= 16 && u64_at(frame, 8) == unique
}
