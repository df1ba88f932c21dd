//! Replies to faulty request frames.

ghost use Rattle.std.specs.Prelude.{◌≡◌, ◌≤ℤ◌, negsuc, MatchOption};
ghost use Rattle.fs_server.specs.Faults.{is_fault_answered, is_unanswered, IsFaultReply, IsAnswerable, IsErrorOf};

use crate::server::{ServerFault, ServerOf};
use fk_wire::{Opcode, frame_of_error, is_served_opcode_at, read_request_head};
use fs_nodes::NodeStore;
use fuse_frames::codec_minor;
use fuse_spec::Minor;

/// ENOSYS, of an opcode that the minor does not know, as a reply has it.
const ENOSYS: i32 = -38;

/// EIO, of any other faulty frame, as a reply has it.
const EIO: i32 = -5;

impl<S: NodeStore> ServerOf<S> {
    /// The error reply to a frame that this server refuses with a fault, for the end of its link to send: a `struct
    /// fuse_out_header` alone, under the frame's unique, with ENOSYS where the server's minor does not know the opcode
    /// and else EIO. There is none to a frame of under 40 bytes or of another length than it says, to FORGET, INTERRUPT
    /// and BATCH_FORGET, and for a repeated unique, a counter at its end or out of memory. No memory is taken. This
    /// project's rule.
    pub fn fault_reply(&self, frame: &[u8], fault: ServerFault) -> Option<[u8; 16]>
        ensures { MatchOption result (IsAnswerable frame.now fault → ⊥)
            (λ reply. IsFaultReply self.now.minor frame.now fault reply) }
    {
        let Ok((code, unique)) = read_request_head(frame) else {
            return None;
        };
        if !is_answered(fault) || is_unanswered(code) {
            return None;
        }
        Some(frame_of_error(unique, error_of(self.minor, code)))
    }
}

/// The error in the reply to a faulty frame with this opcode.
fn error_of(minor: Minor, code: u32) -> i32
    ensures error { IsErrorOf minor code result }
    ensures most { negsuc 510 ≤ℤ result }
    ensures some { result ≤ℤ negsuc 0 }
{
    if is_served_opcode_at(codec_minor(minor), code) {
        EIO
    } else {
        ENOSYS
    }
}

/// Whether a fault is replied to: one of the frame alone, or of the nodes that it names.
fn is_answered(fault: ServerFault) -> bool
    ensures { result ≡ is_fault_answered fault }
{
    matches!(
        fault,
        ServerFault::Wire | ServerFault::UnknownNode | ServerFault::TooManyForgets
    )
}

/// Whether no fault is replied to under this opcode: FORGET, INTERRUPT and BATCH_FORGET.
fn is_unanswered(code: u32) -> bool
    ensures { result ≡ is_unanswered code }
{
    code == Opcode::Forget.code()
        || code == Opcode::Interrupt.code()
        || code == Opcode::BatchForget.code()
}
