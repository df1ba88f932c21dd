//! The frame of an error, which takes no memory.

ghost use Rattle.fk_wire.specs.Replies.{IsErrorNumber, WrittenReply, empty_reply};

use crate::writing_reply::error_word;
use byteorder::{ByteOrder, LittleEndian};

/// The frame of a reply without a body: a `struct fuse_out_header` alone (linux/fuse.h), with this error, 0 or a negated
/// error number down to -511.
#[tactic(auto, unfolding(fk_fields::specs::Fields::bytes_of))]
pub fn frame_of_error(unique: u64, error: i32) -> [u8; 16]
    requires { IsErrorNumber error }
    ensures { WrittenReply (record { unique = unique; error = error; content = empty_reply }) result }
{
    let mut frame = [0u8; 16];
    LittleEndian::write_u32(&mut frame, 16);
    LittleEndian::write_u32(&mut frame[4..], error_word(error));
    LittleEndian::write_u64(&mut frame[8..], unique);
    frame
}
