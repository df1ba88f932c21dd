//! The machine's messages as frames, and what the bytes of a reply say: the one place where the grammar of frames and
//! the machine of kernel and server meet.
#![tactic(auto)]

mod agreement;
mod listing;
mod minor;
mod operations;
mod pair_bytes;
mod reply;
mod reply_body;
mod reply_decoding;
mod reply_frame;
mod reply_room;
mod request_frame;
mod sent;

pub use agreement::{agrees, files_agreed, minor_agreed};
pub use minor::{codec_minor, said_where_known};
pub use operations::{opcode_asked, operation_asked};
pub use reply::Reply;
pub use reply_body::{kind_of_type, listed_by};
pub use reply_decoding::{DecodedReply, decode_reply, reply_to_call};
pub use reply_frame::ReplyFrame;
pub use reply_room::ReplyBuffer;
pub use request_frame::RequestFrame;
pub use sent::Sent;
