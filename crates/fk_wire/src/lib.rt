//! Frames of the FUSE protocol, read and written, exact to the byte.
//!
//! `read_request` and `read_reply` answer `Ok` exactly where the bytes spell a message, and else the
//! first fault. They take no memory: names, data, pairs and records are slices of the frame.
//! `write_request` and `write_reply` append the one written spelling of a message, or refuse it and
//! leave the vector as it was.
//!
//! The grammar stands in `specs/Requests.antt` and `specs/Replies.antt`, a line for each struct of
//! linux/fuse.h, and in docs/PROTOCOL.md in tables. The contracts speak of it by `Spells`, `Written`,
//! `FaultIs` and `RefusalIs`, and of replies by `SpellsReply`, `WrittenReply`, `ReplyFaultIs` and
//! `ReplyRefusalIs`; each has a form by minor version, as `SpellsAt`. `decoded` and `decoded_reply` are
//! the message of a frame as a function of its bytes. What is fixed for an opcode stands in one row of
//! the table in `specs/Opcodes.antt`.
#![tactic(auto)]

mod bodies;
mod directory;
mod entry;
mod error_frame;
mod fault;
mod flags;
mod limits;
mod opcode;
mod pairs;
mod reading;
mod reading_reply;
mod records;
mod records_plus;
mod reply;
mod request;
mod result_frame;
mod room;
mod shapes;
mod walk;
mod writing;
mod writing_reply;

pub use directory::{put_listed, put_listing_head, put_record, put_record_plus};
pub use entry::{Attr, Entry};
pub use error_frame::frame_of_error;
pub use fault::WireFault;
pub use flags::InitFlags;
pub use limits::MAX_FRAME;
pub use opcode::{Minor, Opcode, is_known, is_served_opcode_at, opcode_of_code};
pub use pairs::Pairs;
pub use reading::{read_request, read_request_at, read_request_head, spelled_is_decoded};
pub use reading_reply::{
    read_reply, read_reply_at, read_reply_body, read_reply_head, spelled_reply_is_decoded,
};
pub use records::{Dirent, Records};
pub use records_plus::{DirentPlus, RecordsPlus};
pub use reply::{Reply, ReplyBody, ReplyHead};
pub use request::{Request, RequestBody};
pub use result_frame::{read_result, write_result};
pub use walk::split_record;
pub use writing::{put_pair, request_size, write_request, write_request_at, written_is_spelled};
pub use writing_reply::{write_reply, write_reply_at, written_reply_is_spelled};
