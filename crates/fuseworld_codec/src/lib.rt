//! The codec as a C library: `include/fuseworld.h` declares its calls for C and C++.
//!
//! Each call reads or writes one frame, into structs and buffers of the caller's. It allocates nothing,
//! keeps nothing and ends no process. Names and data stand in the structs as an offset and a length
//! within bytes of the caller's. What a struct says is defined in `specs/RequestStructs.antt` and
//! `specs/ReplyStructs.antt`, and the contracts state the codec's own by it.
#![tactic(auto)]

mod heads;
mod layout;
mod names;
mod reading;
mod reading_reply;
mod reply_bytes;
mod reply_checks;
mod reply_fields;
mod reply_message;
mod request_bytes;
mod request_fields;
mod request_message;
mod room;
mod status;
mod walking;
mod writing;
mod writing_reply;
