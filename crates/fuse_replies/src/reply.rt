//! A reply, as its frame has it.

use crate::entry::{Entry, Opened, ValidAttributes};
use crate::records::{EntryRecords, Records};
use fuse_protocol::InitReply;

/// The header of a reply or a notification: `struct fuse_out_header`.
#[derive(Clone, Copy, Debug, PartialEq, Eq)]
pub struct ReplyHeader {
    /// The number of the request that is answered; 0 in a notification.
    pub unique: u64,
    /// 0, a negated error number, or in a notification its code.
    pub error: i32,
}

/// A reply. Data, names and records are slices of the frame.
#[derive(Clone, Copy, Debug)]
pub struct Reply<'a> {
    /// The number of the request that it answers. Whether one waits under it is not looked at.
    pub unique: u64,
    pub answer: Answer<'a>,
}

/// What a reply says.
#[derive(Clone, Copy, Debug)]
pub enum Answer<'a> {
    /// An error, as its positive number: 1 to 511.
    Failed(u32),
    /// It is done, and there is nothing to say.
    Done,
    /// The file of a name.
    Entry(Entry),
    Attributes(ValidAttributes),
    Opened(Opened),
    /// A file that was created and opened.
    Created(Entry, Opened),
    /// How many bytes were written, copied or are there, a place, a block, or events.
    Number(u64),
    /// Data, the target of a link, a struct that is not read further.
    Bytes(&'a [u8]),
    Records(Records<'a>),
    EntryRecords(EntryRecords<'a>),
    /// What INIT agrees on.
    Init(InitReply),
}
