//! What one line of a file does.

use fw_world::Event;

/// A call that puts bytes into an open file. They are in hex, `-` for none.
#[derive(Clone, Copy)]
pub(crate) struct WriteCall<'a> {
    pub(crate) open_call: u64,
    pub(crate) offset: u64,
    pub(crate) hex: &'a [u8],
}

/// A step of the kernel.
#[derive(Clone, Copy)]
pub(crate) enum Act<'a> {
    /// An event, with the line that says it.
    Event { event: Event<'a>, text: &'a [u8] },
    /// A call whose bytes are in hex, with the line that says it.
    Write { call: WriteCall<'a>, text: &'a [u8] },
    /// All forgets that are queued are read, one by one.
    Forget,
}
