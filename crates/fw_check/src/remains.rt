//! What is left at the end of a session.

ghost use Rattle.std.specs.Prelude.{◌≡◌, ◌++◌, OnOk};
ghost use Rattle.fw_check.specs.Tallies as words;

use crate::text::{put, put_counted};
use std::alloc::{AllocError, Allocator};

/// What is left at the end of a session.
#[derive(Clone, Copy, Debug, PartialEq, Eq)]
pub(crate) struct Remains {
    /// Requests that wait.
    pub(crate) unanswered: u64,
    /// Nodes that are counted, at most.
    pub(crate) nodes: u64,
    /// Files and directories that are open.
    pub(crate) files: u64,
}

impl Remains {
    /// The counts of nodes and of open files.
    pub(crate) fn put_standing<A: Allocator>(self, text: &mut Vec<u8, A>) -> Result<(), AllocError>
        ensures { OnOk result (text.new.items ≡ text.old.items ++ words.standing_text self) }
    {
        put_counted(text, b" nodes", self.nodes)?;
        put_counted(text, b" open", self.files)?;
        put(text, b"\n")
    }
}
