//! Open files, as keys.

ghost use Rattle.std.specs.Prelude.{◌≡◌};
ghost use Rattle.fuse_judge.specs.Handles.{handle};

use fuse_sessions::{OpenFile, OpenKind};

/// An open file, as a key of tables.
#[derive(Clone, Copy, PartialEq, Eq, PartialOrd, Ord)]
pub struct Handle {
    pub is_directory: bool,
    pub nodeid: u64,
    pub fh: u64,
}

/// The key of an open file.
pub(crate) fn handle_of(file: OpenFile) -> Handle
    ensures { result ≡ handle file }
{
    Handle {
        is_directory: matches!(file.kind, OpenKind::Directory),
        nodeid: file.nodeid,
        fh: file.fh,
    }
}
