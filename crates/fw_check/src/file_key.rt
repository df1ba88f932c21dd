//! Open files, as keys.

ghost use Rattle.std.specs.Prelude.{◌≡◌};
ghost use Rattle.fw_check.specs.Standing as words;

use fuse_sessions::{OpenFile, OpenKind};

/// An open file, as a key of a table.
#[derive(Clone, Copy, PartialEq, Eq, PartialOrd, Ord)]
pub(crate) struct FileKey {
    pub(crate) is_directory: bool,
    pub(crate) nodeid: u64,
    pub(crate) fh: u64,
}

/// The key of an open file.
pub(crate) fn key_of(file: OpenFile) -> FileKey
    ensures { result ≡ words.key_of file }
{
    FileKey {
        is_directory: matches!(file.kind, OpenKind::Directory),
        nodeid: file.nodeid,
        fh: file.fh,
    }
}
