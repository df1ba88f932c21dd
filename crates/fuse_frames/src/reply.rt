//! What a reply says.

use fk_wire::InitFlags;
use fuse_spec::Attributes;

/// What a reply says: its body, or an error number alone (linux/fuse.h, struct fuse_out_header). `F` names a file, `L`
/// holds the names of a list, `P` holds names with their files, and `S` holds bytes: borrowed from a frame, or owned.
/// What a name leads to is valid for this many milliseconds.
#[derive(Drop)]
pub enum Reply<F, L, P, S> {
    /// The name leads to a file.
    Entry {
        file: F,
        valid_ms: u64,
    },
    /// The name leads to no file.
    Negative {
        valid_ms: u64,
    },
    /// The name leads to a new file, which is open.
    Created {
        file: F,
        valid_ms: u64,
        fh: u64,
    },
    Opened {
        fh: u64,
    },
    Attributes(Attributes),
    Listed(L),
    ListedPlus(P),
    Content(S),
    Written {
        size: u32,
    },
    /// To INIT: the version that the server states, and the flags that it takes up.
    Agreed {
        major: u32,
        minor: u32,
        flags: InitFlags,
    },
    Done,
    Failed {
        errno: u32,
    },
}
