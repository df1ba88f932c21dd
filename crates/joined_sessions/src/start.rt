//! What frames are read by before INIT is seen.

use fuse_protocol::Agreed;
use fuse_sessions::Known;

/// What a session that is joined has agreed on, as far as frames are read by it: the longest names, and no flag that
/// changes a struct. A frame is right that is right by what was agreed.
pub const JOINED: Known = Known {
    offered: None,
    agreed: Agreed {
        minor: 45,
        has_long_setxattr: false,
        has_extensions: false,
        has_dot_names: true,
        max_name: 4095,
    },
    has_resent: false,
    unjudged: None,
};
