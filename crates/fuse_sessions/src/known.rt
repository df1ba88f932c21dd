//! What INIT makes known of a session.

use fuse_protocol::{Agreed, InitRequest, Unjudged};

/// What frames are read by, besides what waits.
#[derive(Clone, Copy, Debug, PartialEq, Eq)]
pub struct Known {
    /// What the first INIT's request offers.
    pub offered: Option<InitRequest>,
    /// What the last INIT agreed on whose reply was accepted; before one, what INIT itself is read by.
    pub agreed: Agreed,
    /// Whether the device accepted FUSE_NOTIFY_RESEND.
    pub has_resent: bool,
    /// Why nothing is judged any more, if so: INIT agreed on frames that cannot be read.
    pub unjudged: Option<Unjudged>,
}
