//! What the reply to INIT agrees on.

ghost use Rattle.std.specs.Prelude.{◌≡◌};
ghost use Rattle.fuse_spec.specs.Kernel.Replies.{is_agreement};
ghost use Rattle.fuse_spec.specs.Kernel.Replies.{minor_agreed as minor_said, files_agreed as files_said};
ghost use Rattle.fuse_frames.specs.ReplyDecoding.{decoded_wire_of};

use crate::reply::Reply;
use crate::reply_decoding::DecodedReply;
use bitflags::Flags;
use fk_wire::InitFlags;
use fuse_spec::Minor;

/// Whether a reply agrees on major 7, and on minor 15 or one from 31 up (this project's rule).
pub fn agrees(said: &DecodedReply<'_>) -> bool
    ensures { result ≡ is_agreement (decoded_wire_of said.now) }
{
    match said {
        Reply::Agreed { major, minor, .. } => *major == 7 && (*minor == 15 || *minor >= 31),
        _ => false,
    }
}

/// The minor that is agreed on: one from 31 up is taken as 31 (this project's rule).
pub fn minor_agreed(said: &DecodedReply<'_>) -> Minor
    ensures { result ≡ minor_said (decoded_wire_of said.now) }
{
    match said {
        Reply::Agreed { minor: 15, .. } => Minor::M15,
        _ => Minor::M31,
    }
}

/// Whether files may be listed with their names: the server takes up FUSE_DO_READDIRPLUS, and the minor is not 15,
/// which has no READDIRPLUS (linux/fuse.h).
#[tactic(auto, using(crate::proofs::Agreements::readdirplus_known))]
pub fn files_agreed(said: &DecodedReply<'_>) -> bool
    ensures { result ≡ files_said (decoded_wire_of said.now) }
{
    match said {
        Reply::Agreed { minor, flags, .. } => {
            flags.intersects(InitFlags::DO_READDIRPLUS) && *minor != 15
        }
        _ => false,
    }
}
