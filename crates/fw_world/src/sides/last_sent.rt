//! What stands last on each link of a world.

ghost use Rattle.std.specs.Prelude.{◌≡◌, [], IfNone, IfSome, Some};
ghost use Rattle.fuse_frames.specs.RequestTies.{IsRequestFrame};
ghost use Rattle.fuse_spec.specs.Kernel.Messages.{Request};
ghost use Rattle.fuse_spec.specs.World.Worlds.{Sent};
ghost use Rattle.fw_world.specs.Frames.{IsCopyFrame};
ghost use Rattle.fw_world.specs.Sends.{last_of};

use super::SidesOf;
use crate::tables::Tables;
use fuse_spec::ReplyResult;
use fuse_tables::last;

impl<T: Tables> SidesOf<T> {
    /// The frame of the last request on its link.
    pub(crate) fn last_request(&self) -> Option<&[u8]>
        ensures some { IfSome result (λ bytes. (request : Request) × (last_of self.now.requests ≡ Some request)
            × IsRequestFrame bytes.now request) }
        ensures none { IfNone result (self.now.requests ≡ []) }
    {
        match last(&self.requests) {
            Some(frame) => Some(frame.bytes()),
            None => None,
        }
    }

    /// The number and the frame of the last copy on its link.
    pub(crate) fn last_copy(&self) -> Option<(u64, &[u8])>
        ensures some { IfSome result (λ copy. (reply : Sent) × (last_of self.now.replies ≡ Some reply)
            × (copy.0 ≡ reply.number) × IsCopyFrame copy.1.now reply) }
        ensures none { IfNone result (self.now.replies ≡ []) }
    {
        match last(&self.replies) {
            Some(copy) => Some((copy.number(), copy.bytes())),
            None => None,
        }
    }

    /// The last result on its link.
    pub(crate) fn last_result(&self) -> Option<ReplyResult>
        ensures some { IfSome result (λ settled. last_of self.now.results ≡ Some settled) }
        ensures none { IfNone result (self.now.results ≡ []) }
    {
        match last(&self.results) {
            Some(settled) => Some(*settled),
            None => None,
        }
    }
}
