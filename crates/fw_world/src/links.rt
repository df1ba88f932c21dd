//! The three links between kernel and server, as queues of what is on its way, and what an event does to them.

ghost use Rattle.std.specs.Prelude.{◌≡◌, []};

use fuse_frames::{RequestFrame, Sent};
use fuse_spec::ReplyResult;
use std::alloc::Allocator;
use std::collections::VecDeque;

/// Empties the three links.
pub(crate) fn clear_links<A: Allocator>(
    requests: &mut VecDeque<RequestFrame<A>, A>,
    replies: &mut VecDeque<Sent<A>, A>,
    results: &mut VecDeque<ReplyResult, A>,
)
    ensures requests { requests.new.items ≡ [] }
    ensures replies { replies.new.items ≡ [] }
    ensures results { results.new.items ≡ [] }
{
    requests.clear();
    replies.clear();
    results.clear();
}
