//! What INIT makes known.

ghost use Rattle.std.specs.Prelude.{◌≡◌, ◌++◌, OnOk};
ghost use Rattle.fuse_replies.specs.Replies.{answer_content};
ghost use Rattle.fuse_sessions.specs.Frames as words;

use crate::writing::write;
use fuse_protocol::{Agreed, InitReply, InitRequest, read_init};
use fuse_replies::Answer;
use fuse_sessions::{Act, Fault, Known, Taken};
use std::alloc::{AllocError, Allocator};

/// A request was read: what the first INIT offers is known.
#[inline(always)]
pub(crate) fn learn_request(known: &mut Known, bytes: &[u8])
    ensures { words.IsOffered known.old bytes.now known.new }
{
    if known.offered.is_some() {
        return;
    }
    if let Ok(init) = read_init(bytes) {
        known.offered = Some(init);
    }
}

/// INIT was answered: what was agreed is known, or why the frames cannot be read.
fn learn_init(known: &mut Known, reply: &InitReply)
    ensures { words.IsAgreed known.old known.old.offered reply.now known.new }
{
    let Some(request) = known.offered else {
        return;
    };
    match Agreed::of_init(&request, reply) {
        Ok(agreed) => known.agreed = agreed,
        Err(why) => known.unjudged = Some(why),
    }
}

/// A reply was written: what it says of INIT is known.
pub(crate) fn learn_reply(known: &mut Known, taken: Taken, answer: &Answer<'_>)
    ensures { words.IsTold known.old taken (answer_content answer.now) known.new }
{
    if let (Taken::Accepted, Answer::Init(reply)) = (taken, answer) {
        learn_init(known, reply);
    }
}

/// The faults of an INIT's reply to what was offered.
fn write_offered<A: Allocator + Copy>(
    acts: &mut Vec<Act, A>,
    request: &InitRequest,
    reply: &InitReply,
) -> Result<(), AllocError>
    ensures { OnOk result (acts.new.items
        ≡ acts.old.items ++ (words.of_version reply.now ++ words.of_offered request.now reply.now)) }
{
    if reply.major != 7 {
        write(acts, Act::Faulty(Fault::InitOfAnotherVersion))?;
    }
    if reply.flags & request.flags != reply.flags {
        write(acts, Act::Faulty(Fault::FlagsThatWereNotOffered))?;
    }
    Ok(())
}

/// The faults of a reply, if it is one to INIT.
pub(crate) fn write_init<A: Allocator + Copy>(
    acts: &mut Vec<Act, A>,
    offered: Option<InitRequest>,
    answer: &Answer<'_>,
) -> Result<(), AllocError>
    ensures { OnOk result (acts.new.items ≡ acts.old.items ++ words.init_acts offered (answer_content answer.now)) }
{
    match (offered, answer) {
        (Some(request), Answer::Init(reply)) => write_offered(acts, &request, reply),
        _ => Ok(()),
    }
}
