//! The envelope of an event, over a link.

ghost use Rattle.std.specs.Prelude.{◌≡◌, ◌≢◌, ◌≤◌, [], OnErr, OnOk, vec_capacity};
ghost use Rattle.fk_wire.specs.Results.{SpellsResult};
ghost use Rattle.fw_link.specs.Carrying.{IsEmpty};
ghost use Rattle.fw_world.specs.Sends.{Carries, IsLostOn, IsOut, IsSent, LosesEnvelope};
ghost use Rattle.fw_world.specs.Sends.{SendsReply, SendsRequest, SendsResult, result_error};
ghost use Rattle.fw_world.specs.Values.{outcome_of};

use crate::event::Outcome;
use crate::sides::SidesOf;
use crate::tables::Tables;
use fk_wire::write_result;
use fuse_spec::{ReplyResult, Taken, WriteResult};
use fw_link::{Carrier, Envelope, Link, LinkFault, Side};
use std::alloc::Allocator;

/// The kinds of envelopes.
const REQUEST: u8 = 0;

const REPLY: u8 = 1;

const RESULT: u8 = 2;

/// The bytes of a result's frame.
pub(crate) const RESULT_LEN: usize = 16;

/// The error number of a reply's result, as its frame has it: 0, or negated.
fn error_number(written: WriteResult) -> i32
    ensures { result ≡ result_error written }
{
    match written {
        WriteResult::Accepted => 0,
        WriteResult::NoEntry => -2,
        WriteResult::Invalid => -22,
    }
}

/// Writes the frame of a result.
fn frame_result<A: Allocator>(frame: &mut Vec<u8, A>, settled: ReplyResult)
    requires room { 16 ≤ vec_capacity frame.old }
    ensures spells { SpellsResult frame.new.items (result_error settled.result) settled.unique }
    ensures capacity { vec_capacity frame.old ≤ vec_capacity frame.new }
{
    frame.clear();
    let _written = write_result(frame, error_number(settled.result), settled.unique);
}

/// Sends the request that was put last on its link.
fn send_request<T: Tables, L: Link>(
    world: &SidesOf<T>,
    link: &mut L,
    carrier: &mut Carrier<T::Heap>,
) -> Result<(), LinkFault>
    requires empty { IsEmpty carrier.old }
    requires some { world.now.requests ≢ [] }
    ensures ok { OnOk result (Carries (SendsRequest world.now) (L.carries link.old link.new)) }
    ensures again { OnOk result (IsEmpty carrier.new) }
    ensures failed { OnOk result (L.failed link.new ≡ L.failed link.old) }
    ensures err { OnErr result (LosesEnvelope (SendsRequest world.now) (L.carries link.old link.new)
        (L.failed link.old) (L.failed link.new)) }
{
    // The world has one.
    let Some(frame) = world.last_request() else {
        return Ok(());
    };
    let envelope = Envelope {
        kind: REQUEST,
        copy: 0,
        frame,
    };
    carrier.carry(link, Side::Kernel, &envelope)
}

/// Sends the copy that was put last on its link.
fn send_copy<T: Tables, L: Link>(
    world: &SidesOf<T>,
    link: &mut L,
    carrier: &mut Carrier<T::Heap>,
) -> Result<(), LinkFault>
    requires empty { IsEmpty carrier.old }
    requires some { world.now.replies ≢ [] }
    ensures ok { OnOk result (Carries (SendsReply world.now) (L.carries link.old link.new)) }
    ensures again { OnOk result (IsEmpty carrier.new) }
    ensures failed { OnOk result (L.failed link.new ≡ L.failed link.old) }
    ensures err { OnErr result (LosesEnvelope (SendsReply world.now) (L.carries link.old link.new)
        (L.failed link.old) (L.failed link.new)) }
{
    // The world has one.
    let Some((copy, frame)) = world.last_copy() else {
        return Ok(());
    };
    let envelope = Envelope {
        kind: REPLY,
        copy,
        frame,
    };
    carrier.carry(link, Side::Server, &envelope)
}

/// Sends the result that was put last on its link, in this frame.
fn send_result<T: Tables, L: Link>(
    world: &SidesOf<T>,
    frame: &mut Vec<u8, T::Heap>,
    link: &mut L,
    carrier: &mut Carrier<T::Heap>,
) -> Result<(), LinkFault>
    requires empty { IsEmpty carrier.old }
    requires room { 16 ≤ vec_capacity frame.old }
    requires some { world.now.results ≢ [] }
    ensures ok { OnOk result (Carries (SendsResult world.now) (L.carries link.old link.new)) }
    ensures again { OnOk result (IsEmpty carrier.new) }
    ensures capacity { vec_capacity frame.old ≤ vec_capacity frame.new }
    ensures failed { OnOk result (L.failed link.new ≡ L.failed link.old) }
    ensures err { OnErr result (LosesEnvelope (SendsResult world.now) (L.carries link.old link.new)
        (L.failed link.old) (L.failed link.new)) }
{
    // The world has one.
    let Some(settled) = world.last_result() else {
        return Ok(());
    };
    frame_result(frame, settled);
    let envelope = Envelope {
        kind: RESULT,
        copy: settled.number,
        frame,
    };
    carrier.carry(link, Side::Kernel, &envelope)
}

/// Sends the envelope of an accepted event with this outcome, if it has one.
pub(crate) fn send<T: Tables, L: Link>(
    world: &SidesOf<T>,
    outcome: &Outcome,
    frame: &mut Vec<u8, T::Heap>,
    link: &mut L,
    carrier: &mut Carrier<T::Heap>,
) -> Result<(), LinkFault>
    requires empty { IsEmpty carrier.old }
    requires room { 16 ≤ vec_capacity frame.old }
    requires out { IsOut world.now (outcome_of outcome.now) }
    ensures ok { OnOk result (IsSent world.now (outcome_of outcome.now) (L.carries link.old link.new)) }
    ensures again { OnOk result (IsEmpty carrier.new) }
    ensures capacity { vec_capacity frame.old ≤ vec_capacity frame.new }
    ensures failed { OnOk result (L.failed link.new ≡ L.failed link.old) }
    ensures err { OnErr result (IsLostOn world.now (outcome_of outcome.now) (L.carries link.old link.new)
        (L.failed link.old) (L.failed link.new)) }
{
    match outcome {
        Outcome::Read { .. } => send_request(world, link, carrier),
        Outcome::Done { .. } | Outcome::SentAgain { .. } => send_copy(world, link, carrier),
        // An INTERRUPT is answered EAGAIN at once.
        Outcome::Taken { word, .. } => match word {
            Taken::Again => send_copy(world, link, carrier),
            Taken::Held | Taken::Forgot | Taken::Marked | Taken::Ignored => Ok(()),
        },
        Outcome::Written { .. } => send_result(world, frame, link, carrier),
        Outcome::Mounted
        | Outcome::Begun { .. }
        | Outcome::Lost { .. }
        | Outcome::Settled { .. }
        | Outcome::Interrupted { .. }
        | Outcome::Now { .. }
        | Outcome::Dropped
        | Outcome::Evicted { .. }
        | Outcome::Aborted => Ok(()),
    }
}
