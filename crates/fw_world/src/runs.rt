//! Whole lists of events.

ghost use Rattle.std.specs.Prelude.{◌≡◌, ◌+◌, ◌*◌, ◌<◌, ◌≤◌, ◌++◌, ◌∷◌, [], false, List};
ghost use Rattle.std.specs.Prelude.{IsTrue, IfErr, IfNone, IfSome, OnErr, ◌^◌, length, map};
ghost use Rattle.std.specs.Vec.{vec_len, vec_capacity};
ghost use Rattle.fuse_spec.specs.World.Records.{answers_of, collected};
ghost use Rattle.fuse_theorem.specs.Recorded.{Recorded};
ghost use Rattle.world_sessions.specs.KernelRules.{SessionGoesOn};
ghost use Rattle.world_sessions.specs.WorldTransfers.{mounts_among, mounts_at};
ghost use Rattle.fw_world.specs.declared.record.Record.{Record as RecordValue};
ghost use Rattle.fw_world.specs.Values.{event_of, run_record_of};
ghost use Rattle.fw_world.specs.Runs.{RunsAs, RunsEach, RunsOne, calls_not_over, events_run};

use crate::event::Event;
use crate::record::Record;
use crate::sides::SidesOf;
use crate::tables::Tables;
use crate::world::WorldOf;
use std::alloc::Allocator;

/// Runs the events one after another. The records of each are its outcome or refusal, and then the answers that it
/// gave, in rising call number. This carries the headline: whatever the events, there is a run of a plain world with
/// these records. What an outcome says of its event's frame is so in the world after the event. What goes over the device in
/// it goes on with what did before, and in the whole the kernel keeps the rules of sessions.
///
/// # Errors
///
/// `Err(k)` where the list of records could not grow, after exactly k events; the events from the k-th on have not run.
/// With room for the answers that wait, those of the unanswered calls, and two records an event it does not come to
/// that; so neither with room for 66 records an event, where no answer waits.
pub fn run<T: Tables>(
    world: &mut WorldOf<T>,
    events: &[Event<'_>],
    records: &mut Vec<Record<T::Heap>, T::Heap>,
) -> Result<(), usize>
    ensures ran { (added : List (RecordValue T.Heap)) × (records.new.items ≡ records.old.items ++ added)
        × RunsAs world.old.sides (map event_of (events_run result events.now)) (map run_record_of added) world.new.sides
        × RunsEach RunsOne world.old.sides (events_run result events.now) added world.new.sides }
    ensures session { SessionGoesOn (mounts_among (map event_of (events_run result events.now))) world.old.sides
        world.new.sides }
    ensures err { IfErr result (λ k. k < length events.now) }
    ensures full { OnErr result (vec_capacity records.old < vec_len records.old
        + calls_not_over world.old.sides + 2 * length events.now) }
    ensures room { OnErr result (world.old.sides.kernel.vfs.answers ≡ []
        → vec_capacity records.old < vec_len records.old + 66 * length events.now) }
{
    world.lemma_protocol();
    for (k, event) in events.iter().enumerate() {
        if !run_one(world, event, records) {
            return Err(k);
        }
    }
    Ok(())
}

/// The next event results in at most this many records: one of its own, one of a call that begins and is answered in it
/// or of a link that is lost in it, and the answers of calls that wait.
pub(crate) fn most_records<T: Tables>(world: &SidesOf<T>) -> Option<usize>
    ensures some { IfSome result (λ room. room ≡ calls_not_over world.now + 2) }
    ensures none { IfNone result (2 ^ 64 ≤ calls_not_over world.now + 2) }
{
    let waiting = world.answered().checked_add(world.unanswered())?;
    waiting.checked_add(2)
}

/// Runs one event and records what it came to, or does nothing where there is no memory for the records.
fn run_one<T: Tables>(
    world: &mut WorldOf<T>,
    event: &Event<'_>,
    records: &mut Vec<Record<T::Heap>, T::Heap>,
) -> bool
    ensures not_run { result ≡ false → (world.new.sides ≡ world.old.sides) × (records.new.items ≡ records.old.items) }
    ensures full { result ≡ false →
        vec_capacity records.old < vec_len records.old + calls_not_over world.old.sides + 2 }
    ensures ran { IsTrue result → (added : List (RecordValue T.Heap))
        × (records.new.items ≡ records.old.items ++ added)
        × Recorded world.old.sides (event_of event.now ∷ []) (map run_record_of added) world.new.sides
        × RunsOne world.old.sides event.now added world.new.sides }
    ensures session { SessionGoesOn (mounts_at (event_of event.now)) world.old.sides world.new.sides }
    ensures room { IsTrue result →
        vec_len records.new + calls_not_over world.new.sides + vec_capacity records.old
        ≤ vec_len records.old + calls_not_over world.old.sides + 2 + vec_capacity records.new }
{
    world.lemma_protocol();
    let Some(room) = most_records(&world.sides) else {
        return false;
    };
    if records.reserve(room).is_err() {
        return false;
    }
    match world.step(event) {
        Ok(outcome) => {
            records.push_reserved(Record::Outcome(outcome));
            collect_all(&mut world.sides, records);
        }
        Err(refusal) => records.push_reserved(Record::Refused(refusal)),
    }
    true
}

/// Collects and records every answer that waits.
#[inline(always)]
pub(crate) fn collect_all<T: Tables>(
    world: &mut SidesOf<T>,
    records: &mut Vec<Record<T::Heap>, T::Heap>,
)
    requires { vec_len records.old + length world.old.kernel.vfs.answers ≤ vec_capacity records.old }
    ensures world { world.new ≡ collected world.old }
    ensures session { SessionGoesOn 0 world.old world.new }
    ensures records { (added : List (RecordValue T.Heap)) × (records.new.items ≡ records.old.items ++ added)
        × (map run_record_of added ≡ answers_of world.old.kernel.vfs.answers) }
    ensures len { vec_len records.new ≡ vec_len records.old + length world.old.kernel.vfs.answers }
    ensures capacity { vec_capacity records.old ≤ vec_capacity records.new }
{
    world.lemma_protocol();
    while let Some((call, answer)) = world.collect() {
        records.push_reserved(Record::Answered { call, answer });
    }
}
