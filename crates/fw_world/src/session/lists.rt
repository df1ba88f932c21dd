//! Whole lists of events over a link.

ghost use Rattle.std.specs.Prelude.{◌≡◌, ◌+◌, ◌*◌, ◌<◌, ◌≤◌, ◌++◌, ◌∷◌, [], false};
ghost use Rattle.std.specs.Prelude.{if◌then◌else◌, List, IsTrue, IfErr, OnErr, length, map};
ghost use Rattle.std.specs.Vec.{vec_len, vec_capacity};
ghost use Rattle.world_sessions.specs.KernelRules.{SessionGoesOn};
ghost use Rattle.world_sessions.specs.WorldTransfers.{mounts_among, mounts_at};
ghost use Rattle.fw_world.specs.OverLinks.{RecordedOver, RunsOneOver, RunsOver, session_of};
ghost use Rattle.fw_world.specs.Runs.{RunsEach, calls_not_over, events_run};
ghost use Rattle.fw_world.specs.Values.{event_of, run_record_of};
ghost use Rattle.fw_world.specs.declared.record.Record.{Record as RecordValue};
ghost use Rattle.fw_world.specs.declared.record.Record.TheVariants.{LinkLost};

use super::SessionOf;
use crate::event::Event;
use crate::record::Record;
use crate::runs::{collect_all, most_records};
use crate::tables::Tables;
use fw_link::Link;
use std::alloc::Allocator;

impl<T: Tables, L: Link + Drop> SessionOf<T, L> {
    /// Runs the events one after another. The records of each are its outcome or refusal, `LinkLost` where the link
    /// was lost in it, and then the answers that it gave, in rising call number. The kernel keeps the rules of sessions.
    ///
    /// # Errors
    ///
    /// `Err(k)` where the list of records could not grow, after exactly k events; the events from the k-th on have not
    /// run. With room for the answers that wait, those of the unanswered calls, and two records an event it does not
    /// come to that; so neither with room for 66 records an event, where no answer waits.
    pub fn run(
        &mut self,
        events: &[Event<'_>],
        records: &mut Vec<Record<T::Heap>, T::Heap>,
    ) -> Result<(), usize>
        ensures ran { (added : List (RecordValue T.Heap)) × (records.new.items ≡ records.old.items ++ added)
            × RunsOver L.carries L.failed (session_of self.old.world self.old.is_lost) self.old.link
            (map event_of (events_run result events.now)) (map run_record_of added)
            (session_of self.new.world self.new.is_lost) self.new.link
            × RunsEach (RunsOneOver L.carries L.failed) (session_of self.old.world self.old.is_lost, self.old.link)
            (events_run result events.now) added (session_of self.new.world self.new.is_lost, self.new.link) }
        ensures session { SessionGoesOn (mounts_among (map event_of (events_run result events.now))) self.old.world
            self.new.world }
        ensures err { IfErr result (λ k. k < length events.now) }
        ensures full { OnErr result (vec_capacity records.old < vec_len records.old
            + calls_not_over self.old.world + 2 * length events.now) }
        ensures room { OnErr result (self.old.world.kernel.vfs.answers ≡ [] →
            vec_capacity records.old < vec_len records.old + 66 * length events.now) }
    {
        self.world.lemma_protocol();
        for (k, event) in events.iter().enumerate() {
            if !self.run_one(event, records) {
                return Err(k);
            }
        }
        Ok(())
    }

    /// Runs one event and records what it came to, or does nothing where there is no memory for the records.
    fn run_one(&mut self, event: &Event<'_>, records: &mut Vec<Record<T::Heap>, T::Heap>) -> bool
        ensures not_run { result ≡ false → (self.new.world ≡ self.old.world) × (self.new.is_lost ≡ self.old.is_lost)
            × (self.new.link ≡ self.old.link) × (records.new.items ≡ records.old.items) }
        ensures full { result ≡ false → vec_capacity records.old < vec_len records.old
            + calls_not_over self.old.world + 2 }
        ensures ran { IsTrue result → (added : List (RecordValue T.Heap)) × (records.new.items ≡ records.old.items ++ added)
            × RecordedOver L.carries L.failed (session_of self.old.world self.old.is_lost) self.old.link
            (event_of event.now ∷ []) (map run_record_of added) (session_of self.new.world self.new.is_lost) self.new.link
            × RunsOneOver L.carries L.failed (session_of self.old.world self.old.is_lost, self.old.link) event.now added
            (session_of self.new.world self.new.is_lost, self.new.link) }
        ensures session { SessionGoesOn (mounts_at (event_of event.now)) self.old.world self.new.world }
        ensures room { IsTrue result →
            vec_len records.new + calls_not_over self.new.world + vec_capacity records.old
            ≤ vec_len records.old + calls_not_over self.old.world + 2 + vec_capacity records.new }
    {
        self.world.lemma_protocol();
        let Some(room) = most_records(&self.world) else {
            return false;
        };
        if records.reserve(room).is_err() {
            return false;
        }
        match self.step(event) {
            Ok(outcome) => {
                records.push_reserved(Record::Outcome(outcome));
                add_loss(records, self.is_lost);
                collect_all(&mut self.world, records);
            }
            Err(refusal) => records.push_reserved(Record::Refused(refusal)),
        }
        true
    }
}

/// Appends the record of a lost link, if it is lost.
fn add_loss<A: Allocator>(records: &mut Vec<Record<A>, A>, is_lost: bool)
    requires { vec_len records.old < vec_capacity records.old }
    ensures items { records.new.items ≡ records.old.items ++ (if is_lost then LinkLost ∷ [] else []) }
    ensures len { vec_len records.new ≡ vec_len records.old + (if is_lost then 1 else 0) }
    ensures capacity { vec_capacity records.old ≤ vec_capacity records.new }
{
    if is_lost {
        records.push_reserved(Record::LinkLost);
    }
}
