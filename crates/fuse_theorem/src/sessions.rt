//! The headline over a link of bytes that may fail: where it does, the event's record is followed by `LinkLost` and one
//! abort, and every later event is refused.

ghost use Rattle.std.specs.Prelude.{◌≡◌, List, [], true};
ghost use Rattle.fuse_spec.specs.Claim.Alike.{Alike};
ghost use Rattle.fuse_spec.specs.World.Events.{Event, abort, aborted};
ghost use Rattle.fuse_spec.specs.Reference.Plain.{Plain};
ghost use Rattle.fuse_spec.specs.World.Records.{Record};
ghost use Rattle.fuse_spec.specs.Claim.Runs.{AnswersOnce};
ghost use Rattle.fuse_spec.specs.Claim.Sessions.{Session, SessionRun, linked};
ghost use Rattle.fuse_spec.specs.World.Steps.{Happens};
ghost use Rattle.fuse_spec.specs.World.Worlds.{World};
ghost use Rattle.fuse_theorem.specs.AllSound.{AllSound};
ghost use Rattle.fuse_theorem.specs.AnswersSound.{AnswersSound};
ghost use Rattle.fuse_theorem.specs.Recorded.{Recorded};
ghost use Rattle.fuse_theorem.specs.SessionRecorded.{LostIn, SessionRecorded};

/// Whatever is recorded of a list of events over a link that may fail: the plain world has a run over the list with the
/// same records, in steps of its own words, alike after each event and after the abort, with the reference protocol
/// after each. Each call is answered at most once.
pub fn every_list_runs()
    ensures { (s : Session) (p : Plain) → AllSound s.world p → AnswersSound s.world.kernel.vfs
        → (events : List Event) (records : List Record) (after : Session) → SessionRecorded s events records after →
        (q : Plain) × SessionRun s p events records after q × Alike after.world q × AllSound after.world q
        × AnswersOnce records }
{}

/// Where the link is not lost, the records are those of a world. Where it is, they are so before the event in which it
/// is; that event happens, and then one abort; and every later event is refused.
pub fn lost_once()
    ensures never { (w : World) (events : List Event) (records : List Record) (after : World)
        → SessionRecorded (linked w) events records (linked after) → Recorded w events records after }
    ensures once { (w : World) (events : List Event) (records : List Record) (after : Session)
        → SessionRecorded (linked w) events records after → after.is_lost ≡ true → LostIn w events records after.world }
{}

/// Where anything is on the links between the two sides, a mount is live and an abort is accepted. So where a link is
/// lost in the event that sends, the mount can be aborted at once.
pub fn abort_follows()
    ensures { (w : World) (p : Plain) → AllSound w p → ((w.requests ≡ []) × (w.replies ≡ []) × (w.results ≡ []) → ⊥)
        → (last : World) × Happens w abort aborted last }
{}
