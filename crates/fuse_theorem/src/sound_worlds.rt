//! The worlds to which lists of events lead.

ghost use Rattle.std.specs.Prelude.{◌+◌, ◌≤◌, ℕ, List, length};
ghost use Rattle.fuse_spec.specs.Claim.Alike.{Alike};
ghost use Rattle.fuse_spec.specs.Claim.Counts.{Protocol};
ghost use Rattle.fuse_spec.specs.World.Events.{Event, Outcome};
ghost use Rattle.fuse_spec.specs.Values.Maps.{remove};
ghost use Rattle.fuse_spec.specs.Values.Numbers.{max_calls};
ghost use Rattle.fuse_spec.specs.Reference.Plain.{Plain};
ghost use Rattle.fuse_spec.specs.Reference.PlainWords.{Steps};
ghost use Rattle.fuse_spec.specs.World.Records.{Record, collected};
ghost use Rattle.fuse_spec.specs.Claim.Runs.{Run, AnswersOnce, IsOver, CallsEnd, plain_handed_out};
ghost use Rattle.fuse_spec.specs.Claim.Sessions.{Session, SessionRun};
ghost use Rattle.fuse_spec.specs.World.Steps.{Happens};
ghost use Rattle.fuse_spec.specs.World.Worlds.{World, first_world};
ghost use Rattle.fuse_theorem.specs.SoundWorlds.{IsSoundWorld};
ghost use Rattle.fuse_theorem.specs.Recorded.{Recorded};
ghost use Rattle.fuse_theorem.specs.SessionRecorded.{SessionRecorded};

/// All that is sound before the first mount stays so with any event, and as answers are collected, one or all.
pub fn sound_worlds_stay()
    ensures first { IsSoundWorld first_world }
    ensures next { (w : World) → IsSoundWorld w → (e : Event) (o : Outcome) (after : World) → Happens w e o after
        → IsSoundWorld after }
    ensures handing_out { (w : World) (call : ℕ) → IsSoundWorld w → let left = remove w.kernel.vfs.answers call in
        IsSoundWorld (record w { kernel = record w.kernel { vfs = record w.kernel.vfs { answers = left } } }) }
    ensures collecting { (w : World) → IsSoundWorld w → IsSoundWorld (collected w) }
{}

/// A world that events led to is alike to some plain world, and keeps the reference protocol. Each plain world that is
/// alike to it takes the step of an event that happens, in words of its own, and is alike again; so it is as an answer
/// is collected, and along a list of events. A call that is over stays so.
pub fn sound_worlds_refine()
    ensures some { (w : World) → IsSoundWorld w → (p : Plain) × Alike w p }
    ensures protocol { (w : World) → IsSoundWorld w → Protocol w }
    ensures event { (w : World) → IsSoundWorld w → (e : Event) (o : Outcome) (after : World) → Happens w e o after
        → (p : Plain) → Alike w p → (q : Plain) × Steps p e o q × Alike after q }
    ensures over { (w : World) → IsSoundWorld w → (e : Event) (o : Outcome) (after : World) → Happens w e o after
        → (call : ℕ) → IsOver w call → IsOver after call }
    ensures handing_out { (w : World) → IsSoundWorld w → (call : ℕ) (p : Plain) → Alike w p
        → let left = remove w.kernel.vfs.answers call in
        Alike (record w { kernel = record w.kernel { vfs = record w.kernel.vfs { answers = left } } })
        (plain_handed_out p call) }
    ensures list { (w : World) → IsSoundWorld w → (events : List Event) (records : List Record) (after : World)
        → Recorded w events records after → (p : Plain) → Alike w p
        → (q : Plain) × Run w p events records after q × Alike after q }
    ensures answers { (w : World) → IsSoundWorld w → (events : List Event) (records : List Record) (after : World)
        → Recorded w events records after → AnswersOnce records × CallsEnd w records after }
{}

/// Over a link that may fail, too: along a list of events each plain world that is alike to a session's world takes its
/// steps in words of its own, and is alike again. The reference protocol is kept, and each call is answered at most
/// once and over with its answer.
pub fn sound_sessions_refine()
    ensures list { (s : Session) → IsSoundWorld s.world → (events : List Event) (records : List Record) (after : Session)
        → SessionRecorded s events records after → (p : Plain) → Alike s.world p
        → (q : Plain) × SessionRun s p events records after q × Alike after.world q }
    ensures protocol { (s : Session) → IsSoundWorld s.world
        → (events : List Event) (records : List Record) (after : Session) → SessionRecorded s events records after
        → Protocol after.world }
    ensures answers { (s : Session) → IsSoundWorld s.world
        → (events : List Event) (records : List Record) (after : Session) → SessionRecorded s events records after
        → AnswersOnce records × CallsEnd s.world records after.world }
{}

/// Any event, in any world, leaves at most one call more that is unanswered or whose answer waits. In a world that
/// events led to no more calls are unanswered than may be.
pub fn calls_wait_one_by_one()
    ensures one_more { (w : World) (e : Event) (o : Outcome) (after : World) → Happens w e o after
        → length after.kernel.vfs.answers + length after.kernel.vfs.calls
        ≤ length w.kernel.vfs.answers + length w.kernel.vfs.calls + 1 }
    ensures few { (w : World) → IsSoundWorld w → length w.kernel.vfs.calls ≤ max_calls }
{}
