//! The headline over the definitions: every list of all events of the finished system, in any order.

ghost use Rattle.std.specs.Prelude.{◌≢◌, List, All};
ghost use Rattle.fuse_spec.specs.Claim.Alike.{Alike};
ghost use Rattle.fuse_spec.specs.Claim.Counts.{Protocol};
ghost use Rattle.fuse_spec.specs.declared.Refusal.TheVariants.{NoMemory};
ghost use Rattle.fuse_spec.specs.World.Events.{Event, Outcome};
ghost use Rattle.fuse_spec.specs.Reference.Plain.{Plain, first_plain};
ghost use Rattle.fuse_spec.specs.Reference.PlainSteps.{Takes};
ghost use Rattle.fuse_spec.specs.World.Records.{Record, refused, collected};
ghost use Rattle.fuse_spec.specs.Claim.Runs.{AnswersOnce, CallsEnd, Run, plain_collected};
ghost use Rattle.fuse_spec.specs.World.Steps.{Happens};
ghost use Rattle.fuse_spec.specs.World.Worlds.{World, first_world};
ghost use Rattle.fuse_theorem.specs.AllSound.{AllSound};
ghost use Rattle.fuse_theorem.specs.AnswersSound.{AnswersSound};
ghost use Rattle.fuse_theorem.specs.Recorded.{Recorded};

/// Before the first mount all is sound. With any event that the machine does not refuse the plain world takes a step,
/// and all is sound again: so the two are alike. It stays so as answers are collected.
pub fn all_stays_sound()
    ensures at_first { AllSound first_world first_plain }
    ensures always { (w : World) (p : Plain) → AllSound w p → (e : Event) (o : Outcome) (after : World)
        → Happens w e o after → (q : Plain) × Takes p e o q × Alike after q × AllSound after q }
    ensures collecting { (w : World) (p : Plain) → AllSound w p → AllSound (collected w) (plain_collected p) }
{}

/// The reference protocol holds of each world that a list of events reached: the counts of nodes and of file handles
/// are balanced, the server holds what a live kernel uses and no request names a node or a file handle that is gone, no
/// request has a fault, no copy was refused for its body, and where nothing is under way no call is unanswered and the
/// two sides count the same.
pub fn protocol_is_kept()
    ensures { (w : World) (p : Plain) → AllSound w p → Protocol w }
{}

/// Whatever the machine records of a list of events: the plain world has a run over the list with the same records, in
/// steps of its own words, alike after each event, with the reference protocol after each. What is refused changes
/// nothing. Each call is answered at most once, and is over then: no later list answers it.
pub fn every_list_runs()
    ensures from_first { (events : List Event) (records : List Record) (after : World)
        → Recorded first_world events records after → (q : Plain) × Run first_world first_plain events records after q
        × Alike after q × Protocol after × AnswersOnce records × CallsEnd first_world records after }
    ensures from_any { (w : World) (p : Plain) → AllSound w p → AnswersSound w.kernel.vfs
        → (events : List Event) (records : List Record) (after : World) → Recorded w events records after →
        (q : Plain) × Run w p events records after q × Alike after q × AllSound after q × AnswersOnce records
        × CallsEnd w records after }
{}

/// Every list of events has records, from any world: each event happens or is refused. There are records in which
/// nothing is out of memory.
pub fn every_list_has_records()
    ensures some { (w : World) (events : List Event)
        → (records : List Record) × (after : World) × Recorded w events records after }
    ensures not_memory { (w : World) (events : List Event)
        → (records : List Record) × (after : World) × Recorded w events records after
        × All (λ (x : Record). x ≢ refused NoMemory) records }
{}
