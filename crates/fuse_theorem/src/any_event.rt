//! Any single event, for every world and every plain world that are alike: the plain world takes the step of the event,
//! and the two are alike again (`step`). The other laws say that every event keeps what `step` needs of the world.

ghost use Rattle.std.specs.Prelude.{◌≡◌, ℕ};
ghost use Rattle.fuse_spec.specs.declared.Minor.{Minor};
ghost use Rattle.fuse_spec.specs.Values.Maps.{get};
ghost use Rattle.fuse_spec.specs.Kernel.Queues.{IsSound};
ghost use Rattle.fuse_spec.specs.World.Events as event;
ghost use Rattle.fuse_spec.specs.World.Steps.{step, Happens};
ghost use Rattle.fuse_spec.specs.World.Events.{Event, Outcome};
ghost use Rattle.std.specs.Prelude.{Ok};
ghost use Rattle.fuse_theorem.specs.EachEvent.{IsRooted, PlainMoves, Needs};
ghost use Rattle.fuse_spec.specs.World.Worlds.{World, first_world};
ghost use Rattle.fuse_spec.specs.Reference.Plain.{Plain, first_plain};
ghost use Rattle.fuse_spec.specs.Claim.Denotes.{NodeDenotesIn};
ghost use Rattle.fuse_spec.specs.Claim.Alike.{Alike};
ghost use Rattle.std.specs.Prelude.{List};
ghost use Rattle.fuse_spec.specs.Server.Server.{Server};
ghost use Rattle.fuse_spec.specs.World.Worlds.{after_abort, after_mount};
ghost use Rattle.fuse_theorem.specs.Numbering.{IsNumbered, IsNumberedWhileLive};
ghost use Rattle.fuse_theorem.specs.ServerTables.{ServerSound};
ghost use Rattle.fuse_theorem.specs.Copies.{CopiesSound, KeptAreSent};
ghost use Rattle.fuse_spec.specs.Claim.Counts.{AtRest, SameNode};
ghost use Rattle.fuse_theorem.specs.Lookups.{LookupsSound};
ghost use Rattle.fuse_theorem.specs.Unperformed.{StandsOnce, RequestsSound};
ghost use Rattle.fuse_theorem.specs.WorldSound.{WorldSound, NeedsNoMore};
ghost use Rattle.fuse_theorem.specs.Conditions.{OneId, KnownAreHeld, TablesSound, UnreadAreUnsent};
ghost use Rattle.fuse_spec.specs.World.Records.{Record, collected};
ghost use Rattle.fuse_spec.specs.Claim.Runs.{AnswersOnce};
ghost use Rattle.fuse_theorem.specs.Recorded.{Recorded};
ghost use Rattle.fuse_theorem.specs.AnswersSound.{AnswersSound};

/// The world before its first mount is alike to the plain world with the root alone.
pub fn first_worlds()
    ensures { Alike first_world first_plain }
{}

/// Any event that is not refused, where what it needs of the world holds (`EachEvent.antt`): the plain world takes the
/// step of its outcome, and the two are alike again.
pub fn step()
    ensures { (w : World) (p : Plain) → Alike w p → (choice : ℕ → ℕ) (e : Event) (o : Outcome) (after : World)
        → Needs choice w p e → step choice w e ≡ Ok (o, after) → PlainMoves p e o after }
{}

/// The kernel's root is node 1 at first and remains so, and the answers that are not collected stay in rising number,
/// whatever the event.
pub fn stays_rooted()
    ensures at_first { IsRooted first_world.kernel.vfs }
    ensures always { (choice : ℕ → ℕ) (w : World) → IsRooted w.kernel.vfs → (o : Outcome) (after : World) (e : Event)
        → step choice w e ≡ Ok (o, after) → IsRooted after.kernel.vfs }
{}

/// The queues are sound at first and remain so, whatever the event: a number has one request at most, and stands on the
/// list of INTERRUPTs once at most.
pub fn queues_stay_sound()
    ensures at_first { IsSound first_world.kernel.queues }
    ensures always { (choice : ℕ → ℕ) (w : World) → IsSound w.kernel.queues → (o : Outcome) (after : World) (e : Event)
        → step choice w e ≡ Ok (o, after) → IsSound after.kernel.queues }
{}

/// The server's tree and tables are sound at first and remain so, whatever the event and whatever free nodeids the
/// server gives. So no two nodes have one file, the root stands in no table, and the coming file handle is new.
pub fn server_stays_sound()
    ensures at_first { ServerSound first_world.server }
    ensures always { (w : World) → ServerSound w.server → (e : Event) (o : Outcome) (after : World)
        → Happens w e o after → ServerSound after.server }
    ensures tables { (s : Server) → ServerSound s → OneId s.nodes × TablesSound s }
{}

/// The numbers of a live mount are in order, whatever the event: which were allocated, that a call has one request at
/// most, and that what is on the links, held or kept has a number that was allocated.
pub fn numbers_stay_in_order()
    ensures at_first { IsNumberedWhileLive first_world }
    ensures always { (choice : ℕ → ℕ) (w : World) → IsNumberedWhileLive w → (o : Outcome) (after : World) (e : Event)
        → step choice w e ≡ Ok (o, after) → IsNumberedWhileLive after }
{}

/// The server knows each copy that is on its way to the kernel, as it was sent, and each whose result is on its way
/// back, whatever the event; and none is on both ways or twice on one.
pub fn copies_stay_known()
    ensures at_first { CopiesSound first_world }
    ensures always { (choice : ℕ → ℕ) (w : World) → CopiesSound w → ServerSound w.server
        → (o : Outcome) (after : World) (e : Event) → step choice w e ≡ Ok (o, after) → CopiesSound after }
{}

/// The server's count of each node is the kernel's count and whatever is in flight, while the mount is live and
/// whatever the event (`Lookups.antt` has that and all that keeps it). So the server holds what the kernel knows.
pub fn lookups_stay_balanced()
    ensures at_first { LookupsSound first_world }
    ensures always { (w : World) → LookupsSound w → (e : Event) (o : Outcome) (after : World) → Happens w e o after
        → LookupsSound after }
    ensures known { (w : World) → LookupsSound w → KnownAreHeld w }
{}

/// Where nothing is under way, the kernel and the server count the same nodes, as often and under the same generations.
pub fn same_nodes_at_rest()
    ensures { (w : World) → LookupsSound w → AtRest w → (id : ℕ)
        → SameNode (get w.kernel.nodes id) (get w.server.nodes.rows id) }
{}

/// A request that is not performed stands once, whatever the event: pending, on the link, or held; and no reply to it
/// is on the link or kept. So what is unread is neither on the link nor held.
pub fn requests_stay_sound()
    ensures at_first { RequestsSound first_world }
    ensures always { (choice : ℕ → ℕ) (w : World) → RequestsSound w → IsNumberedWhileLive w
        → (o : Outcome) (after : World) (e : Event) → step choice w e ≡ Ok (o, after) → RequestsSound after }
    ensures unread { (w : World) → StandsOnce w → IsSound w.kernel.queues → UnreadAreUnsent w }
{}

/// All of that together, as one that every event keeps; and most events need no more (`WorldSound.antt`): the law for
/// any event holds of them with no condition but that the worlds are alike.
pub fn worlds_stay_sound()
    ensures at_first { WorldSound first_world }
    ensures always { (w : World) → WorldSound w → (e : Event) (o : Outcome) (after : World) → Happens w e o after
        → WorldSound after }
    ensures needs { (w : World) → WorldSound w → (choice : ℕ → ℕ) (p : Plain) (e : Event) → NeedsNoMore e
        → Needs choice w p e }
{}

/// While its request is unanswered, a kept reply has a copy on the link, whatever the event.
pub fn kept_replies_stay_sent()
    ensures at_first { KeptAreSent first_world }
    ensures always { (w : World) → WorldSound w → KeptAreSent w → (e : Event) (o : Outcome) (after : World)
        → Happens w e o after → KeptAreSent after }
{}

/// After a mount, and after an abort, no node denotes anything but the root.
pub fn root_alone()
    ensures { (w : World) (id file : ℕ) → ((found_ms missing_ms : ℕ) (minor : Minor)
        → NodeDenotesIn (after_mount w found_ms missing_ms minor) id file → (id ≡ 1) × (file ≡ 0))
        × (NodeDenotesIn (after_abort w) id file → (id ≡ 1) × (file ≡ 0)) }
{}

/// After a mount, whatever was there, the world meets the conditions of the other laws on numbers and on the tables.
pub fn mounted_is_sound()
    ensures { (w : World) (found_ms missing_ms : ℕ) (minor : Minor) →
        IsNumbered (after_mount w found_ms missing_ms minor)
        × OneId (after_mount w found_ms missing_ms minor).server.nodes
        × KnownAreHeld (after_mount w found_ms missing_ms minor)
        × TablesSound (after_mount w found_ms missing_ms minor).server }
{}

/// After an abort too, where the server's tables met them, which stay as they were.
pub fn aborted_is_sound()
    ensures { (w : World) → OneId w.server.nodes → TablesSound w.server →
        IsNumbered (after_abort w) × OneId (after_abort w).server.nodes × KnownAreHeld (after_abort w)
        × TablesSound (after_abort w).server }
{}

/// Each call is answered at most once, whatever the events: no call is both unanswered and answered at first, every
/// event and the collecting of the answers keep it so, and a call whose answer was collected is never answered again.
pub fn each_call_answered_once()
    ensures at_first { AnswersSound first_world.kernel.vfs }
    ensures always { (w : World) → AnswersSound w.kernel.vfs → (e : Event) (o : Outcome) (after : World)
        → Happens w e o after → AnswersSound after.kernel.vfs }
    ensures collecting { (w : World) → AnswersSound w.kernel.vfs → AnswersSound (collected w).kernel.vfs }
    ensures once { (w : World) → IsRooted w.kernel.vfs → AnswersSound w.kernel.vfs
        → (events : List Event) (records : List Record) (after : World) → Recorded w events records after
        → AnswersOnce records }
    ensures from_first { (events : List Event) (records : List Record) (after : World)
        → Recorded first_world events records after → AnswersOnce records }
{}
