//! What holds of every world to which a list of events leads, and what single events need that follows from it. Each
//! law says that the first world has it and that each event keeps it.

ghost use Rattle.std.specs.Prelude.{[], Contains, ◌≡◌, ◌≢◌, ◌≤◌, ℕ, Ok, Some, slice_get, true, All, None, count_by, nat_eq};
ghost use Rattle.fuse_spec.specs.Kernel.Queues.{processing};
ghost use Rattle.fuse_spec.specs.Claim.Counts.{AtRest, OpenBalance, handle_count, open_in_kernel, opens_of};
ghost use Rattle.fuse_spec.specs.Calls.Vfs.{CallState, asked};
ghost use Rattle.fuse_spec.specs.Kernel.Kernel.{is_live};
ghost use Rattle.fuse_spec.specs.Values.Maps.{get, remove, values};
ghost use Rattle.fuse_spec.specs.Server.Nodes.{file_of, is_open, handle_back};
ghost use Rattle.fuse_spec.specs.Files.Operations.{Operation};
ghost use Rattle.fuse_spec.specs.Server.Performs.{is_still_held};
ghost use Rattle.fuse_spec.specs.Server.Server.{Copy, HeldRequest, fault_of};
ghost use Rattle.fuse_spec.specs.declared.ReplyResult.{ReplyResult};
ghost use Rattle.fuse_spec.specs.declared.WriteResult.TheVariants.{Invalid};
ghost use Rattle.fuse_spec.specs.declared.Opened.{Opened};
ghost use Rattle.fuse_spec.specs.Claim.Alike.{Alike};
ghost use Rattle.fuse_spec.specs.Kernel.Messages.{Request, asks, release, interrupt};
ghost use Rattle.fuse_theorem.specs.Conditions.{HoldsOpens, IsInterrupt, HoldsAll, OneId};
ghost use Rattle.fuse_theorem.specs.Links.{LinksSound};
ghost use Rattle.fuse_spec.specs.World.Events as event;
ghost use Rattle.fuse_spec.specs.World.Events.{Event, Outcome};
ghost use Rattle.fuse_spec.specs.Reference.Plain.{Plain, first_plain};
ghost use Rattle.fuse_spec.specs.Reference.PlainSteps.{Takes};
ghost use Rattle.fuse_spec.specs.World.Steps.{Happens, MayStep, step};
ghost use Rattle.fuse_spec.specs.World.Worlds.{World, first_world, after_settle};
ghost use Rattle.fuse_theorem.specs.AskedRequests.{RequestsAskedWhileLive};
ghost use Rattle.fuse_theorem.specs.EachEvent.{CanServe, Needs};
ghost use Rattle.fuse_theorem.specs.EveryList.{BothSound, NeedsBothAlone};
ghost use Rattle.fuse_theorem.specs.Faultless.{Faultless};
ghost use Rattle.fuse_theorem.specs.HeldKnown.{HeldKnownWhileLive};
ghost use Rattle.fuse_theorem.specs.KnownNodes.{NodesKnown};
ghost use Rattle.fuse_theorem.specs.OnTheWay.{ReadAreOnTheirWay};
ghost use Rattle.fuse_theorem.specs.StillHeld.{HeldReleasesKnown, NodesStillHeld, StillHeldAfterAbort};
ghost use Rattle.fuse_theorem.specs.StillOpen.{HeldHandlesOpen, OpensAfterAbort};
ghost use Rattle.fuse_theorem.specs.NodesHeld.{NodesHeld, TakenServable};
ghost use Rattle.fuse_theorem.specs.OpenNumbers.{OpensSound};
ghost use Rattle.fuse_theorem.specs.OpensOnce.{OpensOnceWhileLive};
ghost use Rattle.fuse_theorem.specs.PlainWitness.{AsksServed, PlainWitness};
ghost use Rattle.fuse_theorem.specs.ReleasesKnown.{ReleasesKnown};
ghost use Rattle.fuse_theorem.specs.RepliesFit.{RepliesFitWhileLive};
ghost use Rattle.fuse_theorem.specs.WorldSound.{WorldSound};

/// What is on the request link or held is what the kernel asks, under the same number, while the mount is live and
/// whatever the event; what has an INTERRUPT was signalled. So no request on the link names a node that is evicted.
pub fn requests_stay_asked()
    ensures at_first { RequestsAskedWhileLive first_world }
    ensures always { (w : World) → WorldSound w → RequestsAskedWhileLive w → (e : Event) (o : Outcome) (after : World)
        → Happens w e o after → RequestsAskedWhileLive after }
    ensures evict { (w : World) → WorldSound w → RequestsAskedWhileLive w
        → (choice : ℕ → ℕ) (p : Plain) (node : ℕ) (o : Outcome) (after : World)
        → step choice w (event.evict node) ≡ Ok (o, after) → Needs choice w p (event.evict node) }
{}

/// While no mount is live, the links are empty, whatever the event; a live one has INIT answered with the minor that
/// the server speaks, so that it stays live until it is aborted. An INTERRUPT that is taken has its original's number
/// and one, and a signal was noted on its ask.
pub fn links_stay_sound()
    ensures at_first { LinksSound first_world }
    ensures always { (w : World) → WorldSound w → RequestsAskedWhileLive w → LinksSound w
        → (e : Event) (o : Outcome) (after : World) → Happens w e o after → LinksSound after }
    ensures interrupt { (w : World) (p : Plain) → WorldSound w → RequestsAskedWhileLive w → LinksSound w → Alike w p
        → (k : ℕ) (r : Request) (original : ℕ) → slice_get w.requests k ≡ Some r → r.body ≡ interrupt original
        → IsInterrupt w p k r original }
{}

/// Beside the world stands a plain world of which each performed ask has a reply to its operation, other than EINTR,
/// and each declined one a request that was interrupted, whatever the event. So, in every plain world that is alike to
/// the world, any copy that the kernel takes says what its request's ask came to.
pub fn asks_stay_served()
    ensures at_first { AsksServed first_world.kernel first_plain }
    ensures always { (w : World) → WorldSound w → RequestsAskedWhileLive w → (p : Plain) → Alike w p
        → AsksServed w.kernel p → (e : Event) (o : Outcome) (after : World) → Happens w e o after
        → (q : Plain) → Takes p e o q → AsksServed after.kernel q }
    ensures write { (w : World) (p : Plain) → WorldSound w → RequestsAskedWhileLive w → LinksSound w → PlainWitness w
        → Alike w p → (choice : ℕ → ℕ) (k : ℕ) → Needs choice w p (event.write k) }
{}

/// The kernel knows each node that an unanswered call stands on or names, that an open file is of, or that a cached
/// name stands in or leads to, whatever the event: it counts it, or it is the root.
pub fn nodes_stay_known()
    ensures at_first { NodesKnown first_world.kernel }
    ensures always { (w : World) → WorldSound w → NodesKnown w.kernel → (e : Event) (o : Outcome) (after : World)
        → Happens w e o after → NodesKnown after.kernel }
{}

/// All of that together: at first the world and the plain world are alike and sound. An event whose needs hold takes
/// the plain world a step, and the two are alike and sound again. Those needs hold of every event but the taking of
/// forgets, the performing of a request, and the settling of a copy.
pub fn both_stay_sound()
    ensures at_first { BothSound first_world first_plain }
    ensures always { (w : World) (p : Plain) → BothSound w p → (e : Event) (o : Outcome) (after : World)
        → (h : Happens w e o after) → ((v : Plain) → Alike w v → Needs h.0 w v e)
        → (q : Plain) × Takes p e o q × BothSound after q }
    ensures needs { (w : World) (p : Plain) → BothSound w p
        → (choice : ℕ → ℕ) (e : Event) (o : Outcome) (after : World) → step choice w e ≡ Ok (o, after)
        → NeedsBothAlone w e → Needs choice w p e }
{}

/// While the mount is live, a held request of a call names its nodes under the generations that the kernel knows,
/// whatever the event: so the server holds them still as it performs the request.
pub fn held_stay_known()
    ensures at_first { HeldKnownWhileLive first_world }
    ensures always { (w : World) → WorldSound w → RequestsAskedWhileLive w → LinksSound w → NodesKnown w.kernel
        → HeldKnownWhileLive w → (e : Event) (o : Outcome) (after : World) → Happens w e o after
        → HeldKnownWhileLive after }
    ensures still { (w : World) → WorldSound w → HeldKnownWhileLive w → is_live w.kernel.phase ≡ true
        → (unique : ℕ) (t : HeldRequest) → get w.server.held unique ≡ Some t → (operation : Operation ℕ Opened)
        → t.body ≡ asks operation →
        is_still_held w.server.nodes t.generations ≡ true }
{}

/// After an abort the server still holds the nodes of each request that it holds, under the generations that they had
/// when it was taken, and only requests of calls are marked, whatever the event. So it is while the mount is live,
/// where the kernel knows the nodes of held RELEASEs.
pub fn held_stay_held()
    ensures at_first { StillHeldAfterAbort first_world }
    ensures always { (w : World) → WorldSound w → RequestsAskedWhileLive w → LinksSound w → HeldKnownWhileLive w
        → HeldReleasesKnown w → StillHeldAfterAbort w → (e : Event) (o : Outcome) (after : World) → Happens w e o after
        → StillHeldAfterAbort after }
    ensures held { (w : World) → WorldSound w → RequestsAskedWhileLive w → LinksSound w → HeldKnownWhileLive w
        → HeldReleasesKnown w → StillHeldAfterAbort w → (unique : ℕ) (t : HeldRequest)
        → get w.server.held unique ≡ Some t → NodesStillHeld w.server.nodes t }
{}

/// After an abort each file handle that a held request names is one of its node's file, and is counted often enough for
/// all of them, whatever the event, where that is so while the mount is live. It is where the file handles are
/// balanced, those of held RELEASEs are of their nodes' files, and what calls read or write is open in the kernel.
pub fn held_handles_stay_open()
    ensures at_first { OpensAfterAbort first_world }
    ensures always { (w : World) → WorldSound w → RequestsAskedWhileLive w → LinksSound w
        → (is_live w.kernel.phase ≡ true → HeldHandlesOpen w) → OpensAfterAbort w
        → (e : Event) (o : Outcome) (after : World) → Happens w e o after → OpensAfterAbort after }
    ensures balanced { (w : World) (p : Plain) → Alike w p → RequestsAskedWhileLive w → is_live w.kernel.phase ≡ true
        → OpenBalance w →
        ((unique : ℕ) (t : HeldRequest) → get w.server.held unique ≡ Some t → (o : Opened) → t.body ≡ release o
        → is_open w.server.handles o.fh (file_of w.server.nodes o.nodeid) ≡ true) →
        ((call : ℕ) (state : CallState Opened) → get w.kernel.vfs.calls call ≡ Some state → (o : Opened)
        → Contains (opens_of (asked state)) o → 1 ≤ open_in_kernel w.kernel o.fh) → HeldHandlesOpen w }
{}

/// The performing of a held request needs no more than that: an operation of a call, live or after an abort, one that
/// is marked, or INIT. A RELEASE needs beside that its file handle is one of its node's file, and that the file handles
/// which are used are held without it, which after an abort they are.
pub fn performs_need_no_more()
    ensures requests { (w : World) (p : Plain) → BothSound w p → StillHeldAfterAbort w → (choice : ℕ → ℕ) (unique : ℕ)
        → MayStep choice w (event.perform unique) →
        ((t : HeldRequest) (o : Opened) → get w.server.held unique ≡ Some t → t.body ≢ release o)
        → Needs choice w p (event.perform unique) }
    ensures releases { (w : World) (p : Plain) → BothSound w p → HeldReleasesKnown w → StillHeldAfterAbort w
        → (choice : ℕ → ℕ) (unique : ℕ) (t : HeldRequest) (o : Opened) → get w.server.held unique ≡ Some t
        → t.body ≡ release o →
        is_open w.server.handles o.fh (file_of w.server.nodes o.nodeid) ≡ true
        → HoldsOpens (record w { server = record w.server { held = remove w.server.held unique } })
        (handle_back w.server.handles o.fh) → CanServe choice w p unique t }
    ensures any { (w : World) (p : Plain) → BothSound w p → HeldReleasesKnown w → StillHeldAfterAbort w
        → OpensAfterAbort w → (unique : ℕ) →
        (is_live w.kernel.phase ≡ true → (t : HeldRequest) (o : Opened) → get w.server.held unique ≡ Some t
        → t.body ≡ release o →
        (is_open w.server.handles o.fh (file_of w.server.nodes o.nodeid) ≡ true)
        × HoldsOpens (record w { server = record w.server { held = remove w.server.held unique } })
        (handle_back w.server.handles o.fh)) →
        (choice : ℕ → ℕ) → MayStep choice w (event.perform unique) → Needs choice w p (event.perform unique) }
{}

/// The kernel knows the node of each closed file whose RELEASE is not queued yet, as a call that uses the file names
/// it, and of each unanswered RELEASE, whatever the event. While the mount is live, the server holds a RELEASE under
/// the generation that the kernel knows.
pub fn releases_stay_known()
    ensures at_first { ReleasesKnown first_world }
    ensures always { (w : World) → WorldSound w → RequestsAskedWhileLive w → LinksSound w → NodesKnown w.kernel
        → HeldKnownWhileLive w → ReleasesKnown w → (e : Event) (o : Outcome) (after : World) → Happens w e o after
        → ReleasesKnown after }
{}

/// While the mount is live, the server holds the nodes that the kernel knows, those of the requests that it holds, and
/// those that copies and kept replies to unanswered requests name. So what the taking of any request needs of the world
/// holds, of forgets too, and what the settling of a copy needs of the nodes.
pub fn nodes_in_use_stay_held()
    ensures live { (w : World) (p : Plain) → BothSound w p → ReleasesKnown w → is_live w.kernel.phase ≡ true
        → HoldsAll w w.server.nodes }
    ensures take { (w : World) (p : Plain) → BothSound w p → ReleasesKnown w
        → (choice : ℕ → ℕ) (k : ℕ) (o : Outcome) (after : World) → step choice w (event.take k) ≡ Ok (o, after)
        → Needs choice w p (event.take k) }
    ensures settle { (w : World) (p : Plain) → BothSound w p → ReleasesKnown w
        → (k : ℕ) (result : ReplyResult) (copy : Copy) → slice_get w.results k ≡ Some result
        → get w.server.copies result.number ≡ Some copy →
        OneId w.server.nodes × HoldsAll (after_settle w k result (Some copy))
        (after_settle w k result (Some copy)).server.nodes }
{}

/// What `Held` says of nodes: while the mount is live, the server holds what the kernel counts, binds, opens or waits
/// on, under the kernel's generations, and what copies name. In any mount no request that is pending, on the link or
/// held names a node that is gone.
pub fn nodes_stay_held()
    ensures at_first { TakenServable first_world.server }
    ensures always { (w : World) → WorldSound w → RequestsAskedWhileLive w → LinksSound w → NodesKnown w.kernel
        → HeldKnownWhileLive w → ReleasesKnown w → TakenServable w.server → (e : Event) (o : Outcome) (after : World)
        → Happens w e o after →
        TakenServable after.server }
    ensures held { (w : World) (p : Plain) → BothSound w p → ReleasesKnown w → TakenServable w.server → NodesHeld w }
{}

/// Each forget is of a node from 2 up and of one lookup at least, and each request asks what the minor of the mount
/// knows, whatever the event. So no request on the link has an opcode that the server doesn't know, names a node that
/// is gone, gives back more lookups than the server counts, or has a number that is held or whose reply is kept.
pub fn requests_have_no_fault()
    ensures at_first { Faultless first_world }
    ensures always { (w : World) → WorldSound w → RequestsAskedWhileLive w → LinksSound w → Faultless w
        → (e : Event) (o : Outcome) (after : World) → Happens w e o after → Faultless after }
    ensures no_fault { (w : World) (p : Plain) → BothSound w p → ReleasesKnown w → Faultless w
        → All (λ (r : Request). fault_of w.server r ≡ None) w.requests }
{}

/// While the mount is live, replies to RELEASEs and to INTERRUPTs say only whether the request failed, whatever the
/// event, and the kernel refuses no copy for its body. So no result on the link says EINVAL.
pub fn replies_stay_fit()
    ensures at_first { RepliesFitWhileLive first_world }
    ensures always { (w : World) (p : Plain) → BothSound w p → Faultless w → RepliesFitWhileLive w
        → (e : Event) (o : Outcome) (after : World) → Happens w e o after → RepliesFitWhileLive after }
    ensures no_wrong_body { (w : World) (p : Plain) → BothSound w p → RepliesFitWhileLive w
        → All (λ (r : ReplyResult). r.result ≢ Invalid) w.results }
{}

/// While the mount is live, the server's count of each file handle is the kernel's open files and closing ones with it
/// and what is in flight, whatever the event (`OpenNumbers.antt` has that and all that keeps it).
pub fn file_handles_stay_balanced()
    ensures at_first { OpensSound first_world }
    ensures always { (w : World) (p : Plain) → BothSound w p → ReleasesKnown w → OpensSound w
        → (e : Event) (o : Outcome) (after : World) → Happens w e o after → OpensSound after }
{}

/// While the mount is live, the server holds each file handle that is in use or on its way. It does so still once a
/// held RELEASE gives its handle back, which is one of its node's file, and once a copy is settled. The handles that
/// held requests name are counted often enough for all of them.
pub fn file_handles_are_held()
    ensures live { (w : World) (p : Plain) → BothSound w p → OpensSound w → is_live w.kernel.phase ≡ true
        → HoldsOpens w w.server.handles × HeldHandlesOpen w }
    ensures release { (w : World) (p : Plain) → BothSound w p → OpensSound w → is_live w.kernel.phase ≡ true
        → (unique : ℕ) (t : HeldRequest) → get w.server.held unique ≡ Some t → (o : Opened) → t.body ≡ release o →
        (is_open w.server.handles o.fh (file_of w.server.nodes o.nodeid) ≡ true)
        × HoldsOpens (record w { server = record w.server { held = remove w.server.held unique } })
        (handle_back w.server.handles o.fh) }
    ensures settle { (w : World) (p : Plain) → BothSound w p → ReleasesKnown w → OpensSound w
        → (k : ℕ) (result : ReplyResult) (copy : Copy) → slice_get w.results k ≡ Some result
        → get w.server.copies result.number ≡ Some copy →
        HoldsOpens (after_settle w k result (Some copy)) (after_settle w k result (Some copy)).server.handles }
{}

/// While the mount is live, each request that was read and is unanswered is on the request link, or held, or a copy of
/// its reply is on the reply link, whatever the event. So at rest no request that was read waits for its reply, and no
/// call is unanswered.
pub fn nothing_waits_at_rest()
    ensures at_first { ReadAreOnTheirWay first_world }
    ensures always { (w : World) → WorldSound w → LinksSound w → ReadAreOnTheirWay w
        → (e : Event) (o : Outcome) (after : World) → Happens w e o after → ReadAreOnTheirWay after }
    ensures processing { (w : World) → WorldSound w → ReadAreOnTheirWay w → AtRest w → processing w.kernel.queues ≡ [] }
    ensures calls { (w : World) (p : Plain) → WorldSound w → Alike w p → ReadAreOnTheirWay w → AtRest w
        → w.kernel.vfs.calls ≡ [] }
{}

/// At rest no closed file waits for its RELEASE. So the server counts each file handle as often as the kernel holds it
/// open, where the file handles are balanced.
pub fn open_files_are_counted_at_rest()
    ensures closing { (w : World) (p : Plain) → BothSound w p → ReleasesKnown w → ReadAreOnTheirWay w → AtRest w
        → w.kernel.closing ≡ [] }
    ensures opens { (w : World) (p : Plain) → BothSound w p → ReleasesKnown w → ReadAreOnTheirWay w → OpenBalance w
        → AtRest w → (fh : ℕ) →
        handle_count (get w.server.handles.handles fh) ≡ count_by (λ (o : Opened). nat_eq o.fh fh)
        (values w.kernel.vfs.opens) }
{}

/// While the mount is live, a file handle is of one open file at most, open, closing or to be released, whatever the
/// event. So where nothing is under way, the server counts each once at most.
pub fn file_handles_stand_once()
    ensures at_first { OpensOnceWhileLive first_world }
    ensures always { (w : World) (p : Plain) → BothSound w p → ReleasesKnown w → OpensSound w → OpensOnceWhileLive w
        → (e : Event) (o : Outcome) (after : World) → Happens w e o after → OpensOnceWhileLive after }
    ensures at_rest { (w : World) → OpensSound w → OpensOnceWhileLive w → AtRest w → (fh : ℕ)
        → handle_count (get w.server.handles.handles fh) ≤ 1 }
{}
