//! Request frames are taken.

ghost use Rattle.std.specs.Prelude.{◌≡◌, ◌<◌, ◌≤◌, ◌∷◌, [], true, false, None, nat_lt, OnErr, OnOk, IfErr, IfOk, MatchResult};
ghost use Rattle.std.specs.List.{list_any};
ghost use Rattle.fuse_spec.specs.Values.Maps.{get};
ghost use Rattle.fuse_spec.specs.Server.Server.{count_in, forgetting, forgotten, holding};
ghost use Rattle.fuse_spec.specs.declared.Taken.TheVariants.{Held as HeldWord};
ghost use Rattle.fk_wire.specs.Pairs.{pairs_in};
ghost use Rattle.fk_wire.specs.Requests.{request_content};
ghost use Rattle.fs_server.specs.declared.server.ServerFault.TheVariants.{Memory as MemoryFault};
ghost use Rattle.fs_files.specs.Bounds.{AreNamed};
ghost use Rattle.fs_server.specs.Effects.{CanTake, TakesBack, TakesFrame, RefusesFrame, TakingNeedsMemory};
ghost use Rattle.fs_server.specs.Taking.{IsFaultless, request_body_of, forgets_in, forgets_too_many, is_forgetting, holds_request};

use crate::held_requests::held_request;
use crate::interrupts::taken_as;
use crate::replies::KeptReply;
use crate::server::{ServerFault, ServerOf, Taken};
use fk_wire::{Pairs, Request, RequestBody};
use fs_files::{Files, HeldRequest};
use fs_nodes::NodeStore;
use fuse_spec::Taken as TakenWord;
use fuse_tables::RisingTable;
use std::alloc::{AllocError, Allocator};

impl<S: NodeStore> ServerOf<S> {
    /// Takes a request frame: forgets and INTERRUPTs are done at once, and any other request is held until it is
    /// performed. Memory is taken only by what is held and by an INTERRUPT that is answered.
    ///
    /// # Errors
    ///
    /// The first of `Wire`, `UnknownNode`, `TooManyForgets`, `RepeatedUnique`, `Exhausted` and `Memory` that applies;
    /// the server is as before.
    pub fn take(&mut self, bytes: &[u8]) -> Result<Taken<S::Heap>, ServerFault>
        ensures refused { OnErr result (self.new ≡ self.old) }
        ensures effect { MatchResult result (λ taken. TakesFrame self.old bytes.now taken self.new)
            (RefusesFrame self.old bytes.now) }
        ensures memory { IfErr result (λ fault. fault ≡ MemoryFault → TakingNeedsMemory self.old bytes.now) }
        ensures can { IfErr result (λ fault. fault ≡ MemoryFault → CanTake self.old bytes.now) }
    {
        let request = self.judged(bytes)?;
        if is_forget(&request.body) {
            self.forget(&request);
            return Ok(taken_as(request.unique, TakenWord::Forgot));
        }
        match request.body {
            RequestBody::Interrupt { unique: original } => {
                self.interrupt(request.unique, original)
            }
            _ => self.hold(&request),
        }
    }

    /// Holds a request until it is performed.
    fn hold(&mut self, request: &Request<'_>) -> Result<Taken<S::Heap>, ServerFault>
        requires faultless { IsFaultless self.old request.now.unique request.now.nodeid
            (request_content request.now.body) }
        requires holds { holds_request request.now.nodeid (request_content request.now.body) ≡ true }
        ensures refused { OnErr result (self.new ≡ self.old) }
        ensures fault { IfErr result (λ fault. fault ≡ MemoryFault) }
        ensures taken { IfOk result (λ taken. taken ≡ record {
          unique = request.now.unique;
          word = HeldWord;
          sent = None;
        }) }
        ensures held { OnOk result (self.new ≡ holding self.old request.now.unique
            (request_body_of request.now.nodeid (request_content request.now.body))) }
    {
        let Ok(()) = reserve_held(&mut self.held, &mut self.kept) else {
            return Err(ServerFault::Memory);
        };
        let Ok(held) = held_request(self.alloc, self.files.nodes(), request) else {
            return Err(ServerFault::Memory);
        };
        self.held.put(request.unique, held);
        // Where several are held, a reply may come behind those of later requests.
        if self.held.len() > 1 {
            self.kept.set_aside(request.unique, self.held.len());
        }
        Ok(taken_as(request.unique, TakenWord::Held))
    }

    /// Gives the lookups back that a FORGET or a BATCH_FORGET names. Nameless files that nothing holds then go.
    fn forget(&mut self, request: &Request<'_>)
        requires { forgets_too_many self.old.nodes request.now.nodeid (request_content request.now.body) ≡ false }
        ensures { self.new ≡ forgetting self.old (forgets_in request.now.nodeid (request_content request.now.body)) }
    {
        forget(&mut self.files, request.nodeid, &request.body);
    }
}

/// Makes room for one more held request, and where several are held then, for a row for the reply of each.
#[inline(always)]
fn reserve_held<A: Allocator + Copy>(
    held: &mut RisingTable<HeldRequest<A>, A>,
    kept: &mut RisingTable<KeptReply<A>, A>,
) -> Result<(), AllocError>
    ensures held { held.new.entries ≡ held.old.entries }
    ensures kept { kept.new.entries ≡ kept.old.entries }
    ensures room { OnOk result (0 < held.new.room) }
{
    held.reserve(1)?;
    let waiting = held.len();
    if waiting == 0 {
        return Ok(());
    }
    kept.reserve(waiting.saturating_add(1))
}

/// Whether a request gives lookups back.
fn is_forget(body: &RequestBody<'_>) -> bool
    ensures { result ≡ is_forgetting (request_content body.now) }
{
    matches!(
        body,
        RequestBody::Forget { .. } | RequestBody::BatchForget { .. }
    )
}

/// Forgets what a request gives back of the files that are served; each node has as many lookups.
fn forget<S: NodeStore>(files: &mut Files<S>, nodeid: u64, body: &RequestBody<'_>)
    requires enough { forgets_too_many files.old.nodes nodeid (request_content body.now) ≡ false }
    requires named { AreNamed files.old.tree files.old.nodes files.old.handles }
    ensures { TakesBack files.old (forgets_in nodeid (request_content body.now)) files.new }
{
    match body {
        RequestBody::Forget { nlookup } => forget_one(files, nodeid, *nlookup),
        RequestBody::BatchForget { pairs } => forget_all(files, *pairs),
        _ => {}
    }
}

/// Gives lookups of a node back, which has as many. A nameless file that nothing holds any longer goes.
fn forget_one<S: NodeStore>(files: &mut Files<S>, nodeid: u64, nlookup: u64)
    requires enough { nlookup ≤ count_in (get files.old.nodes.rows nodeid) }
    requires named { AreNamed files.old.tree files.old.nodes files.old.handles }
    ensures { TakesBack files.old ((nodeid, nlookup) ∷ []) files.new }
{
    let file = files.nodes().counted_file(nodeid);
    files.forget(nodeid, nlookup);
    files.discard_unheld(file);
}

/// Gives lookups back, pair by pair.
fn forget_all<S: NodeStore>(files: &mut Files<S>, pairs: Pairs<'_>)
    requires enough { list_any (λ f. nat_lt (count_in (get files.old.nodes.rows f.0)) (forgotten f.0 (pairs_in pairs)))
        (pairs_in pairs) ≡ false }
    requires named { AreNamed files.old.tree files.old.nodes files.old.handles }
    ensures { TakesBack files.old (pairs_in pairs.entry) files.new }
{
    'pairs: for (nodeid, nlookup) in pairs {
        forget_one(files, nodeid, nlookup);
    }
}
