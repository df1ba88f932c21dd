//! What is wrong with a request frame, and which is answered at once.

ghost use Rattle.std.specs.Prelude.{◌≡◌, ◌≢◌, ℕ, ◌↔◌, ◌||◌, true, false, None, nat_lt, not, is_some, IsTrue, IfErr, IfOk, IfNone, IfSome};
ghost use Rattle.std.specs.List.{list_all, list_any};
ghost use Rattle.fuse_spec.specs.Values.Maps.{get};
ghost use Rattle.fuse_spec.specs.Server.Server.{count_in, forgotten, is_forgettable};
ghost use Rattle.fk_wire.specs.Pairs.{pairs_in};
ghost use Rattle.fk_wire.specs.declared.opcode.Opcode.TheVariants as op;
ghost use Rattle.fk_wire.specs.Requests.{RequestMessage, Spells, opcode_of, request_content, request_message};
ghost use Rattle.fuse_frames.specs.RequestTies.{body_in};
ghost use Rattle.fs_server.specs.declared.server.ServerFault.TheVariants.{Memory as MemoryFault};
ghost use Rattle.fs_server.specs.Effects.{AnswersFrame, CanTake, RefusesFrame, request_fault};
ghost use Rattle.fs_server.specs.Taking.{IsFaultless, IsTakeable, answers, forgets_too_many, is_spoken, knows_nodes};

use crate::server::{ServerFault, ServerOf};
use fk_wire::{
    Opcode, Pairs, Request, RequestBody, opcode_of_code, read_request, read_request_head,
};
use fs_files::Nodes;
use fs_nodes::NodeStore;
use fuse_spec::Minor;
use fuse_spec::limits::COUNTER_END;

impl<S: NodeStore> ServerOf<S> {
    /// Why `take` refuses a frame, out of memory aside. Where it gives none, only memory can run out.
    pub fn take_refusal(&self, bytes: &[u8]) -> Option<ServerFault>
        ensures refuses { IfSome result (RefusesFrame self.now bytes.now) }
        ensures other { IfSome result (λ fault. fault ≡ MemoryFault → ⊥) }
        ensures none { IfNone result (CanTake self.now bytes.now) }
    {
        self.judged(bytes).err()
    }

    /// Whether taking a frame sends a copy of a reply at once: to an INTERRUPT of a request that is not held and whose
    /// reply is not kept. A frame that is refused is not answered.
    pub fn take_answers(&self, bytes: &[u8]) -> bool
        ensures { IsTrue result ↔ AnswersFrame self.now bytes.now }
    {
        // Nearly every frame asks something else, and need not be judged for this.
        if !is_interrupt(bytes) {
            return false;
        }
        match self.judged(bytes) {
            Ok(request) => self.answers(&request.body),
            Err(_) => false,
        }
    }

    /// The request that a frame spells, if nothing but out of memory can refuse it.
    #[inline(always)]
    pub(crate) fn judged<'a>(&self, bytes: &'a [u8]) -> Result<Request<'a>, ServerFault>
        ensures takeable { IfOk result (λ request. IsTakeable self.now bytes.now (request_message request)) }
        ensures refused { IfErr result (RefusesFrame self.now bytes.now) }
        ensures other { IfErr result (λ fault. fault ≡ MemoryFault → ⊥) }
    {
        self.lemma_in_range();
        let Ok(request) = read_request(bytes) else {
            return Err(ServerFault::Wire);
        };
        if let Some(fault) = self.request_fault(&request) {
            return Err(fault);
        }
        if self.answers(&request.body) && self.next_copy >= COUNTER_END {
            return Err(ServerFault::Exhausted);
        }
        Ok(request)
    }

    /// Whether a request is answered at once.
    fn answers(&self, body: &RequestBody<'_>) -> bool
        ensures { (nodeid : ℕ) → result ≡ answers self.now nodeid (request_content body.now) }
    {
        match body {
            RequestBody::Interrupt { unique } => !self.has_unique(*unique),
            _ => false,
        }
    }

    /// What is wrong with a request, out of memory and out of numbers aside.
    #[inline(always)]
    pub(crate) fn request_fault(&self, request: &Request<'_>) -> Option<ServerFault>
        ensures fault { result ≡ request_fault self.now request.now.unique
            (body_in request.now.nodeid (request_content request.now.body)) }
        ensures faultless { IfNone result (IsFaultless self.now request.now.unique request.now.nodeid
            (request_content request.now.body)) }
        ensures other { IfSome result (λ fault. fault ≡ MemoryFault → ⊥) }
    {
        if !is_spoken(self.minor, request.nodeid, &request.body) {
            return Some(ServerFault::Wire);
        }
        if !names_known(self.files.nodes(), request.nodeid, &request.body) {
            return Some(ServerFault::UnknownNode);
        }
        if forgets_too_many(self.files.nodes(), request.nodeid, &request.body) {
            return Some(ServerFault::TooManyForgets);
        }
        if self.has_unique(request.unique) {
            return Some(ServerFault::RepeatedUnique);
        }
        None
    }

    /// Whether a request under this unique is held, or its reply is kept.
    fn has_unique(&self, unique: u64) -> bool
        ensures has { result ≡ (is_some (get self.now.held unique) || is_some (get self.now.kept unique)) }
        ensures held { result ≡ false → get self.now.held unique ≡ None }
        ensures kept { result ≡ false → get self.now.kept unique ≡ None }
    {
        let is_held = self.held.get(unique).is_some();
        let is_kept = self.kept.get(unique).is_some();
        is_held || is_kept
    }
}

/// Whether a frame has the opcode of an INTERRUPT.
fn is_interrupt(bytes: &[u8]) -> bool
    ensures { result ≡ false → (m : RequestMessage) → Spells bytes.now m → opcode_of m.content ≢ op.Interrupt }
{
    let Ok((code, _)) = read_request_head(bytes) else {
        return false;
    };
    matches!(opcode_of_code(code), Some(Opcode::Interrupt))
}

/// Whether the minor knows what a request asks: 7.15 has no READDIRPLUS and no BATCH_FORGET (linux/fuse.h, enum
/// fuse_opcode).
fn is_spoken(minor: Minor, nodeid: u64, body: &RequestBody<'_>) -> bool
    ensures { result ≡ is_spoken minor nodeid (request_content body.now) }
{
    match minor {
        Minor::M31 => true,
        Minor::M15 => !matches!(
            body,
            RequestBody::Readdirplus { .. } | RequestBody::BatchForget { .. }
        ),
    }
}

/// Whether each node is held that a request names or whose lookups it gives back.
#[inline(always)]
fn names_known<S: NodeStore>(nodes: &Nodes<S>, nodeid: u64, body: &RequestBody<'_>) -> bool
    ensures { result ≡ knows_nodes nodes.now.table nodeid (request_content body.now) }
{
    match body {
        RequestBody::Forget { .. } => nodes.is_counted(nodeid),
        RequestBody::BatchForget { pairs } => are_counted(nodes, *pairs),
        RequestBody::Init { .. } | RequestBody::Interrupt { .. } => true,
        RequestBody::Rename { newdir, .. } => nodes.is_known(nodeid) && nodes.is_known(*newdir),
        RequestBody::Link { oldnodeid, .. } => {
            nodes.is_known(nodeid) && nodes.is_known(*oldnodeid)
        }
        _ => nodes.is_known(nodeid),
    }
}

/// Whether the node of each pair is held, the root apart.
fn are_counted<S: NodeStore>(nodes: &Nodes<S>, pairs: Pairs<'_>) -> bool
    ensures { result ≡ list_all (is_forgettable nodes.now.table) (pairs_in pairs.entry) }
{
    'pairs: for (nodeid, _) in pairs {
        if !nodes.is_counted(nodeid) {
            return false;
        }
    }
    true
}

/// Whether more lookups of a node are given back than it has.
fn forgets_too_many<S: NodeStore>(nodes: &Nodes<S>, nodeid: u64, body: &RequestBody<'_>) -> bool
    ensures { result ≡ forgets_too_many nodes.now.table nodeid (request_content body.now) }
{
    match body {
        RequestBody::Forget { nlookup } => nodes.count_of(nodeid) < *nlookup,
        RequestBody::BatchForget { pairs } => some_has_fewer(nodes, *pairs),
        _ => false,
    }
}

/// Whether more lookups of some node are given back by all these pairs than it has.
fn some_has_fewer<S: NodeStore>(nodes: &Nodes<S>, pairs: Pairs<'_>) -> bool
    ensures { result ≡ list_any (λ f. nat_lt (count_in (get nodes.now.table.rows f.0))
        (forgotten f.0 (pairs_in pairs.entry))) (pairs_in pairs.entry) }
{
    'pairs: for (nodeid, _) in pairs {
        if has_fewer(nodes.count_of(nodeid), nodeid, pairs) {
            return true;
        }
    }
    false
}

/// Whether the pairs give more lookups of a node back than this count.
fn has_fewer(count: u64, node: u64, pairs: Pairs<'_>) -> bool
    ensures { result ≡ nat_lt count (forgotten node (pairs_in pairs.entry)) }
{
    let mut left = count;
    'pairs: for (nodeid, nlookup) in pairs {
        if nodeid == node {
            if left < nlookup {
                return true;
            }
            left -= nlookup;
        }
    }
    false
}
