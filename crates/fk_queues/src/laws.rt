//! Laws of the queues for the layers above: how the pending requests and those in processing change with each call, as
//! lists, and which call each row of the table of replies to an INTERRUPT is.
//!
//! The functions do nothing: each contract is a law.
ghost use Rattle.std.specs.Prelude.{◌≡◌, ◌≢◌, ℕ, [], ◌∷◌, ◌++◌, Bool, remove, slice_get, nat_eq};
ghost use Rattle.std.specs.Map.{remove_entry};
ghost use Rattle.fuse_spec.specs.declared.InterruptReply.TheVariants.{NotSupported, Other};
ghost use Rattle.fuse_spec.specs.declared.IntrEffect.TheVariants.{Dequeued};
ghost use Rattle.fuse_spec.specs.declared.Mark.TheVariants.{Unread};
ghost use Rattle.fuse_spec.specs.declared.QueuedRequest.{QueuedRequest};
ghost use Rattle.fuse_spec.specs.Kernel.Queues.{QueueState, IsSound, pending, processing};
ghost use Rattle.fuse_spec.specs.Kernel.QueueCalls.{after_enqueue, after_read_pending, waiting, after_answer, interrupt_effect, after_interrupt, after_interrupt_reply, after_no_interrupts};
ghost use Rattle.fuse_spec.specs.Kernel.QueueLaws.{AddsOne, mark_read, kept_entries};

/// A request that is queued goes last among the pending ones.
pub fn enqueue_appends<W>()
    ensures pending { (s : QueueState W) (kept : W) →
        pending (after_enqueue s kept) ≡ pending s ++ (s.next, record { mark = Unread; kept = kept }) ∷ [] }
    ensures processing { (s : QueueState W) (kept : W) →
        processing (after_enqueue s kept) ≡ processing s }
{}

/// A pending request that is read goes from its place to processing. The others keep their order in both lists.
pub fn read_pending_moves_one<W>()
    ensures pending { (s : QueueState W) (place : ℕ) (e : ℕ × QueuedRequest W) → IsSound s
        → slice_get (pending s) place ≡ Some e →
        pending (after_read_pending s place) ≡ remove (pending s) place }
    ensures processing { (s : QueueState W) (place : ℕ) (e : ℕ × QueuedRequest W) → IsSound s
        → slice_get (pending s) place ≡ Some e →
        AddsOne (e.0, record { mark = mark_read e.1.mark; kept = e.1.kept }) (processing s)
        (processing (after_read_pending s place)) }
{}

/// An answer takes its request out of processing, and leaves the pending ones as they are.
pub fn answer_removes_one<W>()
    ensures pending { (s : QueueState W) (unique : ℕ) (kept : W) → waiting s unique ≡ Some kept →
        pending (after_answer s unique) ≡ pending s }
    ensures processing { (s : QueueState W) (unique : ℕ) (kept : W) → waiting s unique ≡ Some kept →
        processing (after_answer s unique) ≡ remove_entry (nat_eq unique) (processing s) }
{}

/// A signal that dequeues a request takes it out of the pending ones, and leaves those in processing as they are.
pub fn dequeue_removes_one<W>()
    ensures pending { (s : QueueState W) (unique : ℕ) (fatal : Bool) → interrupt_effect s unique fatal ≡ Dequeued →
        pending (after_interrupt s unique fatal) ≡ remove_entry (nat_eq unique) (pending s) }
    ensures processing { (s : QueueState W) (unique : ℕ) (fatal : Bool) → interrupt_effect s unique fatal ≡ Dequeued →
        processing (after_interrupt s unique fatal) ≡ processing s }
{}

/// Any other signal changes no more than a mark in either list.
pub fn interrupt_moves_none<W>()
    ensures pending { (s : QueueState W) (unique : ℕ) (fatal : Bool) → interrupt_effect s unique fatal ≢ Dequeued →
        kept_entries (pending (after_interrupt s unique fatal)) ≡ kept_entries (pending s) }
    ensures processing { (s : QueueState W) (unique : ℕ) (fatal : Bool) → interrupt_effect s unique fatal ≢ Dequeued →
        kept_entries (processing (after_interrupt s unique fatal)) ≡ kept_entries (processing s) }
{}

/// The reply ENOSYS to the INTERRUPT of a request that waits is `no_interrupts`, and any other error
/// but EAGAIN needs no call. EAGAIN is `again`, by the contract of that call.
pub fn interrupt_replies_are_calls<W>()
    ensures not_supported { (s : QueueState W) (unique : ℕ) (kept : W) → waiting s unique ≡ Some kept →
        after_interrupt_reply s unique NotSupported ≡ after_no_interrupts s }
    ensures other { (s : QueueState W) (unique : ℕ) →
        after_interrupt_reply s unique Other ≡ s }
{}
