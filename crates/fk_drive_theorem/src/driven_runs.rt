//! The laws of driven runs.

ghost use Rattle.std.specs.Prelude.{◌≡◌, ◌<◌, ◌≤◌, ℕ, Bool, List, None};
ghost use Rattle.fk_wire.specs.declared.opcode.Opcode.{Opcode};
ghost use Rattle.fuse_spec.specs.declared.WriteResult.TheVariants.{Accepted};
ghost use Rattle.fuse_spec.specs.Kernel.Kernel.{Kernel};
ghost use Rattle.fuse_spec.specs.Kernel.Messages.{WireReply};
ghost use Rattle.fuse_spec.specs.Values.Maps.{get};
ghost use Rattle.fuse_frames.specs.ReplyTies.{said_in};
ghost use Rattle.fuse_device.specs.Transfers.{Transfer};
ghost use Rattle.fk_kernel.specs.AwaitedReplies.{Says, IsNoReply, awaited, head_unique, reply_to};
ghost use Rattle.fk_drive.specs.Driving.{Driven, Drives, first_driven};
ghost use Rattle.fk_drive.specs.KernelSteps.{IsReplyTaken};
ghost use Rattle.fk_drive_theorem.specs.AnsweredOnce.{AnsweredOnce};
ghost use Rattle.fk_drive_theorem.specs.TakenOnce.{NoneAgain, TakesNone, TakesReplyTo, mounts_in};
ghost use Rattle.fk_drive_theorem.specs.Tallies.{ForgottenAsGathered, tally_of};

/// Each call is answered at most once in any run: a call that is over stays over, and has no other answer than it had.
/// So once its answer is collected it has none ever after.
pub fn lemma_each_call_answered_once()
    ensures once { (old : Driven) (log : List Transfer) (new : Driven) → Drives old log new
        → AnsweredOnce old.kernel.vfs new.kernel.vfs }
    ensures collected { (old : Driven) (log : List Transfer) (new : Driven) → Drives old log new
        → (call : ℕ) → call < old.kernel.vfs.next_call → get old.kernel.vfs.calls call ≡ None
        → get old.kernel.vfs.answers call ≡ None → get new.kernel.vfs.answers call ≡ None }
{}

/// No reply is taken twice without a mount in between. A number that was allocated and under which no request waits has
/// none again, and a reply to it or to its INTERRUPT is `NoEntry` and changes nothing. In any run from before the first
/// mount, a reply that was taken ends its request, so none is taken to it again.
pub fn lemma_no_reply_taken_twice()
    ensures none_again { (old : Driven) (log : List Transfer) (new : Driven) (run : Drives old log new)
        → mounts_in run ≡ 0 → NoneAgain old.kernel new.kernel }
    ensures twice { (asks : Bool) (before : List Transfer) (old : Driven) → Drives (first_driven asks) before old
        → (number : ℕ) (mid : Driven) → TakesReplyTo number old.kernel mid.kernel
        → (log : List Transfer) (new : Driven) (run : Drives mid log new) → mounts_in run ≡ 0
        → TakesNone number new.kernel }
{}

/// A node other than the root is forgotten with exactly the count that was gathered, in any run from before the first
/// mount: what replies that were accepted named is what the kernel counts, what it has to forget and what requests that
/// were read gave back. A reply that is accepted says something, and what its bytes say is what counts.
pub fn lemma_forgotten_as_gathered()
    ensures forgets { (asks : Bool) (log : List Transfer) (new : Driven) (run : Drives (first_driven asks) log new)
        → (id : ℕ) → 2 ≤ id → ForgottenAsGathered id new.kernel (tally_of id run) }
    ensures says { (old : Kernel) (bytes : List ℕ) (new : Kernel) → IsReplyTaken old bytes Accepted new
        → (opcode : Opcode) → awaited old (head_unique bytes) ≡ reply_to opcode → IsNoReply opcode bytes → ⊥ }
    ensures said { (opcode : Opcode) (bytes : List ℕ) (wire : WireReply) → Says opcode bytes wire
        → said_in opcode bytes ≡ wire }
{}
