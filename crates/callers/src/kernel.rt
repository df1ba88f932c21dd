//! A kernel that hands system calls to a server: it mounts, begins calls, reads their requests and writes what the
//! server replies.

ghost use Rattle.std.specs.Prelude.{◌≡◌, [], IfErr, IfOk, None, Ok, OnErr, OnOk, option_map};
ghost use Rattle.fuse_spec.specs.Kernel.Kernel.{call_put, kernel_mounted};
ghost use Rattle.fuse_spec.specs.Kernel.Messages.{init as asks_init};
ghost use Rattle.fuse_spec.specs.Values.Numbers.{init_flags};
ghost use Rattle.fk_syscalls.specs.Values.{answer_of, call_of};
ghost use Rattle.fk_kernel.specs.AwaitedReplies.{HasReplyHead, awaited, head_unique, nothing};
ghost use Rattle.fk_kernel.specs.Refused.{IsPendingRequest, WritePasses, WriteRefused};
ghost use Rattle.fk_kernel.specs.Refused.{begin_refusal, mount_refusal};
ghost use Rattle.callers.specs.Asking.{IsAskRefused, IsReplied, first_read};

use fk_kernel::{Answer, Call, Kernel, Pick};
use fuse_frames::RequestFrame;
use fuse_spec::Refusal;
use std::alloc::Allocator;

/// Mounts, and reads the first request of the mount, whose bytes go to the server.
pub fn mount<A: Allocator + Copy>(kernel: &mut Kernel<A>) -> Result<RequestFrame<A>, Refusal>
    // It is INIT, under number 2.
    ensures init { IfOk result (λ frame. frame ≡ record { unique = 2; body = asks_init init_flags }) }
    ensures mounted { OnOk result (kernel.new ≡ first_read (kernel_mounted kernel.old)) }
    ensures judged { OnOk result (mount_refusal kernel.old ≡ None) }
    ensures refused { IfErr result (λ refusal.
        IsAskRefused kernel.old (kernel_mounted kernel.old) (mount_refusal kernel.old) refusal kernel.new) }
{
    kernel.mount()?;
    kernel.read(Pick::Pending(0))
}

/// Begins a call, and reads the request that has waited longest: the first of the call where none waited before.
pub fn ask<A: Allocator + Copy>(
    kernel: &mut Kernel<A>,
    call: &Call<'_>,
) -> Result<RequestFrame<A>, Refusal>
    ensures request { IfOk result (λ frame. IsPendingRequest (call_put kernel.old (call_of call.now)) 0 frame) }
    ensures begun { OnOk result (kernel.new ≡ first_read (call_put kernel.old (call_of call.now))) }
    ensures judged { OnOk result (begin_refusal kernel.old (call_of call.now) ≡ None) }
    ensures refused { IfErr result (λ refusal. IsAskRefused kernel.old (call_put kernel.old (call_of call.now))
        (begin_refusal kernel.old (call_of call.now)) refusal kernel.new) }
{
    kernel.begin(call)?;
    kernel.read(Pick::Pending(0))
}

/// Writes the bytes of a reply, which may be any, and gives the call that is answered by it, where no answer waited
/// before.
pub fn reply<A: Allocator + Copy>(
    kernel: &mut Kernel<A>,
    bytes: &[u8],
) -> Result<Option<(u64, Answer<A>)>, Refusal>
    ensures replied { IfOk result (λ given.
        IsReplied kernel.old bytes.now (option_map (λ r. (r.0, answer_of r.1)) given) kernel.new) }
    ensures err { OnErr result (kernel.new ≡ kernel.old) }
    ensures refused { HasReplyHead bytes.now → IfErr result (WriteRefused kernel.old bytes.now) }
    // Out of memory comes last.
    ensures memory { IfErr result (λ refusal. refusal ≡ Refusal.NoMemory → WritePasses kernel.old bytes.now → ⊥) }

    // Bytes that are no reply, or one that nothing awaits, answer no call and change nothing.
    ensures headless { kernel.old.vfs.answers ≡ [] → (HasReplyHead bytes.now → ⊥)
        → (result ≡ Ok None) × (kernel.new ≡ kernel.old) }
    ensures unawaited { kernel.old.vfs.answers ≡ [] → HasReplyHead bytes.now
        → awaited kernel.old (head_unique bytes.now) ≡ nothing → (result ≡ Ok None) × (kernel.new ≡ kernel.old) }
{
    match kernel.write(bytes) {
        Ok(_) => Ok(kernel.collect()),
        Err(refusal) => Err(refusal),
    }
}
