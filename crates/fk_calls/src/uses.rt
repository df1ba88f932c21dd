//! Which calls read or write an open file.

ghost use Rattle.std.specs.Prelude.{◌≡◌, ◌&&◌, not, ℕ, nat_eq};
ghost use Rattle.std.specs.List.{list_any};
ghost use Rattle.fuse_spec.specs.Kernel.Kernel.{is_using};
ghost use Rattle.fuse_spec.specs.Values.Maps.{values};
ghost use Rattle.fuse_spec.specs.Calls.Vfs.{CallState as State};
ghost use Rattle.fuse_spec.specs.declared.Opened.{Opened};

use fk_syscalls::CallState;
use std::alloc::Allocator;

/// Whether a call waits for a read or write of an open file.
fn uses<A: Allocator + Copy>(call: &CallState<A>, open_call: u64) -> bool
    ensures { result ≡ is_using open_call call.now }
{
    match call.open_call() {
        Some(used) => used == open_call,
        None => false,
    }
}

/// Whether a read or write of an open file is unanswered.
pub fn is_in_use<A: Allocator + Copy>(calls: &[(u64, CallState<A>)], open_call: u64) -> bool
    ensures { result ≡ list_any (is_using open_call) (values calls.now) }
{
    for call in calls {
        if uses(&call.1, open_call) {
            return true;
        }
    }
    false
}

/// Whether a call is another than this and waits for a read or write of an open file.
fn is_other_use<A: Allocator + Copy>(row: &(u64, CallState<A>), but: u64, open_call: u64) -> bool
    ensures { result ≡ (not (nat_eq row.now.0 but) && is_using open_call row.now.1) }
{
    row.0 != but && uses(&row.1, open_call)
}

/// Whether a read or write of an open file is unanswered, but for that of a call.
pub fn is_in_other_use<A: Allocator + Copy>(
    calls: &[(u64, CallState<A>)],
    but: u64,
    open_call: u64,
) -> bool
    ensures { result ≡ list_any (λ (e : ℕ × State Opened). not (nat_eq e.0 but) && is_using open_call e.1) calls.now }
{
    for call in calls {
        if is_other_use(call, but, open_call) {
            return true;
        }
    }
    false
}
