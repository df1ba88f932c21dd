//! Which cached names go with a reply, and which come.

ghost use Rattle.std.specs.Prelude.{◌≡◌, ◌+◌, ◌<◌, ◌^◌, Some, None, OnOk, OnErr};
ghost use Rattle.fuse_spec.specs.Values.Maps.{get, put_name};
ghost use Rattle.fuse_spec.specs.Calls.Vfs.{CallState as State, asked};
ghost use Rattle.fuse_spec.specs.declared.Opened.{Opened};
ghost use Rattle.fk_calls.specs.Names.{names_left};

use fk_dentry::Bindings;
use fk_syscalls::CallState;
use fuse_spec::Operation;
use fuse_tables::Table;
use std::alloc::{AllocError, Allocator};

/// The names of which a call asked that they go are cached no longer.
pub fn unbind<A: Allocator + Copy>(
    calls: &Table<CallState<A>, A>,
    names: &mut Bindings<A>,
    call: u64,
)
    ensures { (state : State Opened) → get calls.now.entries call ≡ Some state
        → names.new.names ≡ names_left (asked state) names.old.names }
{
    let Some(waiting) = calls.get(call) else {
        return;
    };
    match waiting.asks() {
        Operation::Unlink { directory, name } | Operation::Rmdir { directory, name } => {
            let _was = names.remove(directory, name);
        }
        Operation::Rename {
            directory,
            old,
            newdir,
            new,
        } => {
            let _was = names.remove(directory, old);
            let _other = names.remove(newdir, new);
        }
        _ => {}
    }
}

/// A name is missing for this many milliseconds from a time on.
///
/// # Errors
///
/// Out of memory. The names are as before.
pub fn bind_missing<A: Allocator + Copy>(
    names: &mut Bindings<A>,
    directory: u64,
    name: &[u8],
    clock: u64,
    valid_ms: u64,
) -> Result<(), AllocError>
    requires { clock + valid_ms < 2 ^ 64 }
    ensures ok { OnOk result (names.new.names ≡ put_name names.old.names (directory, name.now)
        (record { target = None; until = clock + valid_ms })) }
    ensures err { OnErr result (names.new.names ≡ names.old.names) }
{
    let _was = names.bind(directory, name, None, clock + valid_ms)?;
    Ok(())
}
