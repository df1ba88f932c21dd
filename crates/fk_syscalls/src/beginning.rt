//! How a call begins.

ghost use Rattle.std.specs.Prelude.{◌≡◌, ℕ, false, length, None, IfOk, OnErr};
ghost use Rattle.fuse_spec.specs.Calls.Begins.{sets_out, whole_path, parent_path, using as using_file};
ghost use Rattle.fuse_spec.specs.Values.Maps.{get};
ghost use Rattle.fuse_spec.specs.Files.Operations as op;
ghost use Rattle.fuse_spec.specs.Files.Operations.{operation_of};
ghost use Rattle.fuse_spec.specs.Calls.Vfs.{CallState as State, Vfs, numbered, begun, asking, after_beginning};
ghost use Rattle.fuse_spec.specs.Calls.Walks.{last, rename, link};
ghost use Rattle.fuse_spec.specs.declared.Opened.{Opened};
ghost use Rattle.fk_syscalls.specs.Words.{words_from, AreWords, IsWord};
ghost use Rattle.fuse_spec.specs.Values.Numbers.{max_transfer};
ghost use Rattle.fk_syscalls.specs.Plans.{plan_of, IsSoundFinal, IsSoundPlan};
ghost use Rattle.fk_syscalls.specs.States.{HasCachedNames, BeginsAsking};
ghost use Rattle.fk_syscalls.specs.Values.{call_of, changes, comes_to, ClosesNone, IsBegun};

use crate::call::Call;
use crate::path::{first_word, parent_of};
use crate::plan::{FinalOperation, Plan};
use crate::state::{CallState, Next, ROOT};
use crate::walk::walk;
use fk_dentry::Bindings;
use fk_opens::OpenFiles;
use fuse_spec::errno::{EBADF, EINVAL, ENOENT};
use fuse_spec::limits::{self, MAX_FILE};
use fuse_spec::{Opened, Operation};
use std::alloc::{AllocError, Allocator};

/// A read or write has at most this many bytes.
const MAX_TRANSFER: u64 = limits::MAX_TRANSFER as u64;

/// Begins a call on a mount that is not aborted: a fault answers it; a read or write asks at once; else it walks from
/// the root as far as the cached names lead at this time, in milliseconds. A close is the kernel's own.
///
/// # Errors
///
/// Out of memory. The call would ask an operation.
#[inline(always)]
pub fn begin<A: Allocator + Copy>(
    alloc: A,
    names: &Bindings<A>,
    clock: u64,
    opens: &OpenFiles<A>,
    call: &Call<'_>,
) -> Result<Next<A>, AllocError>
    requires { ClosesNone call.now }
    ensures begun { IfOk result (λ next. (c : Vfs Opened) → HasCachedNames c names.now.names clock
        → c.opens ≡ opens.now.entries → begun false c (call_of call.now) ≡ comes_to (numbered c) c.next_call next) }
    ensures out_of_memory { OnErr result ((c : Vfs Opened) → HasCachedNames c names.now.names clock → c.opens ≡ opens.now.entries
        → (state : State Opened) × (begun false c (call_of call.now) ≡ asking (numbered c) c.next_call state)) }
{
    match call {
        Call::Stat { path } => {
            let operation = Operation::Getattr { node: None };
            begin_whole(alloc, names, clock, path, operation)
        }
        Call::List { path, after } => { begin_whole(alloc, names, clock, path, list_from(*after)) }
        Call::ListPlus { path, after } => {
            begin_whole(alloc, names, clock, path, list_with_files_from(*after))
        }
        Call::Open { path } => {
            let operation = Operation::Open { node: None };
            begin_whole(alloc, names, clock, path, operation)
        }
        Call::Mkdir { path } => begin_change(alloc, names, clock, path, Change::Mkdir),
        Call::Create { path } => begin_change(alloc, names, clock, path, Change::Create),
        Call::Unlink { path } => begin_change(alloc, names, clock, path, Change::Unlink),
        Call::Rmdir { path } => begin_change(alloc, names, clock, path, Change::Rmdir),
        Call::Rename { old, new } => begin_rename(alloc, names, clock, old, new),
        Call::Link { old, new } => begin_link(alloc, names, clock, old, new),
        Call::Read {
            open_call,
            offset,
            size,
        } => Ok(begin_read(alloc, opens, *open_call, *offset, *size)),
        Call::Write {
            open_call,
            offset,
            bytes,
        } => begin_write(alloc, opens, *open_call, *offset, bytes),
        // It never comes to this: a close is not begun here.
        Call::Close { .. } => Ok(Next::Answer { errno: EBADF }),
    }
}

/// A list of names behind an offset, of the directory to which the walk leads.
fn list_from<'a>(after: u64) -> FinalOperation<&'a [u8]>
    ensures operation { operation_of (λ s. s.now) result ≡ op.readdir None after max_transfer }
    ensures sound { IsSoundFinal (λ s. s.now) result }
{
    Operation::Readdir {
        directory: None,
        after,
        size: limits::MAX_TRANSFER,
    }
}

/// A list of names behind an offset, each with its file, of the directory to which the walk leads.
fn list_with_files_from<'a>(after: u64) -> FinalOperation<&'a [u8]>
    ensures operation { operation_of (λ s. s.now) result ≡ op.readdirplus None after max_transfer }
    ensures sound { IsSoundFinal (λ s. s.now) result }
{
    Operation::Readdirplus {
        directory: None,
        after,
        size: limits::MAX_TRANSFER,
    }
}

/// A change of a directory by one name.
#[derive(Clone, Copy)]
enum Change {
    Mkdir,
    Create,
    Unlink,
    Rmdir,
}

impl Change {
    /// The change, by this name, of the directory to which the walk leads.
    fn of_name(self, name: &[u8]) -> FinalOperation<&[u8]>
        requires { IsWord name.now }
        ensures operation { operation_of (λ s. s.now) result ≡ changes self name.now }
        ensures sound { IsSoundFinal (λ s. s.now) result }
    {
        let directory = None;
        match self {
            Change::Mkdir => Operation::Mkdir { directory, name },
            Change::Create => Operation::Create { directory, name },
            Change::Unlink => Operation::Unlink { directory, name },
            Change::Rmdir => Operation::Rmdir { directory, name },
        }
    }
}

/// A call of which all words are walked.
#[inline(always)]
fn begin_whole<A: Allocator + Copy>(
    alloc: A,
    names: &Bindings<A>,
    clock: u64,
    path: &[u8],
    operation: FinalOperation<&[u8]>,
) -> Result<Next<A>, AllocError>
    requires { IsSoundFinal (λ s. s.now) operation }
    ensures begun { IfOk result (IsBegun names.now.names clock
        (whole_path path.now (λ words. sets_out words (last (operation_of (λ s. s.now) operation.entry))))) }
    ensures out_of_memory { OnErr result (BeginsAsking names.now.names clock
        (whole_path path.now (λ words. sets_out words (last (operation_of (λ s. s.now) operation.entry))))) }
{
    match first_word(path) {
        Ok(at) => start_walk(alloc, names, clock, path, at, Plan::Last(operation)),
        Err(errno) => Ok(Next::Answer { errno }),
    }
}

/// A call that changes a directory by the last word of its path.
fn begin_change<A: Allocator + Copy>(
    alloc: A,
    names: &Bindings<A>,
    clock: u64,
    path: &[u8],
    change: Change,
) -> Result<Next<A>, AllocError>
    ensures begun { IfOk result (IsBegun names.now.names clock
        (parent_path path.now (λ words name. sets_out words (last (changes change name))))) }
    ensures out_of_memory { OnErr result (BeginsAsking names.now.names clock
        (parent_path path.now (λ words name. sets_out words (last (changes change name))))) }
{
    match parent_of(path) {
        Ok(parent) => {
            let name = parent.name;
            let plan = Plan::Last(change.of_name(name));
            start_walk(alloc, names, clock, parent.words, parent.at, plan)
        }
        Err(errno) => Ok(Next::Answer { errno }),
    }
}

/// A call that moves a name.
fn begin_rename<A: Allocator + Copy>(
    alloc: A,
    names: &Bindings<A>,
    clock: u64,
    old: &[u8],
    new: &[u8],
) -> Result<Next<A>, AllocError>
    ensures begun { IfOk result (IsBegun names.now.names clock
        (parent_path old.now (λ words from. parent_path new.now (λ more to. sets_out words (rename from more to))))) }
    ensures out_of_memory { OnErr result (BeginsAsking names.now.names clock
        (parent_path old.now (λ words from. parent_path new.now (λ more to. sets_out words (rename from more to))))) }
{
    let from = match parent_of(old) {
        Ok(from) => from,
        Err(errno) => return Ok(Next::Answer { errno }),
    };
    let to = match parent_of(new) {
        Ok(to) => to,
        Err(errno) => return Ok(Next::Answer { errno }),
    };
    let plan = Plan::Rename {
        old: from.name,
        words: to.words,
        at: to.at,
        new: to.name,
    };
    start_walk(alloc, names, clock, from.words, from.at, plan)
}

/// A call that gives a file one more name.
fn begin_link<A: Allocator + Copy>(
    alloc: A,
    names: &Bindings<A>,
    clock: u64,
    old: &[u8],
    new: &[u8],
) -> Result<Next<A>, AllocError>
    ensures begun { IfOk result (IsBegun names.now.names clock
        (whole_path old.now (λ words. parent_path new.now (λ more name. sets_out words (link more name))))) }
    ensures out_of_memory { OnErr result (BeginsAsking names.now.names clock
        (whole_path old.now (λ words. parent_path new.now (λ more name. sets_out words (link more name))))) }
{
    let at = match first_word(old) {
        Ok(at) => at,
        Err(errno) => return Ok(Next::Answer { errno }),
    };
    let to = match parent_of(new) {
        Ok(to) => to,
        Err(errno) => return Ok(Next::Answer { errno }),
    };
    let plan = Plan::Link {
        words: to.words,
        at: to.at,
        name: to.name,
    };
    start_walk(alloc, names, clock, old, at, plan)
}

/// A call walks from the root along the words from a place on.
#[inline(always)]
fn start_walk<A: Allocator + Copy>(
    alloc: A,
    names: &Bindings<A>,
    clock: u64,
    words: &[u8],
    at: Option<usize>,
    plan: Plan<&[u8]>,
) -> Result<Next<A>, AllocError>
    requires words { AreWords words.now at }
    requires plan { IsSoundPlan (λ s. s.now) plan }
    ensures begun { IfOk result (IsBegun names.now.names clock
        (sets_out (words_from words.now at) (plan_of (λ s. s.now) plan.entry))) }
    ensures out_of_memory { OnErr result (BeginsAsking names.now.names clock
        (sets_out (words_from words.now at) (plan_of (λ s. s.now) plan.entry))) }
{
    let Some(stop) = walk(names, clock, ROOT, words, at) else {
        return Ok(Next::Answer { errno: ENOENT });
    };
    if stop.at.is_some() {
        let state = CallState::new(alloc, stop.node, words, stop.at, plan)?;
        return Ok(Next::Ask(state));
    }
    match plan {
        Plan::Last(_) => {
            let state = CallState::new(alloc, stop.node, words, None, plan)?;
            Ok(Next::Ask(state))
        }
        Plan::Rename {
            old,
            words,
            at,
            new,
        } => {
            let operation = Operation::Rename {
                directory: Some(stop.node),
                old,
                newdir: None,
                new,
            };
            set_out_again(alloc, names, clock, words, at, operation)
        }
        Plan::Link { words, at, name } => {
            let operation = Operation::Link {
                node: Some(stop.node),
                directory: None,
                name,
            };
            set_out_again(alloc, names, clock, words, at, operation)
        }
    }
}

/// A call walks from the root along the words from a place on, and no other walk follows.
fn set_out_again<A: Allocator + Copy>(
    alloc: A,
    names: &Bindings<A>,
    clock: u64,
    words: &[u8],
    at: Option<usize>,
    operation: FinalOperation<&[u8]>,
) -> Result<Next<A>, AllocError>
    requires words { AreWords words.now at }
    requires sound { IsSoundFinal (λ s. s.now) operation }
    ensures begun { IfOk result (IsBegun names.now.names clock
        (sets_out (words_from words.now at) (last (operation_of (λ s. s.now) operation.entry)))) }
    ensures out_of_memory { OnErr result (BeginsAsking names.now.names clock
        (sets_out (words_from words.now at) (last (operation_of (λ s. s.now) operation.entry)))) }
{
    match walk(names, clock, ROOT, words, at) {
        Some(stop) => {
            let plan = Plan::Last(operation);
            let state = CallState::new(alloc, stop.node, words, stop.at, plan)?;
            Ok(Next::Ask(state))
        }
        None => Ok(Next::Answer { errno: ENOENT }),
    }
}

/// A call that reads bytes of an open file.
fn begin_read<A: Allocator + Copy>(
    alloc: A,
    opens: &OpenFiles<A>,
    open_call: u64,
    offset: u64,
    size: u64,
) -> Next<A>
    ensures { (c : Vfs Opened) (call : ℕ) → after_beginning c call
        (using_file open_call (get opens.now.entries open_call) offset size (λ opened. op.read opened offset size))
        ≡ comes_to c call result }
{
    let Some(opened) = opens.get(open_call) else {
        return Next::Answer { errno: EBADF };
    };
    if offset > MAX_FILE || size > MAX_TRANSFER {
        return Next::Answer { errno: EINVAL };
    }
    Next::Ask(CallState::reads(alloc, open_call, *opened, offset, size as u32))
}

/// A call that puts bytes into an open file.
fn begin_write<A: Allocator + Copy>(
    alloc: A,
    opens: &OpenFiles<A>,
    open_call: u64,
    offset: u64,
    bytes: &[u8],
) -> Result<Next<A>, AllocError>
    ensures begun { IfOk result (λ next. (c : Vfs Opened) (call : ℕ)
        → after_beginning c call (using_file open_call (get opens.now.entries open_call) offset (length bytes.now)
        (λ opened. op.write opened offset bytes.now)) ≡ comes_to c call next) }
    ensures out_of_memory { OnErr result ((c : Vfs Opened) (call : ℕ)
        → (state : State Opened) × (after_beginning c call
        (using_file open_call (get opens.now.entries open_call) offset (length bytes.now)
        (λ opened. op.write opened offset bytes.now)) ≡ asking c call state)) }
{
    let Some(opened) = opens.get(open_call) else {
        return Ok(Next::Answer { errno: EBADF });
    };
    if offset > MAX_FILE || bytes.len() as u64 > MAX_TRANSFER {
        return Ok(Next::Answer { errno: EINVAL });
    }
    let state = CallState::writes(alloc, open_call, *opened, offset, bytes)?;
    Ok(Next::Ask(state))
}
