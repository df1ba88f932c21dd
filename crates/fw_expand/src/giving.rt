//! The next line of those that are to come.

ghost use Rattle.std.specs.Prelude.{◌≡◌, ◌≢◌, ◌+◌, ◌++◌, ℕ, IfOk, List, MatchOption, None, Option, codes, decimal, false, option_map, true};
ghost use Rattle.fw_expand.specs.Expanding as expanding;
ghost use Rattle.fw_expand.specs.Expanding.{Drops, Evicts, Gives, IsOver, Now};
ghost use Rattle.fw_expand.specs.declared.rest.Rest.TheVariants as rest;

use crate::kind::is_text;
use crate::put::{put, put_drop, put_evict, put_list};
use crate::rest::Rest;
use fw_drive::KernelView;
use std::alloc::{AllocError, Allocator};

/// The most calls by which one directory is listed.
const MOST_CALLS: u64 = 10_000;

/// While a forget may be read, it is.
fn give_forget<B: Allocator>(
    is_forgetting: bool,
    line: &mut Vec<u8, B>,
) -> Result<Option<Rest>, AllocError>
    ensures { IfOk result (λ next. MatchOption next (is_forgetting ≡ false)
        (λ left. (is_forgetting ≡ true) × (line.new.items ≡ codes "read f 1") × (left ≡ rest.Forgets))) }
{
    if !is_forgetting {
        return Ok(None);
    }
    put(line, b"read f 1")?;
    Ok(Some(Rest::Forgets))
}

/// A cached name that a line can say. No line can say some names, which a server listed.
fn sayable(name: Option<(u64, &[u8])>) -> Option<(u64, &[u8])>
    ensures { option_map (λ name. (name.0, name.1.now)) result
        ≡ expanding.sayable (option_map (λ name. (name.0, name.1.now)) name.entry) }
{
    match name {
        Some((directory, name)) if is_text(name) && !name.is_empty() => Some((directory, name)),
        _ => None,
    }
}

/// While a node may be evicted, it is.
fn give_node<V: KernelView, B: Allocator>(
    kernel: &V,
    line: &mut Vec<u8, B>,
) -> Result<Option<Rest>, AllocError>
    ensures { IfOk result (λ next. MatchOption next (V.evicts kernel.now ≡ None)
        (Evicts (V.evicts kernel.now) line.new.items)) }
{
    match kernel.first_evictable()? {
        Some(node) => {
            put_evict(line, node)?;
            Ok(Some(Rest::Nodes))
        }
        None => Ok(None),
    }
}

/// While a cached name may be dropped, it is, and then while a node may be evicted, it is.
fn give_name<V: KernelView, B: Allocator>(
    kernel: &V,
    name: Option<(u64, &[u8])>,
    line: &mut Vec<u8, B>,
) -> Result<Option<Rest>, AllocError>
    ensures { let droppable = option_map (λ name. (name.0, name.1.now)) name.entry in
        IfOk result (λ next. MatchOption next ((droppable ≡ None) × (V.evicts kernel.now ≡ None))
        (Drops droppable (V.evicts kernel.now) line.new.items)) }
{
    match name {
        Some((directory, name)) => {
            put_drop(line, directory, name)?;
            Ok(Some(Rest::Names))
        }
        None => give_node(kernel, line),
    }
}

/// A directory is listed on, from its begin or behind what was listed last.
fn give_listing<V: KernelView, B: Allocator>(
    kernel: &V,
    text: &[u8],
    calls: u64,
    line: &mut Vec<u8, B>,
) -> Result<Option<Rest>, AllocError>
    ensures { IfOk result (λ next. MatchOption next (calls ≢ 0) (λ left. (offset : ℕ) × (calls ≡ 0 → offset ≡ 0)
        × (line.new.items ≡ text.now ++ decimal offset) × (left ≡ rest.Listing (calls + 1)))) }
{
    let offset = match kernel.listed_to() {
        _ if calls == 0 => 0,
        Some(offset) if calls < MOST_CALLS => offset,
        _ => return Ok(None),
    };
    put_list(line, text, offset)?;
    Ok(Some(Rest::Listing(calls + 1)))
}

/// Makes a line the next of those to come, and says which are to come behind it. None where none is to come.
pub(crate) fn give<V: KernelView, B: Allocator>(
    kernel: &V,
    is_forgetting: bool,
    text: &[u8],
    rest: Rest,
    line: &mut Vec<u8, B>,
) -> Result<Option<Rest>, AllocError>
    ensures { (name : Option (ℕ × List ℕ)) × V.drops kernel.now name
        × (let now : Now = (is_forgetting, expanding.sayable name, V.evicts kernel.now) in
        IfOk result (λ next. MatchOption next (IsOver now rest) (Gives now text.now rest line.new.items))) }
{
    let name = sayable(kernel.first_cached_name());
    match rest {
        Rest::Nothing => Ok(None),
        Rest::Line => {
            put(line, text)?;
            Ok(Some(Rest::Nothing))
        }
        Rest::Pair(node) => {
            put(line, text)?;
            Ok(Some(Rest::Node(node)))
        }
        Rest::Node(node) => {
            put_evict(line, node)?;
            Ok(Some(Rest::Nothing))
        }
        Rest::Forgets => give_forget(is_forgetting, line),
        Rest::Names => give_name(kernel, name, line),
        Rest::Nodes => give_node(kernel, line),
        Rest::Listing(calls) => give_listing(kernel, text, calls, line),
    }
}
