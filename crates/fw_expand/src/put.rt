//! The lines that are given, as texts.

ghost use Rattle.std.specs.Prelude.{◌≡◌, ◌++◌, OnOk, codes, decimal};
ghost use Rattle.fw_expand.specs.Expanding.{drop_line, evict_line, list_line};

use itoa::Buffer;
use std::alloc::{AllocError, Allocator};

/// Makes a line another text.
pub(crate) fn put<A: Allocator>(line: &mut Vec<u8, A>, text: &[u8]) -> Result<(), AllocError>
    ensures { OnOk result (line.new.items ≡ text.now) }
{
    line.clear();
    line.extend_from_slice(text)
}

/// Puts a number behind a text.
fn add_number<A: Allocator>(line: &mut Vec<u8, A>, number: u64) -> Result<(), AllocError>
    ensures { OnOk result (line.new.items ≡ line.old.items ++ decimal number) }
{
    line.extend_from_slice(Buffer::new().format(number).as_bytes())
}

/// Makes a line one that drops a cached name.
pub(crate) fn put_drop<A: Allocator>(
    line: &mut Vec<u8, A>,
    directory: u64,
    name: &[u8],
) -> Result<(), AllocError>
    ensures { OnOk result (line.new.items ≡ drop_line directory name.now) }
{
    put(line, b"drop ")?;
    add_number(line, directory)?;
    line.push(b' ')?;
    line.extend_from_slice(name)
}

/// Makes a line one that evicts a node.
pub(crate) fn put_evict<A: Allocator>(line: &mut Vec<u8, A>, node: u64) -> Result<(), AllocError>
    ensures { OnOk result (line.new.items ≡ evict_line node) }
{
    put(line, b"evict ")?;
    add_number(line, node)
}

/// Makes a line one that lists a directory behind an offset.
pub(crate) fn put_list<A: Allocator>(
    line: &mut Vec<u8, A>,
    text: &[u8],
    offset: u64,
) -> Result<(), AllocError>
    ensures { OnOk result (line.new.items ≡ text.now ++ decimal offset) }
{
    put(line, text)?;
    add_number(line, offset)
}

/// A line that lists a directory to its end, without its last word, which is `all`.
pub(crate) fn without_all(raw: &[u8]) -> &[u8]
    ensures { result.now ≡ list_line raw.now }
{
    let (front, _all) = raw.split_at(raw.len().saturating_sub(3));
    front
}
