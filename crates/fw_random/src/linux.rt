//! What Linux sends: it looks at the files first, and refuses many a call by itself.

use crate::alike::is_below;
use crate::beside::Beside;
use crate::group::copied;
use crate::text::{number_of, put, word_at};
use fw_drive::NoLine;
use std::alloc::Allocator;

/// What a path leads to, with its inode number.
#[derive(Clone, Copy, Debug, PartialEq, Eq)]
enum Found {
    Missing,
    File(u64),
    Directory,
    /// No file can be there, as what should be a directory is none.
    Nowhere,
}

/// What a path leads to in the world beside.
fn look_up<A: Allocator + Copy>(
    alloc: A,
    beside: &mut Beside<A>,
    path: &[u8],
) -> Result<Found, NoLine> {
    let mut line = copied(alloc, b"call stat ")?;
    put(&mut line, path)?;
    let answer = beside.make(0, line.as_slice())?;
    let words = answer.as_slice();
    Ok(match (word_at(words, 0), word_at(words, 1)) {
        (b"0", b"dir") => Found::Directory,
        (b"0", _) => Found::File(number_of(word_at(words, 2))),
        (b"2", _) => Found::Missing,
        _ => Found::Nowhere,
    })
}

/// Whether Linux sends a RENAME between two paths.
fn is_moved(old: Found, new: Found, one: &[u8], other: &[u8]) -> bool {
    if is_below(one, other) || is_below(other, one) {
        return false;
    }
    match (old, new) {
        (Found::File(_) | Found::Directory, Found::Missing) => true,
        (Found::File(one), Found::File(other)) => one != other,
        (Found::Directory, Found::Directory) => one != other,
        _ => false,
    }
}

/// Whether there is a file at a path.
pub(crate) fn is_there<A: Allocator + Copy>(
    alloc: A,
    beside: &mut Beside<A>,
    path: &[u8],
) -> Result<bool, NoLine> {
    match look_up(alloc, beside, path)? {
        Found::File(_) | Found::Directory => Ok(true),
        Found::Missing | Found::Nowhere => Ok(false),
    }
}

/// What must be at the path of a call for Linux to send it.
#[derive(Clone, Copy)]
enum Needs {
    /// Directories on the way to it.
    Way,
    Directory,
    File,
    Nothing,
    /// A file, and nothing at the other path.
    Link,
}

/// The calls of one path, and the one of a new name of a file.
static NEEDS: [(&[u8], Needs); 9] = [
    (b"stat", Needs::Way),
    (b"list", Needs::Directory),
    (b"listplus", Needs::Directory),
    (b"rmdir", Needs::Directory),
    (b"open", Needs::File),
    (b"unlink", Needs::File),
    (b"mkdir", Needs::Nothing),
    (b"create", Needs::Nothing),
    (b"link", Needs::Link),
];

/// What a call needs, if it is among these.
fn needs_of(call: &[u8]) -> Option<Needs> {
    for (name, needs) in &NEEDS {
        if *name == call {
            return Some(*needs);
        }
    }
    None
}

/// Whether Linux sends a call of an open file, if the call is one: of no bytes it sends none.
fn is_transfer_sent(call: &[u8], size: &[u8]) -> Option<bool> {
    match call {
        b"read" => Some(size != b"0".as_slice()),
        b"write" => Some(size != b"-".as_slice()),
        b"close" => Some(true),
        _ => None,
    }
}

/// Whether Linux sends the operation of a line's call, as far as the paths say.
pub(crate) fn is_sent<A: Allocator + Copy>(
    alloc: A,
    beside: &mut Beside<A>,
    line: &[u8],
) -> Result<bool, NoLine> {
    if let Some(is_sent) = is_transfer_sent(word_at(line, 1), word_at(line, 4)) {
        return Ok(is_sent);
    }
    let (one, other) = (word_at(line, 2), word_at(line, 3));
    let first = look_up(alloc, beside, one)?;
    Ok(match needs_of(word_at(line, 1)) {
        Some(Needs::Way) => first != Found::Nowhere,
        Some(Needs::Directory) => first == Found::Directory,
        Some(Needs::File) => matches!(first, Found::File(_)),
        Some(Needs::Nothing) => first == Found::Missing,
        Some(Needs::Link) => {
            matches!(first, Found::File(_)) && look_up(alloc, beside, other)? == Found::Missing
        }
        None => is_moved(first, look_up(alloc, beside, other)?, one, other),
    })
}
