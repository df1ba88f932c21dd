//! What a server has before any call, taken over into the world beside.

use crate::beside::Beside;
use crate::group::copied;
use crate::text::{put, put_number, word_at};
use fw_drive::NoLine;
use std::alloc::Allocator;

/// Makes a call of some words and a path.
fn make_at<A: Allocator + Copy>(
    alloc: A,
    beside: &mut Beside<A>,
    number: u64,
    words: &[u8],
    path: &[u8],
) -> Result<(), NoLine> {
    let mut line = copied(alloc, words)?;
    put(&mut line, path)?;
    let _answer = beside.make(number, line.as_slice())?;
    Ok(())
}

/// A file is made.
fn adopt_file<A: Allocator + Copy>(
    alloc: A,
    beside: &mut Beside<A>,
    number: u64,
    path: &[u8],
) -> Result<(), NoLine> {
    make_at(alloc, beside, number, b"call create ", path)?;
    let mut close = copied(alloc, b"call close ")?;
    put_number(&mut close, number)?;
    let _answer = beside.make(number, close.as_slice())?;
    Ok(())
}

/// Bytes that were read are written.
fn adopt_bytes<A: Allocator + Copy>(
    alloc: A,
    beside: &mut Beside<A>,
    number: u64,
    line: &[u8],
    bytes: &[u8],
) -> Result<(), NoLine> {
    if bytes == b"-".as_slice() {
        return Ok(());
    }
    let mut write = copied(alloc, b"call write ")?;
    put(&mut write, word_at(line, 2))?;
    put(&mut write, b" ")?;
    put(&mut write, word_at(line, 3))?;
    put(&mut write, b" ")?;
    put(&mut write, bytes)?;
    let _answer = beside.make(number, write.as_slice())?;
    Ok(())
}

/// Does in the world beside what the answer to a call shows to be there: directories, files, and the bytes that are read.
pub(crate) fn adopt<A: Allocator + Copy>(
    alloc: A,
    beside: &mut Beside<A>,
    number: u64,
    line: &[u8],
    answer: &[u8],
) -> Result<(), NoLine> {
    if word_at(answer, 0) != b"0".as_slice() {
        return Ok(());
    }
    match (word_at(line, 1), word_at(answer, 1)) {
        (b"stat", b"dir") => make_at(alloc, beside, number, b"call mkdir ", word_at(line, 2)),
        (b"stat", b"file") => adopt_file(alloc, beside, number, word_at(line, 2)),
        (b"open" | b"close", _) => make_at(alloc, beside, number, line, b""),
        (b"read", bytes) => adopt_bytes(alloc, beside, number, line, bytes),
        _ => Ok(()),
    }
}
