//! The lines of calls, chosen.

use crate::chance::Chance;
use crate::known::{Known, take_out};
use crate::plan::Plan;
use crate::text::{put, put_number};
use fw_drive::NoLine;
use std::alloc::Allocator;

/// The names of files, of which a call takes one for each directory of its path.
const NAMES: [&[u8]; 5] = [b"a", b"b", b"c", b"d", b"longer.name"];

/// The places of names, as often as they are chosen: few, so that calls meet.
const LIKELY: [u64; 9] = [0, 0, 0, 1, 1, 1, 2, 3, 4];

/// Offsets that are read at, at the edges of pages and of the longest file that the world beside takes.
const OFFSETS: [u64; 7] = [0, 0, 1, 4_095, 4_096, 65_535, 65_536];

/// Offsets that are written at, so that no file is longer than the world beside takes.
const WRITTEN: [u64; 7] = [0, 0, 1, 4_095, 4_096, 61_439, 61_440];

/// How many bytes are read or written.
const SIZES: [u64; 7] = [0, 1, 2, 7, 64, 4_095, 4_096];

/// How many names a path has at most.
const DEPTH: usize = 3;

/// The words that may follow the path of a file that is opened.
const FLAGS: [&[u8]; 4] = [b"", b" r", b" w", b" rw"];

/// A name of one of the first `count`.
fn name_of(place: u64) -> &'static [u8] {
    match NAMES.get(place as usize) {
        Some(name) => name,
        None => b"a",
    }
}

/// Appends a name that is chosen.
pub(crate) fn put_name<A: Allocator>(
    chance: &mut Chance,
    line: &mut Vec<u8, A>,
) -> Result<(), NoLine> {
    put(line, name_of(chance.one_of(&LIKELY)))
}

/// How many names there are.
pub(crate) fn name_count() -> u64 {
    NAMES.len() as u64
}

/// Appends the name at a place.
pub(crate) fn put_name_at<A: Allocator>(line: &mut Vec<u8, A>, place: u64) -> Result<(), NoLine> {
    put(line, name_of(place))
}

/// How many names a path has.
fn depth(path: &[u8]) -> usize {
    let mut names: usize = 0;
    for byte in path {
        if *byte == b'/' {
            names = names.saturating_add(1);
        }
    }
    names
}

/// Appends a path: half of the time one under which something was once, else one below that, or one to three names.
fn put_path<A: Allocator + Copy, B: Allocator>(
    chance: &mut Chance,
    plan: &Plan<A>,
    line: &mut Vec<u8, B>,
) -> Result<(), NoLine> {
    let place = chance.below(plan.paths.len() as u64) as usize;
    let draw = chance.below(4);
    match plan.paths.as_slice().get(place) {
        Some(path) if draw < 2 => put(line, path.as_slice()),
        Some(path) if draw == 2 && depth(path.as_slice()) < DEPTH => {
            put(line, path.as_slice())?;
            put(line, b"/")?;
            put_name(chance, line)
        }
        _ => {
            let names = chance.one_of(&[1, 1, 1, 2, 2, 3]);
            for _name in 0..names {
                put(line, b"/")?;
                put_name(chance, line)?;
            }
            Ok(())
        }
    }
}

/// Writes a call with a path.
fn put_call<A: Allocator + Copy, B: Allocator>(
    chance: &mut Chance,
    plan: &Plan<A>,
    line: &mut Vec<u8, B>,
    call: &[u8],
) -> Result<(), NoLine> {
    put(line, call)?;
    put_path(chance, plan, line)
}

/// Appends a path under which something was once, if there is one.
fn put_known_path<A: Allocator + Copy, B: Allocator>(
    chance: &mut Chance,
    plan: &Plan<A>,
    line: &mut Vec<u8, B>,
) -> Result<(), NoLine> {
    let place = chance.below(plan.paths.len() as u64) as usize;
    match plan.paths.as_slice().get(place) {
        Some(path) => put(line, path.as_slice()),
        None => put_path(chance, plan, line),
    }
}

/// Writes a call with two paths. Linux sends it only where the first is there.
fn put_call_of_two<A: Allocator + Copy, B: Allocator>(
    chance: &mut Chance,
    plan: &Plan<A>,
    line: &mut Vec<u8, B>,
    call: &[u8],
) -> Result<(), NoLine> {
    put(line, call)?;
    put_known_path(chance, plan, line)?;
    put(line, b" ")?;
    put_path(chance, plan, line)
}

/// Writes a call that lists a directory, one in four times the root.
fn put_list<A: Allocator + Copy, B: Allocator>(
    chance: &mut Chance,
    plan: &Plan<A>,
    line: &mut Vec<u8, B>,
    call: &[u8],
) -> Result<(), NoLine> {
    put(line, call)?;
    if chance.is_one_in(4) {
        put(line, b"/")?;
    } else {
        put_path(chance, plan, line)?;
    }
    put(line, b" 0")
}

/// Writes the head of a call on an open file: its number and an offset.
fn put_place<A: Allocator>(
    chance: &mut Chance,
    line: &mut Vec<u8, A>,
    call: &[u8],
    file: u64,
    offsets: &[u64],
) -> Result<(), NoLine> {
    put(line, call)?;
    put_number(line, file)?;
    put(line, b" ")?;
    put_number(line, chance.one_of(offsets))?;
    put(line, b" ")
}

/// Writes a call that puts bytes into an open file.
fn put_write<A: Allocator>(
    chance: &mut Chance,
    line: &mut Vec<u8, A>,
    file: u64,
) -> Result<(), NoLine> {
    put_place(chance, line, b"call write ", file, &WRITTEN)?;
    let size = chance.one_of(&SIZES);
    let digits = b"0123456789abcdef";
    let digit = chance.below(16) as usize;
    for _digit in 0..size {
        let Some(byte) = digits.get(digit) else {
            break;
        };
        let pair = [*byte, b'5'];
        put(line, &pair)?;
    }
    if size == 0 {
        put(line, b"-")?;
    }
    Ok(())
}

/// Writes a call that reads an open file.
fn put_read<A: Allocator>(
    chance: &mut Chance,
    line: &mut Vec<u8, A>,
    file: u64,
) -> Result<(), NoLine> {
    put_place(chance, line, b"call read ", file, &OFFSETS)?;
    put_number(line, chance.one_of(&SIZES))
}

/// Whether a number is one of some.
fn is_one_of(numbers: &[u64], number: u64) -> bool {
    numbers.iter().any(|other| *other == number)
}

/// Writes a call on an open file that changes it, or its close.
fn put_change_of_file<A: Allocator + Copy, B: Allocator>(
    chance: &mut Chance,
    known: &mut Known<A>,
    line: &mut Vec<u8, B>,
) -> Result<(), NoLine> {
    let file = chance.one_of(known.open.as_slice());
    if chance.is_one_in(3) || is_one_of(known.unwritable.as_slice(), file) {
        put_close(known, line, file)
    } else {
        put_write(chance, line, file)
    }
}

/// Writes the close of an open file.
pub(crate) fn put_close<A: Allocator + Copy, B: Allocator>(
    known: &mut Known<A>,
    line: &mut Vec<u8, B>,
    file: u64,
) -> Result<(), NoLine> {
    let _open = take_out(&mut known.open, file);
    put(line, b"call close ")?;
    put_number(line, file)
}

/// Writes a call that opens a file.
fn put_open<A: Allocator + Copy, B: Allocator>(
    chance: &mut Chance,
    plan: &Plan<A>,
    line: &mut Vec<u8, B>,
) -> Result<(), NoLine> {
    put_call(chance, plan, line, b"call open ")?;
    let flags = chance.below(FLAGS.len() as u64) as usize;
    match FLAGS.get(flags) {
        Some(word) => put(line, word),
        None => Ok(()),
    }
}

/// Writes a call that changes no file.
pub(crate) fn put_reader<A: Allocator + Copy, B: Allocator>(
    chance: &mut Chance,
    known: &mut Known<A>,
    plan: &Plan<A>,
    line: &mut Vec<u8, B>,
) -> Result<(), NoLine> {
    let file = chance.one_of(known.open.as_slice());
    match chance.below(8) {
        0 => put_list(chance, plan, line, b"call list "),
        1 => put_list(chance, plan, line, b"call listplus "),
        2..=4 if file != 0 && !is_one_of(known.unreadable.as_slice(), file) => put_read(
            chance, line, file,
        ),
        _ => put_call(chance, plan, line, b"call stat "),
    }
}

/// Writes a call that changes files, opens one, or closes one.
pub(crate) fn put_change<A: Allocator + Copy, B: Allocator>(
    chance: &mut Chance,
    known: &mut Known<A>,
    plan: &Plan<A>,
    line: &mut Vec<u8, B>,
) -> Result<(), NoLine> {
    match chance.below(22) {
        0..=2 => put_call(chance, plan, line, b"call mkdir "),
        3..=6 => put_call(chance, plan, line, b"call create "),
        7 | 8 => put_call(chance, plan, line, b"call unlink "),
        9 => put_call(chance, plan, line, b"call rmdir "),
        10..=12 => put_call_of_two(chance, plan, line, b"call rename "),
        13..=15 => put_call_of_two(chance, plan, line, b"call link "),
        16 | 17 => put_open(chance, plan, line),
        _ if !known.open.is_empty() => put_change_of_file(chance, known, line),
        _ => put_call(chance, plan, line, b"call create "),
    }
}
