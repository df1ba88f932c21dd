//! A writer that stops at a limit.

ghost use Rattle.std.specs.Prelude.{◌≡◌, ◌≤◌, ◌+◌, ◌<◌, IfOk, OnOk, length};
ghost use Rattle.std.specs.Io.KnownBytes.{WriteAppends};
ghost use Rattle.std.specs.Io.{WritesAtMost};

use libc::types::rlimit;
use libc::{SEEK_CUR, SEEK_END, SEEK_SET, getrlimit, lseek};
use std::io::{Error, Result, Write};

/// The limit on the size of files that are written. (asm-generic/resource.h)
const RLIMIT_FSIZE: i32 = 1;

/// EFBIG, the file is too large.
const EFBIG: i32 = 27;

/// The limit on the size of files, if there is one.
fn file_limit() -> Option<u64> {
    let mut limit = rlimit {
        rlim_cur: u64::MAX,
        rlim_max: u64::MAX,
    };
    if getrlimit(RLIMIT_FSIZE, &mut limit) != 0 || limit.rlim_cur == u64::MAX {
        return None;
    }
    Some(limit.rlim_cur)
}

/// Where the file ends that a descriptor has open, if it has one. A pipe has no place, and /dev/null stays at its first.
fn end_of_file(descriptor: i32) -> Option<u64> {
    let place = lseek(descriptor, 0, SEEK_CUR);
    let end = lseek(descriptor, 0, SEEK_END);
    let is_file = place >= 0
        && end >= 0
        && lseek(descriptor, end.saturating_add(1), SEEK_SET) > end;
    let _back = lseek(descriptor, place, SEEK_SET);
    if is_file { Some(end as u64) } else { None }
}

/// How many bytes may still be written to what a descriptor has open: of a file those from its end to the limit on the size
/// of files, and else 2^64 - 1.
pub fn room_in_file(descriptor: i32) -> u64 {
    let Some(limit) = file_limit() else {
        return u64::MAX;
    };
    match end_of_file(descriptor) {
        Some(end) => limit.saturating_sub(end),
        None => u64::MAX,
    }
}

/// A writer of no more than so many bytes. A write beyond them is refused as EFBIG, where the system would end the program by
/// SIGXFSZ. (setrlimit(2))
#[derive(Drop)]
pub struct LimitedWriter<W: Write + Drop> {
    writer: W,
    room: u64,
}

impl<W: Write + Drop> LimitedWriter<W> {
    /// A writer of this many bytes at most.
    pub fn new(writer: W, room: u64) -> Self
        ensures { (result.writer ≡ writer) × (result.room ≡ room) }
    {
        LimitedWriter { writer, room }
    }
}

impl<W: Write + Drop> Write for LimitedWriter<W> {
    ghost contents = { λ w. W.contents w.writer };

    fn write(&mut self, bytes: &[u8]) -> Result<usize>
        ensures bound { WritesAtMost result bytes.now }
        ensures bytes { WriteAppends (W.contents self.old.writer) (W.contents self.new.writer) result bytes.now }
        // What is written is taken from the room.
        ensures limit { IfOk result (λ count. count + self.new.room ≡ self.old.room) }
    {
        let most = bytes.len().min(self.room as usize);
        if most == 0 && !bytes.is_empty() {
            return Err(Error::from_raw_os_error(EFBIG));
        }
        match self.writer.write(&bytes[..most]) {
            Ok(count) => {
                self.room -= count as u64;
                Ok(count)
            }
            Err(error) => Err(error),
        }
    }

    fn flush(&mut self) -> Result<()> {
        self.writer.flush()
    }
}
