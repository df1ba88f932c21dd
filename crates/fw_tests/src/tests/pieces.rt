//! Links whose ends take and give one byte at a time.

use super::cutting::REQUEST;
use fw_link::{Link, MemoryLink, Side, StreamLink};
use std::io;
use std::io::{Read, Write};
use std::process::Abort;
use std::test::Fail;

/// A writer that takes one byte a write.
#[derive(Drop)]
struct ByteWriter<'a>(&'a mut Vec<u8>);

impl Write for ByteWriter<'_> {
    fn write(&mut self, buf: &[u8]) -> io::Result<usize> {
        let Some(byte) = buf.first() else {
            return Ok(0);
        };
        match self.0.push(*byte) {
            Ok(()) => Ok(1),
            Err(_) => Ok(0),
        }
    }

    fn flush(&mut self) -> io::Result<()> {
        Ok(())
    }
}

/// A reader that gives one byte a read.
#[derive(Drop)]
struct ByteReader<'a>(&'a [u8]);

impl Read for ByteReader<'_> {
    fn read(&mut self, buf: &mut [u8]) -> io::Result<usize> {
        let most = buf.len().min(1);
        self.0.read(&mut buf[..most])
    }
}

/// Whether the server gets these bytes, in this many calls that have room for this much.
fn is_got<L: Link>(link: &mut L, calls: usize, room: &mut [u8], wanted: &[u8]) -> bool {
    let mut left = wanted;
    for _ in 0..calls {
        let Ok(count) = link.get(Side::Server, room) else {
            return false;
        };
        let Some(rest) = left.strip_prefix(&room[..count]) else {
            return false;
        };
        left = rest;
    }
    left.is_empty()
}

#[test]
fn a_stream_in_single_bytes(rt: HostRuntime) -> Result<(), Fail> {
    let mut written = Vec::new(rt.alloc());
    let mut answered = Vec::new(rt.alloc());
    let mut room = [0u8; 60];
    let mut link = StreamLink::new(
        ByteReader(b""),
        ByteWriter(&mut written),
        ByteReader(&REQUEST),
        ByteWriter(&mut answered),
    );
    assert!(rt; link.put(Side::Kernel, &REQUEST).is_ok());
    assert!(rt; is_got(&mut link, 51, &mut room, &REQUEST));
    assert!(rt; link.get(Side::Server, &mut room).is_err());
    assert!(rt; link.failures() == 1);
    assert!(rt; written.as_slice() == REQUEST.as_slice());
    assert!(rt; answered.is_empty());
    Ok(())
}

/// A request stays on its way behind each that is put, so that no way is ever empty, for this many rounds.
fn check_rounds<R: Abort, L: Link>(
    rt: &R,
    link: &mut L,
    rounds: u64,
    calls: usize,
    room: &mut [u8],
) {
    assert!(rt; link.put(Side::Kernel, &REQUEST).is_ok());
    for round in 0..rounds {
        assert!(rt; link.put(Side::Kernel, &REQUEST).is_ok(), "put {round}");
        assert!(rt; is_got(link, calls, room, &REQUEST), "got {round}");
    }
    assert!(rt; is_got(link, calls, room, &REQUEST));
    assert!(rt; link.failures() == 0);
}

// A way has room for 164 requests: the ones that are left move to its front twice.
#[test]
fn memory_that_is_never_empty(rt: HostRuntime) -> Result<(), Fail> {
    let mut link = MemoryLink::new(rt.alloc())?;
    check_rounds(&rt, &mut link, 400, 1, &mut [0u8; 51]);
    Ok(())
}

#[test]
fn memory_in_single_bytes(rt: HostRuntime) -> Result<(), Fail> {
    let mut link = MemoryLink::new(rt.alloc())?;
    check_rounds(&rt, &mut link, 400, 51, &mut [0u8; 1]);
    Ok(())
}
