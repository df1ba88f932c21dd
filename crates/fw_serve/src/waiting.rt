//! Readers and writers of descriptors that may not block: where a call would have to wait, these wait.

ghost use Rattle.std.specs.Prelude.{◌≡◌, false, true, IfErr, OnOk};
ghost use Rattle.std.specs.Io.KnownBytes.{WriteAppends};
ghost use Rattle.std.specs.Io.{WritesAtMost};
ghost use Rattle.fw_serve.specs.Waits.{WouldNotWait};

use libc::net::{POLLIN, POLLOUT, poll};
use libc::types::pollfd;
use std::io::{Error, Read, Result, Write};

/// EAGAIN, the call would have to wait.
const EAGAIN: i32 = 11;

/// EIO.
const EIO: i32 = 5;

/// Waits until a descriptor is ready for this, without end, or until a signal comes.
fn wait_for(descriptor: i32, events: i16) {
    let mut asked = [pollfd {
        fd: descriptor,
        events,
        revents: 0,
    }];
    let _ready = poll(&mut asked, -1);
}

/// Whether a call would have had to wait.
fn would_wait(came: &Result<usize>) -> bool
    ensures waits { result ≡ true → OnOk came.now ⊥ }
    ensures other { result ≡ false → IfErr came.now WouldNotWait }
{
    match came {
        Ok(_) => false,
        Err(error) => error.raw_os_error().unwrap_or(0) == EAGAIN,
    }
}

/// A reader of a descriptor. A read that gives EAGAIN waits until the descriptor has something, and is then to be tried
/// again.
#[derive(Drop)]
pub struct WaitingReader<R: Read + Drop> {
    reader: R,
    descriptor: i32,
}

impl<R: Read + Drop> WaitingReader<R> {
    /// The reader of this descriptor.
    pub fn new(reader: R, descriptor: i32) -> Self
        ensures { (result.reader ≡ reader) × (result.descriptor ≡ descriptor) }
    {
        WaitingReader { reader, descriptor }
    }
}

impl<R: Read + Drop> Read for WaitingReader<R> {
    ghost remaining = { λ r. R.remaining r.reader };

    fn read(&mut self, room: &mut [u8]) -> Result<usize> {
        let came = self.reader.read(room);
        if would_wait(&came) {
            wait_for(self.descriptor, POLLIN);
        }
        came
    }
}

/// A writer of a descriptor. A write that gives EAGAIN waits until the descriptor has room, and is tried again.
#[derive(Drop)]
pub struct WaitingWriter<W: Write + Drop> {
    writer: W,
    descriptor: i32,
}

impl<W: Write + Drop> WaitingWriter<W> {
    /// The writer of this descriptor.
    pub fn new(writer: W, descriptor: i32) -> Self
        ensures { (result.writer ≡ writer) × (result.descriptor ≡ descriptor) }
    {
        WaitingWriter { writer, descriptor }
    }
}

impl<W: Write + Drop> Write for WaitingWriter<W> {
    ghost contents = { λ w. W.contents w.writer };

    fn write(&mut self, bytes: &[u8]) -> Result<usize>
        ensures bound { WritesAtMost result bytes.now }
        ensures bytes { WriteAppends (W.contents self.old.writer) (W.contents self.new.writer) result bytes.now }
        ensures waits { IfErr result WouldNotWait }
    {
        for _try in 0..u64::MAX {
            let taken = self.writer.write(bytes);
            if !would_wait(&taken) {
                return taken;
            }
            wait_for(self.descriptor, POLLOUT);
        }
        Err(Error::from_raw_os_error(EIO))
    }

    fn flush(&mut self) -> Result<()> {
        self.writer.flush()
    }
}
