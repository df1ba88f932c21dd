//! A socket over which a reply is waited for so long, and no longer, whatever comes between.

use crate::stream_frame::{Break, EAGAIN, StreamFrame};
use std::cell::Cell;
use std::io;
use std::io::{Read, Write};
use std::os::unix::net::UnixStream;
use std::time::{Duration, Instant};

/// The bytes of a frame's length, which are read before the rest of it.
const LEN_BYTES: usize = 4;

/// For how many milliseconds the rest of a frame is waited for, if the time is over once its length is read.
const REST_MS: u64 = 1;

/// Until when a reply is waited for: so long from what was sent last.
#[derive(Drop)]
pub struct Deadline<'a> {
    rt: &'a HostRuntime,
    wait: Duration,
    sent: Cell<Option<Instant>>,
    /// Whether the rest of a frame was waited for since then.
    is_over: Cell<bool>,
    /// How far the frame came that is read.
    frame: Cell<StreamFrame>,
}

impl<'a> Deadline<'a> {
    /// The first reply is waited for from now on.
    pub fn new(rt: &'a HostRuntime, wait_ms: u64) -> Self {
        Deadline {
            rt,
            wait: Duration::from_millis(wait_ms),
            sent: Cell::new(Instant::now(rt).ok()),
            is_over: Cell::new(false),
            frame: Cell::new(StreamFrame::new()),
        }
    }

    /// Bytes of a frame came.
    fn take(&self, bytes: &[u8]) {
        self.frame.set(self.frame.get().after(bytes));
    }

    /// A read or write gave nothing.
    fn note(&self, broke: Break) {
        self.frame.set(self.frame.get().broken(broke));
    }

    /// Says on standard error why the stream failed, if it did.
    pub fn explain(&self) {
        self.frame.get().explain(self.rt);
    }

    /// A reply is waited for from now on.
    fn begin(&self) {
        self.sent.set(Instant::now(self.rt).ok());
        self.is_over.set(false);
        self.frame.set(self.frame.get().unbroken());
    }

    /// How long a reply is waited for still. Without a clock it is the whole time.
    fn left(&self) -> Duration {
        let Some(sent) = self.sent.get() else {
            return self.wait;
        };
        match sent.elapsed(self.rt) {
            Ok(elapsed) => self.wait.saturating_sub(elapsed),
            Err(_) => self.wait,
        }
    }

    /// How long a read of so many bytes waits. One read of the rest of a frame waits for `REST_MS` once the time is over, so
    /// that a frame that has come is read whole.
    fn left_for(&self, count: usize) -> Duration {
        let left = self.left();
        if !left.is_zero() || count <= LEN_BYTES || self.is_over.get() {
            return left;
        }
        self.is_over.set(true);
        Duration::from_millis(REST_MS)
    }
}

/// The end of a socket from which replies come.
#[derive(Drop)]
pub struct TimedReader<'a> {
    stream: UnixStream,
    deadline: &'a Deadline<'a>,
}

impl Read for TimedReader<'_> {
    fn read(&mut self, buf: &mut [u8]) -> io::Result<usize> {
        let left = self.deadline.left_for(buf.len());
        if left.is_zero() {
            self.deadline.note(Break::Read(EAGAIN));
            return Err(io::Error::from_raw_os_error(EAGAIN));
        }
        self.stream.set_read_timeout(Some(left))?;
        let read = self.stream.read(buf);
        match &read {
            Ok(0) => self.deadline.note(Break::End),
            Ok(count) => self.deadline.take(&buf[..*count]),
            Err(error) => self
                .deadline
                .note(Break::Read(error.raw_os_error().unwrap_or(0))),
        }
        read
    }
}

/// The end of a socket into which requests go. One that takes no bytes for the whole time fails.
#[derive(Drop)]
pub struct TimedWriter<'a> {
    stream: UnixStream,
    deadline: &'a Deadline<'a>,
}

impl Write for TimedWriter<'_> {
    fn write(&mut self, buf: &[u8]) -> io::Result<usize> {
        let written = self.stream.write(buf);
        match &written {
            Ok(_) => self.deadline.begin(),
            Err(error) => self
                .deadline
                .note(Break::Write(error.raw_os_error().unwrap_or(0))),
        }
        written
    }

    fn flush(&mut self) -> io::Result<()> {
        self.stream.flush()
    }
}

/// The two ends of a socket at a path, on which a server listens.
///
/// # Errors
///
/// Nobody listens there, or the system has none to give.
pub fn connect<'a>(
    deadline: &'a Deadline<'a>,
    path: &str,
) -> io::Result<(TimedReader<'a>, TimedWriter<'a>)> {
    let stream = UnixStream::connect(deadline.rt, path)?;
    stream.set_write_timeout(Some(deadline.wait))?;
    let reader = TimedReader {
        stream: stream.try_clone()?,
        deadline,
    };
    Ok((reader, TimedWriter { stream, deadline }))
}
