//! How far a frame came over a stream, which says why the stream failed.

ghost use Rattle.std.specs.Prelude.{◌≡◌, None, Some, if◌then◌else◌, nat_lt};

use std::io;

/// The bytes of a frame's length.
const LEN_BYTES: u64 = 4;

/// EAGAIN, by which a read or a write says that the time is over.
pub const EAGAIN: i32 = 11;

/// ENODEV, EPIPE, ECONNABORTED and ECONNRESET: the other side closed.
const ENODEV: i32 = 19;

const EPIPE: i32 = 32;

const ECONNABORTED: i32 = 103;

const ECONNRESET: i32 = 104;

/// How the last read or write ended that gave nothing.
#[derive(Clone, Copy, Debug, PartialEq, Eq)]
pub enum Break {
    /// The stream is at its end.
    End,
    /// A read failed with this error number.
    Read(i32),
    /// A write failed with this error number.
    Write(i32),
}

/// The frame that comes over a stream.
#[derive(Clone, Copy, Debug, PartialEq, Eq)]
pub struct StreamFrame {
    /// How many of its bytes came.
    came: u64,
    /// Its length, as far as that came.
    len: u64,
    /// How the last read or write ended, if it gave nothing.
    broke: Option<Break>,
}

impl StreamFrame {
    /// Nothing came yet.
    pub fn new() -> Self
        ensures { (result.came ≡ 0) × (result.len ≡ 0) × (result.broke ≡ None) }
    {
        StreamFrame {
            came: 0,
            len: 0,
            broke: None,
        }
    }

    /// The frame once these bytes of it came too. A whole one is followed by the next.
    pub fn after(self, bytes: &[u8]) -> Self {
        let mut frame = self;
        frame.broke = None;
        for byte in bytes {
            if frame.came < LEN_BYTES {
                frame.len |= u64::from(*byte).wrapping_shl(8 * frame.came as u32);
            }
            frame.came = frame.came.saturating_add(1);
        }
        if frame.came > LEN_BYTES && frame.came == frame.len {
            return StreamFrame::new();
        }
        frame
    }

    /// The frame once a read or write gave nothing.
    pub fn broken(self, broke: Break) -> Self
        ensures { (result.came ≡ self.came) × (result.len ≡ self.len) × (result.broke ≡ Some broke) }
    {
        StreamFrame {
            broke: Some(broke),
            ..self
        }
    }

    /// The frame once a write was taken.
    pub fn unbroken(self) -> Self
        ensures { (result.came ≡ self.came) × (result.len ≡ self.len) × (result.broke ≡ None) }
    {
        StreamFrame {
            broke: None,
            ..self
        }
    }

    /// How many bytes there are of its length, until that came, and else of it.
    fn whole(self) -> u64
        ensures { result ≡ (if nat_lt self.came 4 then 4 else self.len) }
    {
        if self.came < LEN_BYTES {
            LEN_BYTES
        } else {
            self.len
        }
    }

    /// What the bytes are of.
    fn of(self) -> &'static str {
        if self.came < LEN_BYTES {
            "a frame's length"
        } else {
            "a frame"
        }
    }

    /// Says on standard error why the stream failed, if it did.
    pub fn explain(self, rt: &HostRuntime) {
        match self.broke {
            None if self.came > 0 => {
                let _ = eprintln!(rt; "device failed: a frame of {} bytes", self.len);
            }
            Some(Break::Write(EAGAIN)) => {
                let _ = eprintln!(rt; "device failed: a request was not taken in time");
            }
            Some(Break::Write(number)) => explain_error(rt, number),
            Some(broke) if self.came > 0 => self.explain_part(rt, broke),
            Some(Break::Read(number)) if number != EAGAIN => explain_error(rt, number),
            _ => {}
        }
    }

    /// Says on standard error how much of a frame came, and why no more.
    fn explain_part(self, rt: &HostRuntime, broke: Break) {
        let (came, whole, of) = (self.came, self.whole(), self.of());
        match broke {
            Break::Read(EAGAIN) => {
                let _ = eprintln!(rt;
                    "device failed: {came} of {whole} bytes of {of} came in time"
                );
            }
            _ => {
                let _ = eprintln!(rt;
                    "device failed: the stream ended after {came} of {whole} bytes of {of}"
                );
            }
        }
    }
}

/// Whether an error number says that the other side closed.
fn is_closed(number: i32) -> bool {
    matches!(number, ENODEV | EPIPE | ECONNABORTED | ECONNRESET)
}

/// Says on standard error with what the system failed, where the other side did not close.
fn explain_error(rt: &HostRuntime, number: i32) {
    if is_closed(number) {
        return;
    }
    let error = io::Error::from_raw_os_error(number);
    let _ = eprintln!(rt; "device failed: {error}");
}
