//! A capture, transfer after transfer.

ghost use Rattle.std.specs.Prelude.{◌≡◌};

use crate::frames::{write_answered, write_unread};
use crate::totals::Totals;
use frame_words::write_request_frame;
use fuse_capture::CaptureFault;
use fuse_judge::SessionJudge;
use fuse_protocol::Unjudged;
use fuse_sessions::{Act, Fault, Taken, Transfer};
use fuse_text::Stop;
use fw_check::{fault_words, party_word, unjudged_words};
use std::alloc::{AllocError, Allocator};
use std::io;
use std::io::Write;

/// What was written, or that the output refused.
pub(crate) fn taken(written: io::Result<()>) -> Result<(), Stop<CaptureFault>> {
    match written {
        Ok(()) => Ok(()),
        Err(_) => Err(Stop::OutputRefused),
    }
}

/// A capture so far: what the judge has seen of it, and what it comes to.
#[derive(Drop)]
pub struct Decoding<A: Allocator + Copy> {
    judge: SessionJudge<A>,
    totals: Totals<A>,
    acts: Vec<Act, A>,
    verdicts: Vec<Option<Fault>, A>,
}

/// Writes what the device made of a frame that it did not take.
fn write_taken<W: Write>(out: &mut W, taken: Taken) -> io::Result<()> {
    match taken {
        Taken::Accepted => Ok(()),
        Taken::NoEntry => out.write_all(b"; refused ENOENT"),
        Taken::Invalid => out.write_all(b"; refused EINVAL"),
        Taken::Failed => out.write_all(b"; refused"),
    }
}

/// Writes each fault.
fn write_verdicts<W: Write>(out: &mut W, verdicts: &[Option<Fault>]) -> io::Result<()> {
    for verdict in verdicts {
        if let Some(fault) = *verdict {
            let party = party_word(fault.party());
            let words = fault_words(fault);
            write!(out, "; {party}: {words}")?;
        }
    }
    Ok(())
}

/// Writes why nothing is judged any more, where that is known from a transfer on.
fn write_leaving<W: Write>(
    out: &mut W,
    before: Option<Unjudged>,
    after: Option<Unjudged>,
) -> io::Result<()> {
    match (before, after) {
        (None, Some(why)) => {
            let words = unjudged_words(why);
            write!(out, "; not judged from here on: {words}")
        }
        _ => Ok(()),
    }
}

impl<A: Allocator + Copy> Decoding<A> {
    /// Of nothing.
    pub fn new(alloc: A) -> Self {
        Decoding {
            judge: SessionJudge::new(alloc),
            totals: Totals::new(alloc),
            acts: Vec::new(alloc),
            verdicts: Vec::new(alloc),
        }
    }

    /// Writes a request: its head alone, where INIT agreed on frames that cannot be read.
    fn write_request<W: Write>(&self, bytes: &[u8], out: &mut W) -> io::Result<()> {
        match self.judge.unjudged() {
            Some(_) => write_unread(out, bytes),
            None => write_request_frame(out, self.judge.agreed(), bytes),
        }
    }

    /// Writes a transfer in words, without what the judge says of it. Nothing is noted.
    ///
    /// # Errors
    ///
    /// What `out` refuses.
    pub fn write_transfer<W: Write>(&self, transfer: Transfer<'_>, out: &mut W) -> io::Result<()> {
        match transfer {
            Transfer::Request(bytes) => {
                out.write_all(b"> ")?;
                self.write_request(bytes, out)
            }
            Transfer::Written(bytes, taken) => {
                out.write_all(b"< ")?;
                write_answered(out, &self.judge, bytes)?;
                write_taken(out, taken)
            }
            Transfer::SeveralReaders => out.write_all(b"= several readers"),
            Transfer::SeveralWriters => out.write_all(b"= several writers"),
            Transfer::Ended => out.write_all(b"= ended"),
        }
    }

    /// The judge sees the next transfer: its acts, and their faults.
    ///
    /// # Errors
    ///
    /// Out of memory.
    pub fn see(&mut self, transfer: Transfer<'_>) -> Result<(), AllocError> {
        self.judge.see(transfer, &mut self.acts, &mut self.verdicts)
    }

    /// The acts of the transfer that was seen last.
    pub fn acts(&self) -> &[Act]
        ensures { result.now ≡ self.now.acts.items }
    {
        self.acts.as_slice()
    }

    /// The fault of each of these acts, or `None`.
    pub fn verdicts(&self) -> &[Option<Fault>]
        ensures { result.now ≡ self.now.verdicts.items }
    {
        self.verdicts.as_slice()
    }

    /// Writes the line of the next transfer, and notes it.
    pub(crate) fn decode<W: Write>(
        &mut self,
        transfer: Transfer<'_>,
        is_cut: bool,
        out: &mut W,
    ) -> Result<(), Stop<CaptureFault>> {
        taken(self.write_transfer(transfer, out))?;
        let before = self.judge.unjudged();
        self.see(transfer).map_err(|_| Stop::NoMemory)?;
        taken(write_verdicts(out, self.verdicts.as_slice()))?;
        taken(write_leaving(out, before, self.judge.unjudged()))?;
        taken(out.write_all(b"\n"))?;
        self.totals.count(transfer, is_cut);
        for act in &self.acts {
            self.totals.note(*act).map_err(|_| Stop::NoMemory)?;
        }
        Ok(())
    }

    /// Writes the line of the next transfer, and hands it on. What the output refuses is lost; where memory runs out, what
    /// is said later is of the transfers before.
    pub fn print<W: Write>(&mut self, transfer: Transfer<'_>, out: &mut W) {
        let _ = self.decode(transfer, false, out);
        let _ = out.flush();
    }

    /// The same of a transfer that is seen where the judge would accuse wrongly: behind what it says the line has a remark
    /// in place of its faults.
    pub fn print_unjudged<W: Write>(&mut self, transfer: Transfer<'_>, remark: &str, out: &mut W) {
        let _ = self.write_transfer(transfer, out);
        let _ = writeln!(out, "{remark}");
        let _ = out.flush();
        let _ = self.see(transfer);
    }

    /// Writes the last line.
    pub(crate) fn write_end<W: Write>(&self, out: &mut W) -> Result<(), Stop<CaptureFault>> {
        taken(self.totals.write_end(out))
    }
}
