//! The frame that a line begins with, by its words.

ghost use Rattle.std.specs.Prelude.{◌≡◌, MatchResult, IsTrue, ◌↔◌, ◌≤◌, ◌+◌, ◌/◌, length, option_copied};
ghost use Rattle.fuse_capture.specs.Lines.{longest_frame};
ghost use Rattle.fuse_capture.specs.Readings.{FrameFaultIs, KeptFaultIs, ReadsFrame, ReadsKept};
ghost use Rattle.fuse_text.specs.Words.{words_left};

use crate::hex_word::is_hex_word;
use crate::line::{CaptureFault, CapturedFrame};
use crate::number::take_marked;
use crate::parts::next_word;

/// The longest frame.
const LONGEST: u64 = 1 << 24;

/// Whether a frame is no longer than the longest.
fn is_short(hex: &[u8], more: u64) -> bool
    ensures { IsTrue result ↔ (length hex.now / 2 + more ≤ longest_frame) }
{
    let kept = (hex.len() / 2) as u64;
    kept <= LONGEST && more <= LONGEST - kept
}

/// The hex that the rest of a line begins with, how many bytes more its frame had, and what is left after that.
fn read_kept(rest: Option<&[u8]>) -> Result<(&[u8], u64, Option<&[u8]>), CaptureFault>
    ensures { let words = words_left (option_copied rest.entry) in MatchResult result
        (λ kept. ReadsKept words kept.0.now kept.1 (words_left (option_copied kept.2)))
        (KeptFaultIs words) }
{
    let Some((hex, later)) = next_word(rest) else {
        return Err(CaptureFault::WrongWords);
    };
    if !is_hex_word(hex) {
        return Err(CaptureFault::BadHex);
    }
    let (more, left) = take_marked(b'+', later);
    let more = more.unwrap_or(0);
    if !is_short(hex, more) {
        return Err(CaptureFault::WrongWords);
    }
    Ok((hex, more, left))
}

/// The frame that the rest of a line begins with, and what is left after it.
pub(crate) fn read_frame(
    rest: Option<&[u8]>,
) -> Result<(CapturedFrame<'_>, Option<&[u8]>), CaptureFault>
    ensures { let words = words_left (option_copied rest.entry) in MatchResult result
        (λ read. ReadsFrame words read.0 (words_left (option_copied read.1)))
        (FrameFaultIs words) }
{
    let (time, later) = take_marked(b'@', rest);
    match read_kept(later) {
        Ok((hex, more, left)) => Ok((CapturedFrame { time, hex, more }, left)),
        Err(fault) => Err(fault),
    }
}
