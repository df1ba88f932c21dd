//! Whether the device is to accept the body of a reply.

ghost use Rattle.std.specs.Prelude.{◌≡◌, ◌≤◌, length};
ghost use Rattle.fuse_protocol.specs.Table.{row_at};
ghost use Rattle.fuse_protocol.specs.declared.agreed.Agreed.{Agreed};
ghost use Rattle.fuse_replies.specs.Replies.{IsReply, ReplyMessage};
ghost use Rattle.fuse_sessions.specs.Fits as words;

use fk_fields::u32_at;
use fuse_protocol::{Opcode, ReplyShape};
use fuse_sessions::Fit;

/// A body that fits, or does not.
fn fits_if(fits: bool) -> Fit
    ensures { result ≡ words.fits_if fits }
{
    if fits { Fit::Fits } else { Fit::FitsNot }
}

/// A body that fits, or may.
fn may_unless(fits: bool) -> Fit
    ensures { result ≡ words.may_unless fits }
{
    if fits { Fit::Fits } else { Fit::MayFit }
}

/// A body of so many bytes behind no error, where so many were asked for.
fn fit_of(shape: ReplyShape, asked: u32, size: usize) -> Fit
    ensures { result ≡ words.fit_of shape asked size }
{
    match shape {
        ReplyShape::None => Fit::MayFit,
        ReplyShape::Empty => fits_if(size == 0),
        ReplyShape::Entry => fits_if(size == 128),
        ReplyShape::Attributes => fits_if(size == 104),
        ReplyShape::Open => fits_if(size == 16),
        ReplyShape::EntryAndOpen => fits_if(size == 144),
        ReplyShape::Number(_) => fits_if(size == 8),
        ReplyShape::Fixed(count) => fits_if(size == count),
        ReplyShape::Sized(_) if asked == 0 => fits_if(size == 8),
        ReplyShape::AtMost(_)
        | ReplyShape::Records(_)
        | ReplyShape::EntryRecords(_)
        | ReplyShape::Sized(_) => { fits_if(size <= asked as usize) }
        ReplyShape::Target => may_unless(size < 4096),
        ReplyShape::Ioctl if size < 16 => Fit::FitsNot,
        ReplyShape::Ioctl => may_unless(size <= 4112),
        ReplyShape::Init => fits_if(size <= 64),
    }
}

/// Whether the device is to accept the body of a reply's frame, where so many bytes were asked for.
pub(crate) fn fit_in(shape: ReplyShape, asked: u32, bytes: &[u8]) -> Fit
    requires { 16 ≤ length bytes.now }
    ensures { result ≡ words.fit_in shape asked bytes.now }
{
    if u32_at(bytes, 4) == 0 {
        fit_of(shape, asked, bytes.len() - 16)
    } else {
        fits_if(bytes.len() == 16)
    }
}

/// Whether the device is to accept a body that was read as a reply to a request of an opcode. The reading judged its size;
/// only of IOCTL it takes more bytes than the device may.
#[inline(always)]
pub(crate) fn fit_of_reply(opcode: Opcode, asked: u32, bytes: &[u8]) -> Fit
    requires { (agreed : Agreed) × (r : ReplyMessage) × IsReply agreed (row_at opcode).reply asked bytes.now r }
    ensures { result ≡ words.fit_in (row_at opcode).reply asked bytes.now }
{
    match opcode {
        Opcode::Ioctl => fit_in(ReplyShape::Ioctl, asked, bytes),
        _ => Fit::Fits,
    }
}

/// Whether the device is to accept what is no reply to its request.
pub(crate) fn fit_of_another(fit: Fit) -> Fit
    ensures { result ≡ words.fit_of_another fit }
{
    match fit {
        Fit::Fits => Fit::MayFit,
        other => other,
    }
}
