//! Replies to INIT that agree on 7.12 to 7.30.

ghost use Rattle.std.specs.Prelude.{◌≡◌, ◌≤◌, ◌<◌, ◌↔◌, IsTrue};
ghost use Rattle.fk_wire.specs.Fields.{number_at};
ghost use Rattle.fk_drive_frames.specs.Agreements.{IsAgreement, IsOlderAgreement, raised};

use fk_fields::{u32_at, u64_at};

/// The bytes of a reply to INIT from 7.23 on (`struct fuse_out_header` and `struct fuse_init_out`), and before.
const AGREEMENT: usize = 80;

const SHORT_AGREEMENT: usize = 40;

/// Whether a frame of this many bytes agrees on a minor version among these.
fn is_agreement(frame: &[u8], size: u32, least: u32, most: u32) -> bool
    requires { 24 ≤ size }
    ensures { IsTrue result ↔ IsAgreement size least most frame.now }
{
    frame.len() == size as usize
        && u32_at(frame, 0) == size
        && u32_at(frame, 4) == 0
        && u64_at(frame, 8) == 2
        && u32_at(frame, 16) == 7
        && u32_at(frame, 20) >= least
        && u32_at(frame, 20) <= most
}

/// Whether a frame agrees on 7.12 to 7.14, or 7.16 to 7.30.
pub fn is_older_agreement(frame: &[u8]) -> bool
    ensures { IsTrue result ↔ IsOlderAgreement frame.now }
{
    is_agreement(frame, 80, 23, 30)
        || is_agreement(frame, 40, 16, 22)
        || is_agreement(frame, 40, 12, 14)
}

/// Whether an older agreement is on a minor version before 7.15.
pub fn is_before_15(frame: &[u8]) -> bool
    requires { IsOlderAgreement frame.now }
    ensures { IsTrue result ↔ (number_at 20 4 frame.now < 15) }
{
    u32_at(frame, 20) < 15
}

/// An agreement on 7.12 to 7.14 as one on 7.15.
pub fn raised_to_15(frame: &[u8]) -> [u8; 40]
    requires agreement { IsOlderAgreement frame.now }
    requires before { number_at 20 4 frame.now < 15 }
    ensures { result ≡ raised frame.now }
{
    let mut agreement = [0; SHORT_AGREEMENT];
    agreement[..frame.len()].copy_from_slice(frame);
    agreement[0] = 40;
    agreement[20] = 15;
    agreement
}

/// An agreement on 7.16 to 7.30 as one on 7.31.
pub fn raised_to_31(frame: &[u8]) -> [u8; 80]
    requires agreement { IsOlderAgreement frame.now }
    requires later { 15 ≤ number_at 20 4 frame.now }
    ensures { result ≡ raised frame.now }
{
    let mut agreement = [0; AGREEMENT];
    agreement[..frame.len()].copy_from_slice(frame);
    agreement[0] = 80;
    agreement[20] = 31;
    agreement
}
