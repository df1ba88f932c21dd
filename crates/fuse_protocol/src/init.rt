//! INIT, by which the two sides agree.

ghost use Rattle.std.specs.Prelude.{◌≡◌, ◌<◌, ◌^◌, IfOk, IfErr, IsOk};
ghost use Rattle.fuse_protocol.specs.Init.{init_request_at, init_reply_at, number_or_none, wide_flags as wide_flags_of};
ghost use Rattle.fuse_protocol.specs.Inits.{IsInit, InitFaultIs};

use crate::agreed::BEFORE_INIT;
use crate::fault::ShapeFault;
use crate::opcode::Opcode;
use crate::reading::read_request;
use crate::tail::u16_at;
use fk_fields::u32_at;

/// What the kernel offers: `struct fuse_init_in`.
#[derive(Clone, Copy, Debug, PartialEq, Eq)]
pub struct InitRequest {
    pub major: u32,
    pub minor: u32,
    pub max_readahead: u32,
    /// The fields `flags` and, 32 bits higher, `flags2`, which counts where `flags` has INIT_EXT.
    pub flags: u64,
}

/// What the server takes of it: `struct fuse_init_out`. Fields that a short reply lacks are 0.
#[derive(Clone, Copy, Debug, PartialEq, Eq)]
pub struct InitReply {
    pub major: u32,
    pub minor: u32,
    pub max_readahead: u32,
    /// The fields `flags` and, 32 bits higher, `flags2`, which counts where `flags` has INIT_EXT.
    pub flags: u64,
    /// How many bytes a WRITE has at most; Linux takes 4,096 where fewer are said.
    pub max_write: u32,
    /// How many pages a request has at most, where MAX_PAGES is agreed.
    pub max_pages: u16,
}

const INIT_EXT: u32 = 1 << 30;

/// The flags of both fields.
#[inline(always)]
fn wide_flags(flags: u32, flags2: u32) -> u64
    ensures { result ≡ wide_flags_of flags flags2 }
{
    if flags & INIT_EXT == 0 {
        u64::from(flags)
    } else {
        u64::from(flags) + (u64::from(flags2) << 32)
    }
}

/// The number in the four bytes at a place, or 0 where the bytes end before it does.
#[inline(always)]
fn u32_or_zero(bytes: &[u8], place: usize) -> u32
    requires { place < 2 ^ 62 }
    ensures { result ≡ number_or_none place 4 bytes.now }
{
    if bytes.len() < place + 4 {
        0
    } else {
        u32_at(bytes, place)
    }
}

/// The number in the two bytes at a place, or 0 where the bytes end before it does.
#[inline(always)]
fn u16_or_zero(bytes: &[u8], place: usize) -> u16
    requires { place < 2 ^ 62 }
    ensures { result ≡ number_or_none place 2 bytes.now }
{
    if bytes.len() < place + 2 {
        0
    } else {
        u16_at(bytes, place)
    }
}

impl InitReply {
    /// What the frame of a reply to INIT says. What the bytes do not have is 0.
    pub fn in_frame(bytes: &[u8]) -> InitReply
        ensures { result ≡ init_reply_at bytes.now }
    {
        InitReply {
            major: u32_or_zero(bytes, 16),
            minor: u32_or_zero(bytes, 20),
            max_readahead: u32_or_zero(bytes, 24),
            flags: wide_flags(u32_or_zero(bytes, 28), u32_or_zero(bytes, 48)),
            max_write: u32_or_zero(bytes, 36),
            max_pages: u16_or_zero(bytes, 44),
        }
    }
}

/// Reads the request of an INIT.
///
/// # Errors
///
/// The fault of the frame as a request, and `Opcode` where it is no INIT.
pub fn read_init(bytes: &[u8]) -> Result<InitRequest, ShapeFault>
    // What is read stands in a request of this shape.
    ensures ok { IfOk result (λ init. IsInit bytes.now × (init ≡ init_request_at bytes.now)) }
    // Each such request is read.
    ensures only { IsInit bytes.now → IsOk result }
    // Else the frame has a fault, or another opcode.
    ensures fault { IfErr result (InitFaultIs bytes.now) }
{
    let request = match read_request(BEFORE_INIT, bytes) {
        Ok(request) => request,
        Err(fault) => return Err(fault),
    };
    let Opcode::Init = request.head.opcode else {
        return Err(ShapeFault::Opcode);
    };
    Ok(InitRequest {
        major: u32_at(bytes, 40),
        minor: u32_at(bytes, 44),
        max_readahead: u32_at(bytes, 48),
        flags: wide_flags(u32_at(bytes, 52), u32_or_zero(bytes, 56)),
    })
}
