//! INIT of later kernels.

ghost use Rattle.std.specs.Prelude.{◌≡◌, ◌↔◌, ◌<◌, IsTrue, length};
ghost use Rattle.fs_serve.specs.LongInits.{IsLongInit, first_init_of};

use fk_wire::{Opcode, read_request_head};

/// How many bytes an INIT of 7.31 has (`struct fuse_init_in` up to 7.35, behind its header).
const INIT_LEN: usize = 56;

/// Whether a frame is an INIT with more than 7.31 has: kernels of 7.36 and later send 104 bytes.
pub fn is_long_init(frame: &[u8]) -> bool
    ensures { IsTrue result ↔ IsLongInit frame.now }
{
    match read_request_head(frame) {
        Ok((code, _unique)) => code == Opcode::Init.code() && frame.len() > INIT_LEN,
        Err(_) => false,
    }
}

/// The INIT of 7.31 with which a longer one begins: its first 56 bytes, with 56 as their length (this project's rule).
pub fn init_in(frame: &[u8]) -> [u8; 56]
    requires { 56 < length frame.now }
    ensures { result ≡ first_init_of frame.now }
{
    let mut init = [0; INIT_LEN];
    init[0] = INIT_LEN as u8;
    init[4..].copy_from_slice(&frame[4..INIT_LEN]);
    init
}
