//! BATCH_FORGET of more than the 64 pairs that one has here.

ghost use Rattle.std.specs.Prelude.{◌≡◌, ◌+◌, ◌*◌, ◌↔◌, ◌<◌, ◌≤◌, IsTrue, drop, length};
ghost use Rattle.byteorder.specs.Endian.{little_bytes};
ghost use Rattle.fk_wire.specs.Fields.{number_at};
ghost use Rattle.fs_serve.specs.LongBatches.{IsLongBatch, part_of};

use arrayvec::ArrayVec;
use byteorder::{ByteOrder, LittleEndian};
use fk_wire::{Opcode, read_request_head};

/// The bytes before the pairs (`struct fuse_in_header` and `struct fuse_batch_forget_in`).
const HEAD: usize = 48;

/// The bytes of 64 pairs (`struct fuse_forget_one`), the most of one BATCH_FORGET (this project's rule).
pub(crate) const PAIRS: usize = 1024;

/// The bytes of a BATCH_FORGET of 64 pairs.
const LONGEST: usize = 1072;

/// The length of a BATCH_FORGET of as many pairs as a frame counts.
fn counted_len(frame: &[u8]) -> u64
    requires { 44 ≤ length frame.now }
    ensures { result ≡ 48 + 16 * number_at 40 4 frame.now }
{
    48 + 16 * u64::from(LittleEndian::read_u32(&frame[40..]))
}

/// Whether a frame is a BATCH_FORGET of more than 64 pairs, as many as it counts.
pub fn is_long_batch(frame: &[u8]) -> bool
    ensures { IsTrue result ↔ IsLongBatch frame.now }
{
    match read_request_head(frame) {
        Ok((code, _unique)) => {
            code == Opcode::BatchForget.code()
                && frame.len() > LONGEST
                && counted_len(frame) == frame.len() as u64
        }
        Err(_) => false,
    }
}

/// The bytes of a BATCH_FORGET's pairs.
pub(crate) fn pairs_in(frame: &[u8]) -> &[u8]
    requires { IsLongBatch frame.now }
    ensures { result.now ≡ drop 48 frame.now }
{
    &frame[HEAD..]
}

/// A number as a field of a frame.
fn field_of(number: u32) -> [u8; 4]
    ensures { result ≡ little_bytes 4 number }
{
    let mut field = [0; 4];
    LittleEndian::write_u32(&mut field, number);
    field
}

/// Puts the BATCH_FORGET of some of the pairs in the place of what was there.
pub(crate) fn put_part(part: &mut ArrayVec<u8, LONGEST>, frame: &[u8], pairs: &[u8])
    requires long { 1072 < length frame.now }
    requires few { length pairs.now ≤ 1024 }
    ensures { part.new.items ≡ part_of frame.now pairs.now }
{
    let len = field_of((HEAD + pairs.len()) as u32);
    let count = field_of((pairs.len() / 16) as u32);
    part.clear();
    part.try_extend_from_slice(&len).unwrap();
    part.try_extend_from_slice(&frame[4..40]).unwrap();
    part.try_extend_from_slice(&count).unwrap();
    part.try_extend_from_slice(&frame[44..HEAD]).unwrap();
    part.try_extend_from_slice(pairs).unwrap();
}
