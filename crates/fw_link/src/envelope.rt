//! What travels on a link.

ghost use Rattle.std.specs.Prelude.{◌≡◌, ◌+◌, ◌≤◌, ◌++◌, length, vec_len, vec_capacity, OnOk, OnErr, IsOk};
ghost use Rattle.fw_link.specs.Envelopes.{envelope_spelling};

use byteorder::{ByteOrder, LittleEndian};
use std::alloc::{AllocError, Allocator};

/// The most bytes of an envelope.
pub const LONGEST: usize = 4185;

/// One frame, with what it is.
#[derive(Clone, Copy, Debug, PartialEq, Eq)]
pub struct Envelope<'a> {
    /// 0 for a request, 1 for a reply, 2 for a result.
    pub kind: u8,
    /// Which copy of a reply it is about, 0 for a request.
    pub copy: u64,
    /// The frame, whose first four bytes are its length.
    pub frame: &'a [u8],
}

/// Adds the bytes of an envelope: its kind, its copy number in eight bytes from the lowest on, and its frame.
///
/// # Errors
///
/// Where the vector can't grow; it is then as it was.
#[tactic(auto, unfolding(crate::specs::Envelopes::copy_bytes))]
pub fn put_envelope<A: Allocator>(
    out: &mut Vec<u8, A>,
    envelope: &Envelope<'_>,
) -> Result<(), AllocError>
    requires small { length envelope.now.frame.now ≤ 4176 }
    ensures ok { OnOk result (out.new.items
        ≡ out.old.items ++ envelope_spelling envelope.now.kind envelope.now.copy envelope.now.frame.now) }
    ensures err { OnErr result (out.new.items ≡ out.old.items) }
    ensures capacity { vec_capacity out.old ≤ vec_capacity out.new }
    ensures succeeds { vec_len out.old + (9 + length envelope.now.frame.now) ≤ vec_capacity out.old → IsOk result }
{
    out.reserve(9 + envelope.frame.len())?;
    let mut copy = [0; 8];
    LittleEndian::write_u64(&mut copy, envelope.copy);
    out.push_reserved(envelope.kind);
    out.extend_from_slice(&copy).unwrap();
    out.extend_from_slice(envelope.frame).unwrap();
    Ok(())
}
