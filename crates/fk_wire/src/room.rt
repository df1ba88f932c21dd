//! Fields at the end of a vector that has room for them.

ghost use Rattle.std.specs.Prelude.{◌≡◌, ◌≤◌, ◌<◌, ◌+◌, ◌++◌, ◌∷◌, [], length, vec_len, vec_capacity};
ghost use Rattle.fk_wire.specs.Fields.{bytes_of};

use byteorder::{ByteOrder, LittleEndian};
use std::alloc::Allocator;

pub(crate) fn put_bytes<A: Allocator>(out: &mut Vec<u8, A>, bytes: &[u8])
    requires { vec_len out.old + length bytes.now ≤ vec_capacity out.old }
    ensures items { out.new.items ≡ out.old.items ++ bytes.now }
    ensures len { vec_len out.new ≡ vec_len out.old + length bytes.now }
    ensures capacity { vec_capacity out.old ≤ vec_capacity out.new }
{
    out.extend_from_slice(bytes).unwrap();
}

#[tactic(auto, unfolding(fk_fields::specs::Fields::bytes_of))]
pub(crate) fn put_u32<A: Allocator>(out: &mut Vec<u8, A>, value: u32)
    requires { vec_len out.old + 4 ≤ vec_capacity out.old }
    ensures items { out.new.items ≡ out.old.items ++ bytes_of 4 value }
    ensures len { vec_len out.new ≡ vec_len out.old + 4 }
    ensures capacity { vec_capacity out.old ≤ vec_capacity out.new }
{
    let mut buf = [0u8; 4];
    LittleEndian::write_u32(&mut buf, value);
    put_bytes(out, &buf);
}

#[tactic(auto, unfolding(fk_fields::specs::Fields::bytes_of))]
pub(crate) fn put_u64<A: Allocator>(out: &mut Vec<u8, A>, value: u64)
    requires { vec_len out.old + 8 ≤ vec_capacity out.old }
    ensures items { out.new.items ≡ out.old.items ++ bytes_of 8 value }
    ensures len { vec_len out.new ≡ vec_len out.old + 8 }
    ensures capacity { vec_capacity out.old ≤ vec_capacity out.new }
{
    let mut buf = [0u8; 8];
    LittleEndian::write_u64(&mut buf, value);
    put_bytes(out, &buf);
}

/// Two numbers of four bytes, one after the other, in one write.
#[tactic(auto, unfolding(fk_fields::specs::Fields::bytes_of))]
pub(crate) fn put_two_u32<A: Allocator>(out: &mut Vec<u8, A>, first: u32, second: u32)
    requires { vec_len out.old + 8 ≤ vec_capacity out.old }
    ensures items { out.new.items ≡ out.old.items ++ (bytes_of 4 first ++ bytes_of 4 second) }
    ensures len { vec_len out.new ≡ vec_len out.old + 8 }
    ensures capacity { vec_capacity out.old ≤ vec_capacity out.new }
{
    let mut buf = [0u8; 8];
    LittleEndian::write_u32(&mut buf, first);
    LittleEndian::write_u32(&mut buf[4..], second);
    put_bytes(out, &buf);
}

/// Two numbers of eight bytes, one after the other, in one write.
#[tactic(auto, unfolding(fk_fields::specs::Fields::bytes_of))]
pub(crate) fn put_two_u64<A: Allocator>(out: &mut Vec<u8, A>, first: u64, second: u64)
    requires { vec_len out.old + 16 ≤ vec_capacity out.old }
    ensures items { out.new.items ≡ out.old.items ++ (bytes_of 8 first ++ bytes_of 8 second) }
    ensures len { vec_len out.new ≡ vec_len out.old + 16 }
    ensures capacity { vec_capacity out.old ≤ vec_capacity out.new }
{
    let mut buf = [0u8; 16];
    LittleEndian::write_u64(&mut buf, first);
    LittleEndian::write_u64(&mut buf[8..], second);
    put_bytes(out, &buf);
}

pub(crate) fn put_name<A: Allocator>(out: &mut Vec<u8, A>, name: &[u8])
    requires { vec_len out.old + (length name.now + 1) ≤ vec_capacity out.old }
    ensures items { out.new.items ≡ out.old.items ++ (name.now ++ 0 ∷ []) }
    ensures len { vec_len out.new ≡ vec_len out.old + (length name.now + 1) }
    ensures capacity { vec_capacity out.old ≤ vec_capacity out.new }
{
    put_bytes(out, name);
    put_bytes(out, &[0]);
}

#[tactic(auto, unfolding(fk_fields::specs::Fields::bytes_of))]
pub(crate) fn put_zeros88<A: Allocator>(out: &mut Vec<u8, A>)
    requires { vec_len out.old + 88 ≤ vec_capacity out.old }
    ensures items { out.new.items ≡ out.old.items ++ bytes_of 88 0 }
    ensures len { vec_len out.new ≡ vec_len out.old + 88 }
    ensures capacity { vec_capacity out.old ≤ vec_capacity out.new }
{
    put_bytes(out, &[0; 88]);
}

/// Fewer than eight zeros.
#[tactic(auto, using(crate::proofs::RecordLists::few_zeros))]
pub(crate) fn put_zeros<A: Allocator>(out: &mut Vec<u8, A>, count: usize)
    requires few { count < 8 }
    requires room { vec_len out.old + count ≤ vec_capacity out.old }
    ensures items { out.new.items ≡ out.old.items ++ bytes_of count 0 }
    ensures len { vec_len out.new ≡ vec_len out.old + count }
    ensures capacity { vec_capacity out.old ≤ vec_capacity out.new }
{
    let zeros = [0u8; 8];
    put_bytes(out, &zeros[..count]);
}
