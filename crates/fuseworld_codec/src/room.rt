//! Fields at a place of a buffer that has room for them. Each call answers with the place behind them.

ghost use Rattle.std.specs.Prelude.{◌≡◌, ◌≤◌, ◌<◌, ◌+◌, ◌++◌, ◌∷◌, [], length, take};
ghost use Rattle.fk_wire.specs.Fields.{bytes_of};

use byteorder::{ByteOrder, LittleEndian};

#[tactic(auto, using(crate::proofs::Buffers::filled))]
pub(crate) fn put_bytes(out: &mut [u8], place: usize, bytes: &[u8]) -> usize
    requires { place + length bytes.now ≤ length out.old }
    ensures items { take result out.new ≡ take place out.old ++ bytes.now }
    ensures place { result ≡ place + length bytes.now }
    ensures len { length out.new ≡ length out.old }
{
    let end = place + bytes.len();
    out[place..end].copy_from_slice(bytes);
    end
}

#[tactic(auto, unfolding(fk_fields::specs::Fields::bytes_of))]
pub(crate) fn put_u32(out: &mut [u8], place: usize, value: u32) -> usize
    requires { place + 4 ≤ length out.old }
    ensures items { take result out.new ≡ take place out.old ++ bytes_of 4 value }
    ensures place { result ≡ place + 4 }
    ensures len { length out.new ≡ length out.old }
{
    let mut buf = [0u8; 4];
    LittleEndian::write_u32(&mut buf, value);
    put_bytes(out, place, &buf)
}

#[tactic(auto, unfolding(fk_fields::specs::Fields::bytes_of))]
pub(crate) fn put_u64(out: &mut [u8], place: usize, value: u64) -> usize
    requires { place + 8 ≤ length out.old }
    ensures items { take result out.new ≡ take place out.old ++ bytes_of 8 value }
    ensures place { result ≡ place + 8 }
    ensures len { length out.new ≡ length out.old }
{
    let mut buf = [0u8; 8];
    LittleEndian::write_u64(&mut buf, value);
    put_bytes(out, place, &buf)
}

/// Two numbers of four bytes, one after the other.
#[tactic(auto, using(std::proofs::Common::append_assoc))]
pub(crate) fn put_two_u32(out: &mut [u8], place: usize, first: u32, second: u32) -> usize
    requires { place + 8 ≤ length out.old }
    ensures items { take result out.new ≡ take place out.old ++ (bytes_of 4 first ++ bytes_of 4 second) }
    ensures place { result ≡ place + 8 }
    ensures len { length out.new ≡ length out.old }
{
    let place = put_u32(out, place, first);
    put_u32(out, place, second)
}

/// Two numbers of eight bytes, one after the other.
#[tactic(auto, using(std::proofs::Common::append_assoc))]
pub(crate) fn put_two_u64(out: &mut [u8], place: usize, first: u64, second: u64) -> usize
    requires { place + 16 ≤ length out.old }
    ensures items { take result out.new ≡ take place out.old ++ (bytes_of 8 first ++ bytes_of 8 second) }
    ensures place { result ≡ place + 16 }
    ensures len { length out.new ≡ length out.old }
{
    let place = put_u64(out, place, first);
    put_u64(out, place, second)
}

/// A name, and the NUL byte behind it.
#[tactic(auto, using(std::proofs::Common::append_assoc))]
pub(crate) fn put_name(out: &mut [u8], place: usize, name: &[u8]) -> usize
    requires { place + (length name.now + 1) ≤ length out.old }
    ensures items { take result out.new ≡ take place out.old ++ (name.now ++ 0 ∷ []) }
    ensures place { result ≡ place + (length name.now + 1) }
    ensures len { length out.new ≡ length out.old }
{
    let place = put_bytes(out, place, name);
    put_bytes(out, place, &[0])
}

#[tactic(auto, unfolding(fk_fields::specs::Fields::bytes_of))]
pub(crate) fn put_zeros88(out: &mut [u8], place: usize) -> usize
    requires { place + 88 ≤ length out.old }
    ensures items { take result out.new ≡ take place out.old ++ bytes_of 88 0 }
    ensures place { result ≡ place + 88 }
    ensures len { length out.new ≡ length out.old }
{
    put_bytes(out, place, &[0; 88])
}

/// Fewer than eight zeros.
#[tactic(auto, using(fk_wire::proofs::RecordLists::few_zeros))]
pub(crate) fn put_zeros(out: &mut [u8], place: usize, count: usize) -> usize
    requires few { count < 8 }
    requires room { place + count ≤ length out.old }
    ensures items { take result out.new ≡ take place out.old ++ bytes_of count 0 }
    ensures place { result ≡ place + count }
    ensures len { length out.new ≡ length out.old }
{
    let zeros = [0u8; 8];
    put_bytes(out, place, &zeros[..count])
}
