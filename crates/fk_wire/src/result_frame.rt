//! The frames that say what became of a reply. This project's own: FUSE has none.

ghost use Rattle.std.specs.Prelude.{◌≡◌, ◌≢◌, ◌≤◌, ◌+◌, ◌++◌, ℕ, ℤ, length, OnOk, OnErr};
ghost use Rattle.std.specs.Prelude.{IfOk, IfErr, IsOkAnd, vec_len, vec_capacity};
ghost use Rattle.fk_wire.specs.Fields.{spellings};
ghost use Rattle.fk_wire.specs.Replies.{IsErrorNumber};
ghost use Rattle.fk_wire.specs.Results.{SpellsResult, ResultFaultIs, ResultRefusalIs, result_fields};
ghost use Rattle.fk_wire.specs.declared.fault.WireFault.TheVariants.{Memory as MemoryFault};

use crate::fault::WireFault;
use crate::limits::is_error_number;
use crate::room::{put_u32, put_u64};
use crate::writing_reply::error_word;
use fk_fields::{i32_at, u32_at, u64_at};
use std::alloc::Allocator;

/// Reads the frame of a result, 16 bytes like a `struct fuse_out_header`: the result, 0 or a negated
/// error number down to -511, and the unique number of the reply that it is about.
///
/// # Errors
///
/// The first of `Short`, `Length`, `ErrorRange` and `Body` that applies.
#[tactic(auto, using(crate::proofs::OneReply::one_result))]
pub fn read_result(bytes: &[u8]) -> Result<(i32, u64), WireFault>
    ensures ok { IfOk result (λ r. SpellsResult bytes.now r.0 r.1) }
    ensures only { (z : ℤ) (unique : ℕ) → SpellsResult bytes.now z unique
        → IsOkAnd result (λ r. (r.0 ≡ z) × (r.1 ≡ unique)) }
    ensures fault { IfErr result (ResultFaultIs bytes.now) }
{
    if bytes.len() < 16 {
        return Err(WireFault::Short);
    }
    if u32_at(bytes, 0) as usize != bytes.len() {
        return Err(WireFault::Length);
    }
    let error = i32_at(bytes, 4);
    if !is_error_number(error) {
        return Err(WireFault::ErrorRange);
    }
    if bytes.len() != 16 {
        return Err(WireFault::Body);
    }
    Ok((error, u64_at(bytes, 8)))
}

/// Appends the frame of a result.
///
/// # Errors
///
/// `ErrorRange` where the result is no error number; then `Memory`. The vector is as before.
#[tactic(auto, using(std::proofs::Common::append_assoc))]
pub fn write_result<A: Allocator>(
    out: &mut Vec<u8, A>,
    error: i32,
    unique: u64,
) -> Result<(), WireFault>
    ensures ok { OnOk result (IsErrorNumber error × (out.new.items ≡ out.old.items
        ++ spellings (result_fields error unique))) }
    ensures err { OnErr result (out.new.items ≡ out.old.items) }
    ensures fault { IfErr result (ResultRefusalIs error) }
    ensures room { vec_len out.old + 16 ≤ vec_capacity out.old → result ≢ Err MemoryFault }
    ensures capacity { vec_capacity out.old ≤ vec_capacity out.new }
{
    if !is_error_number(error) {
        return Err(WireFault::ErrorRange);
    }
    out.reserve(16).map_err(|_| WireFault::Memory)?;
    put_u32(out, 16);
    put_u32(out, error_word(error));
    put_u64(out, unique);
    Ok(())
}
