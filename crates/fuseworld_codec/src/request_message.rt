//! The request that a struct of a C caller says.

ghost use Rattle.std.specs.Prelude.{◌≡◌, ◌≢◌, ◌≤◌, ◌<◌, ◌+◌, ◌↔◌, List, ℕ, length};
ghost use Rattle.std.specs.Prelude.{IfOk, IfErr, Err, IsTrue, MatchOption, false};
ghost use Rattle.fk_wire.specs.Fields.{bytes_at, ReadsAs};
ghost use Rattle.fk_wire.specs.Opcodes.{code_of};
ghost use Rattle.fk_wire.specs.Pairs.{forget_ones, pairs_in};
ghost use Rattle.fk_wire.specs.Requests.{RequestContent, RequestMessage, opcode_of, request_content, request_message};
ghost use Rattle.fk_wire.specs.declared.opcode.Opcode.{Opcode};
ghost use Rattle.fuseworld_codec.specs.RequestStructs.{StructAsks, HasPlaces, IsRequestStruct, counted, data_in};
ghost use Rattle.fuseworld_codec.specs.RequestStructs.{is_named};
ghost use Rattle.fuseworld_codec.specs.Status.{IsNoOpcode};

use crate::layout::FlatRequest;
use crate::status::{BODY, OPCODE, PLACE};
use bitflags::Flags;
use fk_wire::{InitFlags, Opcode, Pairs, Request, RequestBody, opcode_of_code};

/// This many bytes from a place on, if there are as many.
#[tactic(auto, unfolding(fk_fields::specs::Fields::bytes_at))]
pub(crate) fn part(bytes: &[u8], offset: usize, len: usize) -> Option<&[u8]>
    ensures { MatchOption result (length bytes.now < offset + len)
        (λ p. (offset + len ≤ length bytes.now) × (p.now ≡ bytes_at offset len bytes.now) × (length p.now ≡ len)) }
{
    if offset > bytes.len() || bytes.len() - offset < len {
        return None;
    }
    Some(&bytes[offset..offset + len])
}

/// The name that a struct places.
fn name_of<'a>(r: &FlatRequest, bytes: &'a [u8]) -> Result<&'a [u8], u32>
    ensures ok { IfOk result (λ n. n.now ≡ bytes_at r.now.name_offset r.now.name_length bytes.now) }
    ensures within { IfOk result (λ n. r.now.name_offset + r.now.name_length ≤ length bytes.now) }
    ensures err { IfErr result (λ e. (e ≡ 10) × (length bytes.now < r.now.name_offset + r.now.name_length)) }
{
    part(bytes, r.name_offset, r.name_length).ok_or(PLACE)
}

/// The second name.
fn newname_of<'a>(r: &FlatRequest, bytes: &'a [u8]) -> Result<&'a [u8], u32>
    ensures ok { IfOk result (λ n. n.now ≡ bytes_at r.now.newname_offset r.now.newname_length bytes.now) }
    ensures within { IfOk result (λ n. r.now.newname_offset + r.now.newname_length ≤ length bytes.now) }
    ensures err { IfErr result (λ e. (e ≡ 10) × (length bytes.now < r.now.newname_offset + r.now.newname_length)) }
{
    part(bytes, r.newname_offset, r.newname_length).ok_or(PLACE)
}

/// The data.
fn data_of<'a>(r: &FlatRequest, bytes: &'a [u8]) -> Result<&'a [u8], u32>
    ensures ok { IfOk result (λ d. d.now ≡ bytes_at r.now.data_offset r.now.data_length bytes.now) }
    ensures within { IfOk result (λ d. r.now.data_offset + r.now.data_length ≤ length bytes.now) }
    ensures err { IfErr result (λ e. (e ≡ 10) × (length bytes.now < r.now.data_offset + r.now.data_length)) }
{
    part(bytes, r.data_offset, r.data_length).ok_or(PLACE)
}

/// The pairs that the data are.
fn pairs_of<'a>(r: &FlatRequest, bytes: &'a [u8]) -> Result<Pairs<'a>, u32>
    ensures ok { IfOk result (λ p. ReadsAs 0 (forget_ones (pairs_in p)) (data_in r.now bytes.now)) }
    ensures within { IfOk result (λ p. r.now.data_offset + r.now.data_length ≤ length bytes.now) }
    ensures beyond { IfErr result (λ e. e ≡ 10 → length bytes.now < r.now.data_offset + r.now.data_length) }
    ensures body { IfErr result (λ e. e ≢ 10 → (e ≡ 5) × (r.now.data_offset + r.now.data_length ≤ length bytes.now)
        × ((ps : List (ℕ × ℕ)) → ReadsAs 0 (forget_ones ps) (data_in r.now bytes.now) → ⊥)) }
{
    let data = data_of(r, bytes)?;
    Pairs::over(data).ok_or(BODY)
}

/// Whether a request of this opcode has one name and ends with it.
fn has_one_name(opcode: Opcode) -> bool
    ensures { IsTrue result ↔ IsTrue (is_named opcode) }
{
    matches!(
        opcode,
        Opcode::Lookup
            | Opcode::Mkdir
            | Opcode::Unlink
            | Opcode::Rmdir
            | Opcode::Link
            | Opcode::Create
    )
}

/// What a struct of an opcode with one name asks.
fn named_body<'a>(opcode: Opcode, r: &FlatRequest, bytes: &'a [u8]) -> Result<RequestBody<'a>, u32>
    requires { IsTrue (is_named opcode) }
    ensures ok { IfOk result (λ b. (opcode_of (request_content b) ≡ opcode)
        × StructAsks r.now bytes.now (request_content b)) }
    ensures within { IfOk result (λ b. HasPlaces (counted opcode r.now) bytes.now) }
    ensures beyond { IfErr result (λ e. e ≡ 10 → HasPlaces (counted opcode r.now) bytes.now → ⊥) }
    ensures body { IfErr result (λ e. e ≢ 10 → (e ≡ 5) × HasPlaces (counted opcode r.now) bytes.now
        × ((a : RequestContent) → opcode_of a ≡ opcode → StructAsks r.now bytes.now a → ⊥)) }
{
    let name = name_of(r, bytes)?;
    Ok(match opcode {
        Opcode::Lookup => RequestBody::Lookup { name },
        Opcode::Mkdir => RequestBody::Mkdir { name },
        Opcode::Unlink => RequestBody::Unlink { name },
        Opcode::Rmdir => RequestBody::Rmdir { name },
        Opcode::Link => RequestBody::Link {
            oldnodeid: r.oldnodeid,
            name,
        },
        // No other opcode has one name.
        _ => RequestBody::Create { name },
    })
}

/// What a struct of an opcode with no name or two asks.
fn other_body<'a>(opcode: Opcode, r: &FlatRequest, bytes: &'a [u8]) -> Result<RequestBody<'a>, u32>
    requires { is_named opcode ≡ false }
    ensures ok { IfOk result (λ b. (opcode_of (request_content b) ≡ opcode)
        × StructAsks r.now bytes.now (request_content b)) }
    ensures within { IfOk result (λ b. HasPlaces (counted opcode r.now) bytes.now) }
    ensures beyond { IfErr result (λ e. e ≡ 10 → HasPlaces (counted opcode r.now) bytes.now → ⊥) }
    ensures body { IfErr result (λ e. e ≢ 10 → (e ≡ 5) × HasPlaces (counted opcode r.now) bytes.now
        × ((a : RequestContent) → opcode_of a ≡ opcode → StructAsks r.now bytes.now a → ⊥)) }
{
    let (offset, size, fh) = (r.offset, r.size, r.fh);
    Ok(match opcode {
        Opcode::Forget => RequestBody::Forget { nlookup: r.nlookup },
        Opcode::Getattr => RequestBody::Getattr,
        Opcode::Rename => RequestBody::Rename {
            newdir: r.newdir,
            old: name_of(r, bytes)?,
            new: newname_of(r, bytes)?,
        },
        Opcode::Open => RequestBody::Open,
        Opcode::Read => RequestBody::Read { fh, offset, size },
        Opcode::Write => RequestBody::Write {
            fh,
            offset,
            bytes: data_of(r, bytes)?,
        },
        Opcode::Release => RequestBody::Release { fh },
        Opcode::Init => RequestBody::Init {
            major: r.major,
            minor: r.minor,
            flags: InitFlags::from_bits_retain(r.flags),
        },
        Opcode::Readdir => RequestBody::Readdir { offset, size },
        Opcode::Interrupt => RequestBody::Interrupt {
            unique: r.interrupted,
        },
        Opcode::BatchForget => RequestBody::BatchForget {
            pairs: pairs_of(r, bytes)?,
        },
        // The others have one name.
        _ => RequestBody::Readdirplus { offset, size },
    })
}

/// What a struct of this opcode asks.
fn body_of<'a>(opcode: Opcode, r: &FlatRequest, bytes: &'a [u8]) -> Result<RequestBody<'a>, u32>
    ensures ok { IfOk result (λ b. (opcode_of (request_content b) ≡ opcode)
        × StructAsks r.now bytes.now (request_content b)) }
    ensures within { IfOk result (λ b. HasPlaces (counted opcode r.now) bytes.now) }
    ensures beyond { IfErr result (λ e. e ≡ 10 → HasPlaces (counted opcode r.now) bytes.now → ⊥) }
    ensures body { IfErr result (λ e. e ≢ 10 → (e ≡ 5) × HasPlaces (counted opcode r.now) bytes.now
        × ((a : RequestContent) → opcode_of a ≡ opcode → StructAsks r.now bytes.now a → ⊥)) }
{
    if has_one_name(opcode) {
        named_body(opcode, r, bytes)
    } else {
        other_body(opcode, r, bytes)
    }
}

/// The request that a struct says.
///
/// # Errors
///
/// 3 where the opcode is not known, 10 where a name or the data lead beyond the bytes, and 5 where the data
/// of a BATCH_FORGET are no whole number of pairs.
#[tactic(auto, using(fk_wire::proofs::OneRequest::same_code))]
pub(crate) fn request_of<'a>(r: &FlatRequest, bytes: &'a [u8]) -> Result<Request<'a>, u32>
    ensures ok { IfOk result (λ q. IsRequestStruct r.now bytes.now (request_message q)) }
    ensures within { (o : Opcode) → code_of o ≡ r.now.opcode
        → IfOk result (λ q. HasPlaces (counted o r.now) bytes.now) }
    ensures beyond { (o : Opcode) → code_of o ≡ r.now.opcode
        → IfErr result (λ e. e ≡ 10 → HasPlaces (counted o r.now) bytes.now → ⊥) }
    ensures body { (o : Opcode) → code_of o ≡ r.now.opcode
        → IfErr result (λ e. e ≢ 10 → (e ≡ 5) × HasPlaces (counted o r.now) bytes.now
        × ((m : RequestMessage) → IsRequestStruct r.now bytes.now m → ⊥)) }
    ensures status { IfErr result (λ e. (e ≢ 0) × (e ≢ 7) × (e ≢ 9)) }
    ensures unknown { IsNoOpcode r.now.opcode → result ≡ Err 3 }
{
    let Some(opcode) = opcode_of_code(r.opcode) else {
        return Err(OPCODE);
    };
    let body = body_of(opcode, r, bytes)?;
    Ok(Request {
        unique: r.unique,
        nodeid: r.nodeid,
        body,
    })
}
