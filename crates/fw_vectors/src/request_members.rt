//! The bodies of requests as members of a JSON object.

ghost use Rattle.std.specs.Prelude.{◌≡◌, ◌++◌, OnOk, codes, decimal, flat_map, length};
ghost use Rattle.std.specs.Int.RustNames.{bit_and};
ghost use Rattle.std.specs.Io.KnownBytes.{Appends};
ghost use Rattle.hex.specs.Hex.{encode_lower};
ghost use Rattle.fk_wire.specs.Pairs.{pairs_in};
ghost use Rattle.fk_wire.specs.Requests.{known_flags, request_content};
ghost use Rattle.fw_vectors.specs.Members.{fh_member, further, init_members, comma_list, name_member, pair_object, range_members};
ghost use Rattle.fw_vectors.specs.Members.{rename_members, request_members, write_members};

use bitflags::Flags;
use fk_wire::{InitFlags, Pairs, RequestBody};
use fuse_text::print_hex;
use std::io;
use std::io::Write;

/// Writes a name.
fn write_name<W: Write>(out: &mut W, name: &[u8]) -> io::Result<()>
    ensures { OnOk result (Appends (W.contents out.old) (W.contents out.new) (name_member name.now)) }
{
    out.write_all(b"\"name\":\"")?;
    print_hex(out, name)?;
    out.write_all(b"\"")
}

/// Writes the number of an open file.
pub(crate) fn write_fh<W: Write>(out: &mut W, fh: u64) -> io::Result<()>
    ensures { OnOk result (Appends (W.contents out.old) (W.contents out.new) (fh_member fh)) }
{
    write!(out, "\"fh\":\"{fh}\"")
}

/// Writes an offset and a size.
fn write_range<W: Write>(out: &mut W, offset: u64, size: u64) -> io::Result<()>
    ensures { OnOk result (Appends (W.contents out.old) (W.contents out.new) (range_members offset size)) }
{
    write!(out, "\"offset\":\"{offset}\",\"size\":\"{size}\"")
}

/// Writes an open file and a range.
fn write_file_range<W: Write>(out: &mut W, fh: u64, offset: u64, size: u64) -> io::Result<()>
    ensures { OnOk result (Appends (W.contents out.old) (W.contents out.new)
        (fh_member fh ++ codes "," ++ range_members offset size)) }
{
    write_fh(out, fh)?;
    out.write_all(b",")?;
    write_range(out, offset, size)
}

/// Writes the members of a WRITE.
fn write_data<W: Write>(out: &mut W, fh: u64, offset: u64, bytes: &[u8]) -> io::Result<()>
    ensures { OnOk result (Appends (W.contents out.old) (W.contents out.new) (write_members fh offset bytes.now)) }
{
    write_file_range(out, fh, offset, bytes.len() as u64)?;
    out.write_all(b",\"data\":\"")?;
    print_hex(out, bytes)?;
    out.write_all(b"\"")
}

/// Writes the known flags of INIT, as the number in the frame.
#[tactic(auto, unfolding(bitflags::specs::Sets::known_from))]
fn known_bits(flags: InitFlags) -> u32
    ensures { result ≡ bit_and flags.0 known_flags }
{
    InitFlags::from_bits_truncate(flags.bits()).bits()
}

/// Writes the versions and the known flags of INIT.
pub(crate) fn write_init<W: Write>(
    out: &mut W,
    major: u32,
    minor: u32,
    flags: InitFlags,
) -> io::Result<()>
    ensures { OnOk result (Appends (W.contents out.old) (W.contents out.new)
        (init_members major minor (bit_and flags.0 known_flags))) }
{
    let flags = known_bits(flags);
    write!(
        out,
        "\"major\":\"{major}\",\"minor\":\"{minor}\",\"flags\":\"{flags}\""
    )
}

/// Writes the two names of a RENAME.
fn write_names<W: Write>(out: &mut W, old: &[u8], new: &[u8]) -> io::Result<()>
    ensures { OnOk result (Appends (W.contents out.old) (W.contents out.new)
        (encode_lower old.now ++ codes "\",\"new\":\"" ++ encode_lower new.now ++ codes "\"")) }
{
    print_hex(out, old)?;
    out.write_all(b"\",\"new\":\"")?;
    print_hex(out, new)?;
    out.write_all(b"\"")
}

/// Writes the members of a RENAME.
fn write_rename<W: Write>(out: &mut W, newdir: u64, old: &[u8], new: &[u8]) -> io::Result<()>
    ensures { OnOk result (Appends (W.contents out.old) (W.contents out.new) (rename_members newdir old.now new.now)) }
{
    write!(out, "\"newdir\":\"{newdir}\",\"old\":\"")?;
    write_names(out, old, new)
}

/// Writes the members of a LINK.
fn write_link<W: Write>(out: &mut W, oldnodeid: u64, name: &[u8]) -> io::Result<()>
    ensures { OnOk result (Appends (W.contents out.old) (W.contents out.new)
        (codes "\"oldnodeid\":\"" ++ decimal oldnodeid ++ codes "\"," ++ name_member name.now)) }
{
    write!(out, "\"oldnodeid\":\"{oldnodeid}\",")?;
    write_name(out, name)
}

/// Writes a pair of a BATCH_FORGET.
fn write_pair<W: Write>(out: &mut W, nodeid: u64, nlookup: u64) -> io::Result<()>
    ensures { OnOk result (Appends (W.contents out.old) (W.contents out.new) (pair_object (nodeid, nlookup))) }
{
    write!(out, "{{\"nodeid\":\"{nodeid}\",\"nlookup\":\"{nlookup}\"}}")
}

/// Writes a pair after a comma.
fn write_further_pair<W: Write>(out: &mut W, nodeid: u64, nlookup: u64) -> io::Result<()>
    ensures { OnOk result (Appends (W.contents out.old) (W.contents out.new)
        (further pair_object (nodeid, nlookup))) }
{
    out.write_all(b",")?;
    write_pair(out, nodeid, nlookup)
}

/// Writes pairs, each after a comma.
fn write_further_pairs<W: Write>(out: &mut W, pairs: Pairs<'_>) -> io::Result<()>
    ensures { OnOk result (Appends (W.contents out.old) (W.contents out.new)
        (flat_map (further pair_object) (pairs_in pairs.entry))) }
{
    for (nodeid, nlookup) in pairs {
        write_further_pair(out, nodeid, nlookup)?;
    }
    Ok(())
}

/// Writes pairs, with a comma before each but the first.
fn write_pairs<W: Write>(out: &mut W, pairs: Pairs<'_>) -> io::Result<()>
    ensures { OnOk result (Appends (W.contents out.old) (W.contents out.new) (comma_list pair_object (pairs_in pairs.entry))) }
{
    let mut rest = pairs;
    let Some((nodeid, nlookup)) = rest.next() else {
        return Ok(());
    };
    write_pair(out, nodeid, nlookup)?;
    write_further_pairs(out, rest)
}

/// Writes the members of a BATCH_FORGET.
fn write_batch<W: Write>(out: &mut W, pairs: Pairs<'_>) -> io::Result<()>
    ensures { OnOk result (Appends (W.contents out.old) (W.contents out.new)
        (codes "\"pairs\":[" ++ comma_list pair_object (pairs_in pairs.entry) ++ codes "]")) }
{
    out.write_all(b"\"pairs\":[")?;
    write_pairs(out, pairs)?;
    out.write_all(b"]")
}

/// Writes the members of a request's body.
pub(crate) fn write_request_members<W: Write>(out: &mut W, body: &RequestBody<'_>) -> io::Result<()>
    ensures { OnOk result (Appends (W.contents out.old) (W.contents out.new) (request_members (request_content body.now))) }
{
    match body {
        RequestBody::Lookup { name }
        | RequestBody::Mkdir { name }
        | RequestBody::Unlink { name }
        | RequestBody::Rmdir { name }
        | RequestBody::Create { name } => write_name(out, name),
        RequestBody::Forget { nlookup } => write!(out, "\"nlookup\":\"{nlookup}\""),
        RequestBody::Getattr | RequestBody::Open => Ok(()),
        RequestBody::Rename { newdir, old, new } => write_rename(out, *newdir, old, new),
        RequestBody::Link { oldnodeid, name } => write_link(out, *oldnodeid, name),
        RequestBody::Read { fh, offset, size } => {
            write_file_range(out, *fh, *offset, u64::from(*size))
        }
        RequestBody::Write { fh, offset, bytes } => write_data(out, *fh, *offset, bytes),
        RequestBody::Release { fh } => write_fh(out, *fh),
        RequestBody::Init {
            major,
            minor,
            flags,
        } => write_init(out, *major, *minor, *flags),
        RequestBody::Readdir { offset, size } | RequestBody::Readdirplus { offset, size } => {
            write_range(out, *offset, u64::from(*size))
        }
        RequestBody::Interrupt { unique } => write!(out, "\"unique\":\"{unique}\""),
        RequestBody::BatchForget { pairs } => write_batch(out, *pairs),
    }
}
