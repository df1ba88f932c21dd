//! The bodies of replies as members of a JSON object.

ghost use Rattle.std.specs.Prelude.{◌≡◌, ◌++◌, OnOk, codes, decimal, flat_map};
ghost use Rattle.std.specs.Io.KnownBytes.{Appends};
ghost use Rattle.hex.specs.Hex.{encode_lower};
ghost use Rattle.fk_wire.specs.Entries.{entry_content};
ghost use Rattle.fk_wire.specs.Records.{dirent_content, direntplus_content, pluses_in, records_in};
ghost use Rattle.fk_wire.specs.Replies.{reply_content};
ghost use Rattle.fw_vectors.specs.Members.{attr_object, dirent_object, direntplus_object, entry_object, fh_member};
ghost use Rattle.fw_vectors.specs.Members.{further, comma_list, reply_members};

use crate::entry_members::{write_attr, write_entry};
use crate::request_members::{write_fh, write_init};
use fk_wire::{Attr, Dirent, DirentPlus, Entry, Records, RecordsPlus, ReplyBody};
use fuse_text::print_hex;
use std::io;
use std::io::Write;

/// Writes the numbers of a record.
fn write_dirent_numbers<W: Write>(out: &mut W, dirent: &Dirent<'_>) -> io::Result<()>
    ensures { OnOk result (Appends (W.contents out.old) (W.contents out.new)
        (codes "{\"ino\":\"" ++ decimal dirent.now.ino ++ codes "\",\"off\":\"" ++ decimal dirent.now.off
        ++ codes "\",\"type\":\"" ++ decimal dirent.now.kind ++ codes "\",\"name\":\"")) }
{
    let ino = dirent.ino;
    let off = dirent.off;
    let kind = dirent.kind;
    write!(
        out,
        "{{\"ino\":\"{ino}\",\"off\":\"{off}\",\"type\":\"{kind}\",\"name\":\""
    )
}

/// Writes a record.
#[tactic(auto, unfolding(crate::specs::Members::dirent_object))]
fn write_dirent<W: Write>(out: &mut W, dirent: &Dirent<'_>) -> io::Result<()>
    ensures { OnOk result (Appends (W.contents out.old) (W.contents out.new) (dirent_object (dirent_content dirent.now))) }
{
    write_dirent_numbers(out, dirent)?;
    print_hex(out, dirent.name)?;
    out.write_all(b"\"}")
}

/// Writes the record of a pair, and the pair's end.
fn write_plus_dirent<W: Write>(out: &mut W, dirent: &Dirent<'_>) -> io::Result<()>
    ensures { OnOk result (Appends (W.contents out.old) (W.contents out.new)
        (codes ",\"dirent\":" ++ dirent_object (dirent_content dirent.now) ++ codes "}")) }
{
    out.write_all(b",\"dirent\":")?;
    write_dirent(out, dirent)?;
    out.write_all(b"}")
}

/// Writes an entry and a record.
fn write_direntplus<W: Write>(out: &mut W, pair: &DirentPlus<'_>) -> io::Result<()>
    ensures { OnOk result (Appends (W.contents out.old) (W.contents out.new)
        (direntplus_object (direntplus_content pair.now))) }
{
    out.write_all(b"{\"entry_out\":")?;
    write_entry(out, &pair.entry_out)?;
    write_plus_dirent(out, &pair.dirent)
}

/// Writes a record after a comma.
fn write_further_dirent<W: Write>(out: &mut W, dirent: &Dirent<'_>) -> io::Result<()>
    ensures { OnOk result (Appends (W.contents out.old) (W.contents out.new)
        (further dirent_object (dirent_content dirent.now))) }
{
    out.write_all(b",")?;
    write_dirent(out, dirent)
}

/// Writes a pair after a comma.
fn write_further_direntplus<W: Write>(out: &mut W, pair: &DirentPlus<'_>) -> io::Result<()>
    ensures { OnOk result (Appends (W.contents out.old) (W.contents out.new)
        (further direntplus_object (direntplus_content pair.now))) }
{
    out.write_all(b",")?;
    write_direntplus(out, pair)
}

/// Writes records, each after a comma.
fn write_further_records<W: Write>(out: &mut W, records: Records<'_>) -> io::Result<()>
    ensures { OnOk result (Appends (W.contents out.old) (W.contents out.new)
        (flat_map (further dirent_object) (records_in records.entry))) }
{
    for dirent in records {
        write_further_dirent(out, &dirent)?;
    }
    Ok(())
}

/// Writes records, with a comma before each but the first.
fn write_records<W: Write>(out: &mut W, records: Records<'_>) -> io::Result<()>
    ensures { OnOk result (Appends (W.contents out.old) (W.contents out.new)
        (comma_list dirent_object (records_in records.entry))) }
{
    let mut rest = records;
    let Some(first) = rest.next() else {
        return Ok(());
    };
    write_dirent(out, &first)?;
    write_further_records(out, rest)
}

/// Writes pairs, each after a comma.
fn write_further_pluses<W: Write>(out: &mut W, records: RecordsPlus<'_>) -> io::Result<()>
    ensures { OnOk result (Appends (W.contents out.old) (W.contents out.new)
        (flat_map (further direntplus_object) (pluses_in records.entry))) }
{
    for pair in records {
        write_further_direntplus(out, &pair)?;
    }
    Ok(())
}

/// Writes pairs, with a comma before each but the first.
fn write_pluses<W: Write>(out: &mut W, records: RecordsPlus<'_>) -> io::Result<()>
    ensures { OnOk result (Appends (W.contents out.old) (W.contents out.new)
        (comma_list direntplus_object (pluses_in records.entry))) }
{
    let mut rest = records;
    let Some(first) = rest.next() else {
        return Ok(());
    };
    write_direntplus(out, &first)?;
    write_further_pluses(out, rest)
}

/// Writes the body of a READDIR reply.
fn write_listing<W: Write>(out: &mut W, records: Records<'_>) -> io::Result<()>
    ensures { OnOk result (Appends (W.contents out.old) (W.contents out.new)
        (codes "\"records\":[" ++ comma_list dirent_object (records_in records.entry) ++ codes "]")) }
{
    out.write_all(b"\"records\":[")?;
    write_records(out, records)?;
    out.write_all(b"]")
}

/// Writes the body of a READDIRPLUS reply.
fn write_listing_plus<W: Write>(out: &mut W, records: RecordsPlus<'_>) -> io::Result<()>
    ensures { OnOk result (Appends (W.contents out.old) (W.contents out.new)
        (codes "\"records\":[" ++ comma_list direntplus_object (pluses_in records.entry) ++ codes "]")) }
{
    out.write_all(b"\"records\":[")?;
    write_pluses(out, records)?;
    out.write_all(b"]")
}

/// Writes an entry as a member.
fn write_entry_member<W: Write>(out: &mut W, entry: &Entry) -> io::Result<()>
    ensures { OnOk result (Appends (W.contents out.old) (W.contents out.new)
        (codes "\"entry\":" ++ entry_object (entry_content entry.now))) }
{
    out.write_all(b"\"entry\":")?;
    write_entry(out, entry)
}

/// Writes an entry and an open file.
fn write_create<W: Write>(out: &mut W, entry: &Entry, fh: u64) -> io::Result<()>
    ensures { OnOk result (Appends (W.contents out.old) (W.contents out.new)
        (codes "\"entry\":" ++ entry_object (entry_content entry.now) ++ codes "," ++ fh_member fh)) }
{
    write_entry_member(out, entry)?;
    out.write_all(b",")?;
    write_fh(out, fh)
}

/// Writes attributes as a member.
fn write_attr_member<W: Write>(out: &mut W, attr: &Attr) -> io::Result<()>
    ensures { OnOk result (Appends (W.contents out.old) (W.contents out.new)
        (codes "\"attr\":" ++ attr_object attr.now)) }
{
    out.write_all(b"\"attr\":")?;
    write_attr(out, attr)
}

/// Writes the bytes of a file.
fn write_data<W: Write>(out: &mut W, bytes: &[u8]) -> io::Result<()>
    ensures { OnOk result (Appends (W.contents out.old) (W.contents out.new)
        (codes "\"data\":\"" ++ encode_lower bytes.now ++ codes "\"")) }
{
    out.write_all(b"\"data\":\"")?;
    print_hex(out, bytes)?;
    out.write_all(b"\"")
}

/// Writes the members of a reply's body.
pub(crate) fn write_reply_members<W: Write>(out: &mut W, body: &ReplyBody<'_>) -> io::Result<()>
    ensures { OnOk result (Appends (W.contents out.old) (W.contents out.new) (reply_members (reply_content body.now))) }
{
    match body {
        ReplyBody::Empty => Ok(()),
        ReplyBody::Entry { entry } => write_entry_member(out, entry),
        ReplyBody::Attr { attr } => write_attr_member(out, attr),
        ReplyBody::Open { fh } => write_fh(out, *fh),
        ReplyBody::Bytes { bytes } => write_data(out, bytes),
        ReplyBody::Write { size } => write!(out, "\"size\":\"{size}\""),
        ReplyBody::Init {
            major,
            minor,
            flags,
        } => write_init(out, *major, *minor, *flags),
        ReplyBody::Create { entry, fh } => write_create(out, entry, *fh),
        ReplyBody::Records { records } => write_listing(out, *records),
        ReplyBody::RecordsPlus { records } => write_listing_plus(out, *records),
    }
}
