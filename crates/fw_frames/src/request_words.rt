//! The fields of requests in words.

ghost use Rattle.std.specs.Prelude.{◌≡◌, ◌++◌, OnOk, codes, decimal, map, flat_map};
ghost use Rattle.std.specs.Io.KnownBytes.{Appends};
ghost use Rattle.fk_wire.specs.Requests.{request_content};
ghost use Rattle.fk_wire.specs.Pairs.{pairs_in};
ghost use Rattle.fuse_text.specs.Printed.{printed_byte};
ghost use Rattle.fw_frames.specs.Words.{pair_words, range_words, request_words};

use crate::flag_words::write_flags;
use fk_wire::{Pairs, RequestBody};
use fuse_text::{print_hex_or_none, print_name};
use std::io;
use std::io::Write;

/// Writes ` name NAME`.
fn write_one_name<W: Write>(out: &mut W, name: &[u8]) -> io::Result<()>
    ensures { OnOk result (Appends (W.contents out.old) (W.contents out.new) (codes " name " ++ map printed_byte name.now)) }
{
    out.write_all(b" name ")?;
    print_name(out, name)
}

/// Writes ` newdir NODE old NAME new NAME`.
fn write_rename<W: Write>(out: &mut W, newdir: u64, old: &[u8], new: &[u8]) -> io::Result<()>
    ensures { OnOk result (Appends (W.contents out.old) (W.contents out.new) (codes " newdir " ++ decimal newdir
        ++ codes " old " ++ map printed_byte old.now ++ codes " new " ++ map printed_byte new.now)) }
{
    write!(out, " newdir {newdir} old ")?;
    print_name(out, old)?;
    out.write_all(b" new ")?;
    print_name(out, new)
}

/// Writes ` oldnodeid NODE name NAME`.
fn write_link<W: Write>(out: &mut W, oldnodeid: u64, name: &[u8]) -> io::Result<()>
    ensures { OnOk result (Appends (W.contents out.old) (W.contents out.new) (codes " oldnodeid " ++ decimal oldnodeid
        ++ codes " name " ++ map printed_byte name.now)) }
{
    write!(out, " oldnodeid {oldnodeid} name ")?;
    print_name(out, name)
}

/// Writes ` offset OFFSET size SIZE`.
fn write_range<W: Write>(out: &mut W, offset: u64, size: u64) -> io::Result<()>
    ensures { OnOk result (Appends (W.contents out.old) (W.contents out.new) (range_words offset size)) }
{
    write!(out, " offset {offset} size {size}")
}

/// Writes ` fh FH offset OFFSET size SIZE data HEX`.
fn write_write<W: Write>(out: &mut W, fh: u64, offset: u64, bytes: &[u8]) -> io::Result<()>
    ensures { OnOk result (Appends (W.contents out.old) (W.contents out.new)
        (request_words (request_content (RequestBody.Write fh offset bytes.entry)))) }
{
    write!(out, " fh {fh}")?;
    write_range(out, offset, bytes.len() as u64)?;
    out.write_all(b" data ")?;
    print_hex_or_none(out, bytes)
}

/// Writes ` NODE:NLOOKUP`.
fn write_pair<W: Write>(out: &mut W, nodeid: u64, nlookup: u64) -> io::Result<()>
    ensures { OnOk result (Appends (W.contents out.old) (W.contents out.new) (pair_words (nodeid, nlookup))) }
{
    write!(out, " {nodeid}:{nlookup}")
}

/// Writes each pair.
fn write_pairs<W: Write>(out: &mut W, pairs: Pairs<'_>) -> io::Result<()>
    ensures { OnOk result (Appends (W.contents out.old) (W.contents out.new) (flat_map pair_words (pairs_in pairs.entry))) }
{
    for (nodeid, nlookup) in pairs {
        write_pair(out, nodeid, nlookup)?;
    }
    Ok(())
}

/// Writes the fields of a request, each after a space.
///
/// # Errors
///
/// Where `out` refuses.
pub fn write_request_words<W: Write>(out: &mut W, body: &RequestBody<'_>) -> io::Result<()>
    ensures { OnOk result (Appends (W.contents out.old) (W.contents out.new) (request_words (request_content body.now))) }
{
    match body {
        RequestBody::Lookup { name }
        | RequestBody::Mkdir { name }
        | RequestBody::Unlink { name }
        | RequestBody::Rmdir { name }
        | RequestBody::Create { name } => write_one_name(out, name),
        RequestBody::Forget { nlookup } => write!(out, " nlookup {nlookup}"),
        RequestBody::Getattr | RequestBody::Open => Ok(()),
        RequestBody::Rename { newdir, old, new } => write_rename(out, *newdir, old, new),
        RequestBody::Link { oldnodeid, name } => write_link(out, *oldnodeid, name),
        RequestBody::Read { fh, offset, size } => {
            write!(out, " fh {fh}")?;
            write_range(out, *offset, u64::from(*size))
        }
        RequestBody::Write { fh, offset, bytes } => write_write(out, *fh, *offset, bytes),
        RequestBody::Release { fh } => write!(out, " fh {fh}"),
        RequestBody::Init {
            major,
            minor,
            flags,
        } => {
            write!(out, " major {major} minor {minor}")?;
            write_flags(out, *flags)
        }
        RequestBody::Readdir { offset, size } | RequestBody::Readdirplus { offset, size } => {
            write_range(out, *offset, u64::from(*size))
        }
        RequestBody::Interrupt { unique } => write!(out, " unique {unique}"),
        RequestBody::BatchForget { pairs } => {
            out.write_all(b" forget")?;
            write_pairs(out, *pairs)
        }
    }
}
