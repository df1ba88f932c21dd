//! What replies say in words.

ghost use Rattle.std.specs.Prelude.{◌≡◌, ◌++◌, OnOk, flat_map};
ghost use Rattle.std.specs.Io.KnownBytes.{Appends};
ghost use Rattle.fk_wire.specs.Records.{dirent_content, direntplus_content, pluses_in, records_in};
ghost use Rattle.fk_wire.specs.Replies.{reply_content};
ghost use Rattle.fw_frames.specs.Words.{dirent_words, direntplus_words, open_words, reply_words, type_word};

use crate::entry_words::{write_attr, write_entry};
use crate::flag_words::write_flags;
use fk_wire::{Dirent, DirentPlus, Records, RecordsPlus, ReplyBody};
use fuse_text::{print_hex_or_none, print_name};
use std::io;
use std::io::Write;

/// The kind of a record's file, by its type.
#[tactic(auto, unfolding(crate::specs::Words::type_word))]
fn word_of_type(kind: u32) -> &'static str
    ensures { result.now ≡ type_word kind }
{
    match kind {
        4 => "dir",
        8 => "file",
        _ => "other",
    }
}

/// Writes ` NAME:OFF:KIND`.
fn write_dirent<W: Write>(out: &mut W, dirent: &Dirent<'_>) -> io::Result<()>
    ensures { OnOk result (Appends (W.contents out.old) (W.contents out.new) (dirent_words (dirent_content dirent.now))) }
{
    let off = dirent.off;
    let kind = word_of_type(dirent.kind);
    out.write_all(b" ")?;
    print_name(out, dirent.name)?;
    write!(out, ":{off}:{kind}")
}

/// Writes a record and its entry.
fn write_direntplus<W: Write>(out: &mut W, pair: &DirentPlus<'_>) -> io::Result<()>
    ensures { OnOk result (Appends (W.contents out.old) (W.contents out.new)
        (direntplus_words (direntplus_content pair.now))) }
{
    write_dirent(out, &pair.dirent)?;
    write_entry(out, &pair.entry_out)
}

/// Writes each record.
fn write_records<W: Write>(out: &mut W, records: Records<'_>) -> io::Result<()>
    ensures { OnOk result (Appends (W.contents out.old) (W.contents out.new)
        (flat_map dirent_words (records_in records.entry))) }
{
    for dirent in records {
        write_dirent(out, &dirent)?;
    }
    Ok(())
}

/// Writes each record and its entry.
fn write_pluses<W: Write>(out: &mut W, records: RecordsPlus<'_>) -> io::Result<()>
    ensures { OnOk result (Appends (W.contents out.old) (W.contents out.new)
        (flat_map direntplus_words (pluses_in records.entry))) }
{
    for pair in records {
        write_direntplus(out, &pair)?;
    }
    Ok(())
}

/// Writes ` open FH`.
fn write_open<W: Write>(out: &mut W, fh: u64) -> io::Result<()>
    ensures { OnOk result (Appends (W.contents out.old) (W.contents out.new) (open_words fh)) }
{
    write!(out, " open {fh}")
}

/// Writes what a reply says, each word after a space.
///
/// # Errors
///
/// Where `out` refuses.
pub fn write_reply_words<W: Write>(out: &mut W, body: &ReplyBody<'_>) -> io::Result<()>
    ensures { OnOk result (Appends (W.contents out.old) (W.contents out.new) (reply_words (reply_content body.now))) }
{
    match body {
        ReplyBody::Empty => Ok(()),
        ReplyBody::Entry { entry } => write_entry(out, entry),
        ReplyBody::Attr { attr } => {
            out.write_all(b" attr")?;
            write_attr(out, attr)
        }
        ReplyBody::Open { fh } => write_open(out, *fh),
        ReplyBody::Bytes { bytes } => {
            out.write_all(b" data ")?;
            print_hex_or_none(out, bytes)
        }
        ReplyBody::Write { size } => write!(out, " size {size}"),
        ReplyBody::Init {
            major,
            minor,
            flags,
        } => {
            write!(out, " major {major} minor {minor}")?;
            write_flags(out, *flags)
        }
        ReplyBody::Create { entry, fh } => {
            write_entry(out, entry)?;
            write_open(out, *fh)
        }
        ReplyBody::Records { records } => write_records(out, *records),
        ReplyBody::RecordsPlus { records } => write_pluses(out, *records),
    }
}
