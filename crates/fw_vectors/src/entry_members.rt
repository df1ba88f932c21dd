//! Entries and attributes as JSON objects.

ghost use Rattle.std.specs.Prelude.{◌≡◌, ◌++◌, OnOk, codes};
ghost use Rattle.std.specs.Io.KnownBytes.{Appends};
ghost use Rattle.fk_wire.specs.Entries.{entry_content, found, missing};
ghost use Rattle.fw_vectors.specs.Members.{attr_object, entry_object, node_members, valid_members};

use fk_wire::{Attr, Entry};
use std::io;
use std::io::Write;

/// Writes the attributes.
#[tactic(auto, unfolding(crate::specs::Members::attr_object))]
pub(crate) fn write_attr<W: Write>(out: &mut W, attr: &Attr) -> io::Result<()>
    ensures { OnOk result (Appends (W.contents out.old) (W.contents out.new) (attr_object attr.now)) }
{
    let ino = attr.ino;
    let size = attr.size;
    let mode = attr.mode;
    let nlink = attr.nlink;
    write!(
        out,
        "{{\"ino\":\"{ino}\",\"size\":\"{size}\",\"mode\":\"{mode}\",\"nlink\":\"{nlink}\"}}"
    )
}

/// Writes for how long an entry is valid.
fn write_valid<W: Write>(out: &mut W, entry: &Entry) -> io::Result<()>
    ensures { OnOk result (Appends (W.contents out.old) (W.contents out.new)
        (valid_members entry.now.entry_valid entry.now.entry_valid_nsec)) }
{
    let seconds = entry.entry_valid;
    let nanoseconds = entry.entry_valid_nsec;
    write!(
        out,
        "\"entry_valid\":\"{seconds}\",\"entry_valid_nsec\":\"{nanoseconds}\""
    )
}

/// Writes the node of an entry.
#[tactic(auto, unfolding(crate::specs::Members::node_members))]
fn write_node<W: Write>(out: &mut W, entry: &Entry) -> io::Result<()>
    ensures { OnOk result (Appends (W.contents out.old) (W.contents out.new)
        (node_members entry.now.nodeid entry.now.generation)) }
{
    let nodeid = entry.nodeid;
    let generation = entry.generation;
    write!(
        out,
        "{{\"nodeid\":\"{nodeid}\",\"generation\":\"{generation}\","
    )
}

/// Writes the attributes of an entry, and its end.
fn write_entry_attr<W: Write>(out: &mut W, attr: &Attr) -> io::Result<()>
    ensures { OnOk result (Appends (W.contents out.old) (W.contents out.new)
        (codes ",\"attr\":" ++ attr_object attr.now ++ codes "}")) }
{
    out.write_all(b",\"attr\":")?;
    write_attr(out, attr)?;
    out.write_all(b"}")
}

/// Writes an entry of a file.
fn write_found<W: Write>(out: &mut W, entry: &Entry) -> io::Result<()>
    ensures { OnOk result (Appends (W.contents out.old) (W.contents out.new)
        (entry_object (found entry.now.nodeid entry.now.generation entry.now.entry_valid entry.now.entry_valid_nsec
        entry.now.attr))) }
{
    write_node(out, entry)?;
    write_valid(out, entry)?;
    write_entry_attr(out, &entry.attr)
}

/// Writes an entry of a missing name.
fn write_missing<W: Write>(out: &mut W, entry: &Entry) -> io::Result<()>
    ensures { OnOk result (Appends (W.contents out.old) (W.contents out.new)
        (entry_object (missing entry.now.entry_valid entry.now.entry_valid_nsec))) }
{
    out.write_all(b"{\"nodeid\":\"0\",")?;
    write_valid(out, entry)?;
    out.write_all(b"}")
}

/// Writes an entry, of a missing name its validity alone.
pub(crate) fn write_entry<W: Write>(out: &mut W, entry: &Entry) -> io::Result<()>
    ensures { OnOk result (Appends (W.contents out.old) (W.contents out.new) (entry_object (entry_content entry.now))) }
{
    if entry.nodeid == 0 {
        write_missing(out, entry)
    } else {
        write_found(out, entry)
    }
}
