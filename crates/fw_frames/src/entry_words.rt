//! Entries and attributes in words.

ghost use Rattle.std.specs.Prelude.{◌≡◌, ◌++◌, OnOk};
ghost use Rattle.std.specs.Io.KnownBytes.{Appends};
ghost use Rattle.fk_wire.specs.Entries.{entry_content, found, missing};
ghost use Rattle.fw_frames.specs.Words.{attr_words, entry_words, mode_word, nodeid_words, valid_words};

use fk_wire::{Attr, Entry};
use std::io;
use std::io::Write;

/// The type bits of a mode: octal 0170000.
const TYPE_BITS: u32 = 61440;

/// The type bits of a directory: octal 040000.
const DIRECTORY: u32 = 16384;

/// The type bits of a file: octal 0100000.
const FILE: u32 = 32768;

/// The kind of a file, by its mode.
#[tactic(auto, unfolding(crate::specs::Words::mode_word))]
fn word_of_mode(mode: u32) -> &'static str
    ensures { result.now ≡ mode_word mode }
{
    let kind = mode & TYPE_BITS;
    if kind == DIRECTORY {
        return "dir";
    }
    if kind == FILE {
        return "file";
    }
    "other"
}

/// Writes ` KIND ino INO size SIZE nlink NLINK`.
#[tactic(auto, unfolding(crate::specs::Words::attr_words))]
pub(crate) fn write_attr<W: Write>(out: &mut W, attr: &Attr) -> io::Result<()>
    ensures { OnOk result (Appends (W.contents out.old) (W.contents out.new) (attr_words attr.now)) }
{
    let kind = word_of_mode(attr.mode);
    let ino = attr.ino;
    let size = attr.size;
    let nlink = attr.nlink;
    write!(out, " {kind} ino {ino} size {size} nlink {nlink}")
}

/// Writes ` valid MS ms`.
#[tactic(auto, unfolding(crate::specs::Words::valid_words))]
fn write_valid<W: Write>(out: &mut W, seconds: u64, nanoseconds: u32) -> io::Result<()>
    ensures { OnOk result (Appends (W.contents out.old) (W.contents out.new) (valid_words seconds nanoseconds)) }
{
    let valid = u128::from(seconds) * 1000 + u128::from(nanoseconds / 1_000_000);
    write!(out, " valid {valid} ms")
}

/// Writes ` entry node NODE generation GENERATION`.
#[tactic(auto, unfolding(crate::specs::Words::nodeid_words))]
fn write_node<W: Write>(out: &mut W, nodeid: u64, generation: u64) -> io::Result<()>
    ensures { OnOk result (Appends (W.contents out.old) (W.contents out.new) (nodeid_words nodeid generation)) }
{
    write!(out, " entry node {nodeid} generation {generation}")
}

/// Writes the node of an entry, how long it is valid, and the attributes.
fn write_found<W: Write>(out: &mut W, entry: &Entry) -> io::Result<()>
    ensures { OnOk result (Appends (W.contents out.old) (W.contents out.new)
        (entry_words (found entry.now.nodeid entry.now.generation entry.now.entry_valid entry.now.entry_valid_nsec
        entry.now.attr))) }
{
    write_node(out, entry.nodeid, entry.generation)?;
    write_valid(out, entry.entry_valid, entry.entry_valid_nsec)?;
    write_attr(out, &entry.attr)
}

/// Writes ` entry node 0 valid MS ms`.
fn write_missing<W: Write>(out: &mut W, entry: &Entry) -> io::Result<()>
    ensures { OnOk result (Appends (W.contents out.old) (W.contents out.new)
        (entry_words (missing entry.now.entry_valid entry.now.entry_valid_nsec))) }
{
    out.write_all(b" entry node 0")?;
    write_valid(out, entry.entry_valid, entry.entry_valid_nsec)
}

/// Writes an entry, of a missing name its validity alone.
pub(crate) fn write_entry<W: Write>(out: &mut W, entry: &Entry) -> io::Result<()>
    ensures { OnOk result (Appends (W.contents out.old) (W.contents out.new) (entry_words (entry_content entry.now))) }
{
    if entry.nodeid == 0 {
        write_missing(out, entry)
    } else {
        write_found(out, entry)
    }
}
