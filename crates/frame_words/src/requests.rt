//! What a request says, in words.

ghost use Rattle.std.specs.Prelude.{◌≡◌, ◌++◌, ◌/◌, OnOk, codes, flat_map, length};
ghost use Rattle.std.specs.Io.KnownBytes.{Appends};
ghost use Rattle.fuse_protocol.specs.Names.{names_in as names_of};
ghost use Rattle.fuse_protocol.specs.Places.{number_in};
ghost use Rattle.fuse_protocol.specs.Pairs.{pairs_from, pairs_in};
ghost use Rattle.fuse_protocol.specs.Requests.{request_message};
ghost use Rattle.frame_words.specs.Requests.{field_words, first_word, handle_words, head_words, init_request_words, names_words, node_word, pair_words, part_words, request_words, second_word, struct_words, tail_words};

use crate::init_flags::write_init_flags;
use crate::words::{write_data, write_named, write_number, write_number_if};
use fuse_protocol::{
    InitRequest, Opcode, OpenHandle, Pairs, Place, Request, RequestHead, RequestNames, Tail,
    places_of, row_of,
};
use std::io;
use std::io::Write;

/// What the further node is, by the field that has it.
fn node_word_of(opcode: Opcode) -> &'static str
    ensures { result.now ≡ node_word opcode }
{
    match opcode {
        Opcode::Link => "oldnodeid",
        Opcode::CopyFileRange | Opcode::CopyFileRange64 => "nodeid_out",
        _ => "newdir",
    }
}

/// Of two names, what the first is.
fn first_word_of(opcode: Opcode) -> &'static str
    ensures { result.now ≡ first_word opcode }
{
    match opcode {
        Opcode::Symlink => "name",
        _ => "old",
    }
}

/// What the second is.
fn second_word_of(opcode: Opcode) -> &'static str
    ensures { result.now ≡ second_word opcode }
{
    match opcode {
        Opcode::Symlink => "target",
        _ => "new",
    }
}

/// Writes `OPNAME UNIQUE NODE LEN`.
#[tactic(auto, unfolding(crate::specs::Requests::head_words))]
fn write_head<W: Write>(out: &mut W, head: RequestHead, len: usize) -> io::Result<()>
    ensures { OnOk result (Appends (W.contents out.old) (W.contents out.new)
        (head_words head.opcode head.unique head.nodeid len)) }
{
    let name = head.opcode.name();
    let unique = head.unique;
    let nodeid = head.nodeid;
    write!(out, "{name} {unique} {nodeid} {len}")
}

/// Writes the file handles.
fn write_handle<W: Write>(out: &mut W, handle: OpenHandle) -> io::Result<()>
    ensures { OnOk result (Appends (W.contents out.old) (W.contents out.new) (handle_words handle)) }
{
    match handle {
        OpenHandle::None => out.write_all(b""),
        OpenHandle::File(fh) | OpenHandle::Directory(fh) => write_number(out, "fh", fh),
        OpenHandle::TwoFiles(from, to) => {
            write_number(out, "fh_in", from)?;
            write_number(out, "fh_out", to)
        }
    }
}

/// Writes the names.
fn write_names<W: Write>(out: &mut W, opcode: Opcode, names: RequestNames<'_>) -> io::Result<()>
    ensures { OnOk result (Appends (W.contents out.old) (W.contents out.new)
        (names_words opcode (names_of names.entry))) }
{
    match names {
        RequestNames::None => out.write_all(b""),
        RequestNames::One(name) => write_named(out, "name", name),
        RequestNames::Two(one, two) => {
            write_named(out, first_word_of(opcode), one)?;
            write_named(out, second_word_of(opcode), two)
        }
    }
}

/// The number at a place, if the struct has it.
fn number_at(place: Option<Place>, fixed: &[u8]) -> Option<u64>
    ensures { result ≡ number_in place fixed.now }
{
    place?.number_in(fixed)
}

/// Writes numbers of the struct.
#[tactic(auto, unfolding(crate::specs::Requests::struct_words))]
fn write_struct<W: Write>(out: &mut W, opcode: Opcode, fixed: &[u8]) -> io::Result<()>
    ensures { OnOk result (Appends (W.contents out.old) (W.contents out.new) (struct_words opcode fixed.now)) }
{
    let places = places_of(opcode);
    write_number_if(out, "nlookup", number_at(places.forgotten, fixed))?;
    write_number_if(out, "unique", number_at(places.interrupted, fixed))?;
    write_number_if(out, "offset", number_at(places.offset, fixed))?;
    write_number_if(out, "size", number_at(places.size, fixed))
}

/// Writes ` ONE:OTHER`.
fn write_pair<W: Write>(out: &mut W, one: u64, other: u64) -> io::Result<()>
    ensures { OnOk result (Appends (W.contents out.old) (W.contents out.new) (pair_words (one, other))) }
{
    write!(out, " {one}:{other}")
}

/// Writes each pair.
fn write_pairs<W: Write>(out: &mut W, pairs: Pairs<'_>) -> io::Result<()>
    ensures { OnOk result (Appends (W.contents out.old) (W.contents out.new)
        (flat_map pair_words (pairs_in pairs.entry))) }
{
    for (one, other) in pairs {
        write_pair(out, one, other)?;
    }
    Ok(())
}

/// Writes what stands behind the names.
fn write_tail<W: Write>(out: &mut W, tail: Tail, bytes: &[u8]) -> io::Result<()>
    ensures { OnOk result (Appends (W.contents out.old) (W.contents out.new) (tail_words tail bytes.now)) }
{
    match tail {
        Tail::Data(_) => write_data(out, bytes),
        Tail::Pairs(_) => {
            out.write_all(b" pairs")?;
            write_pairs(out, Pairs::over(bytes))
        }
        Tail::None | Tail::Any => out.write_all(b""),
    }
}

/// Writes the further node, the file handles, and numbers of the struct.
#[tactic(auto, unfolding(crate::specs::Requests::field_words))]
fn write_fields<W: Write>(out: &mut W, request: &Request<'_>) -> io::Result<()>
    ensures { OnOk result (Appends (W.contents out.old) (W.contents out.new)
        (field_words request.now.head.opcode (request_message request.now))) }
{
    let opcode = request.head.opcode;
    write_number_if(out, node_word_of(opcode), request.node)?;
    write_handle(out, request.handle)?;
    write_struct(out, opcode, request.fixed)
}

/// Writes the names, and what stands behind them.
#[tactic(auto, unfolding(crate::specs::Requests::part_words))]
fn write_parts<W: Write>(out: &mut W, request: &Request<'_>) -> io::Result<()>
    ensures { OnOk result (Appends (W.contents out.old) (W.contents out.new)
        (part_words request.now.head.opcode (request_message request.now))) }
{
    let opcode = request.head.opcode;
    write_names(out, opcode, request.names)?;
    write_tail(out, row_of(opcode).tail, request.tail)
}

/// Writes `OPNAME UNIQUE NODE LEN` of a request in a frame of so many bytes, and then what it says, each word after a
/// space: the further node, file handles, numbers of the struct, names, and data or pairs.
///
/// # Errors
///
/// Where `out` refuses.
pub(crate) fn write_request<W: Write>(
    out: &mut W,
    request: &Request<'_>,
    len: usize,
) -> io::Result<()>
    ensures { OnOk result (Appends (W.contents out.old) (W.contents out.new)
        (request_words request.now.head.opcode (request_message request.now) len)) }
{
    write_head(out, request.head, len)?;
    write_fields(out, request)?;
    write_parts(out, request)
}

/// Writes what INIT offers, each word after a space: ` major MAJOR minor MINOR`, and the flags in hex and by name.
///
/// # Errors
///
/// Where `out` refuses.
#[tactic(auto, unfolding(crate::specs::Requests::init_request_words))]
pub(crate) fn write_init_request<W: Write>(out: &mut W, init: InitRequest) -> io::Result<()>
    ensures { OnOk result (Appends (W.contents out.old) (W.contents out.new) (init_request_words init)) }
{
    write_number(out, "major", u64::from(init.major))?;
    write_number(out, "minor", u64::from(init.minor))?;
    write_init_flags(out, init.flags)
}
