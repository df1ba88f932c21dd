//! What an act is about.

ghost use Rattle.std.specs.Prelude.{◌≡◌, ◌++◌, OnOk, codes, decimal};
ghost use Rattle.fuse_protocol.specs.Table.{name_of};
ghost use Rattle.fuse_sessions.specs.declared.act.Act.TheVariants.{Read};
ghost use Rattle.fw_check.specs.FaultWords.{act_words, said};

use crate::text::{put, put_counted, put_said};
use fuse_protocol::Opcode;
use fuse_sessions::{Act, OpenFile};
use std::alloc::{AllocError, Allocator};

/// The name of a request.
fn put_name<A: Allocator>(text: &mut Vec<u8, A>, opcode: Opcode) -> Result<(), AllocError>
    ensures { OnOk result (text.new.items ≡ text.old.items ++ (codes ": " ++ name_of opcode)) }
{
    put(text, b": ")?;
    put(text, opcode.name().as_bytes())
}

/// The name of a request, if it is known, and its number.
fn put_read<A: Allocator>(
    text: &mut Vec<u8, A>,
    opcode: Option<Opcode>,
    unique: u64,
) -> Result<(), AllocError>
    ensures { OnOk result (text.new.items ≡ text.old.items ++ act_words (Read opcode unique)) }
{
    let Some(opcode) = opcode else {
        return put_one(text, b"unique", unique);
    };
    put(text, b": ")?;
    put_counted(text, opcode.name().as_bytes(), unique)
}

/// A request's number, and the one under which it was read before.
fn put_resent<A: Allocator>(
    text: &mut Vec<u8, A>,
    unique: u64,
    original: u64,
) -> Result<(), AllocError>
    ensures { OnOk result (text.new.items
        ≡ text.old.items ++ (codes ":" ++ said (codes "unique") unique ++ said (codes "of") original)) }
{
    put_one(text, b"unique", unique)?;
    put_said(text, b"of", original)
}

/// A word and a number.
fn put_one<A: Allocator>(text: &mut Vec<u8, A>, word: &[u8], number: u64) -> Result<(), AllocError>
    ensures { OnOk result (text.new.items ≡ text.old.items ++ (codes ":" ++ said word.now number)) }
{
    put(text, b":")?;
    put_said(text, word, number)
}

/// An INTERRUPT's number, and that of the request which it interrupts.
fn put_interrupt<A: Allocator>(
    text: &mut Vec<u8, A>,
    unique: u64,
    original: u64,
) -> Result<(), AllocError>
    ensures { OnOk result (text.new.items
        ≡ text.old.items ++ (codes ": INTERRUPT " ++ decimal unique ++ said (codes "of") original)) }
{
    put_counted(text, b": INTERRUPT", unique)?;
    put_said(text, b"of", original)
}

/// A node, and a word and a number.
fn put_node_and<A: Allocator>(
    text: &mut Vec<u8, A>,
    node: u64,
    word: &[u8],
    number: u64,
) -> Result<(), AllocError>
    ensures { OnOk result (text.new.items
        ≡ text.old.items ++ (codes ":" ++ said (codes "node") node ++ said word.now number)) }
{
    put_one(text, b"node", node)?;
    put_said(text, word, number)
}

/// An open file: its node and its file handle.
fn put_file<A: Allocator>(text: &mut Vec<u8, A>, file: OpenFile) -> Result<(), AllocError>
    ensures { OnOk result (text.new.items
        ≡ text.old.items ++ (codes ":" ++ said (codes "node") file.nodeid ++ said (codes "file handle") file.fh)) }
{
    put_node_and(text, file.nodeid, b"file handle", file.fh)
}

/// A node that is given, its generation and its inode number.
fn put_gift<A: Allocator>(
    text: &mut Vec<u8, A>,
    node: u64,
    generation: u64,
    ino: u64,
) -> Result<(), AllocError>
    ensures { OnOk result (text.new.items ≡ text.old.items
        ++ (codes ":" ++ said (codes "node") node ++ said (codes "generation") generation ++ said (codes "inode") ino)) }
{
    put_node_and(text, node, b"generation", generation)?;
    put_said(text, b"inode", ino)
}

/// What an act is about, behind the rule that it breaks.
pub(crate) fn put_act<A: Allocator>(text: &mut Vec<u8, A>, act: Act) -> Result<(), AllocError>
    ensures { OnOk result (text.new.items ≡ text.old.items ++ act_words act) }
{
    match act {
        Act::Begins(opcode) => put_name(text, opcode),
        Act::Read { opcode, unique } => put_read(text, opcode, unique),
        Act::Resent { unique, original } => put_resent(text, unique, original),
        Act::Interrupts { unique, original } => put_interrupt(text, unique, original),
        Act::Names(node) => put_one(text, b"node", node),
        Act::Forgets(node, lookups) => put_node_and(text, node, b"lookups", lookups),
        Act::Uses(file) | Act::Releases(file) | Act::Opens(file) => put_file(text, file),
        Act::Writes(size) => put_one(text, b"bytes", size),
        Act::Takes { unique, .. } | Act::Replies { unique, .. } | Act::Interrupted(unique) => {
            put_one(text, b"unique", unique)
        }
        Act::RepliesToInterrupt { original, .. } => put_one(text, b"INTERRUPT of", original),
        Act::Gives { nodeid, file, .. } => put_gift(text, nodeid, file.generation, file.ino),
        Act::Describes { nodeid, ino, .. } => put_node_and(text, nodeid, b"inode", ino),
        Act::Missing { nodeid, errno } => put_node_and(text, nodeid, b"error", u64::from(errno)),
        _ => Ok(()),
    }
}
