//! The lookups that replies give, counted from their frames alone.

use fk_wire::{Opcode, Reply, ReplyBody, read_reply};
use std::alloc::{AllocError, Global};

/// The opcodes of the session, in turn: the reply under unique 2 is to the first.
const OPCODES: [Opcode; 7] = [
    Opcode::Init,
    Opcode::Mkdir,
    Opcode::Lookup,
    Opcode::Create,
    Opcode::Getattr,
    Opcode::Readdirplus,
    Opcode::Lookup,
];

/// The opcode of the request of the session under a unique.
fn opcode_of(unique: u64) -> Option<Opcode> {
    OPCODES.get((unique / 2).checked_sub(1)? as usize).copied()
}

/// The number in four or eight bytes, the lowest first.
fn number(bytes: &[u8]) -> u64 {
    let mut value = 0u64;
    for byte in bytes.iter().rev() {
        value = value.wrapping_mul(256) | u64::from(*byte);
    }
    value
}

/// What the replies of a run say.
#[derive(Drop)]
pub struct Told {
    /// The error number and the unique of each reply.
    pub errors: Vec<(i32, u64)>,
    /// The node of each entry that was given.
    pub nodes: Vec<u64>,
}

impl Told {
    /// Nothing yet.
    fn new(alloc: Global) -> Told {
        Told {
            errors: Vec::new(alloc),
            nodes: Vec::new(alloc),
        }
    }

    fn note_body(&mut self, body: &ReplyBody<'_>) -> Result<(), AllocError> {
        match body {
            ReplyBody::Entry { entry } | ReplyBody::Create { entry, .. } if entry.nodeid != 0 => {
                self.nodes.push(entry.nodeid)?;
            }
            ReplyBody::RecordsPlus { records } => {
                for pair in *records {
                    self.nodes.push(pair.entry_out.nodeid)?;
                }
            }
            _ => {}
        }
        Ok(())
    }

    fn note(&mut self, reply: &Reply<'_>) -> Result<(), AllocError> {
        self.errors.push((reply.error, reply.unique))?;
        self.note_body(&reply.body)
    }

    /// How often a node was given.
    pub fn count(&self, nodeid: u64) -> u64 {
        self.nodes.iter().filter(|told| **told == nodeid).count() as u64
    }
}

/// The first of replies of the session that stand one after another, and those behind it; `None` where it is none.
fn first_reply(sent: &[u8]) -> Option<(Reply<'_>, &[u8])> {
    if sent.len() < 16 {
        return None;
    }
    let len = number(&sent[..4]) as usize;
    let opcode = opcode_of(number(&sent[8..16]))?;
    if len > sent.len() {
        return None;
    }
    match read_reply(opcode, &sent[..len]) {
        Ok(reply) => Some((reply, &sent[len..])),
        Err(_) => None,
    }
}

/// Reads the replies of the session that stand one after another; `None` where one is none.
pub fn told_by(alloc: Global, sent: &[u8]) -> Result<Option<Told>, AllocError> {
    let mut told = Told::new(alloc);
    let mut rest = sent;
    for _reply in 0..100 {
        if rest.is_empty() {
            return Ok(Some(told));
        }
        let Some((reply, behind)) = first_reply(rest) else {
            return Ok(None);
        };
        told.note(&reply)?;
        rest = behind;
    }
    Ok(None)
}
