//! The blocks of the files in a reply.

ghost use Rattle.std.specs.Prelude.{◌≡◌, ◌≤◌, ◌+◌, ◌^◌, true, length};
ghost use Rattle.fk_wire.specs.Fields.{bytes_of};
ghost use Rattle.fk_wire.specs.RecordEnds.{record_end};
ghost use Rattle.fk_wire.specs.Replies.{ReplyMessage, SpellsReply};
ghost use Rattle.fs_serve.specs.Blocks.{blocks_for, with_blocks, with_blocks_at, with_blocks_from};

use arrayvec::ArrayVec;
use byteorder::{ByteOrder, LittleEndian};
use fk_fields::{u32_at, u64_at};
use fk_wire::{MAX_FRAME, Opcode};

/// The bytes in front of the pairs of a reply to READDIRPLUS.
const HEAD: usize = 16;

/// The bytes of an entry, and those of a pair with no name.
const ENTRY: usize = 128;

const PAIR: usize = 152;

/// How many blocks of 512 bytes hold so many bytes.
fn blocks_for(size: u64) -> u64
    ensures { result ≡ blocks_for size }
{
    size / 512 + (size % 512 + 511) / 512
}

/// A number as a field of a frame.
#[tactic(auto, unfolding(fk_fields::specs::Fields::bytes_of))]
fn field_of(number: u64) -> [u8; 8]
    ensures { result ≡ bytes_of 8 number }
{
    let mut field = [0; 8];
    LittleEndian::write_u64(&mut field, number);
    field
}

/// Fills the blocks of the attributes at a place.
#[tactic(auto, unfolding(crate::specs::Blocks::with_blocks_at))]
fn fill_at(frame: &mut [u8], place: usize)
    requires { place + 24 ≤ length frame.old }
    ensures filled { frame.new ≡ with_blocks_at place frame.old }
    ensures long { length frame.new ≡ length frame.old }
{
    let blocks = field_of(blocks_for(u64_at(frame, place + 8)));
    frame[place + 16..place + 24].copy_from_slice(&blocks);
}

/// Where the pair ends that begins at a place.
#[tactic(auto, unfolding(fk_wire::specs::RecordEnds::record_end))]
fn pair_end(frame: &[u8], place: usize) -> usize
    requires { place + 152 ≤ length frame.now }
    ensures end { result ≡ record_end true place frame.now }
    ensures near { result ≤ place + 2 ^ 33 }
{
    let name = u32_at(frame, place + ENTRY + 16) as usize;
    place + PAIR + name + (8 - name % 8) % 8
}

/// Fills the blocks of each pair.
fn fill_pairs(frame: &mut [u8])
    ensures filled { frame.new ≡ with_blocks_from (length frame.old) 16 frame.old }
    ensures long { length frame.new ≡ length frame.old }
{
    let mut place = HEAD;
    for _pair in 0..frame.len() {
        if frame.len() < place + PAIR {
            return;
        }
        let end = pair_end(frame, place);
        fill_at(frame, place + 40);
        place = end;
    }
}

/// Fills the blocks of each file in a reply to a request of this opcode.
fn fill(opcode: Opcode, frame: &mut [u8])
    requires { (m : ReplyMessage) × SpellsReply opcode frame.old m }
    ensures filled { (m : ReplyMessage) → SpellsReply opcode frame.old m → frame.new ≡ with_blocks m.content frame.old }
    ensures long { length frame.new ≡ length frame.old }
{
    if u32_at(frame, 4) != 0 {
        return;
    }
    match opcode {
        Opcode::Lookup | Opcode::Mkdir | Opcode::Link | Opcode::Create => fill_at(frame, 56),
        Opcode::Getattr => fill_at(frame, 32),
        Opcode::Readdirplus => fill_pairs(frame),
        _ => {}
    }
}

/// A reply to a request of this opcode, with the blocks of each file.
pub(crate) fn filled(opcode: Opcode, frame: &[u8]) -> ArrayVec<u8, MAX_FRAME>
    requires { (m : ReplyMessage) × SpellsReply opcode frame.now m }
    ensures { (m : ReplyMessage) → SpellsReply opcode frame.now m
        → result.items ≡ with_blocks m.content frame.now }
{
    let mut reply = ArrayVec::new();
    reply.try_extend_from_slice(frame).unwrap();
    fill(opcode, reply.as_mut_slice());
    reply
}
