//! A side by itself, given one line after another.

ghost use Rattle.std.specs.Prelude.{◌≡◌, ℕ, List, IfOk, MatchBool, OnOk};
ghost use Rattle.fw_sides.specs.Lines.{DoLines};

use crate::form::Form;
use crate::input::End;
use fuse_text::{OutputRefused, next_line_if_any};
use std::alloc::Allocator;
use std::io::{BufRead, Write};

/// A kernel or a server.
pub(crate) trait Side {
    type Heap: Allocator + Copy;

    /// What contracts see of it.
    type State;

    ghost state: { Self → Self.State };

    /// What a line makes of it.
    ghost does: { Self.State → List ℕ → Self.State → Type 0 };

    /// Does what a line says, if it says anything, and prints what it came to. `bytes` is room for what stands in hex.
    fn do_line<W: Write>(
        &mut self,
        alloc: Self::Heap,
        bytes: &mut Vec<u8, Self::Heap>,
        line: &[u8],
        form: Form,
        out: &mut W,
    ) -> Result<(), OutputRefused>
        ensures { OnOk result (does (state self.old) line.now (state self.new)) };
}

/// Room that one line after another uses: the line, and the bytes that its hex spells.
#[derive(Drop)]
struct Room<A: Allocator> {
    line: Vec<u8, A>,
    bytes: Vec<u8, A>,
}

/// Reads the next line, does what it says, and hands on what was printed. Says whether there was one.
fn do_next<S: Side, R: BufRead, W: Write>(
    side: &mut S,
    alloc: S::Heap,
    room: &mut Room<S::Heap>,
    form: Form,
    input: &mut R,
    out: &mut W,
) -> Result<bool, End>
    ensures { IfOk result (λ is_line. MatchBool is_line
        ((text : List ℕ) × S.does (S.state side.old) text (S.state side.new)) (side.new ≡ side.old)) }
{
    if !next_line_if_any(input, &mut room.line)? {
        return Ok(false);
    }
    let done = side.do_line(alloc, &mut room.bytes, room.line.as_slice(), form, out);
    match done {
        Ok(()) => match out.flush() {
            Ok(()) => Ok(true),
            Err(_) => Err(End::OutputRefused),
        },
        Err(_) => Err(End::OutputRefused),
    }
}

/// Does what the next lines say, until the input ends.
pub(crate) fn do_lines<S: Side, R: BufRead, W: Write>(
    side: &mut S,
    alloc: S::Heap,
    form: Form,
    input: &mut R,
    out: &mut W,
) -> Result<(), End>
    ensures { OnOk result ((lines : List (List ℕ)) × DoLines S.does (S.state side.old) lines (S.state side.new)) }
{
    let mut room = Room {
        line: Vec::new(alloc),
        bytes: Vec::new(alloc),
    };
    for _line in 0..u64::MAX {
        match do_next(side, alloc, &mut room, form, input, out) {
            Ok(true) => {}
            Ok(false) => return Ok(()),
            Err(end) => return Err(end),
        }
    }
    Ok(())
}
