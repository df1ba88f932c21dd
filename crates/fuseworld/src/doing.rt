//! What is done with one input and one output, once they are open.

ghost use Rattle.std.specs.Prelude.{Contains};
ghost use Rattle.fuseworld.specs.Doing.{Does};
ghost use Rattle.fuseworld.specs.Statuses.{input_statuses};

use fw_any::{print_all_vectors, run_any_frame, run_any_reply};
use fw_draw::draw_script;
use fw_frames::{run_frame, run_reply};
use fw_script::run_script;
use fw_vectors::print_vectors;
use std::alloc::Allocator;
use std::io::{Read, Write};

/// A task on at most one input, which is named as the command line has it.
#[derive(Clone, Copy)]
pub enum InputTask<'a> {
    /// Run a script, and print what each event comes to, with `hex` also each frame.
    Script {
        name: &'a str,
        hex: bool,
    },
    /// Run a script, and print the run as a picture.
    Picture {
        name: &'a str,
    },
    /// Read one request frame from its hex, and print it, with `words` also its fields.
    Frame {
        hex: &'a str,
        words: bool,
    },
    /// Read one request frame of any opcode from its hex, and print it in words.
    AnyFrame {
        hex: &'a str,
    },
    /// Read one reply frame to a request of the opcode that has a name.
    Reply {
        name: &'a str,
        hex: &'a str,
    },
    /// The same of any opcode, where so many bytes were asked for.
    AnyReply {
        name: &'a str,
        asked: u32,
        hex: &'a str,
    },
    /// Print frames of each kind with the codec's verdicts.
    Vectors,
    /// And then of every opcode, with whether each has the shape of its row.
    AllVectors,
}

/// Does a task, and gives the exit status: 0; 1 where the input is not read or is bad, 2 where no opcode has the name, 3
/// where memory runs out, each said on `faults`; or 5 where `out` refuses. The input of a frame and of the vectors is
/// not read.
pub fn do_task<A: Allocator + Copy, R: Read, W: Write, F: Write>(
    alloc: A,
    task: InputTask<'_>,
    input: &mut R,
    out: &mut W,
    faults: &mut F,
) -> u8
    ensures statuses { Contains (input_statuses task.entry) result }
    ensures does { Does A W.contents F.contents task.entry (R.remaining input.old) out.old out.new faults.old faults.new
        result }
{
    match task {
        InputTask::Script { name, hex } => run_script(alloc, name, hex, input, out, faults),
        InputTask::Picture { name } => draw_script(alloc, name, input, out, faults),
        InputTask::Frame { hex, words } => run_frame(alloc, hex, words, out, faults),
        InputTask::AnyFrame { hex } => run_any_frame(alloc, hex, out, faults),
        InputTask::AnyReply { name, asked, hex } => {
            run_any_reply(alloc, name, asked, hex, out, faults)
        }
        InputTask::Reply { name, hex } => run_reply(alloc, name, hex, out, faults),
        InputTask::Vectors => print_vectors(alloc, out, faults),
        InputTask::AllVectors => print_all_vectors(alloc, out, faults),
    }
}
