//! The commands on frames: `frame`, `reply`, `decode`, `check` and `vectors`.

ghost use Rattle.std.specs.Prelude.{◌≡◌, ◌∷◌, [], Contains};
ghost use Rattle.fuseworld.specs.Statuses.{frame_statuses, input_statuses};

use crate::capture::{CaptureTask, run_capture};
use crate::check_task::run_check_task;
use crate::doing::{InputTask, do_task};
use crate::output::standard_output;
use fw_tasks::FrameTask;
use std::io::{BufWriter, Write};

/// Prints the codec's vectors or all, and gives the exit status.
fn run_vectors(rt: &HostRuntime, task: InputTask<'_>) -> u8
    requires { input_statuses task ≡ 0 ∷ 3 ∷ 5 ∷ [] }
    ensures { Contains (0 ∷ 3 ∷ 5 ∷ []) result }
{
    let mut faults = rt.stderr();
    let Ok(mut out) = BufWriter::new(rt.alloc(), standard_output(rt)) else {
        let _ = writeln!(faults, "no memory");
        return 3;
    };
    do_task(rt.alloc(), task, &mut rt.reader(), &mut out, &mut faults)
}

/// Reads one frame, and gives the exit status.
fn run_one(rt: &HostRuntime, task: InputTask<'_>) -> u8
    ensures { Contains (input_statuses task.entry) result }
{
    do_task(
        rt.alloc(),
        task,
        &mut rt.reader(),
        &mut standard_output(rt),
        &mut rt.stderr(),
    )
}

/// Runs a command on frames, and gives the exit status.
pub fn run_frame_task(rt: &HostRuntime, task: FrameTask<'_>) -> u8
    ensures { Contains (frame_statuses task.entry) result }
{
    match task {
        FrameTask::Frame { hex, words } => run_one(rt, InputTask::Frame { hex, words }),
        FrameTask::AnyFrame { hex } => run_one(rt, InputTask::AnyFrame { hex }),
        FrameTask::Reply { name, hex } => run_one(rt, InputTask::Reply { name, hex }),
        FrameTask::AnyReply { name, asked, hex } => {
            run_one(rt, InputTask::AnyReply { name, asked, hex })
        }
        FrameTask::Decode { file } => run_capture(rt, CaptureTask::Decode, file),
        FrameTask::Check(task) => run_check_task(rt, task),
        FrameTask::Vectors => run_vectors(rt, InputTask::Vectors),
        FrameTask::AllVectors => run_vectors(rt, InputTask::AllVectors),
    }
}
